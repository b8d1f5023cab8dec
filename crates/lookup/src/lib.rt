// Finding things in a stream that is known to be readable.
// That it is readable stays a `requires`: a struct with the lent source would have to show it again behind each read.
#![tactic(auto)]

mod attributes;
mod counts;
mod lists;
mod names;
mod targets;
mod values;

pub use attributes::{attribute_row, primary};
pub use counts::{count_attachments, count_rows, has_target};
pub use lists::{find_key, properties};
pub use names::{Usage, attribute_for};
pub use values::{Span, value_at};

// A count or a size stands before what it counts.
const COUNT_SIZE: usize = 4;
