// Judges lists of properties over any source, field by field, and indexes them.
#![tactic(auto)]

mod fields;
mod indexing;
mod kinds;
mod lists;
mod names;
mod repeats;
mod values;
mod writing;

pub use fields::padded;
pub use indexing::{Listed, list_index_is_lawful, rows};
pub use kinds::{Kind, Shape, kinds_are_lawful, shape_of};
pub use lists::{
    LIST_LIMIT, ROW_LIMIT, list_end, one_property, property_list, read_property, recipient_table,
};
pub use names::{FIRST_NAMED, one_key};
pub use writing::written_is_read_back;
