// Writes property lists and tables in their normal form.
#![tactic(auto)]

mod fields;
mod keys;
mod lists;
mod rows;
mod values;

pub use fields::number_at;
pub use lists::{write_list, write_table};
pub use property::FIRST_NAMED;
pub use rows::write_rows_from;
