// Writing the form of a message anew with one part of it changed, beside the writers of `form`, which take no input and
// promise nothing of changes. What the parts require stays in clauses, as in `form`: each is of the source, lent anew.
#![tactic(auto)]

mod attachings;
mod attachments;
mod attributes;
mod changes;
mod cuts;
mod lists;
mod messages;
mod pages;
mod tables;
mod touches;
mod wholes;

pub use changes::{Amendment, Change, Listing, Slot, Touch};
pub use lists::write_changed_properties;
pub use tables::write_changed_recipients;
pub use wholes::amend;
