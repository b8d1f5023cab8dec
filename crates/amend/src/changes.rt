// What is changed while a form is written anew; what is put stands in a source of its own, the input.
use attribute::Attribute;
use index::{PropertyKey, PropertyRow};

// To the attributes of a target; beside `Listing`, since what is put and what is dropped differ in both.
#[derive(Clone, Copy)]
pub enum Slot {
    Kept,
    // The data are all of the input.
    Put(Attribute),
    Dropped(u32),
}

// To the properties of a target.
#[derive(Clone, Copy)]
pub enum Listing {
    Same,
    // A property that was read in the input.
    With(PropertyRow),
    Less(PropertyKey),
}

// To a target.
#[derive(Clone, Copy)]
pub struct Touch {
    pub slot: Slot,
    pub listing: Listing,
}

// To the rows or the attachments of a message.
#[derive(Clone, Copy)]
pub enum Change<T> {
    Kept,
    // A row without properties, or an attachment whose rendering is all of the input.
    Added,
    Removed(usize),
    Changed(usize, T),
}

#[derive(Clone, Copy)]
pub struct Amendment {
    // Whether the input is a new code page.
    pub page: bool,
    pub own: Touch,
    pub rows: Change<Listing>,
    pub attachments: Change<Touch>,
}
