// The attributes that a stream can have: their ids, levels and rules.
#![tactic(auto)]

ghost use Rattle.std.specs.Prelude.{◌≡◌, ◌==◌, find as first_such};
ghost use Rattle.attribute.specs.Table.{attributes, attribute_of, Sound};

mod names;
mod table;

pub use names::name_of;
use table::ATTRIBUTES;
pub use table::{
    ATT_ATTACHMENT_PROPERTIES, ATT_CODE_PAGE, ATT_MESSAGE_PROPERTIES, ATT_RECIPIENTS,
    ATT_RENDERING, ATT_VERSION,
};

// What an attribute's data are, and how they are read.
#[derive(Clone, Copy, PartialEq, Eq, Debug)]
pub enum Rule {
    Text,
    Class,
    Date,
    Digits,
    Status,
    Priority,
    YesNo,
    Raw,
    Rendering,
    Version,
    CodePage,
    Recipients,
    Properties,
}

#[derive(Clone, Copy)]
pub struct Attribute {
    pub id: u32,
    // The byte of a frame's head: 1 or 2 in the table. A type of the two would take less than callers may pass.
    pub level: u8,
    pub rule: Rule,
}

// The first attribute of `table` that has the id.
fn find_in(table: &[Attribute], id: u32) -> Option<Attribute>
    ensures { result ≡ first_such (λ a. a.id == id) table.now }
{
    table.iter().copied().find(|attribute| attribute.id == id)
}

#[tactic(auto, unfolding(crate::specs::Table::attribute_of))]
// The attribute that has the id, if any has.
pub fn attribute_of(id: u32) -> Option<Attribute>
    ensures { result ≡ attribute_of id }
{
    find_in(&ATTRIBUTES, id)
}

#[tactic(auto, using(crate::proofs::Tables::sound))]
// Every attribute: those of a message by rising id, those of an attachment by rising id, those with a part of their own.
pub fn all_attributes() -> &'static [Attribute]
    ensures value { result.now ≡ attributes }
    ensures sound { Sound }
{
    &ATTRIBUTES
}
