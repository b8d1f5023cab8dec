// A message's own frames.
ghost use Rattle.std.specs.Prelude.{◌≡◌, ◌^◌, ◌<◌, ◌≤◌, length};
ghost use Rattle.std.specs.List.{AllByRecursion};
ghost use Rattle.source.specs.Content.{meaning};
ghost use Rattle.attribute.specs.Table.{message_attributes};
ghost use Rattle.pen.specs.Pen.{Wrote};
ghost use Rattle.property.specs.Lists.{list_limit};
ghost use Rattle.form.specs.Targets.{Standing};
ghost use Rattle.form.specs.Holdings.{message_bytes};

use crate::attributes::write_attributes;
use crate::lists::{write_properties, write_recipients};
use attribute::{ATT_MESSAGE_PROPERTIES, Attribute, Rule, all_attributes};
use index::{AttributeRow, PropertyRow};
use pen::Pen;
use source::Source;

pub const MESSAGE_PROPERTIES: Attribute = Attribute {
    id: ATT_MESSAGE_PROPERTIES,
    level: 1,
    rule: Rule::Properties,
};

// Those of a message stand first in the table.
pub(crate) const MESSAGE_END: usize = 18;

pub fn message_table() -> &'static [Attribute]
    ensures { result.now ≡ message_attributes }
{
    &all_attributes()[0..MESSAGE_END]
}

// The message's attributes, recipients and properties.
pub fn write_message<S: Source>(
    source: &mut S,
    rows: &[AttributeRow],
    lent: &mut [PropertyRow],
    pen: &mut Pen<'_>,
)
    requires fits { length pen.old.out.now < 2 ^ 32 }
    requires room { list_limit ≤ length lent.old }
    requires sound { AllByRecursion (Standing (meaning (S.Source.content source.old))) rows.now }
    ensures same { S.Source.content source.new ≡ S.Source.content source.old }
    ensures value { Wrote pen.old
        (message_bytes (meaning (S.Source.content source.old)) rows.now) pen.new }
{
    write_attributes(source, rows, message_table(), pen);
    write_recipients(source, rows, lent, pen);
    write_properties(source, rows, MESSAGE_PROPERTIES, lent, pen);
}
