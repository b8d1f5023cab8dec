// Attachments, one after another.
ghost use Rattle.std.specs.Prelude.{◌≡◌, ◌^◌, ◌<◌, ◌≤◌, length};
ghost use Rattle.std.specs.List.{AllByRecursion};
ghost use Rattle.source.specs.Content.{meaning};
ghost use Rattle.attribute.specs.Table.{attachment_attributes};
ghost use Rattle.pen.specs.Pen.{Wrote};
ghost use Rattle.property.specs.Lists.{list_limit};
ghost use Rattle.form.specs.Targets.{Standing, Readable, remaining};
ghost use Rattle.form.specs.Holdings.{attachment_bytes};
ghost use Rattle.form.specs.Wholes.{Rendered, Next, all_attached};

use crate::attributes::{write_attribute, write_attributes};
use crate::lists::write_properties;
use crate::messages::MESSAGE_END;
use crate::targets::gather;
use attribute::{ATT_ATTACHMENT_PROPERTIES, ATT_RENDERING, Attribute, Rule, all_attributes};
use frame::Cursor;
use index::{AttributeRow, PropertyRow};
use pen::Pen;
use source::Source;

pub const RENDERING: Attribute = Attribute {
    id: ATT_RENDERING,
    level: 2,
    rule: Rule::Rendering,
};

pub const ATTACHMENT_PROPERTIES: Attribute = Attribute {
    id: ATT_ATTACHMENT_PROPERTIES,
    level: 2,
    rule: Rule::Properties,
};

// Those of an attachment stand in the table behind those of a message.
const ATTACHMENT_END: usize = 24;

pub fn attachment_table() -> &'static [Attribute]
    ensures { result.now ≡ attachment_attributes }
{
    &all_attributes()[MESSAGE_END..ATTACHMENT_END]
}

// An attachment's rendering, attributes and properties.
pub fn write_attachment<S: Source>(
    source: &mut S,
    rows: &[AttributeRow],
    lent: &mut [PropertyRow],
    pen: &mut Pen<'_>,
)
    requires fits { length pen.old.out.now < 2 ^ 32 }
    requires room { list_limit ≤ length lent.old }
    requires sound { AllByRecursion (Standing (meaning (S.Source.content source.old))) rows.now }
    ensures same { S.Source.content source.new ≡ S.Source.content source.old }
    ensures value { Wrote pen.old
        (attachment_bytes (meaning (S.Source.content source.old)) rows.now) pen.new }
{
    write_attribute(source, rows, RENDERING, pen);
    write_attributes(source, rows, attachment_table(), pen);
    write_properties(source, rows, ATTACHMENT_PROPERTIES, lent, pen);
}

// The attachment that begins at a place; then the place is that of the next.
pub fn write_next<S: Source>(
    source: &mut S,
    at: &mut Cursor,
    lent: &mut [PropertyRow],
    pen: &mut Pen<'_>,
)
    requires fits { length pen.old.out.now < 2 ^ 32 }
    requires room { list_limit ≤ length lent.old }
    requires good { Readable (meaning (S.Source.content source.old)) at.old.place at.old.stage }
    requires rendered { Rendered (remaining (meaning (S.Source.content source.old)) at.old.place at.old.stage) }
    requires more { at.old.place < length (meaning (S.Source.content source.old)) }
    ensures same { S.Source.content source.new ≡ S.Source.content source.old }
    ensures value { Next (meaning (S.Source.content source.old)) at.old.place at.old.stage pen.old at.new.place at.new.stage pen.new }
{
    let rows = gather(source, at);
    write_attachment(source, rows.as_slice(), lent, pen);
}

// The attachments from a place on.
pub fn write_attachments<S: Source>(
    source: &mut S,
    start: Cursor,
    lent: &mut [PropertyRow],
    pen: &mut Pen<'_>,
)
    requires fits { length pen.old.out.now < 2 ^ 32 }
    requires room { list_limit ≤ length lent.old }
    requires good { Readable (meaning (S.Source.content source.old)) start.place start.stage }
    requires rendered { Rendered (remaining (meaning (S.Source.content source.old)) start.place start.stage) }
    ensures same { S.Source.content source.new ≡ S.Source.content source.old }
    ensures value { Wrote pen.old (all_attached (remaining (meaning (S.Source.content source.old)) start.place start.stage)) pen.new }
{
    let total = source.len();
    let mut at = start;
    while at.place < total {
        write_next(source, &mut at, lent, pen);
    }
}
