// The attributes of a target, written by rising id.
ghost use Rattle.std.specs.Prelude.{◌≡◌, ◌^◌, ◌<◌, true, length, Ok};
ghost use Rattle.std.specs.List.{flat_map, AllByRecursion};
ghost use Rattle.source.specs.Bytes.{part};
ghost use Rattle.source.specs.Content.{meaning};
ghost use Rattle.scan.specs.Scans.{asked};
ghost use Rattle.pen.specs.Pen.{Wrote};
ghost use Rattle.contents.specs.Contents.{admits, normal_data};
ghost use Rattle.stream.specs.Writing.{write_entry, attribute_entries};
ghost use Rattle.form.specs.Framing.{framed};
ghost use Rattle.form.specs.Targets.{Standing};
ghost use Rattle.form.specs.Holdings.{Plain, contents_in, attribute_bytes};

use crate::framing::{pen_close, pen_open};
use crate::row_under;
use attribute::Attribute;
use contents::write_normal;
use index::AttributeRow;
use pen::Pen;
use source::Source;

// A frame of an attribute with the normal data of a row.
pub fn write_row<S: Source>(
    source: &mut S,
    attribute: Attribute,
    row: AttributeRow,
    pen: &mut Pen<'_>,
)
    requires fits { length pen.old.out.now < 2 ^ 32 }
    requires good { asked (admits attribute.rule) (meaning (S.Source.content source.old)) row.place row.size ≡ Ok true }
    ensures same { S.Source.content source.new ≡ S.Source.content source.old }
    ensures value { Wrote pen.old
        (framed attribute.level attribute.id (normal_data attribute.rule (part (meaning (S.Source.content source.old)) row.place row.size)))
        pen.new }
{
    let start = pen_open(pen);
    write_normal(source, attribute.rule, row.place, row.size, pen);
    pen_close(pen, start, attribute.level, attribute.id);
}

// The frame of one attribute, where there is a row under its id.
pub fn write_attribute<S: Source>(
    source: &mut S,
    rows: &[AttributeRow],
    attribute: Attribute,
    pen: &mut Pen<'_>,
)
    requires fits { length pen.old.out.now < 2 ^ 32 }
    requires sound { AllByRecursion (Standing (meaning (S.Source.content source.old))) rows.now }
    requires simple { Plain attribute }
    ensures same { S.Source.content source.new ≡ S.Source.content source.old }
    ensures value { Wrote pen.old
        (attribute_bytes (meaning (S.Source.content source.old)) rows.now attribute)
        pen.new }
{
    if let Some(row) = row_under(rows, attribute.id) {
        write_row(source, attribute, row, pen);
    }
}

// The frames of a table's attributes, in the table's order.
pub fn write_attributes<S: Source>(
    source: &mut S,
    rows: &[AttributeRow],
    table: &[Attribute],
    pen: &mut Pen<'_>,
)
    requires fits { length pen.old.out.now < 2 ^ 32 }
    requires sound { AllByRecursion (Standing (meaning (S.Source.content source.old))) rows.now }
    requires simple { AllByRecursion Plain table.now }
    ensures same { S.Source.content source.new ≡ S.Source.content source.old }
    ensures value { Wrote pen.old
        (flat_map write_entry (attribute_entries table.now (contents_in (meaning (S.Source.content source.old)) rows.now)))
        pen.new }
{
    for attribute in table {
        write_attribute(source, rows, *attribute, pen);
    }
}
