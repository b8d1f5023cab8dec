// The frames of lists of properties and of the table of recipients; an empty one has none.
ghost use Rattle.std.specs.Prelude.{◌≡◌, ◌+◌, ◌^◌, ◌<◌, ◌≤◌, length, ◌==◌};
ghost use Rattle.std.specs.List.{AllByRecursion};
ghost use Rattle.source.specs.Bytes.{part, val};
ghost use Rattle.source.specs.Content.{meaning};
ghost use Rattle.pen.specs.Pen.{Wrote};
ghost use Rattle.property.specs.Lists.{list_limit};
ghost use Rattle.stream.specs.Reading.{properties};
ghost use Rattle.form.specs.Targets.{Standing};
ghost use Rattle.form.specs.Holdings.{Natured, list_bytes, table_bytes};

use crate::framing::{pen_close, pen_open};
use crate::row_under;
use attribute::{ATT_RECIPIENTS, Attribute};
use index::{AttributeRow, PropertyRow};
use listform::{write_list, write_table};
use pen::Pen;
use scan::Number;
use source::Source;

// Whether the count at `place` is 0.
#[tactic(auto, unfolding(scan::specs::Scans::asked))]
fn is_empty<S: Source>(source: &mut S, place: usize) -> bool
    ensures same { S.Source.content source.new ≡ S.Source.content source.old }
    ensures value { place + 4 ≤ length (meaning (S.Source.content source.old))
        → result ≡ (val (part (meaning (S.Source.content source.old)) place 4) == 0) }
{
    u32::at(source, place).unwrap_or(0) == 0
}

// The frame of the list of properties under an attribute's id, where there is one that is not empty.
pub fn write_properties<S: Source>(
    source: &mut S,
    rows: &[AttributeRow],
    attribute: Attribute,
    lent: &mut [PropertyRow],
    pen: &mut Pen<'_>,
)
    requires fits { length pen.old.out.now < 2 ^ 32 }
    requires room { list_limit ≤ length lent.old }
    requires sound { AllByRecursion (Standing (meaning (S.Source.content source.old))) rows.now }
    requires listed { Natured properties attribute }
    ensures same { S.Source.content source.new ≡ S.Source.content source.old }
    ensures value { Wrote pen.old
        (list_bytes (meaning (S.Source.content source.old)) rows.now attribute.id)
        pen.new }
{
    let _total = source.len();
    let Some(row) = row_under(rows, attribute.id) else {
        return;
    };
    if is_empty(source, row.place) {
        return;
    }
    let start = pen_open(pen);
    write_list(source, row.place, row.place + row.size, lent, pen);
    pen_close(pen, start, attribute.level, attribute.id);
}

// The frame of the table of recipients, where there is one that is not empty; beside `write_properties`, since what is
// counted, read and written differs, and a common function would take all three.
pub fn write_recipients<S: Source>(
    source: &mut S,
    rows: &[AttributeRow],
    lent: &mut [PropertyRow],
    pen: &mut Pen<'_>,
)
    requires fits { length pen.old.out.now < 2 ^ 32 }
    requires room { list_limit ≤ length lent.old }
    requires sound { AllByRecursion (Standing (meaning (S.Source.content source.old))) rows.now }
    ensures same { S.Source.content source.new ≡ S.Source.content source.old }
    ensures value { Wrote pen.old
        (table_bytes (meaning (S.Source.content source.old)) rows.now)
        pen.new }
{
    let _total = source.len();
    let Some(row) = row_under(rows, ATT_RECIPIENTS) else {
        return;
    };
    if is_empty(source, row.place) {
        return;
    }
    let start = pen_open(pen);
    write_table(source, row.place, row.place + row.size, lent, pen);
    pen_close(pen, start, 1, ATT_RECIPIENTS);
}
