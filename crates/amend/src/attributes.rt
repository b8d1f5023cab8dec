// The attributes of a target of which one is changed, written by rising id.
ghost use Rattle.std.specs.Prelude.{◌≡◌, ◌^◌, ◌<◌, true, length};
ghost use Rattle.std.specs.List.{AllByRecursion};
ghost use Rattle.source.specs.Content.{meaning};
ghost use Rattle.pen.specs.Pen.{Wrote};
ghost use Rattle.contents.specs.Contents.{admits, normal_data};
ghost use Rattle.form.specs.Framing.{framed};
ghost use Rattle.form.specs.Targets.{Standing};
ghost use Rattle.form.specs.Holdings.{Plain};
ghost use Rattle.editing.specs.Amendments as spec;
ghost use Rattle.amend.specs.Changes.{SlotMeans};
ghost use Rattle.amend.specs.Parts.{attribute_after, attributes_after};

use crate::changes::Slot;
use attribute::Attribute;
use form::{write_attribute, write_row};
use index::AttributeRow;
use pen::Pen;
use source::Source;

// A frame of an attribute with the normal data of all of the input.
pub fn write_input<T: Source>(input: &mut T, attribute: Attribute, pen: &mut Pen<'_>)
    requires fits { length pen.old.out.now < 2 ^ 32 }
    requires good { admits attribute.rule (meaning (T.Source.content input.old)) ≡ true }
    ensures same { T.Source.content input.new ≡ T.Source.content input.old }
    ensures value { Wrote pen.old
        (framed attribute.level attribute.id (normal_data attribute.rule (meaning (T.Source.content input.old))))
        pen.new }
{
    let size = input.len();
    let row = AttributeRow {
        id: attribute.id,
        place: 0,
        size,
    };
    write_row(input, attribute, row, pen);
}

// The frame of one attribute: the input where the slot puts it, none where it is dropped.
pub fn write_changed_attribute<S: Source, T: Source>(
    source: &mut S,
    input: &mut T,
    rows: &[AttributeRow],
    attribute: Attribute,
    slot: Slot,
    pen: &mut Pen<'_>,
)
    requires fits { length pen.old.out.now < 2 ^ 32 }
    requires sound { AllByRecursion (Standing (meaning (S.Source.content source.old))) rows.now }
    requires simple { Plain attribute }
    requires meant { (σ : spec.Slot) × SlotMeans (meaning (T.Source.content input.old)) slot σ }
    ensures same { S.Source.content source.new ≡ S.Source.content source.old }
    ensures kept { T.Source.content input.new ≡ T.Source.content input.old }
    ensures value { (σ : spec.Slot) → SlotMeans (meaning (T.Source.content input.old)) slot σ
        → Wrote pen.old
        (attribute_after (meaning (S.Source.content source.old)) rows.now σ attribute)
        pen.new }
{
    match slot {
        Slot::Put(put) if put.id == attribute.id => write_input(input, attribute, pen),
        Slot::Dropped(id) if id == attribute.id => {}
        _ => write_attribute(source, rows, attribute, pen),
    }
}

// The frames of a table's attributes, in the table's order.
pub fn write_changed_attributes<S: Source, T: Source>(
    source: &mut S,
    input: &mut T,
    rows: &[AttributeRow],
    table: &[Attribute],
    slot: Slot,
    pen: &mut Pen<'_>,
)
    requires fits { length pen.old.out.now < 2 ^ 32 }
    requires sound { AllByRecursion (Standing (meaning (S.Source.content source.old))) rows.now }
    requires simple { AllByRecursion Plain table.now }
    requires meant { (σ : spec.Slot) × SlotMeans (meaning (T.Source.content input.old)) slot σ }
    ensures same { S.Source.content source.new ≡ S.Source.content source.old }
    ensures kept { T.Source.content input.new ≡ T.Source.content input.old }
    ensures value { (σ : spec.Slot) → SlotMeans (meaning (T.Source.content input.old)) slot σ
        → Wrote pen.old
        (attributes_after (meaning (S.Source.content source.old)) rows.now σ table.now)
        pen.new }
{
    for attribute in table {
        write_changed_attribute(source, input, rows, *attribute, slot, pen);
    }
}
