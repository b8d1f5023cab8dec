// One attachment that is changed, and those behind it.
ghost use Rattle.std.specs.Prelude.{◌≡◌, ◌^◌, ◌<◌, ◌≤◌, length};
ghost use Rattle.std.specs.List.{AllByRecursion};
ghost use Rattle.source.specs.Content.{meaning};
ghost use Rattle.pen.specs.Pen.{Wrote};
ghost use Rattle.property.specs.Lists.{list_limit};
ghost use Rattle.form.specs.Targets.{Standing, Readable, remaining};
ghost use Rattle.form.specs.Wholes.{Rendered};
ghost use Rattle.editing.specs.Amendments as spec;
ghost use Rattle.amend.specs.Attachments.{attachments_in, attachments_bytes, nth_touched};
ghost use Rattle.amend.specs.Changes.{TouchMeans};
ghost use Rattle.amend.specs.Parts.{attachment_after};

use crate::attachments::write_first;
use crate::attributes::{write_changed_attribute, write_changed_attributes};
use crate::changes::Touch;
use crate::lists::write_changed_properties;
use form::{ATTACHMENT_PROPERTIES, RENDERING, attachment_table, gather, write_attachments};
use frame::Cursor;
use index::{AttributeRow, PropertyRow};
use pen::Pen;
use source::Source;

// An attachment's rendering, attributes and properties, one of them changed.
pub fn write_touched_attachment<S: Source, T: Source>(
    source: &mut S,
    input: &mut T,
    rows: &[AttributeRow],
    touch: Touch,
    lent: &mut [PropertyRow],
    pen: &mut Pen<'_>,
)
    requires fits { length pen.old.out.now < 2 ^ 32 }
    requires room { list_limit ≤ length lent.old }
    requires sound { AllByRecursion (Standing (meaning (S.Source.content source.old))) rows.now }
    requires meant { (τ : spec.Touch) × TouchMeans (meaning (T.Source.content input.old)) touch τ }
    ensures same { S.Source.content source.new ≡ S.Source.content source.old }
    ensures kept { T.Source.content input.new ≡ T.Source.content input.old }
    ensures value { (τ : spec.Touch) → TouchMeans (meaning (T.Source.content input.old)) touch τ
        → Wrote pen.old
        (attachment_after (meaning (S.Source.content source.old)) rows.now τ) pen.new }
{
    write_changed_attribute(source, input, rows, RENDERING, touch.slot, pen);
    write_changed_attributes(source, input, rows, attachment_table(), touch.slot, pen);
    write_changed_properties(
        source,
        input,
        rows,
        ATTACHMENT_PROPERTIES,
        touch.listing,
        lent,
        pen,
    );
}

// The attachments from a place on with the one of a number changed, if there is one.
pub fn write_touched<S: Source, T: Source>(
    source: &mut S,
    input: &mut T,
    start: Cursor,
    number: usize,
    touch: Touch,
    lent: &mut [PropertyRow],
    pen: &mut Pen<'_>,
)
    requires fits { length pen.old.out.now < 2 ^ 32 }
    requires room { list_limit ≤ length lent.old }
    requires good { Readable (meaning (S.Source.content source.old)) start.place start.stage }
    requires rendered { Rendered (remaining (meaning (S.Source.content source.old)) start.place start.stage) }
    requires meant { (τ : spec.Touch) × TouchMeans (meaning (T.Source.content input.old)) touch τ }
    ensures same { S.Source.content source.new ≡ S.Source.content source.old }
    ensures kept { T.Source.content input.new ≡ T.Source.content input.old }
    ensures value { (τ : spec.Touch) → TouchMeans (meaning (T.Source.content input.old)) touch τ
        → Wrote pen.old
        (attachments_bytes (nth_touched τ number (attachments_in (remaining (meaning (S.Source.content source.old)) start.place start.stage))))
        pen.new }
{
    let total = source.len();
    let mut at = start;
    write_first(source, &mut at, number, lent, pen);
    if at.place >= total {
        return;
    }
    let rows = gather(source, &mut at);
    write_touched_attachment(source, input, rows.as_slice(), touch, lent, pen);
    write_attachments(source, at, lent, pen);
}
