// Attachments of which one is changed, left out or added.
ghost use Rattle.std.specs.Prelude.{◌≡◌, ◌^◌, ◌<◌, ◌≤◌, [], ◌∷◌, ◌++◌, length, Some};
ghost use Rattle.source.specs.Content.{meaning};
ghost use Rattle.attribute.specs.declared.Rule.TheVariants as rule;
ghost use Rattle.pen.specs.Pen.{Wrote};
ghost use Rattle.contents.specs.Contents.{Contents, means};
ghost use Rattle.property.specs.Lists.{list_limit};
ghost use Rattle.form.specs.Targets.{Readable, remaining};
ghost use Rattle.form.specs.Wholes.{Rendered};
ghost use Rattle.editing.specs.Edits.{bare_attachment};
ghost use Rattle.editing.specs.Slots.{without_nth};
ghost use Rattle.amend.specs.Attachments.{Firsts, attachments_in, attachments_bytes};

use crate::attributes::write_input;
use form::{RENDERING, gather, write_attachments, write_next};
use frame::Cursor;
use index::PropertyRow;
use pen::Pen;
use source::Source;

// The first `count` attachments from a place on, as far as there are any; then the place is that of the next.
pub fn write_first<S: Source>(
    source: &mut S,
    at: &mut Cursor,
    count: usize,
    lent: &mut [PropertyRow],
    pen: &mut Pen<'_>,
)
    requires fits { length pen.old.out.now < 2 ^ 32 }
    requires room { list_limit ≤ length lent.old }
    requires good { Readable (meaning (S.Source.content source.old)) at.old.place at.old.stage }
    requires rendered { Rendered (remaining (meaning (S.Source.content source.old)) at.old.place at.old.stage) }
    ensures same { S.Source.content source.new ≡ S.Source.content source.old }
    ensures value { Firsts (meaning (S.Source.content source.old)) at.old.place at.old.stage count pen.old at.new.place at.new.stage pen.new }
{
    let total = source.len();
    for _ in 0..count {
        if at.place >= total {
            break;
        }
        write_next(source, at, lent, pen);
    }
}

// The attachments from a place on without the one of a number.
pub fn write_without<S: Source>(
    source: &mut S,
    start: Cursor,
    number: usize,
    lent: &mut [PropertyRow],
    pen: &mut Pen<'_>,
)
    requires fits { length pen.old.out.now < 2 ^ 32 }
    requires room { list_limit ≤ length lent.old }
    requires good { Readable (meaning (S.Source.content source.old)) start.place start.stage }
    requires rendered { Rendered (remaining (meaning (S.Source.content source.old)) start.place start.stage) }
    ensures same { S.Source.content source.new ≡ S.Source.content source.old }
    ensures value { Wrote pen.old
        (attachments_bytes (without_nth (attachments_in (remaining (meaning (S.Source.content source.old)) start.place start.stage)) number)) pen.new }
{
    let mut at = start;
    write_first(source, &mut at, number, lent, pen);
    gather(source, &mut at);
    write_attachments(source, at, lent, pen);
}

// The attachments from a place on, and one of nothing but a rendering.
pub fn write_added<S: Source, T: Source>(
    source: &mut S,
    input: &mut T,
    start: Cursor,
    lent: &mut [PropertyRow],
    pen: &mut Pen<'_>,
)
    requires fits { length pen.old.out.now < 2 ^ 32 }
    requires room { list_limit ≤ length lent.old }
    requires good { Readable (meaning (S.Source.content source.old)) start.place start.stage }
    requires rendered { Rendered (remaining (meaning (S.Source.content source.old)) start.place start.stage) }
    requires meant { (c : Contents) × (means rule.Rendering (meaning (T.Source.content input.old)) ≡ Some c) }
    ensures same { S.Source.content source.new ≡ S.Source.content source.old }
    ensures kept { T.Source.content input.new ≡ T.Source.content input.old }
    ensures value { (c : Contents) → means rule.Rendering (meaning (T.Source.content input.old)) ≡ Some c
        → Wrote pen.old
        (attachments_bytes (attachments_in (remaining (meaning (S.Source.content source.old)) start.place start.stage) ++ bare_attachment c ∷ []))
        pen.new }
{
    write_attachments(source, start, lent, pen);
    write_input(input, RENDERING, pen);
}
