// The attachments of a message, of which one may be changed, left out or added.
ghost use Rattle.std.specs.Prelude.{◌≡◌, ◌^◌, ◌<◌, ◌≤◌, length};
ghost use Rattle.source.specs.Content.{meaning};
ghost use Rattle.pen.specs.Pen.{Wrote};
ghost use Rattle.property.specs.Lists.{list_limit};
ghost use Rattle.form.specs.Targets.{Readable, remaining};
ghost use Rattle.form.specs.Wholes.{Rendered};
ghost use Rattle.editing.specs.Amendments as spec;
ghost use Rattle.editing.specs.Amendments.{attachments_after};
ghost use Rattle.amend.specs.Attachments.{attachments_in, attachments_bytes};
ghost use Rattle.amend.specs.Changes.{AttachingMeans};

use crate::attachments::{write_added, write_without};
use crate::changes::{Change, Touch};
use crate::touches::write_touched;
use form::write_attachments;
use frame::Cursor;
use index::PropertyRow;
use pen::Pen;
use source::Source;

// The attachments from a place on as they are after a change.
pub fn write_changed_attachments<S: Source, T: Source>(
    source: &mut S,
    input: &mut T,
    start: Cursor,
    attaching: Change<Touch>,
    lent: &mut [PropertyRow],
    pen: &mut Pen<'_>,
)
    requires fits { length pen.old.out.now < 2 ^ 32 }
    requires room { list_limit ≤ length lent.old }
    requires good { Readable (meaning (S.Source.content source.old)) start.place start.stage }
    requires rendered { Rendered (remaining (meaning (S.Source.content source.old)) start.place start.stage) }
    requires meant { (β : spec.Attaching) × AttachingMeans (meaning (T.Source.content input.old)) attaching β }
    ensures same { S.Source.content source.new ≡ S.Source.content source.old }
    ensures kept { T.Source.content input.new ≡ T.Source.content input.old }
    ensures value { (β : spec.Attaching) → AttachingMeans (meaning (T.Source.content input.old)) attaching β
        → Wrote pen.old
        (attachments_bytes (attachments_after β (attachments_in (remaining (meaning (S.Source.content source.old)) start.place start.stage))))
        pen.new }
{
    match attaching {
        Change::Kept => write_attachments(source, start, lent, pen),
        Change::Added => write_added(source, input, start, lent, pen),
        Change::Removed(number) => write_without(source, start, number, lent, pen),
        Change::Changed(number, touch) => {
            write_touched(source, input, start, number, touch, lent, pen);
        }
    }
}
