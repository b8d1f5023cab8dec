// The written form of a message of which one part is changed.
ghost use Rattle.std.specs.Prelude.{◌≡◌, ◌^◌, ◌<◌, ◌≤◌, length};
ghost use Rattle.source.specs.Content.{meaning};
ghost use Rattle.frame.specs.declared.stages.Stage.TheVariants.{Version};
ghost use Rattle.pen.specs.Pen.{Wrote};
ghost use Rattle.property.specs.Lists.{list_limit};
ghost use Rattle.stream.specs.Messages.{message_of};
ghost use Rattle.stream.specs.Writing.{written};
ghost use Rattle.form.specs.Targets.{Readable, remaining};
ghost use Rattle.editing.specs.Amendments as spec;
ghost use Rattle.editing.specs.Amendments.{amended};
ghost use Rattle.amend.specs.Changes.{AmendmentMeans};

use crate::attachings::write_changed_attachments;
use crate::changes::Amendment;
use crate::messages::write_changed_message;
use crate::pages::write_changed_page;
use form::{gather, write_front};
use frame::Cursor;
use index::PropertyRow;
use pen::Pen;
use source::Source;

// The written form of what a readable stream carries, with one part changed.
pub fn amend<S: Source, T: Source>(
    source: &mut S,
    input: &mut T,
    amendment: Amendment,
    lent: &mut [PropertyRow],
    pen: &mut Pen<'_>,
)
    requires fits { length pen.old.out.now < 2 ^ 32 }
    requires room { list_limit ≤ length lent.old }
    requires good { Readable (meaning (S.Source.content source.old)) 6 Version }
    requires meant { (α : spec.Amendment) × AmendmentMeans (meaning (T.Source.content input.old)) amendment α }
    ensures same { S.Source.content source.new ≡ S.Source.content source.old }
    ensures kept { T.Source.content input.new ≡ T.Source.content input.old }
    ensures value { (α : spec.Amendment) → AmendmentMeans (meaning (T.Source.content input.old)) amendment α
        → Wrote pen.old
        (written (amended α (message_of (remaining (meaning (S.Source.content source.old)) 6 Version)))) pen.new }
{
    write_front(pen);
    let mut at = Cursor::FIRST;
    let rows = gather(source, &mut at);
    let own = rows.as_slice();
    write_changed_page(source, input, own, amendment.page, pen);
    write_changed_message(source, input, own, amendment.own, amendment.rows, lent, pen);
    write_changed_attachments(source, input, at, amendment.attachments, lent, pen);
}
