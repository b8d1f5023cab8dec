// The whole written form: the front, the message, and its attachments.
ghost use Rattle.std.specs.Prelude.{◌≡◌, ◌^◌, ◌<◌, ◌≤◌, length};
ghost use Rattle.source.specs.Content.{meaning};
ghost use Rattle.frame.specs.declared.stages.Stage.TheVariants.{Version};
ghost use Rattle.pen.specs.Pen.{Wrote};
ghost use Rattle.property.specs.Lists.{list_limit};
ghost use Rattle.stream.specs.Messages.{message_of};
ghost use Rattle.stream.specs.Writing.{written};
ghost use Rattle.form.specs.Targets.{Readable, remaining};
ghost use Rattle.form.specs.Wholes.{Fills};

use crate::attachments::write_attachments;
use crate::fronts::{write_front, write_page};
use crate::messages::write_message;
use crate::targets::gather;
use frame::Cursor;
use index::PropertyRow;
use pen::Pen;
use source::Source;

// The written form of what a readable stream carries.
pub fn write_form<S: Source>(source: &mut S, lent: &mut [PropertyRow], pen: &mut Pen<'_>)
    requires fits { length pen.old.out.now < 2 ^ 32 }
    requires room { list_limit ≤ length lent.old }
    requires good { Readable (meaning (S.Source.content source.old)) 6 Version }
    ensures same { S.Source.content source.new ≡ S.Source.content source.old }
    ensures value { Wrote pen.old (written (message_of (remaining (meaning (S.Source.content source.old)) 6 Version))) pen.new }
{
    write_front(pen);
    let mut at = Cursor::FIRST;
    let rows = gather(source, &mut at);
    let own = rows.as_slice();
    write_page(source, own, pen);
    write_message(source, own, lent, pen);
    write_attachments(source, at, lent, pen);
}

// The written form at the front of a slice: how long it is, if it fits. Whoever makes a pen has such a function; one for all
// would take the writer as a closure and need a longer contract than they have.
pub(crate) fn fill<S: Source>(
    source: &mut S,
    lent: &mut [PropertyRow],
    out: &mut [u8],
) -> Option<usize>
    requires fits { length out.old < 2 ^ 32 }
    requires room { list_limit ≤ length lent.old }
    requires good { Readable (meaning (S.Source.content source.old)) 6 Version }
    ensures same { S.Source.content source.new ≡ S.Source.content source.old }
    ensures value { Fills out.old (written (message_of (remaining (meaning (S.Source.content source.old)) 6 Version))) out.new result }
{
    let mut pen = Pen::new(out);
    write_form(source, lent, &mut pen);
    pen.here
}
