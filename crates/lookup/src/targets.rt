// The targets of a stream, one after another.
ghost use Rattle.std.specs.Prelude.{◌≡◌, ◌<◌, ◌≤◌, length};
ghost use Rattle.source.specs.Content.{meaning};
ghost use Rattle.attribute.specs.Table.{attachment_properties_id};
ghost use Rattle.frame.specs.declared.stages.Stage.TheVariants.{Version};
ghost use Rattle.message.specs.Sameness.{nth};
ghost use Rattle.form.specs.Targets.{Readable};
ghost use Rattle.lookup.specs.Finding.{message_in, Passed, SaysMessage, SaysAny};

use form::{Rows, gather};
use frame::Cursor;
use source::Source;

// How many attachments were passed, and where the next one begins.
#[derive(Clone, Copy)]
pub struct Progress {
    pub count: usize,
    pub at: Cursor,
}

// Passes attachments, `most` of them or all.
pub fn pass<S: Source>(source: &mut S, most: usize) -> Progress
    requires good { Readable (meaning (S.Source.content source.old)) 6 Version }
    ensures same { S.Source.content source.new ≡ S.Source.content source.old }
    ensures value { Passed (meaning (S.Source.content source.old)) result.count result.at.place result.at.stage }
    ensures within { result.count ≤ most }
    ensures stopped { result.at.place < length (meaning (S.Source.content source.old)) → result.count ≡ most }
{
    let total = source.len();
    let mut at = Cursor::FIRST;
    gather(source, &mut at);
    for count in 0..most {
        if at.place >= total {
            return Progress { count, at };
        }
        gather(source, &mut at);
    }
    Progress { count: most, at }
}

// The rows of the message.
pub fn message_rows<S: Source>(source: &mut S) -> Rows
    requires good { Readable (meaning (S.Source.content source.old)) 6 Version }
    ensures same { S.Source.content source.new ≡ S.Source.content source.old }
    ensures value { SaysMessage (meaning (S.Source.content source.old)) result }
{
    let mut at = Cursor::FIRST;
    gather(source, &mut at)
}

// The rows of the attachment with a number, if there is one.
pub fn attachment_rows<S: Source>(source: &mut S, number: usize) -> Option<Rows>
    requires good { Readable (meaning (S.Source.content source.old)) 6 Version }
    ensures same { S.Source.content source.new ≡ S.Source.content source.old }
    ensures value { SaysAny (meaning (S.Source.content source.old)) attachment_properties_id
        (nth (message_in (meaning (S.Source.content source.old))).attachments number) result }
{
    let total = source.len();
    let mut at = pass(source, number).at;
    if at.place >= total {
        return None;
    }
    Some(gather(source, &mut at))
}
