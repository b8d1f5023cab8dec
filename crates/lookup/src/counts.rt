// How many rows and attachments there are, and whether a target is.
ghost use Rattle.std.specs.Prelude.{◌≡◌, length, is_some};
ghost use Rattle.source.specs.Content.{meaning};
ghost use Rattle.frame.specs.declared.stages.Stage.TheVariants.{Version};
ghost use Rattle.message.specs.Sameness.{nth, holding};
ghost use Rattle.form.specs.Targets.{Readable};
ghost use Rattle.lookup.specs.Finding.{message_in};

use crate::targets::{message_rows, pass};
use attribute::ATT_RECIPIENTS;
use message::Target;
use scan::Number;
use source::{SOURCE_LIMIT, Source};

// How many rows the message has: the count of its table, and none where there is no table.
pub fn count_rows<S: Source>(source: &mut S) -> usize
    requires good { Readable (meaning (S.Source.content source.old)) 6 Version }
    ensures same { S.Source.content source.new ≡ S.Source.content source.old }
    ensures value { result ≡ length (message_in (meaning (S.Source.content source.old))).rows }
{
    let rows = message_rows(source);
    let Some(row) = rows.under(ATT_RECIPIENTS) else {
        return 0;
    };
    u32::at(source, row.place).unwrap_or(0) as usize
}

// How many attachments it has.
pub fn count_attachments<S: Source>(source: &mut S) -> usize
    requires good { Readable (meaning (S.Source.content source.old)) 6 Version }
    ensures same { S.Source.content source.new ≡ S.Source.content source.old }
    ensures value { result ≡ length (message_in (meaning (S.Source.content source.old))).attachments }
{
    let _total = source.len();
    pass(source, SOURCE_LIMIT).count
}

fn has_attachment<S: Source>(source: &mut S, number: usize) -> bool
    requires good { Readable (meaning (S.Source.content source.old)) 6 Version }
    ensures same { S.Source.content source.new ≡ S.Source.content source.old }
    ensures value { result ≡ is_some (nth (message_in (meaning (S.Source.content source.old))).attachments number) }
{
    let total = source.len();
    let passed = pass(source, number);
    passed.at.place < total
}

// Whether the message has a target.
pub fn has_target<S: Source>(source: &mut S, target: Target) -> bool
    requires good { Readable (meaning (S.Source.content source.old)) 6 Version }
    ensures same { S.Source.content source.new ≡ S.Source.content source.old }
    ensures value { result ≡ is_some (holding (message_in (meaning (S.Source.content source.old))) target) }
{
    match target {
        Target::Message => true,
        Target::Row(number) => number < count_rows(source),
        Target::Attachment(number) => has_attachment(source, number),
    }
}
