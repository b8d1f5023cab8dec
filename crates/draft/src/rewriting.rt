// An edit as a restating in which one part is changed.
ghost use Rattle.std.specs.Prelude.{◌≡◌, ◌^◌, ◌<◌, ◌≤◌, length};
ghost use Rattle.source.specs.Content.{meaning, source_limit};
ghost use Rattle.source.specs.Outcome.{over};
ghost use Rattle.frame.specs.declared.stages.Stage.TheVariants.{Version};
ghost use Rattle.property.specs.Lists.{list_limit};
ghost use Rattle.stream.specs.Writing.{written};
ghost use Rattle.form.specs.Targets.{Readable};
ghost use Rattle.form.specs.Wholes.{Fills};
ghost use Rattle.editing.specs.Amendments as spec;
ghost use Rattle.editing.specs.Amendments.{amended};
ghost use Rattle.amend.specs.Changes.{AmendmentMeans};
ghost use Rattle.lookup.specs.Finding.{message_in};
ghost use Rattle.draft.specs.Drafts.{memory, fitted, Front};
ghost use Rattle.draft.specs.Calls.{state, edited};
ghost use Rattle.draft.specs.Checks.{edit_of, put_by, Checked};

use crate::edits::Edit;
use crate::opening::open;
use crate::{TOO_LONG, checking};
use amend::{Amendment, amend};
use index::PropertyRow;
use pen::Pen;
use source::{Held, Reason, Refusal, SOURCE_LIMIT, Source};

// The bytes that an edit puts; what it drops or removes is told otherwise.
fn put_by<'a>(edit: Edit<'a>) -> &'a [u8]
    ensures { result.now ≡ put_by edit.entry }
{
    match edit {
        Edit::PutAttribute(_, _, bytes)
        | Edit::PutProperty(_, bytes)
        | Edit::AddAttachment(bytes) => bytes,
        _ => b"",
    }
}

// The amended form at the front of a slice: how long it is, if it fits.
fn fill<S: Source, T: Source>(
    source: &mut S,
    input: &mut T,
    amendment: Amendment,
    rows: &mut [PropertyRow],
    out: &mut [u8],
) -> Option<usize>
    requires fits { length out.old < 2 ^ 32 }
    requires room { list_limit ≤ length rows.old }
    requires good { Readable (meaning (S.Source.content source.old)) 6 Version }
    requires meant { (s : spec.Amendment) × AmendmentMeans (meaning (T.Source.content input.old)) amendment s }
    ensures same { S.Source.content source.new ≡ S.Source.content source.old }
    ensures value { (s : spec.Amendment) → AmendmentMeans (meaning (T.Source.content input.old)) amendment s
        → Fills out.old (written (amended s (message_in (meaning (S.Source.content source.old))))) out.new result }
{
    let mut pen = Pen::new(out);
    amend(source, input, amendment, rows, &mut pen);
    pen.here
}

// Writes the amended form within the first `room` of the work bytes.
fn rewrite<S: Source>(
    source: &mut S,
    put: &[u8],
    amendment: Amendment,
    room: usize,
    bytes: &mut [u8],
    rows: &mut [PropertyRow],
) -> Result<usize, Refusal>
    requires good { Readable (meaning (S.Source.content source.old)) 6 Version }
    requires meant { (s : spec.Amendment) × AmendmentMeans put.now amendment s }
    requires short { length put.now ≤ source_limit }
    requires fits { room ≤ length bytes.old }
    requires lent { list_limit ≤ length rows.old }
    ensures outcome { (s : spec.Amendment) → AmendmentMeans put.now amendment s
        → result ≡ over length (fitted room (amended s (message_in (meaning (S.Source.content source.old))))) }
    ensures form { (s : spec.Amendment) → AmendmentMeans put.now amendment s
        → Front (fitted room (amended s (message_in (meaning (S.Source.content source.old))))) bytes.new }
{
    let most = room.min(SOURCE_LIMIT);
    let mut input = Held::new(put)?;
    fill(source, &mut input, amendment, rows, &mut bytes[0..most]).ok_or(TOO_LONG)
}

// Writes the form of an edited draft within as many of the work bytes as the area has.
pub(crate) fn edit_within(
    area: &[u8],
    size: usize,
    edit: Edit<'_>,
    bytes: &mut [u8],
    rows: &mut [PropertyRow],
) -> Result<usize, Refusal>
    ensures outcome { result ≡ over length (edited (memory bytes.old rows.old) (state area.now size) (edit_of edit.entry)) }
    ensures form { Front (edited (memory bytes.old rows.old) (state area.now size) (edit_of edit.entry)) bytes.new }
{
    open(area, size, bytes, rows)?;
    let room = area.len();
    let mut source = Held::new(&area[0..size])?;
    let amendment = checking::check(&mut source, edit, rows)?;
    rewrite(&mut source, put_by(edit), amendment, room, bytes, rows)
}
