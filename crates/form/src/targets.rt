// The frames of a target, found by the index of their ids.
ghost use Rattle.std.specs.Prelude.{◌≡◌, ◌<◌, ◌≤◌, length};
ghost use Rattle.source.specs.Content.{meaning};
ghost use Rattle.attribute.specs.Table.{attributes};
ghost use Rattle.frame.specs.Frames.{next_frame};
ghost use Rattle.contents.specs.Writing.{known};
ghost use Rattle.form.specs.Targets.{Readable, Taken, StaysWritten, own_next};

use crate::Rows;
use attribute::ATT_RENDERING;
use frame::{Cursor, Frame, HEAD_SIZE, next_frame};
use index::AttributeRow;
use source::Source;

// The frame at a place, where it is of the same target as the `used` rows before it.
fn own_frame<S: Source>(source: &mut S, at: Cursor, used: usize) -> Option<Frame>
    ensures same { S.Source.content source.new ≡ S.Source.content source.old }
    ensures value { result ≡ own_next used (known (next_frame (meaning (S.Source.content source.old)) at.place at.stage)) }
{
    match next_frame(source, at) {
        Ok(Some(frame)) if used > 0 && frame.attribute.id == ATT_RENDERING => None,
        Ok(next) => next,
        Err(_) => None,
    }
}

// Indexes the frames of the target that begins at a place, and moves on to the next.
pub fn gather<S: Source>(source: &mut S, at: &mut Cursor) -> Rows
    requires { Readable (meaning (S.Source.content source.old)) at.old.place at.old.stage }
    ensures same { S.Source.content source.new ≡ S.Source.content source.old }
    ensures within { length result ≤ length attributes }
    ensures value { Taken (meaning (S.Source.content source.old)) at.old.place at.old.stage result at.new.place at.new.stage }
    ensures written { StaysWritten (meaning (S.Source.content source.old)) at.old.place at.old.stage result at.new.place at.new.stage }
{
    let _total = source.len();
    let mut rows = Rows::new();
    while let Some(frame) = own_frame(source, *at, rows.len()) {
        rows.add(AttributeRow {
            id: frame.attribute.id,
            place: frame.place + HEAD_SIZE,
            size: frame.size,
        });
        *at = frame.behind();
    }
    rows
}
