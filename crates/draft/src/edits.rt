// Edits of a draft.
ghost use Rattle.std.specs.Prelude.{◌≡◌, length, replicate};
ghost use Rattle.source.specs.Outcome.{over};
ghost use Rattle.draft.specs.Drafts.{memory, area_after, size_after, blank_row};
ghost use Rattle.draft.specs.Calls.{state, edited};
ghost use Rattle.draft.specs.Checks.{edit_of};

use crate::rewriting::edit_within;
use crate::{Draft, Work};
use message::Target;
use source::Refusal;

// What a call changes; bytes are given as in a stream.
#[derive(Clone, Copy)]
pub enum Edit<'a> {
    PutAttribute(Target, u32, &'a [u8]),
    PutProperty(Target, &'a [u8]),
    DropAttribute(Target, u32),
    DropProperty(Target, &'a [u8]),
    AddRow,
    AddAttachment(&'a [u8]),
    RemoveRow(usize),
    RemoveAttachment(usize),
}

impl Draft<'_> {
    fn whole(&self) -> &[u8]
        ensures { result.now ≡ self.now.area.now }
    {
        self.area
    }

    // What an edit makes of the draft; a refusal leaves it as it was.
    pub fn edit(&mut self, work: Work<'_>, what: Edit<'_>) -> Result<(), Refusal>
        ensures outcome { result ≡ over (λ _. tt) (edited (memory work.entry.bytes.now work.entry.rows.now) (state self.old.area.now self.old.size) (edit_of what.entry)) }
        ensures area { self.new.area.now ≡ area_after (edited (memory work.entry.bytes.now work.entry.rows.now) (state self.old.area.now self.old.size) (edit_of what.entry)) self.old.area.now }
        ensures size { self.new.size ≡ size_after (edited (memory work.entry.bytes.now work.entry.rows.now) (state self.old.area.now self.old.size) (edit_of what.entry)) self.old.size }
        ensures bytes { work.exit.0.now ≡ replicate (length work.entry.bytes.now) 0 }
        ensures rows { work.exit.1.0.now ≡ replicate (length work.entry.rows.now) blank_row }
    {
        let Work { bytes, rows } = work;
        let size = self.size;
        let result = edit_within(self.whole(), size, what, bytes, rows);
        self.settle(result, bytes, rows)
    }
}
