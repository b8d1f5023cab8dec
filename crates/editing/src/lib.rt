// What edits, asks and counts mean on messages.
#![tactic(auto)]

ghost use Rattle.editing.specs.Edits.{change};
ghost use Rattle.editing.specs.Asks.{attribute_asked};
ghost use Rattle.editing.specs.Amendments.{amended};
ghost use Rattle.editing.specs.Promise.{ChangesKeep};
ghost use Rattle.editing.specs.Examples.{Worked};

// What an edit makes of a message is a message again.
pub fn changes_keep_messages() -> u8
    ensures { ChangesKeep }
{
    0
}

// The definitions at small messages: edited, asked, refused, and written.
pub fn worked_edits() -> u8
    ensures { Worked }
{
    0
}
