// Messages, their written forms, what forms decide, and the grammar of streams.
#![tactic(auto)]

ghost use Rattle.message.specs.Promise.{FormsDecide, FormsRead};
ghost use Rattle.message.specs.Grammar.{ByGrammar};
ghost use Rattle.message.specs.Examples.{Examples};

// Where in a message: the message itself, a row, or an attachment, each counted from 0.
#[derive(Clone, Copy, PartialEq, Eq, Debug)]
pub enum Target {
    Message,
    Row(usize),
    Attachment(usize),
}

// Two messages have equal written forms exactly when they are the same.
pub fn forms_decide() -> u8
    ensures { FormsDecide }
{
    0
}

// A written form is read again as its message, and written again as itself.
pub fn forms_are_read() -> u8
    ensures { FormsRead }
{
    0
}

// A stream is read, and carries a message, exactly where the grammar says so.
pub fn streams_by_grammar() -> u8
    ensures { ByGrammar }
{
    0
}

// The definitions at small streams: read, refused, and written anew.
pub fn small_streams() -> u8
    ensures { Examples }
{
    0
}
