// Whether a part of a source is text: of bytes or of UTF-16 units, with one zero, its last.
ghost use Rattle.std.specs.Prelude.{◌≡◌};
ghost use Rattle.source.specs.Content.{meaning};
ghost use Rattle.scan.specs.Scans.{asked};
ghost use Rattle.scan.specs.Steps.{text_step, text_closed, unit_step, units_closed};
ghost use Rattle.scan.specs.Texts.{is_text8, is_text16};
ghost use Rattle.scan.specs.declared.texts.Text.TheVariants as text;
ghost use Rattle.scan.specs.declared.texts.Units.TheVariants as units;
ghost use Rattle.scan.specs.TextScans.{text_all, units_all};

use crate::{Automaton, Recognizer, recognize};
use source::{Refusal, Source};

// How far text has come: open before its zero byte, closed right behind it.
#[derive(Clone, Copy)]
enum Text {
    Open,
    Closed,
    Broken,
}

impl Automaton for Text {
    ghost step = { text_step };

    fn after(self, byte: u8) -> Self {
        match self {
            Text::Open if byte == 0 => Text::Closed,
            Text::Open => Text::Open,
            Text::Closed | Text::Broken => Text::Broken,
        }
    }
}

impl Recognizer for Text {
    ghost start = { text.Open };

    ghost closed = { text_closed };

    ghost accepts = { is_text8 };

    ghost right = { text_all };

    fn start() -> Text {
        Text::Open
    }

    fn closed(self) -> bool {
        matches!(self, Text::Closed)
    }
}

// How far UTF-16 text has come: open between two units, within one behind a zero or another byte, closed right behind its zero unit.
#[derive(Clone, Copy)]
enum Units {
    Open,
    Zero,
    Other,
    Closed,
    Broken,
}

impl Automaton for Units {
    ghost step = { unit_step };

    fn after(self, byte: u8) -> Self {
        match self {
            Units::Open if byte == 0 => Units::Zero,
            Units::Open => Units::Other,
            Units::Zero if byte == 0 => Units::Closed,
            Units::Zero | Units::Other => Units::Open,
            Units::Closed | Units::Broken => Units::Broken,
        }
    }
}

impl Recognizer for Units {
    ghost start = { units.Open };

    ghost closed = { units_closed };

    ghost accepts = { is_text16 };

    ghost right = { units_all };

    fn start() -> Units {
        Units::Open
    }

    fn closed(self) -> bool {
        matches!(self, Units::Closed)
    }
}

// Whether the `size` bytes from `place` on are text: one zero byte, their last.
pub fn is_text8<S: Source>(source: &mut S, place: usize, size: usize) -> Result<bool, Refusal>
    ensures same { S.Source.content source.new ≡ S.Source.content source.old }
    ensures value { result ≡ asked is_text8 (meaning (S.Source.content source.old)) place size }
{
    recognize::<Text, S>(source, place, size)
}

// Whether the `size` bytes from `place` on are UTF-16 text: one zero unit, their last.
pub fn is_text16<S: Source>(source: &mut S, place: usize, size: usize) -> Result<bool, Refusal>
    ensures same { S.Source.content source.new ≡ S.Source.content source.old }
    ensures value { result ≡ asked is_text16 (meaning (S.Source.content source.old)) place size }
{
    recognize::<Units, S>(source, place, size)
}
