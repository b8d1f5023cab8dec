// Hexadecimal digits in pairs.
ghost use Rattle.std.specs.Prelude.{◌≡◌, is_some};
ghost use Rattle.source.specs.Content.{meaning};
ghost use Rattle.scan.specs.Scans.{asked};
ghost use Rattle.contents.specs.Digits.{digit, are_pairs};
ghost use Rattle.contents.specs.Steps.{pair_step, pairs_closed};
ghost use Rattle.contents.specs.declared.digits.Pairs.TheVariants as pairs;
ghost use Rattle.contents.specs.PairScans.{pairs_all};

use scan::{Automaton, Recognizer, recognize};
use source::{Refusal, Source};

fn is_digit(byte: u8) -> bool
    ensures { result ≡ is_some (digit byte) }
{
    byte.is_ascii_hexdigit()
}

// How far pairs of digits have come: between two pairs, within one, right behind the closing zero byte.
#[derive(Clone, Copy)]
enum Pairs {
    Even,
    Odd,
    Closed,
    Broken,
}

impl Automaton for Pairs {
    ghost step = { pair_step };

    fn after(self, byte: u8) -> Self {
        match self {
            Pairs::Even if byte == 0 => Pairs::Closed,
            Pairs::Even if is_digit(byte) => Pairs::Odd,
            Pairs::Odd if is_digit(byte) => Pairs::Even,
            _ => Pairs::Broken,
        }
    }
}

impl Recognizer for Pairs {
    ghost start = { pairs.Even };

    ghost closed = { pairs_closed };

    ghost accepts = { are_pairs };

    ghost right = { pairs_all };

    fn start() -> Pairs {
        Pairs::Even
    }

    fn closed(self) -> bool {
        matches!(self, Pairs::Closed)
    }
}

// Whether data are pairs of hexadecimal digits, then a zero byte.
pub fn are_digits<S: Source>(source: &mut S, place: usize, size: usize) -> Result<bool, Refusal>
    ensures same { S.Source.content source.new ≡ S.Source.content source.old }
    ensures value { result ≡ asked are_pairs (meaning (S.Source.content source.old)) place size }
{
    recognize::<Pairs, S>(source, place, size)
}
