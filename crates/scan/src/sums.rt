// The checksum of a part of a source.
ghost use Rattle.std.specs.Prelude.{◌≡◌, ◌+◌, ◌%◌};
ghost use Rattle.source.specs.Content.{meaning};
ghost use Rattle.scan.specs.Scans.{asked, checksum};

use crate::{Automaton, scan};
use source::{Refusal, Source};

// A running sum that wraps at sixteen bits.
#[derive(Clone, Copy)]
struct Sum {
    total: u16,
}

impl Automaton for Sum {
    ghost step = { λ s b. record { total = (s.total + b) % 65536 } };

    fn after(self, byte: u8) -> Self {
        Sum {
            total: self.total.wrapping_add(u16::from(byte)),
        }
    }
}

#[tactic(auto, using(crate::proofs::RunningSums::folded_sum), unfolding(crate::specs::Scans::asked))]
// The sum of the `size` bytes from `place` on, modulo 65,536.
pub fn checksum<S: Source>(source: &mut S, place: usize, size: usize) -> Result<u16, Refusal>
    ensures same { S.Source.content source.new ≡ S.Source.content source.old }
    ensures value { result ≡ asked checksum (meaning (S.Source.content source.old)) place size }
{
    let sum = scan(source, place, size, Sum { total: 0 })?;
    Ok(sum.total)
}
