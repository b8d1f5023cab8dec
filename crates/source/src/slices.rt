// A slice as a source.
ghost use Rattle.std.specs.Prelude.{◌≡◌, ◌<◌, ◌≤◌, length, MatchResult};
ghost use Rattle.source.specs.Bytes.{Octets};
ghost use Rattle.source.specs.Content.{plain, meaning, source_limit};
ghost use Rattle.source.specs.declared.refusals.Reason.TheVariants.{SourceTooLong};

use crate::{Reason, Refusal, SOURCE_LIMIT, Source};

// Every element of a slice of bytes is below 256, once each has been read.
pub fn octets(bytes: &[u8])
    ensures { Octets bytes.now }
{
    for byte in bytes {
        let _read = *byte;
    }
}

#[derive(Drop)]
pub struct Held<'a> {
    bytes: &'a [u8],
}

impl<'a> Held<'a> {
    #[tactic(auto, using(crate::proofs::Spans::clamped_all))]
    // The bytes as a source; more than the limit are refused.
    pub fn new(bytes: &'a [u8]) -> Result<Held<'a>, Refusal>
        ensures { MatchResult result
            (λ h. (length bytes.now ≤ source_limit) × (meaning (plain h.bytes.now) ≡ bytes.now))
            (λ e. (source_limit < length bytes.now) × (e ≡ record { reason = SourceTooLong; place = 0 })) }
    {
        if bytes.len() > SOURCE_LIMIT {
            return Err(Refusal {
                reason: Reason::SourceTooLong,
                place: 0,
            });
        }
        Ok(Held { bytes })
    }

    pub fn end(self) -> &'a [u8]
        ensures { result.now ≡ self.entry.bytes.now }
    {
        let Held { bytes } = self;
        bytes
    }
}

impl Source for Held<'_> {
    ghost content = { λ s. plain s.bytes.now };

    #[tactic(auto, using(crate::proofs::Spans::length_clamped, crate::proofs::Spans::octets_clamped))]
    fn len(&self) -> usize {
        octets(self.bytes);
        self.bytes.len().min(SOURCE_LIMIT)
    }

    #[tactic(auto, using(crate::proofs::Spans::length_clamped, crate::proofs::Spans::part_of_clamped))]
    fn fetch(&mut self, place: usize, buffer: &mut [u8]) -> Result<(), Refusal> {
        let total = self.len();
        let n = buffer.len();
        if place > total || n > total - place {
            return Err(Refusal {
                reason: Reason::SourceEnd,
                place: 0,
            });
        }
        buffer.copy_from_slice(&self.bytes[place..place + n]);
        Ok(())
    }
}
