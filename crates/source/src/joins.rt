// Two sources in a row, as a source.
ghost use Rattle.std.specs.Prelude.{◌≡◌, ◌+◌, ◌<◌, ◌≤◌, ◌++◌, length, MatchResult};
ghost use Rattle.source.specs.Content.{pair, meaning, source_limit};
ghost use Rattle.source.specs.declared.refusals.Reason.TheVariants.{SourceTooLong};

use crate::{Reason, Refusal, Returned, SOURCE_LIMIT, Source};

#[derive(Drop)]
pub struct Join<A, B> {
    first: A,
    second: B,
}

impl<A: Source, B: Source> Join<A, B> {
    #[tactic(auto, using(std::proofs::lemmas::List::places, crate::proofs::Spans::clamped_all))]
    // The first source's bytes, then the second's; where they are too many, both are handed back.
    pub fn new(first: A, second: B) -> Result<Join<A, B>, Returned<(A, B)>>
        ensures { MatchResult result
            (λ j. (j.first ≡ first) × (j.second ≡ second)
            × (meaning (pair (A.Source.content first) (B.Source.content second)) ≡ meaning (A.Source.content first) ++ meaning (B.Source.content second)))
            (λ e. (source_limit < length (meaning (A.Source.content first) ++ meaning (B.Source.content second)))
            × (e.refusal ≡ record { reason = SourceTooLong; place = 0 })
            × (e.value.0 ≡ first) × (e.value.1 ≡ second)) }
    {
        let a = first.len();
        let b = second.len();
        if a + b > SOURCE_LIMIT {
            let refusal = Refusal {
                reason: Reason::SourceTooLong,
                place: 0,
            };
            return Err(Returned {
                refusal,
                value: (first, second),
            });
        }
        Ok(Join { first, second })
    }

    pub fn end(self) -> (A, B)
        ensures { (result.0 ≡ self.first) × (result.1 ≡ self.second) }
    {
        let Join { first, second } = self;
        (first, second)
    }
}

impl<A: Source, B: Source> Source for Join<A, B> {
    ghost content = { λ s. pair (A.Source.content s.first) (B.Source.content s.second) };

    #[tactic(auto, using(std::proofs::lemmas::List::places, crate::proofs::Spans::length_clamped, crate::proofs::Spans::octets_clamped, crate::proofs::Spans::octets_append))]
    fn len(&self) -> usize {
        let a = self.first.len();
        let b = self.second.len();
        (a + b).min(SOURCE_LIMIT)
    }

    #[tactic(auto, using(crate::proofs::Spans::fetched_second, crate::proofs::Spans::fetched_first, crate::proofs::Spans::fetched_both))]
    fn fetch(&mut self, place: usize, buffer: &mut [u8]) -> Result<(), Refusal> {
        let total = self.len();
        let a = self.first.len();
        let n = buffer.len();
        if place > total || n > total - place {
            return Err(Refusal {
                reason: Reason::SourceEnd,
                place: 0,
            });
        }
        if place >= a {
            return self.second.fetch(place - a, buffer);
        }
        if n <= a - place {
            return self.first.fetch(place, buffer);
        }
        let k = a - place;
        self.first.fetch(place, &mut buffer[0..k])?;
        self.second.fetch(0, &mut buffer[k..n])
    }
}
