// A part of a source, as a source.
ghost use Rattle.std.specs.Prelude.{◌≡◌, ◌+◌, ◌<◌, ◌≤◌, length, MatchResult};
ghost use Rattle.source.specs.Content.{window, meaning};
ghost use Rattle.source.specs.declared.refusals.Reason.TheVariants.{SourceEnd};

use crate::{Reason, Refusal, Returned, Source};

#[derive(Drop)]
pub struct Window<S> {
    inner: S,
    start: usize,
    size: usize,
}

impl<S: Source> Window<S> {
    // The `size` bytes of a source from `start` on; where it ends too early, it is handed back.
    pub fn new(inner: S, start: usize, size: usize) -> Result<Window<S>, Returned<S>>
        ensures { MatchResult result
            (λ w. (start + size ≤ length (meaning (S.Source.content inner)))
            × (w.inner ≡ inner) × (w.start ≡ start) × (w.size ≡ size))
            (λ e. (length (meaning (S.Source.content inner)) < start + size)
            × (e.refusal ≡ record { reason = SourceEnd; place = 0 })
            × (e.value ≡ inner)) }
    {
        let total = inner.len();
        if start > total || size > total - start {
            let refusal = Refusal {
                reason: Reason::SourceEnd,
                place: 0,
            };
            return Err(Returned {
                refusal,
                value: inner,
            });
        }
        Ok(Window { inner, start, size })
    }

    pub fn end(self) -> S
        ensures { result ≡ self.inner }
    {
        let Window {
            inner,
            start: _,
            size: _,
        } = self;
        inner
    }
}

impl<S: Source> Source for Window<S> {
    ghost content = { λ s. window s.start s.size (S.Source.content s.inner) };

    #[tactic(auto, using(crate::proofs::Spans::octets_part))]
    fn len(&self) -> usize {
        let rest = self.inner.len().saturating_sub(self.start);
        rest.min(self.size)
    }

    #[tactic(auto, using(crate::proofs::Spans::fetched_window, crate::proofs::Spans::fetched_past, crate::proofs::Spans::window_within))]
    fn fetch(&mut self, place: usize, buffer: &mut [u8]) -> Result<(), Refusal> {
        let whole = self.inner.len();
        let total = self.len();
        let n = buffer.len();
        if place > total || n > total - place {
            return Err(Refusal {
                reason: Reason::SourceEnd,
                place: 0,
            });
        }
        if self.start >= whole {
            return Ok(());
        }
        self.inner.fetch(self.start + place, buffer)
    }
}
