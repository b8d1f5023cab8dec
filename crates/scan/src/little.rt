// Numbers as they stand in streams: so many bytes, the lowest first.
ghost use Rattle.std.specs.Prelude.{◌≡◌, ℕ, ◌≤◌, List, Result, Err, length, take, refl};
ghost use Rattle.std.proofs.Common.{lit≤};
ghost use Rattle.source.specs.Bytes.{val, le};
ghost use Rattle.source.specs.Content.{meaning};
ghost use Rattle.source.specs.Outcome.{Outcome};
ghost use Rattle.source.specs.declared.refusals.Refusal.{Refusal};
ghost use Rattle.scan.specs.Scans.{asked};

use source::{Refusal, Source};

pub trait Number: Copy {
    // How many bytes it has.
    ghost size: { ℕ };

    ghost bytes: { Self → List ℕ };

    // Whether a reading gave the number, or the refusal, that the definitions give.
    ghost is: { Result Self Refusal → Outcome ℕ → Type 0 };

    fn size() -> usize
        ensures { result ≡ size };

    // The number at `place`.
    fn at<S: Source>(source: &mut S, place: usize) -> Result<Self, Refusal>
        ensures same { S.Source.content source.new ≡ S.Source.content source.old }
        ensures value { is result (asked val (meaning (S.Source.content source.old)) place size) };

    // Its bytes, and zeros behind them.
    fn to_bytes(self) -> [u8; 4]
        ensures { take size result ≡ bytes self };

    ghost small: { size ≤ 4 };

    ghost refused: { (e : Refusal) → is (Err e) (Err e) };
}

impl Number for u16 {
    ghost size = { 2 };

    ghost bytes = { λ n. le 2 n };

    ghost is = { λ r o. r ≡ o };

    ghost small = { lit≤ tt };

    ghost refused = { λ e. refl };

    fn size() -> usize {
        2
    }

    #[tactic(auto, using(crate::proofs::Numbers::length_part, crate::proofs::Numbers::val_two), unfolding(crate::specs::Scans::asked, source::specs::Bytes::part))]
    fn at<S: Source>(source: &mut S, place: usize) -> Result<u16, Refusal> {
        let mut pair = [0u8; 2];
        source.fetch(place, &mut pair)?;
        Ok(u16::from_le_bytes(pair))
    }

    #[tactic(auto, using(crate::proofs::Numbers::le_two))]
    fn to_bytes(self) -> [u8; 4] {
        let [low, high] = self.to_le_bytes();
        [low, high, 0, 0]
    }
}

impl Number for u32 {
    ghost size = { 4 };

    ghost bytes = { λ n. le 4 n };

    ghost is = { λ r o. r ≡ o };

    ghost small = { lit≤ tt };

    ghost refused = { λ e. refl };

    fn size() -> usize {
        4
    }

    #[tactic(auto, using(crate::proofs::Numbers::length_part, crate::proofs::Numbers::val_four), unfolding(crate::specs::Scans::asked, source::specs::Bytes::part))]
    fn at<S: Source>(source: &mut S, place: usize) -> Result<u32, Refusal> {
        let mut four = [0u8; 4];
        source.fetch(place, &mut four)?;
        Ok(u32::from_le_bytes(four))
    }

    #[tactic(auto, using(crate::proofs::Numbers::le_four))]
    fn to_bytes(self) -> [u8; 4] {
        self.to_le_bytes()
    }
}
