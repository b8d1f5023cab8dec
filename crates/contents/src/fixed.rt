// Parts of a source that have a fixed size.
ghost use Rattle.std.specs.Prelude.{◌≡◌, ◌≤◌, is_some};
ghost use Rattle.source.specs.Content.{meaning};
ghost use Rattle.source.specs.Outcome.{over};
ghost use Rattle.scan.specs.Scans.{asked};
ghost use Rattle.contents.specs.Options.{exactly, number};

use source::{Reason, Refusal, Source};

// Refuses a part that goes past the end.
#[tactic(auto, unfolding(scan::specs::Scans::asked))]
pub(crate) fn reach<S: Source>(source: &S, place: usize, size: usize) -> Result<(), Refusal>
    ensures { result ≡ asked (λ _. tt) (meaning (S.Source.content source.now)) place size }
{
    let total = source.len();
    if place > total || size > total - place {
        return Err(Refusal {
            reason: Reason::SourceEnd,
            place: 0,
        });
    }
    Ok(())
}

// Answers the same of every part that is there.
#[tactic(auto, unfolding(scan::specs::Scans::asked))]
pub(crate) fn of_any<S: Source>(
    source: &S,
    place: usize,
    size: usize,
    answer: bool,
) -> Result<bool, Refusal>
    ensures { result ≡ asked (λ _. answer) (meaning (S.Source.content source.now)) place size }
{
    reach(source, place, size)?;
    Ok(answer)
}

// Whether something was read.
pub(crate) fn present<T: Drop>(read: Result<Option<T>, Refusal>) -> Result<bool, Refusal>
    ensures { result ≡ over is_some read }
{
    Ok(read?.is_some())
}

// The bytes of a part, where there are N.
#[tactic(auto, using(scan::proofs::Numbers::length_part), unfolding(crate::specs::Options::exactly, scan::specs::Scans::asked, source::specs::Bytes::part))]
pub(crate) fn exactly<S: Source, const N: usize>(
    source: &mut S,
    place: usize,
    size: usize,
) -> Result<Option<[u8; N]>, Refusal>
    ensures same { S.Source.content source.new ≡ S.Source.content source.old }
    ensures value { result ≡ asked (exactly N) (meaning (S.Source.content source.old)) place size }
{
    reach(source, place, size)?;
    if size != N {
        return Ok(None);
    }
    let mut bytes = [0u8; N];
    source.fetch(place, &mut bytes)?;
    Ok(Some(bytes))
}

// The number that a part of `width` bytes means; one function for both widths, since the definitions count by a width.
#[tactic(auto, using(scan::proofs::Numbers::length_part), unfolding(crate::specs::Options::exactly, scan::specs::Scans::asked, source::specs::Bytes::part))]
pub(crate) fn number<S: Source>(
    source: &mut S,
    width: usize,
    place: usize,
    size: usize,
) -> Result<Option<u32>, Refusal>
    requires { width ≤ 4 }
    ensures same { S.Source.content source.new ≡ S.Source.content source.old }
    ensures value { result ≡ asked (number width) (meaning (S.Source.content source.old)) place size }
{
    reach(source, place, size)?;
    if size != width {
        return Ok(None);
    }
    let mut four = [0u8; 4];
    source.fetch(place, &mut four[0..width])?;
    Ok(Some(u32::from_le_bytes(four)))
}
