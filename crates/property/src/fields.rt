// The fields of a list: numbers, GUIDs, and bytes behind their size.
// The source and the end of its data stay two parameters: with a struct of both, each contract would have to say that the end stays.
ghost use Rattle.std.specs.Prelude.{◌≡◌, ◌+◌, ◌^◌, ◌<◌, ◌≤◌, length, IfOk, OnOk, ◌==◌, nat_le};
ghost use Rattle.source.specs.Content.{meaning};
ghost use Rattle.source.specs.Outcome.{need, over};
ghost use Rattle.source.specs.declared.refusals.Reason.TheVariants.{FieldEnd, LeftOver};
ghost use Rattle.property.specs.Fields.{padded, field, number_at, count_at, sized};
ghost use Rattle.property.specs.Rows.{sized_by};

use scan::Number;
use source::{Reason, Refusal, Source};

// Refuses a field that passes the end of the data, at the first byte of its property.
pub(crate) fn fits(end: usize, start: usize, place: usize, size: usize) -> Result<(), Refusal>
    ensures { result ≡ need (nat_le (place + size) end) FieldEnd start }
{
    if size > end || place > end - size {
        return Err(Refusal {
            reason: Reason::FieldEnd,
            place: start,
        });
    }
    Ok(())
}

// Refuses what is left between the place behind what was read and the end of the data.
pub(crate) fn ends_at(next: usize, end: usize) -> Result<(), Refusal>
    ensures { result ≡ need (next == end) LeftOver next }
{
    if next != end {
        return Err(Refusal {
            reason: Reason::LeftOver,
            place: next,
        });
    }
    Ok(())
}

// How many bytes `size` are with their padding.
pub fn padded(size: usize) -> usize
    requires { size < 2 ^ 32 }
    ensures { result ≡ padded size }
{
    size.next_multiple_of(4)
}

// The number at `place`.
#[tactic(auto, unfolding(crate::specs::Fields::number_at, crate::specs::Fields::field, scan::specs::Scans::asked))]
pub(crate) fn number<S: Source, N: Number>(
    source: &mut S,
    end: usize,
    start: usize,
    place: usize,
) -> Result<N, Refusal>
    requires { end ≤ length (meaning (S.Source.content source.old)) }
    ensures same { S.Source.content source.new ≡ S.Source.content source.old }
    ensures reads { N.is result (number_at (meaning (S.Source.content source.old)) end start place N.size) }
    ensures within { OnOk result (place + N.size ≤ end) }
{
    fits(end, start, place, N::size())?;
    N::at(source, place)
}

// The count at `place`, of no more than `limit`.
#[tactic(auto, unfolding(crate::specs::Fields::count_at))]
pub(crate) fn count_at<S: Source>(
    source: &mut S,
    end: usize,
    place: usize,
    limit: u32,
) -> Result<u32, Refusal>
    requires { end ≤ length (meaning (S.Source.content source.old)) }
    ensures same { S.Source.content source.new ≡ S.Source.content source.old }
    ensures reads { result ≡ count_at (meaning (S.Source.content source.old)) end place limit place }
    ensures within { OnOk result (place + 4 ≤ end) }
{
    let count: u32 = number(source, end, place, place)?;
    if count > limit {
        return Err(Refusal {
            reason: Reason::Limit,
            place,
        });
    }
    Ok(count)
}

// The GUID at `place`.
#[tactic(auto, unfolding(crate::specs::Fields::field, source::specs::Bytes::part))]
pub(crate) fn guid_at<S: Source>(
    source: &mut S,
    end: usize,
    start: usize,
    place: usize,
) -> Result<[u8; 16], Refusal>
    requires { end ≤ length (meaning (S.Source.content source.old)) }
    ensures same { S.Source.content source.new ≡ S.Source.content source.old }
    ensures reads { result ≡ field (meaning (S.Source.content source.old)) end start place 16 }
    ensures within { OnOk result (place + 16 ≤ end) }
{
    fits(end, start, place, 16)?;
    let mut guid = [0u8; 16];
    source.fetch(place, &mut guid)?;
    Ok(guid)
}

// The size at `place` of the bytes behind it, which end with their padding by `end`.
#[tactic(auto, unfolding(crate::specs::Fields::sized))]
pub(crate) fn size_at<S: Source>(
    source: &mut S,
    end: usize,
    start: usize,
    place: usize,
) -> Result<usize, Refusal>
    requires { end ≤ length (meaning (S.Source.content source.old)) }
    ensures same { S.Source.content source.new ≡ S.Source.content source.old }
    ensures reads { over (sized_by (meaning (S.Source.content source.old)) place) result ≡ sized (meaning (S.Source.content source.old)) end start place }
    ensures within { IfOk result (λ n. (n < 2 ^ 32) × (place + 4 + padded n ≤ end)) }
{
    let size = number::<S, u32>(source, end, start, place)? as usize;
    fits(end, start, place + 4, padded(size))?;
    Ok(size)
}
