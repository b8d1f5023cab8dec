// The values of a property: of a fixed width, or each behind its size.
ghost use Rattle.std.specs.Prelude.{◌≡◌, ◌+◌, ◌≤◌, length, IfOk, Ok};
ghost use Rattle.source.specs.Bytes.{part};
ghost use Rattle.source.specs.Content.{meaning};
ghost use Rattle.property.specs.declared.kinds.Kind.{Kind as Sort};
ghost use Rattle.property.specs.Fields.{behind};
ghost use Rattle.property.specs.Kinds.{admits};
ghost use Rattle.property.specs.Values.{run_end, fixed_values, sized_value, sized_values, values_at};

use crate::fields::{fits, number, padded, size_at};
use crate::repeats::behind_each;
use crate::{Kind, Shape};
use scan::{is_text8, is_text16};
use source::{Reason, Refusal, Source};

// Whether the `size` bytes from `place` on may be a value of a kind.
#[tactic(auto, using(scan::proofs::Numbers::length_part), unfolding(scan::specs::Scans::asked))]
fn admitted<S: Source>(
    source: &mut S,
    kind: Kind,
    place: usize,
    size: usize,
) -> Result<bool, Refusal>
    requires { place + size ≤ length (meaning (S.Source.content source.old)) }
    ensures same { S.Source.content source.new ≡ S.Source.content source.old }
    ensures value { result ≡ Ok (admits kind (part (meaning (S.Source.content source.old)) place size)) }
{
    match kind {
        Kind::String8 => is_text8(source, place, size),
        Kind::String16 => is_text16(source, place, size),
        Kind::Object => Ok(size >= 16),
        Kind::Fixed(_) | Kind::YesNo | Kind::Binary => Ok(true),
    }
}

// The place behind `count` values of `width` bytes, each padded.
#[tactic(auto, unfolding(crate::specs::Values::run_end))]
fn run_end(end: usize, start: usize, width: u8, count: u32, place: usize) -> Result<usize, Refusal>
    ensures reads { result ≡ run_end end start width count place }
    ensures within { IfOk result (λ n. n ≤ end) }
{
    let all = count as usize * padded(usize::from(width));
    fits(end, start, place, all)?;
    Ok(place + all)
}

// The place behind one value of a fixed width, or behind a count and so many.
#[tactic(auto, using(crate::proofs::Runs::run_all), unfolding(crate::specs::Values::fixed_values))]
fn fixed_values<S: Source>(
    source: &mut S,
    end: usize,
    start: usize,
    width: u8,
    several: bool,
    place: usize,
) -> Result<usize, Refusal>
    requires { (end ≤ length (meaning (S.Source.content source.old))) × (place ≤ end) }
    ensures same { S.Source.content source.new ≡ S.Source.content source.old }
    ensures reads { (k : Sort) → result ≡ behind (fixed_values (meaning (S.Source.content source.old)) end start k width several place) }
    ensures within { IfOk result (λ n. n ≤ end) }
{
    if !several {
        return run_end(end, start, width, 1, place);
    }
    let count: u32 = number(source, end, start, place)?;
    run_end(end, start, width, count, place + 4)
}

// The place behind the value at `place`, behind its size.
#[tactic(auto, unfolding(crate::specs::Values::sized_value))]
fn value_at<S: Source>(
    source: &mut S,
    end: usize,
    start: usize,
    kind: Kind,
    place: usize,
) -> Result<usize, Refusal>
    requires { end ≤ length (meaning (S.Source.content source.old)) }
    ensures same { S.Source.content source.new ≡ S.Source.content source.old }
    ensures reads { result ≡ behind (sized_value (meaning (S.Source.content source.old)) end start kind place) }
    ensures within { IfOk result (λ n. n ≤ end) }
{
    let n = size_at(source, end, start, place)?;
    let good = admitted(source, kind, place + 4, n)?;
    if !good {
        return Err(Refusal {
            reason: Reason::FieldRule,
            place: start,
        });
    }
    Ok(place + 4 + padded(n))
}

// The place behind a count and so many values, each behind its size.
#[tactic(auto, unfolding(crate::specs::Values::sized_values))]
fn sized_values<S: Source>(
    source: &mut S,
    end: usize,
    start: usize,
    kind: Kind,
    several: bool,
    place: usize,
) -> Result<usize, Refusal>
    requires { end ≤ length (meaning (S.Source.content source.old)) }
    ensures same { S.Source.content source.new ≡ S.Source.content source.old }
    ensures reads { result ≡ behind (sized_values (meaning (S.Source.content source.old)) end start kind several place) }
    ensures within { IfOk result (λ n. n ≤ end) }
{
    let count: u32 = number(source, end, start, place)?;
    let right = if several { count >= 1 } else { count == 1 };
    if !right {
        return Err(Refusal {
            reason: Reason::FieldRule,
            place: start,
        });
    }
    behind_each(source, end, count, place + 4, |source, here| {
        value_at(source, end, start, kind, here)
    })
}

// The place behind the values at `place`.
#[tactic(auto, unfolding(crate::specs::Values::values_at))]
pub(crate) fn values_at<S: Source>(
    source: &mut S,
    end: usize,
    start: usize,
    shape: Shape,
    place: usize,
) -> Result<usize, Refusal>
    requires { (end ≤ length (meaning (S.Source.content source.old))) × (place ≤ end) }
    ensures same { S.Source.content source.new ≡ S.Source.content source.old }
    ensures reads { result ≡ behind (values_at (meaning (S.Source.content source.old)) end start shape place) }
    ensures within { IfOk result (λ n. n ≤ end) }
{
    match shape.kind.width() {
        Some(width) => fixed_values(source, end, start, width, shape.several, place),
        None => sized_values(source, end, start, shape.kind, shape.several, place),
    }
}
