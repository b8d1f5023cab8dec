// Writing the values of a property: of a fixed width, or each behind its size.
ghost use Rattle.std.specs.Prelude.{◌≡◌, ◌+◌, ◌≤◌, ◌++◌, length, Some};
ghost use Rattle.source.specs.Bytes.{part, le};
ghost use Rattle.source.specs.Content.{meaning, source_limit};
ghost use Rattle.pen.specs.Pen.{Wrote};
ghost use Rattle.property.specs.Fields.{filled};
ghost use Rattle.property.specs.Kinds.{width, value, normal};
ghost use Rattle.listform.specs.Forms.{number_there, fixed_form, fixed_next, sized_form, sized_next, values_form, ValuesFit};
ghost use Rattle.listform.specs.Walks.{walked, Within};

use crate::fields::{flag_at, gap, number_at, pen_part};
use pen::Pen;
use property::{Kind, Shape};
use source::Source;

// Writes the value of `size` bytes at `place`, without its padding.
fn write_fixed<S: Source>(source: &mut S, kind: Kind, size: u8, place: usize, pen: &mut Pen<'_>)
    requires { (width kind ≡ Some size) × (place + size ≤ length (meaning (S.Source.content source.old))) }
    ensures same { S.Source.content source.new ≡ S.Source.content source.old }
    ensures value { Wrote pen.old (normal (value kind (part (meaning (S.Source.content source.old)) place size))) pen.new }
{
    match kind {
        Kind::YesNo => pen.put_le(flag_at(source, place)),
        _ => pen.put_from(source, place, usize::from(size)),
    }
}

// Writes `count` values of `size` bytes, each padded.
#[tactic(auto, using(crate::proofs::WalkSteps::within_now))]
fn fixed_run<S: Source>(
    source: &mut S,
    kind: Kind,
    size: u8,
    count: u32,
    place: usize,
    pen: &mut Pen<'_>,
)
    requires { (width kind ≡ Some size) × ((length (meaning (S.Source.content source.old)) ≤ source_limit) × (Within (length (meaning (S.Source.content source.old))) (fixed_next size) count place)) }
    ensures same { S.Source.content source.new ≡ S.Source.content source.old }
    ensures value { Wrote pen.old (walked (fixed_form (meaning (S.Source.content source.old)) kind size) (fixed_next size) count place) pen.new }
{
    let wide = usize::from(size);
    let pad = gap(wide);
    let mut read = place;
    for _ in 0..count {
        write_fixed(source, kind, size, read, pen);
        pen.put_zeros(pad);
        read += wide + pad;
    }
}

// Writes one value of a fixed width, or a count and so many.
#[tactic(auto, unfolding(crate::specs::Forms::ValuesFit, crate::specs::Forms::values_form))]
fn fixed_values<S: Source>(
    source: &mut S,
    kind: Kind,
    size: u8,
    several: bool,
    place: usize,
    pen: &mut Pen<'_>,
)
    requires { (width kind ≡ Some size) × ((length (meaning (S.Source.content source.old)) ≤ source_limit) × (ValuesFit (meaning (S.Source.content source.old)) (Some size) several place)) }
    ensures same { S.Source.content source.new ≡ S.Source.content source.old }
    ensures value { Wrote pen.old (values_form (meaning (S.Source.content source.old)) (Some size) kind several place) pen.new }
{
    if !several {
        fixed_run(source, kind, size, 1, place, pen);
        return;
    }
    let count = number_at(source, place);
    pen.put_le(count);
    fixed_run(source, kind, size, count, place + 4, pen);
}

// Writes `size` and so many bytes from `place` on, padded.
fn write_sized<S: Source>(source: &mut S, size: u32, place: usize, pen: &mut Pen<'_>)
    requires { place + size ≤ length (meaning (S.Source.content source.old)) }
    ensures same { S.Source.content source.new ≡ S.Source.content source.old }
    ensures value { Wrote pen.old (le 4 size ++ filled (part (meaning (S.Source.content source.old)) place size)) pen.new }
{
    pen.put_le(size);
    pen_part(source, place, size as usize, pen);
}

// Writes `count` values, each behind its size.
// A loop of its own: one that takes the step as a closure would need a longer contract than both.
#[tactic(auto, using(crate::proofs::WalkSteps::within_now))]
fn sized_run<S: Source>(source: &mut S, count: u32, place: usize, pen: &mut Pen<'_>)
    requires { (length (meaning (S.Source.content source.old)) ≤ source_limit) × (Within (length (meaning (S.Source.content source.old))) (sized_next (meaning (S.Source.content source.old))) count place) }
    ensures same { S.Source.content source.new ≡ S.Source.content source.old }
    ensures value { Wrote pen.old (walked (sized_form (meaning (S.Source.content source.old))) (sized_next (meaning (S.Source.content source.old))) count place) pen.new }
{
    let mut read = place;
    for _ in 0..count {
        let size = number_at(source, read);
        write_sized(source, size, read + 4, pen);
        read += 4 + size as usize + gap(size as usize);
    }
}

// Writes a count and so many values, each behind its size.
fn sized_values<S: Source>(source: &mut S, place: usize, pen: &mut Pen<'_>)
    requires { (length (meaning (S.Source.content source.old)) ≤ source_limit) × ((place + 4 ≤ length (meaning (S.Source.content source.old))) × (Within (length (meaning (S.Source.content source.old))) (sized_next (meaning (S.Source.content source.old))) (number_there (meaning (S.Source.content source.old)) place) (place + 4))) }
    ensures same { S.Source.content source.new ≡ S.Source.content source.old }
    ensures value { Wrote pen.old (le 4 (number_there (meaning (S.Source.content source.old)) place) ++ walked (sized_form (meaning (S.Source.content source.old))) (sized_next (meaning (S.Source.content source.old))) (number_there (meaning (S.Source.content source.old)) place) (place + 4)) pen.new }
{
    let count = number_at(source, place);
    pen.put_le(count);
    sized_run(source, count, place + 4, pen);
}

// Writes the values at `place`.
#[tactic(auto, unfolding(crate::specs::Forms::ValuesFit, crate::specs::Forms::values_form))]
pub fn write_values<S: Source>(source: &mut S, shape: Shape, place: usize, pen: &mut Pen<'_>)
    requires { (length (meaning (S.Source.content source.old)) ≤ source_limit) × (ValuesFit (meaning (S.Source.content source.old)) (width shape.kind) shape.several place) }
    ensures same { S.Source.content source.new ≡ S.Source.content source.old }
    ensures value { Wrote pen.old (values_form (meaning (S.Source.content source.old)) (width shape.kind) shape.kind shape.several place) pen.new }
{
    match shape.kind.width() {
        Some(size) => fixed_values(source, shape.kind, size, shape.several, place, pen),
        None => sized_values(source, place, pen),
    }
}
