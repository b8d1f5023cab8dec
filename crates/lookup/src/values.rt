// Where the values of a property stand.
ghost use Rattle.std.specs.Prelude.{◌≡◌, ℕ, ◌≤◌, Bool, List, length, Ok};
ghost use Rattle.source.specs.Content.{meaning};
ghost use Rattle.property.specs.declared.kinds.Kind.{Kind as Sort};
ghost use Rattle.property.specs.Fields.{At};
ghost use Rattle.property.specs.Kinds.{Value as Meant};
ghost use Rattle.property.specs.Lists.{Property as Read};
ghost use Rattle.property.specs.Rows.{Carries};
ghost use Rattle.property.specs.Values.{fixed_values, sized_value, sized_values};
ghost use Rattle.message.specs.Sameness.{nth};
ghost use Rattle.lookup.specs.Listing.{Reaches};
ghost use Rattle.lookup.specs.Values.{Behind, ValueStands, ValueThere};

use crate::COUNT_SIZE;
use index::PropertyRow;
use property::{padded, shape_of};
use scan::Number;
use source::Source;

// Some bytes of a stream.
#[derive(Clone, Copy)]
pub struct Span {
    pub place: usize,
    pub size: usize,
}

// The value with a number, of values of a width: one, or a count and so many.
fn fixed_at<S: Source>(
    source: &mut S,
    place: usize,
    width: u8,
    several: bool,
    number: usize,
) -> Option<Span>
    ensures same { S.Source.content source.new ≡ S.Source.content source.old }
    ensures value { (end start : ℕ) (k : Sort) (a : At (List Meant)) → end ≤ length (meaning (S.Source.content source.old))
        → fixed_values (meaning (S.Source.content source.old)) end start k width several place ≡ Ok a
        → ValueStands (meaning (S.Source.content source.old)) k (nth a.what number) result }
{
    let size = usize::from(width);
    if !several {
        return (number == 0).then_some(Span { place, size });
    }
    let _total = source.len();
    let count = u32::at(source, place).ok()?;
    if number >= count as usize {
        return None;
    }
    let place = place + COUNT_SIZE + number * padded(size);
    Some(Span { place, size })
}

// The place behind the value at `place`, which stands behind its size.
fn value_end<S: Source>(source: &mut S, place: usize) -> Option<usize>
    ensures same { S.Source.content source.new ≡ S.Source.content source.old }
    ensures value { Behind (meaning (S.Source.content source.old)) place result }
{
    let _total = source.len();
    let size = u32::at(source, place).ok()?;
    Some(place + COUNT_SIZE + padded(size as usize))
}

// The walk is that of `list_start`; one function for both would have to tell of any reading in its contract, which is no plainer.
// Where the value with a number stands, of values from `place` on, each behind its size.
fn value_start<S: Source>(source: &mut S, place: usize, number: usize) -> usize
    ensures same { S.Source.content source.new ≡ S.Source.content source.old }
    ensures value { (end start : ℕ) (k : Sort) → end ≤ length (meaning (S.Source.content source.old))
        → Reaches (sized_value (meaning (S.Source.content source.old)) end start k) number place result }
{
    let mut here = place;
    for _ in 0..number {
        let Some(next) = value_end(source, here) else {
            return here;
        };
        here = next;
    }
    here
}

// The value with a number, of a count of values and so many, each behind its size.
fn sized_at<S: Source>(source: &mut S, place: usize, number: usize) -> Option<Span>
    ensures same { S.Source.content source.new ≡ S.Source.content source.old }
    ensures value { (end start : ℕ) (k : Sort) (several : Bool) (a : At (List Meant)) → end ≤ length (meaning (S.Source.content source.old))
        → sized_values (meaning (S.Source.content source.old)) end start k several place ≡ Ok a
        → ValueStands (meaning (S.Source.content source.old)) k (nth a.what number) result }
{
    let count = u32::at(source, place).ok()? as usize;
    if number >= count {
        return None;
    }
    let _total = source.len();
    let start = value_start(source, place + COUNT_SIZE, number);
    let size = u32::at(source, start).ok()?;
    Some(Span {
        place: start + COUNT_SIZE,
        size: size as usize,
    })
}

// Where the value with a number stands, of the property that a row carries.
pub fn value_at<S: Source>(source: &mut S, row: &PropertyRow, number: usize) -> Option<Span>
    ensures same { S.Source.content source.new ≡ S.Source.content source.old }
    ensures value { (end : ℕ) (p : Read) → end ≤ length (meaning (S.Source.content source.old))
        → Carries (meaning (S.Source.content source.old)) end row.now p
        → ValueThere (meaning (S.Source.content source.old)) p.type (nth p.values number) result }
{
    let shape = shape_of(row.number)?;
    match shape.kind.width() {
        Some(width) => fixed_at(source, row.values, width, shape.several, number),
        None => sized_at(source, row.values, number),
    }
}
