// Properties, lists of them, and tables of lists.
ghost use Rattle.std.specs.Prelude.{◌≡◌, ◌≤◌, length, IfOk};
ghost use Rattle.source.specs.Content.{meaning};
ghost use Rattle.property.specs.Fields.{behind, done, data_end};
ghost use Rattle.property.specs.Lists.{property_at, list_at, table_at, one_property, property_list, recipient_table};
ghost use Rattle.property.specs.Rows.{ReadAt, ReadOne};

use crate::fields::{count_at, ends_at, number};
use crate::names::key_at;
use crate::repeats::behind_each;
use crate::shape_of;
use crate::values::values_at;
use index::PropertyRow;
use source::{Reason, Refusal, Source};

// The most properties of a list.
pub const LIST_LIMIT: u32 = 1024;

// The most lists of a table.
pub const ROW_LIMIT: u32 = 1024;

// The property at `place`.
#[tactic(auto, unfolding(crate::specs::Lists::property_at, crate::specs::Lists::property_from))]
pub(crate) fn property_at<S: Source>(
    source: &mut S,
    end: usize,
    place: usize,
) -> Result<PropertyRow, Refusal>
    requires { end ≤ length (meaning (S.Source.content source.old)) }
    ensures same { S.Source.content source.new ≡ S.Source.content source.old }
    ensures reads { ReadAt (meaning (S.Source.content source.old)) end (property_at (meaning (S.Source.content source.old)) end place) result }
    ensures within { IfOk result (λ row. row.next ≤ end) }
{
    let number: u16 = number(source, end, place, place)?;
    let shape = shape_of(number).ok_or(Refusal {
        reason: Reason::FieldRule,
        place,
    })?;
    let found = key_at(source, end, place, place + 2)?;
    let next = values_at(source, end, place, shape, found.next)?;
    Ok(PropertyRow {
        key: found.key,
        number,
        values: found.next,
        next,
    })
}

// The place behind the list at `place`.
#[tactic(auto, unfolding(crate::specs::Fields::count_at, crate::specs::Lists::list_at))]
fn list_at<S: Source>(source: &mut S, end: usize, place: usize) -> Result<usize, Refusal>
    requires { end ≤ length (meaning (S.Source.content source.old)) }
    ensures same { S.Source.content source.new ≡ S.Source.content source.old }
    ensures reads { result ≡ behind (list_at (meaning (S.Source.content source.old)) end place) }
    ensures within { IfOk result (λ n. n ≤ end) }
{
    let count = count_at(source, end, place, LIST_LIMIT)?;
    behind_each(source, end, count, place + 4, |source, here| {
        Ok(property_at(source, end, here)?.next)
    })
}

// The place behind the table at `place`.
#[tactic(auto, unfolding(crate::specs::Fields::count_at, crate::specs::Lists::table_at))]
fn table_at<S: Source>(source: &mut S, end: usize, place: usize) -> Result<usize, Refusal>
    requires { end ≤ length (meaning (S.Source.content source.old)) }
    ensures same { S.Source.content source.new ≡ S.Source.content source.old }
    ensures reads { result ≡ behind (table_at (meaning (S.Source.content source.old)) end place) }
    ensures within { IfOk result (λ n. n ≤ end) }
{
    let count = count_at(source, end, place, ROW_LIMIT)?;
    behind_each(source, end, count, place + 4, |source, here| {
        list_at(source, end, here)
    })
}

// The place behind the list at `place`, in data that end at `end`.
pub fn list_end<S: Source>(source: &mut S, place: usize, end: usize) -> Result<usize, Refusal>
    ensures same { S.Source.content source.new ≡ S.Source.content source.old }
    ensures reads { result ≡ behind (list_at (meaning (S.Source.content source.old)) (data_end (meaning (S.Source.content source.old)) end) place) }
{
    let last = end.min(source.len());
    list_at(source, last, place)
}

// The property at `place` of a list whose data end at `end`.
pub fn read_property<S: Source>(
    source: &mut S,
    place: usize,
    end: usize,
) -> Result<PropertyRow, Refusal>
    ensures same { S.Source.content source.new ≡ S.Source.content source.old }
    ensures reads { ReadAt (meaning (S.Source.content source.old)) (data_end (meaning (S.Source.content source.old)) end) (property_at (meaning (S.Source.content source.old)) (data_end (meaning (S.Source.content source.old)) end) place) result }
{
    let last = end.min(source.len());
    property_at(source, last, place)
}

// The data from `base` to `end` as one property.
#[tactic(auto, unfolding(crate::specs::Lists::one_property, crate::specs::Fields::whole))]
pub fn one_property<S: Source>(
    source: &mut S,
    base: usize,
    end: usize,
) -> Result<PropertyRow, Refusal>
    ensures same { S.Source.content source.new ≡ S.Source.content source.old }
    ensures reads { ReadOne (meaning (S.Source.content source.old)) (data_end (meaning (S.Source.content source.old)) end) (one_property (meaning (S.Source.content source.old)) base (data_end (meaning (S.Source.content source.old)) end)) result }
{
    let last = end.min(source.len());
    let row = property_at(source, last, base)?;
    ends_at(row.next, last)?;
    Ok(row)
}

// Judges the data from `base` to `end` as one list.
#[tactic(auto, unfolding(crate::specs::Lists::property_list, crate::specs::Fields::whole))]
pub fn property_list<S: Source>(source: &mut S, base: usize, end: usize) -> Result<(), Refusal>
    ensures same { S.Source.content source.new ≡ S.Source.content source.old }
    ensures reads { result ≡ done (property_list (meaning (S.Source.content source.old)) base (data_end (meaning (S.Source.content source.old)) end)) }
{
    let last = end.min(source.len());
    let next = list_at(source, last, base)?;
    ends_at(next, last)
}

// Judges the data from `base` to `end` as a table: a count of lists, and so many.
#[tactic(auto, unfolding(crate::specs::Lists::recipient_table, crate::specs::Fields::whole))]
pub fn recipient_table<S: Source>(source: &mut S, base: usize, end: usize) -> Result<(), Refusal>
    ensures same { S.Source.content source.new ≡ S.Source.content source.old }
    ensures reads { result ≡ done (recipient_table (meaning (S.Source.content source.old)) base (data_end (meaning (S.Source.content source.old)) end)) }
{
    let last = end.min(source.len());
    let next = table_at(source, last, base)?;
    ends_at(next, last)
}
