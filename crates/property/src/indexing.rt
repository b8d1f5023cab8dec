// The index of a list: a row for each key, as the keys first come.
ghost use Rattle.std.specs.Prelude.{◌≡◌, ◌<◌, ◌≤◌, false, length, IfOk};
ghost use Rattle.source.specs.Content.{meaning};
ghost use Rattle.index.specs.Laws.{Lawful};
ghost use Rattle.property.specs.Fields.{repeated, data_end};
ghost use Rattle.property.specs.Indexing.{AddedAt, ListedBy, listed};
ghost use Rattle.property.specs.Lists.{property_at, same_property};

use crate::LIST_LIMIT;
use crate::fields::count_at;
use crate::lists::property_at;
use index::{PropertyRow, add};
use source::{Reason, Refusal, Source};

// How many rows an index has, and the place behind what was read.
#[derive(Clone, Copy)]
pub struct Listed {
    pub count: usize,
    pub next: usize,
}

// Adds the property at `place` to the first `used` rows.
fn add_at<S: Source>(
    source: &mut S,
    end: usize,
    place: usize,
    lent: &mut [PropertyRow],
    used: usize,
) -> Result<Listed, Refusal>
    requires { (end ≤ length (meaning (S.Source.content source.old))) × (used < length lent.old) }
    ensures same { S.Source.content source.new ≡ S.Source.content source.old }
    ensures reads { AddedAt (meaning (S.Source.content source.old)) end place used lent.old lent.new result }
    ensures within { IfOk result (λ l. l.next ≤ end) }
{
    let row = property_at(source, end, place)?;
    let count = add(lent, used, row).unwrap();
    Ok(Listed {
        count,
        next: row.next,
    })
}

// The index of `count` properties; a loop of its own, since rows go along besides the place.
#[tactic(auto, using(crate::proofs::Carrying::front_none))]
fn rows_of<S: Source>(
    source: &mut S,
    end: usize,
    count: u32,
    place: usize,
    lent: &mut [PropertyRow],
) -> Result<Listed, Refusal>
    requires { (end ≤ length (meaning (S.Source.content source.old))) × ((place ≤ end) × (count ≤ length lent.old)) }
    ensures same { S.Source.content source.new ≡ S.Source.content source.old }
    ensures reads { ListedBy (meaning (S.Source.content source.old)) end (repeated (property_at (meaning (S.Source.content source.old)) end) count place) lent.new result }
{
    let mut listed = Listed {
        count: 0,
        next: place,
    };
    for i in 0..count {
        listed = add_at(source, end, listed.next, lent, listed.count)?;
    }
    Ok(listed)
}

// The index of the list at `place`, in rows that are lent for as many properties as a list can have.
#[tactic(auto, unfolding(crate::specs::Fields::count_at, crate::specs::Indexing::listed, crate::specs::Lists::list_at))]
pub fn rows<S: Source>(
    source: &mut S,
    place: usize,
    end: usize,
    lent: &mut [PropertyRow],
) -> Result<Listed, Refusal>
    ensures same { S.Source.content source.new ≡ S.Source.content source.old }
    ensures reads { ListedBy (meaning (S.Source.content source.old)) (data_end (meaning (S.Source.content source.old)) end) (listed (meaning (S.Source.content source.old)) (data_end (meaning (S.Source.content source.old)) end) place (length lent.old)) lent.new result }
{
    if lent.len() < LIST_LIMIT as usize {
        return Err(Refusal {
            reason: Reason::ShortWork,
            place: 0,
        });
    }
    let last = end.min(source.len());
    let count = count_at(source, last, place, LIST_LIMIT)?;
    rows_of(source, last, count, place + 4, lent)
}

// A list's index keeps keys apart, in the order in which they first come, each with the first property that has it.
pub fn list_index_is_lawful() -> u8
    ensures { Lawful same_property false }
{
    0
}
