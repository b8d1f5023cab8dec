// Where the properties of targets stand.
ghost use Rattle.std.specs.Prelude.{◌≡◌, ℕ, ◌≤◌, List, length};
ghost use Rattle.std.specs.List.{AllByRecursion};
ghost use Rattle.source.specs.Content.{meaning};
ghost use Rattle.frame.specs.declared.stages.Stage.TheVariants.{Version};
ghost use Rattle.index.specs.Keys.{key_of};
ghost use Rattle.property.specs.Indexing.{Carried};
ghost use Rattle.property.specs.Lists.{Property as Read, list_limit, list_at};
ghost use Rattle.message.specs.Sameness.{nth, row_holding, holding};
ghost use Rattle.form.specs.Targets.{Readable, Standing};
ghost use Rattle.lookup.specs.Finding.{message_in, table_in};
ghost use Rattle.lookup.specs.Listing.{CarriesAny, CarriesList, Reaches, KeyFound};

use crate::COUNT_SIZE;
use crate::targets::{attachment_rows, message_rows};
use attribute::ATT_RECIPIENTS;
use form::{ATTACHMENT_PROPERTIES, MESSAGE_PROPERTIES, Rows, index_list};
use index::{PropertyKey, PropertyRow, find};
use message::Target;
use property::{list_end, rows as rows_at};
use scan::Number;
use source::Source;

// Where the list with a number begins, of lists from `place` on.
fn list_start<S: Source>(source: &mut S, place: usize, end: usize, number: usize) -> usize
    requires { end ≤ length (meaning (S.Source.content source.old)) }
    ensures same { S.Source.content source.new ≡ S.Source.content source.old }
    ensures value { Reaches (list_at (meaning (S.Source.content source.old)) end) number place result }
{
    let mut here = place;
    for _ in 0..number {
        let Ok(next) = list_end(source, here, end) else {
            return here;
        };
        here = next;
    }
    here
}

// Indexes the list with a number in the table of recipients, and says how many properties it has.
fn row_list<S: Source>(
    source: &mut S,
    rows: &Rows,
    number: usize,
    lent: &mut [PropertyRow],
) -> Option<usize>
    requires room { list_limit ≤ length lent.old }
    requires sound { AllByRecursion (Standing (meaning (S.Source.content source.old))) rows.now }
    ensures same { S.Source.content source.new ≡ S.Source.content source.old }
    ensures value { CarriesList (meaning (S.Source.content source.old)) lent.new
        (nth (table_in (meaning (S.Source.content source.old)) rows.now) number) result }
{
    let _total = source.len();
    let row = rows.under(ATT_RECIPIENTS)?;
    let count = u32::at(source, row.place).ok()? as usize;
    if number >= count {
        return None;
    }
    let end = row.place + row.size;
    let start = list_start(source, row.place + COUNT_SIZE, end, number);
    let listed = rows_at(source, start, end, lent).ok()?;
    Some(listed.count)
}

// Indexes the properties of a target, and says how many there are, if the target is there.
pub fn properties<S: Source>(
    source: &mut S,
    target: Target,
    lent: &mut [PropertyRow],
) -> Option<usize>
    requires room { list_limit ≤ length lent.old }
    requires good { Readable (meaning (S.Source.content source.old)) 6 Version }
    ensures same { S.Source.content source.new ≡ S.Source.content source.old }
    ensures value { CarriesAny (meaning (S.Source.content source.old)) lent.new
        (holding (message_in (meaning (S.Source.content source.old))) target) result }
{
    match target {
        Target::Message => {
            let rows = message_rows(source);
            Some(index_list(source, rows.as_slice(), MESSAGE_PROPERTIES, lent))
        }
        Target::Row(number) => {
            let rows = message_rows(source);
            row_list(source, &rows, number, lent)
        }
        Target::Attachment(number) => {
            let rows = attachment_rows(source, number)?;
            Some(index_list(source, rows.as_slice(), ATTACHMENT_PROPERTIES, lent))
        }
    }
}

// The row of a key, among rows that carry properties.
pub fn find_key(rows: &[PropertyRow], key: &PropertyKey) -> Option<usize>
    ensures { (xs : List ℕ) (end : ℕ) (ps : List Read) → Carried xs end rows.now ps
        → KeyFound xs end rows.now ps (key_of key.now) result }
{
    let probe = PropertyRow {
        key: *key,
        number: 0,
        values: 0,
        next: 0,
    };
    find(rows, &probe)
}
