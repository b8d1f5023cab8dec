// The frame of the table of recipients with one row of it changed, added or left out; an empty table has none.
ghost use Rattle.std.specs.Prelude.{◌≡◌, ◌^◌, ◌<◌, ◌≤◌, [], map, length, Option};
ghost use Rattle.std.specs.List.{flat_map, AllByRecursion};
ghost use Rattle.source.specs.Content.{meaning};
ghost use Rattle.pen.specs.Pen.{Wrote};
ghost use Rattle.attribute.specs.Table.{recipients_id};
ghost use Rattle.property.specs.Lists.{list_limit, row_limit, indexed};
ghost use Rattle.stream.specs.Messages.{or_default, as_table};
ghost use Rattle.stream.specs.Writing.{write_entry, table_entries};
ghost use Rattle.form.specs.Holdings.{told_in};
ghost use Rattle.form.specs.Targets.{Standing};
ghost use Rattle.editing.specs.Amendments as spec;
ghost use Rattle.amend.specs.Changes.{RowingMeans};
ghost use Rattle.amend.specs.Tables.{turn_of, TurnMeans, added_bytes, count_after, TurnWritten, RowsWritten, TableRead};

use crate::changes::{Change, Listing};
use crate::cuts::{cut_of, write_cut};
use attribute::ATT_RECIPIENTS;
use form::{pen_close, pen_open, row_under};
use index::{AttributeRow, PropertyRow};
use listform::number_at;
use pen::Pen;
use property::rows as rows_at;
use source::Source;

// How many lists a table has, where the first begins, and where the data end.
#[derive(Clone, Copy)]
pub struct Tabled {
    pub count: u32,
    pub place: usize,
    pub end: usize,
}

// What becomes of the row `i`: it is left out, or written with a change.
fn turn_of(rowing: Change<Listing>, i: usize) -> Option<Listing>
    ensures { result ≡ turn_of rowing i }
{
    match rowing {
        Change::Removed(r) if i == r => None,
        Change::Changed(r, listing) if i == r => Some(listing),
        _ => Some(Listing::Same),
    }
}

// Writes the list at `place` with its change, or leaves it out, and gives the place behind it, where there is one.
fn write_turn<S: Source, T: Source>(
    source: &mut S,
    input: &mut T,
    turn: Option<Listing>,
    place: usize,
    end: usize,
    lent: &mut [PropertyRow],
    pen: &mut Pen<'_>,
) -> Option<usize>
    requires within { end ≤ length (meaning (S.Source.content source.old)) }
    requires room { list_limit ≤ length lent.old }
    requires meant { (t : Option spec.Listing) × TurnMeans (meaning (T.Source.content input.old)) turn t }
    ensures same { S.Source.content source.new ≡ S.Source.content source.old }
    ensures kept { T.Source.content input.new ≡ T.Source.content input.old }
    ensures value { TurnWritten (meaning (S.Source.content source.old)) (meaning (T.Source.content input.old)) turn place end pen.old pen.new result }
{
    let Ok(listed) = rows_at(source, place, end, lent) else {
        pen.here = None;
        return None;
    };
    let Some(listing) = turn else {
        return Some(listed.next);
    };
    let found = &lent[0..listed.count];
    write_cut(source, input, found, &cut_of(found, listing), pen);
    Some(listed.next)
}

// Writes the rows of a table that are left, one of them changed.
fn write_turns<S: Source, T: Source>(
    source: &mut S,
    input: &mut T,
    rowing: Change<Listing>,
    table: Tabled,
    lent: &mut [PropertyRow],
    pen: &mut Pen<'_>,
)
    requires within { table.end ≤ length (meaning (S.Source.content source.old)) }
    requires room { list_limit ≤ length lent.old }
    requires meant { (ρ : spec.Rowing) × RowingMeans (meaning (T.Source.content input.old)) rowing ρ }
    ensures same { S.Source.content source.new ≡ S.Source.content source.old }
    ensures kept { T.Source.content input.new ≡ T.Source.content input.old }
    ensures value { RowsWritten (meaning (S.Source.content source.old)) (meaning (T.Source.content input.old)) rowing table.count table.place table.end pen.old pen.new }
{
    let mut read = table.place;
    for i in 0..table.count {
        let turn = turn_of(rowing, i as usize);
        let Some(next) = write_turn(source, input, turn, read, table.end, lent, pen) else {
            return;
        };
        read = next;
    }
}

// The table that stands under the recipients' id; one without rows where there is no frame.
fn table_in<S: Source>(source: &mut S, rows: &[AttributeRow]) -> Tabled
    requires { AllByRecursion (Standing (meaning (S.Source.content source.old))) rows.now }
    ensures same { S.Source.content source.new ≡ S.Source.content source.old }
    ensures value { TableRead (meaning (S.Source.content source.old)) result
        (or_default (told_in as_table recipients_id (meaning (S.Source.content source.old)) rows.now) []) }
{
    let _total = source.len();
    let Some(row) = row_under(rows, ATT_RECIPIENTS) else {
        return Tabled {
            count: 0,
            place: 0,
            end: 0,
        };
    };
    let count = number_at(source, row.place);
    Tabled {
        count,
        place: row.place + 4,
        end: row.place + row.size,
    }
}

// How many rows there are then.
fn count_after(rowing: Change<Listing>, count: u32) -> u32
    requires { count ≤ row_limit }
    ensures { result ≡ count_after rowing count }
{
    match rowing {
        Change::Added => count + 1,
        Change::Removed(r) if r < count as usize => count - 1,
        _ => count,
    }
}

// Writes a row without properties, where one is added.
fn write_added(rowing: Change<Listing>, pen: &mut Pen<'_>)
    ensures { Wrote pen.old (added_bytes rowing) pen.new }
{
    if let Change::Added = rowing {
        pen.put_le(0u32);
    }
}

// The frame of the changed table of recipients.
pub fn write_changed_recipients<S: Source, T: Source>(
    source: &mut S,
    input: &mut T,
    rows: &[AttributeRow],
    rowing: Change<Listing>,
    lent: &mut [PropertyRow],
    pen: &mut Pen<'_>,
)
    requires fits { length pen.old.out.now < 2 ^ 32 }
    requires room { list_limit ≤ length lent.old }
    requires sound { AllByRecursion (Standing (meaning (S.Source.content source.old))) rows.now }
    requires meant { (ρ : spec.Rowing) × RowingMeans (meaning (T.Source.content input.old)) rowing ρ }
    ensures same { S.Source.content source.new ≡ S.Source.content source.old }
    ensures kept { T.Source.content input.new ≡ T.Source.content input.old }
    ensures value { (ρ : spec.Rowing) → RowingMeans (meaning (T.Source.content input.old)) rowing ρ
        → Wrote pen.old
        (flat_map write_entry (table_entries (spec.rows_after ρ (map indexed (or_default (told_in as_table recipients_id (meaning (S.Source.content source.old)) rows.now) [])))))
        pen.new }
{
    let table = table_in(source, rows);
    let count = count_after(rowing, table.count);
    if count == 0 {
        return;
    }
    let start = pen_open(pen);
    pen.put_le(count);
    write_turns(source, input, rowing, table, lent, pen);
    write_added(rowing, pen);
    pen_close(pen, start, 1, ATT_RECIPIENTS);
}
