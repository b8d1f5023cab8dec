// Lists and tables, indexed and written.
ghost use Rattle.std.specs.Prelude.{◌≡◌, ◌≤◌, length};
ghost use Rattle.source.specs.Content.{meaning, source_limit};
ghost use Rattle.pen.specs.Pen.{SameSlice};
ghost use Rattle.property.specs.Lists.{list_limit};
ghost use Rattle.listform.specs.Written.{ListWritten, TableWritten, OneWritten, AllWritten};

use crate::fields::number_at;
use crate::rows::write_rows;
use index::PropertyRow;
use pen::Pen;
use property::{LIST_LIMIT, rows};
use source::Source;

// Writes the list at `place` and gives the place behind it, where there is one.
fn write_list_at<S: Source>(
    source: &mut S,
    place: usize,
    end: usize,
    lent: &mut [PropertyRow],
    pen: &mut Pen<'_>,
) -> Option<usize>
    requires { (end ≤ length (meaning (S.Source.content source.old))) × ((length (meaning (S.Source.content source.old)) ≤ source_limit) × (list_limit ≤ length lent.old)) }
    ensures same { S.Source.content source.new ≡ S.Source.content source.old }
    ensures slice { SameSlice pen.old pen.new }
    ensures value { OneWritten (meaning (S.Source.content source.old)) place end pen.old pen.new result }
{
    let Ok(listed) = rows(source, place, end, lent) else {
        pen.here = None;
        return None;
    };
    write_rows(source, &lent[0..listed.count], pen);
    Some(listed.next)
}

// Writes the normal form of the list that the data from `base` to `end` are, where they are one.
pub fn write_list<S: Source>(
    source: &mut S,
    base: usize,
    end: usize,
    lent: &mut [PropertyRow],
    pen: &mut Pen<'_>,
)
    ensures same { S.Source.content source.new ≡ S.Source.content source.old }
    ensures slice { SameSlice pen.old pen.new }
    ensures value { ListWritten (meaning (S.Source.content source.old)) base end (length lent.old) pen.old pen.new }
{
    if end > source.len() || lent.len() < LIST_LIMIT as usize {
        pen.here = None;
        return;
    }
    write_list_at(source, base, end, lent, pen);
}

// Writes `count` lists, each indexed in the same rows.
fn write_lists<S: Source>(
    source: &mut S,
    count: u32,
    place: usize,
    end: usize,
    lent: &mut [PropertyRow],
    pen: &mut Pen<'_>,
)
    requires { (end ≤ length (meaning (S.Source.content source.old))) × ((length (meaning (S.Source.content source.old)) ≤ source_limit) × (list_limit ≤ length lent.old)) }
    ensures same { S.Source.content source.new ≡ S.Source.content source.old }
    ensures slice { SameSlice pen.old pen.new }
    ensures value { AllWritten (meaning (S.Source.content source.old)) count place end pen.old pen.new }
{
    let mut read = place;
    for _ in 0..count {
        let Some(next) = write_list_at(source, read, end, lent, pen) else {
            return;
        };
        read = next;
    }
}

// Writes the normal form of the table that the data from `base` to `end` are, where they are one.
pub fn write_table<S: Source>(
    source: &mut S,
    base: usize,
    end: usize,
    lent: &mut [PropertyRow],
    pen: &mut Pen<'_>,
)
    ensures same { S.Source.content source.new ≡ S.Source.content source.old }
    ensures slice { SameSlice pen.old pen.new }
    ensures value { TableWritten (meaning (S.Source.content source.old)) base end (length lent.old) pen.old pen.new }
{
    if end > source.len() || lent.len() < LIST_LIMIT as usize || end < 4 || base > end - 4 {
        pen.here = None;
        return;
    }
    let count = number_at(source, base);
    pen.put_le(count);
    write_lists(source, count, base + 4, end, lent, pen);
}
