// Rows of a list of which one is replaced, added or left out, as they are written.
ghost use Rattle.std.specs.Prelude.{◌≡◌, ◌+◌, ◌≤◌, length};
ghost use Rattle.source.specs.Content.{meaning, source_limit};
ghost use Rattle.pen.specs.Pen.{Wrote};
ghost use Rattle.property.specs.Lists.{list_limit};
ghost use Rattle.listform.specs.Forms.{rows_form, number_behind, RowsFit};
ghost use Rattle.amend.specs.Cuts.{put_rows, cut_at, cut_of, Below, cut_count, CutFits, cut_form};

use crate::changes::Listing;
use index::{PropertyRow, find};
use listform::{FIRST_NAMED, write_rows_from};
use pen::Pen;
use source::Source;

// The rows before `front`, a row of the input if one is put, and the rows from `back` on.
#[derive(Clone, Copy)]
pub struct Cut {
    pub front: usize,
    pub put: Option<PropertyRow>,
    pub back: usize,
}

// The cut at the place that was found, or behind all `size` rows.
fn cut_at(size: usize, put: Option<PropertyRow>, found: Option<usize>) -> Cut
    requires { Below size found }
    ensures { result ≡ cut_at size put found }
{
    let (front, back) = match found {
        Some(i) => (i, i + 1),
        None => (size, size),
    };
    Cut { front, put, back }
}

// Where a change cuts the rows of a list: a replaced property keeps its place, and a new key goes to the end.
pub fn cut_of(rows: &[PropertyRow], listing: Listing) -> Cut
    ensures { result ≡ cut_of rows.now listing }
{
    match listing {
        Listing::Same => cut_at(rows.len(), None, None),
        Listing::With(row) => cut_at(rows.len(), Some(row), find(rows, &row)),
        Listing::Less(key) => {
            let probe = PropertyRow {
                key,
                number: 0,
                values: 0,
                next: 0,
            };
            cut_at(rows.len(), None, find(rows, &probe))
        }
    }
}

// How many rows there are then.
pub fn cut_count(size: usize, cut: &Cut) -> u32
    requires { (size ≤ list_limit) × ((cut.now.front ≤ size) × (cut.now.back ≤ size)) }
    ensures { result ≡ cut_count size cut.now }
{
    (cut.front + usize::from(cut.put.is_some()) + (size - cut.back)) as u32
}

// Writes what is put, if anything is, and gives the number of the next name.
fn write_put<T: Source>(
    input: &mut T,
    put: Option<PropertyRow>,
    number: u16,
    pen: &mut Pen<'_>,
) -> u16
    requires { (length (meaning (T.Source.content input.old)) ≤ source_limit) × ((RowsFit (meaning (T.Source.content input.old)) (put_rows put)) × (number + 1 ≤ 65535)) }
    ensures same { T.Source.content input.new ≡ T.Source.content input.old }
    ensures value { Wrote pen.old (rows_form (meaning (T.Source.content input.old)) number (put_rows put)) pen.new }
    ensures next { result ≡ number_behind number (put_rows put) }
    ensures small { result ≤ number + 1 }
{
    let Some(row) = put else {
        return number;
    };
    write_rows_from(input, &[row], number, pen)
}

// Writes the count and the rows that are left, with what is put among them.
pub fn write_cut<S: Source, T: Source>(
    source: &mut S,
    input: &mut T,
    rows: &[PropertyRow],
    cut: &Cut,
    pen: &mut Pen<'_>,
)
    requires { CutFits (meaning (S.Source.content source.old)) (meaning (T.Source.content input.old)) rows.now cut.now }
    ensures same { S.Source.content source.new ≡ S.Source.content source.old }
    ensures kept { T.Source.content input.new ≡ T.Source.content input.old }
    ensures value { Wrote pen.old (cut_form (meaning (S.Source.content source.old)) (meaning (T.Source.content input.old)) rows.now cut.now) pen.new }
{
    let _total = source.len();
    let _more = input.len();
    pen.put_le(cut_count(rows.len(), cut));
    let front = write_rows_from(source, &rows[0..cut.front], FIRST_NAMED, pen);
    let put = write_put(input, cut.put, front, pen);
    write_rows_from(source, &rows[cut.back..], put, pen);
}
