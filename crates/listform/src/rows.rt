// Writing the rows of an index.
ghost use Rattle.std.specs.Prelude.{◌≡◌, ◌+◌, ◌≤◌, ◌++◌, length};
ghost use Rattle.source.specs.Bytes.{le};
ghost use Rattle.source.specs.Content.{meaning, source_limit};
ghost use Rattle.pen.specs.Pen.{Wrote};
ghost use Rattle.property.specs.Lists.{list_limit};
ghost use Rattle.property.specs.Names.{first_named};
ghost use Rattle.listform.specs.Forms.{row_form, rows_form, number_behind, RowFits, RowsFit};

use crate::keys::{after_key, pen_key};
use crate::values::write_values;
use index::PropertyRow;
use pen::Pen;
use property::{FIRST_NAMED, shape_of};
use source::Source;

// Writes a type, a key and the values.
fn write_row<S: Source>(source: &mut S, row: &PropertyRow, number: u16, pen: &mut Pen<'_>)
    requires { (length (meaning (S.Source.content source.old)) ≤ source_limit) × (RowFits (meaning (S.Source.content source.old)) row.now) }
    ensures same { S.Source.content source.new ≡ S.Source.content source.old }
    ensures value { Wrote pen.old (row_form (meaning (S.Source.content source.old)) number row.now) pen.new }
{
    pen.put_le(row.number);
    pen_key(&row.key, number, pen);
    let shape = shape_of(row.number).unwrap();
    write_values(source, shape, row.values, pen);
}

// Writes rows, whose names are numbered from `first` on as they come, and gives the number of the next name.
#[tactic(auto, using(crate::proofs::RowForms::fit_at))]
pub fn write_rows_from<S: Source>(
    source: &mut S,
    rows: &[PropertyRow],
    first: u16,
    pen: &mut Pen<'_>,
) -> u16
    requires { (length (meaning (S.Source.content source.old)) ≤ source_limit) × ((RowsFit (meaning (S.Source.content source.old)) rows.now) × (first + length rows.now ≤ 65535)) }
    ensures same { S.Source.content source.new ≡ S.Source.content source.old }
    ensures value { Wrote pen.old (rows_form (meaning (S.Source.content source.old)) first rows.now) pen.new }
    ensures next { result ≡ number_behind first rows.now }
    ensures small { result ≤ first + length rows.now }
{
    let mut number = first;
    for row in rows {
        write_row(source, row, number, pen);
        number = after_key(&row.key, number);
    }
    number
}

// Writes a count and the rows.
pub fn write_rows<S: Source>(source: &mut S, rows: &[PropertyRow], pen: &mut Pen<'_>)
    requires { (length (meaning (S.Source.content source.old)) ≤ source_limit) × ((RowsFit (meaning (S.Source.content source.old)) rows.now) × (length rows.now ≤ list_limit)) }
    ensures same { S.Source.content source.new ≡ S.Source.content source.old }
    ensures value { Wrote pen.old (le 4 (length rows.now) ++ rows_form (meaning (S.Source.content source.old)) first_named rows.now) pen.new }
{
    pen.put_le(rows.len() as u32);
    write_rows_from(source, rows, FIRST_NAMED, pen);
}
