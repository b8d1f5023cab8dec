// The front of a form: the header, the version, and the code page.
ghost use Rattle.std.specs.Prelude.{◌≡◌, ℕ, ◌^◌, ◌<◌, length, Some};
ghost use Rattle.std.specs.List.{AllByRecursion};
ghost use Rattle.source.specs.Content.{meaning};
ghost use Rattle.attribute.specs.Table.{code_page_id};
ghost use Rattle.pen.specs.Pen.{Wrote, SameSlice};
ghost use Rattle.stream.specs.Messages.{as_primary};
ghost use Rattle.form.specs.Targets.{Standing};
ghost use Rattle.form.specs.Holdings.{told_in, page_bytes};
ghost use Rattle.form.specs.Wholes.{front_bytes};

use crate::attributes::write_row;
use crate::row_under;
use attribute::{ATT_CODE_PAGE, Attribute, Rule};
use index::AttributeRow;
use pen::Pen;
use source::Source;

// The header with the key 01 00, and the frame of the version.
const FRONT: [u8; 21] = [
    0x78, 0x9F, 0x3E, 0x22, 1, 0, 1, 0x06, 0x90, 0x08, 0, 4, 0, 0, 0, 0, 0, 1, 0, 1, 0,
];

pub const CODE_PAGE: Attribute = Attribute {
    id: ATT_CODE_PAGE,
    level: 1,
    rule: Rule::CodePage,
};

// The header and the version.
pub fn write_front(pen: &mut Pen<'_>)
    ensures { Wrote pen.old front_bytes pen.new }
{
    pen.put(&FRONT);
}

// The frame of the code page, where there is one.
pub fn write_page<S: Source>(source: &mut S, rows: &[AttributeRow], pen: &mut Pen<'_>)
    requires fits { length pen.old.out.now < 2 ^ 32 }
    requires sound { AllByRecursion (Standing (meaning (S.Source.content source.old))) rows.now }
    ensures same { S.Source.content source.new ≡ S.Source.content source.old }
    ensures slice { SameSlice pen.old pen.new }
    ensures value { (n : ℕ) → told_in as_primary code_page_id (meaning (S.Source.content source.old)) rows.now ≡ Some n
        → Wrote pen.old (page_bytes (meaning (S.Source.content source.old)) rows.now) pen.new }
{
    if let Some(row) = row_under(rows, ATT_CODE_PAGE) {
        write_row(source, CODE_PAGE, row, pen);
    }
}
