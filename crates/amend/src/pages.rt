// The code page of a message, or a new one.
ghost use Rattle.std.specs.Prelude.{◌≡◌, ℕ, ◌^◌, ◌<◌, length, Some, Option};
ghost use Rattle.std.specs.List.{AllByRecursion};
ghost use Rattle.source.specs.Content.{meaning};
ghost use Rattle.attribute.specs.Table.{code_page_id};
ghost use Rattle.pen.specs.Pen.{Wrote};
ghost use Rattle.stream.specs.Messages.{as_primary};
ghost use Rattle.form.specs.Targets.{Standing};
ghost use Rattle.form.specs.Holdings.{told_in};
ghost use Rattle.amend.specs.Changes.{PageMeans};
ghost use Rattle.amend.specs.Parts.{page_after};

use crate::attributes::write_input;
use form::{CODE_PAGE, write_page};
use index::AttributeRow;
use pen::Pen;
use source::Source;

// The frame of the code page: the input where it is a new one.
pub fn write_changed_page<S: Source, T: Source>(
    source: &mut S,
    input: &mut T,
    rows: &[AttributeRow],
    page: bool,
    pen: &mut Pen<'_>,
)
    requires fits { length pen.old.out.now < 2 ^ 32 }
    requires sound { AllByRecursion (Standing (meaning (S.Source.content source.old))) rows.now }
    requires meant { (o : Option ℕ) × PageMeans (meaning (T.Source.content input.old)) page o }
    ensures same { S.Source.content source.new ≡ S.Source.content source.old }
    ensures kept { T.Source.content input.new ≡ T.Source.content input.old }
    ensures value { (n : ℕ) → told_in as_primary code_page_id (meaning (S.Source.content source.old)) rows.now ≡ Some n
        → (o : Option ℕ) → PageMeans (meaning (T.Source.content input.old)) page o
        → Wrote pen.old (page_after (meaning (S.Source.content source.old)) rows.now o) pen.new }
{
    if page {
        write_input(input, CODE_PAGE, pen);
    } else {
        write_page(source, rows, pen);
    }
}
