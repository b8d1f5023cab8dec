// The list of properties under an attribute's id, in rows of its index.
ghost use Rattle.std.specs.Prelude.{◌≡◌, ◌≤◌, [], length, take};
ghost use Rattle.std.specs.List.{AllByRecursion};
ghost use Rattle.source.specs.Content.{meaning};
ghost use Rattle.property.specs.Lists.{list_limit};
ghost use Rattle.stream.specs.Messages.{or_default, as_list};
ghost use Rattle.stream.specs.Reading.{properties};
ghost use Rattle.form.specs.Targets.{Standing};
ghost use Rattle.form.specs.Holdings.{Natured, told_in};
ghost use Rattle.form.specs.Indices.{ListIndexed};

use crate::row_under;
use attribute::Attribute;
use index::{AttributeRow, PropertyRow};
use property::rows as rows_at;
use source::Source;

// Indexes the list under an attribute's id, and says how many rows it has: none where there is no frame.
pub fn index_list<S: Source>(
    source: &mut S,
    rows: &[AttributeRow],
    attribute: Attribute,
    lent: &mut [PropertyRow],
) -> usize
    requires room { list_limit ≤ length lent.old }
    requires sound { AllByRecursion (Standing (meaning (S.Source.content source.old))) rows.now }
    requires listed { Natured properties attribute }
    ensures same { S.Source.content source.new ≡ S.Source.content source.old }
    ensures within { result ≤ length lent.new }
    ensures value { ListIndexed (meaning (S.Source.content source.old)) (take result lent.new)
        (or_default (told_in as_list attribute.id (meaning (S.Source.content source.old)) rows.now) []) }
{
    let _total = source.len();
    let Some(row) = row_under(rows, attribute.id) else {
        return 0;
    };
    rows_at(source, row.place, row.place + row.size, lent)
        .unwrap()
        .count
}
