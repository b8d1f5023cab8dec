// The frame of a list of properties with one of them put or dropped; an empty list has none.
ghost use Rattle.std.specs.Prelude.{◌≡◌, ◌^◌, ◌<◌, ◌≤◌, [], length};
ghost use Rattle.std.specs.List.{flat_map, AllByRecursion};
ghost use Rattle.source.specs.Content.{meaning};
ghost use Rattle.pen.specs.Pen.{Wrote};
ghost use Rattle.property.specs.Lists.{list_limit, indexed};
ghost use Rattle.stream.specs.Messages.{or_default, as_list};
ghost use Rattle.stream.specs.Reading.{properties};
ghost use Rattle.stream.specs.Writing.{write_entry, list_entries};
ghost use Rattle.form.specs.Holdings.{Natured, told_in};
ghost use Rattle.form.specs.Targets.{Standing};
ghost use Rattle.editing.specs.Amendments as spec;
ghost use Rattle.amend.specs.Changes.{ListingMeans};

use crate::changes::Listing;
use crate::cuts::{cut_count, cut_of, write_cut};
use attribute::Attribute;
use form::{index_list, pen_close, pen_open};
use index::{AttributeRow, PropertyRow};
use pen::Pen;
use source::Source;

// The frame of the changed list of properties under an attribute's id.
pub fn write_changed_properties<S: Source, T: Source>(
    source: &mut S,
    input: &mut T,
    rows: &[AttributeRow],
    attribute: Attribute,
    listing: Listing,
    lent: &mut [PropertyRow],
    pen: &mut Pen<'_>,
)
    requires fits { length pen.old.out.now < 2 ^ 32 }
    requires room { list_limit ≤ length lent.old }
    requires sound { AllByRecursion (Standing (meaning (S.Source.content source.old))) rows.now }
    requires listed { Natured properties attribute }
    requires meant { (l : spec.Listing) × ListingMeans (meaning (T.Source.content input.old)) listing l }
    ensures same { S.Source.content source.new ≡ S.Source.content source.old }
    ensures kept { T.Source.content input.new ≡ T.Source.content input.old }
    ensures value { (l : spec.Listing) → ListingMeans (meaning (T.Source.content input.old)) listing l
        → Wrote pen.old
        (flat_map write_entry (list_entries attribute.id (spec.list_after l (indexed (or_default (told_in as_list attribute.id (meaning (S.Source.content source.old)) rows.now) [])))))
        pen.new }
{
    let count = index_list(source, rows, attribute, lent);
    let found = &lent[0..count];
    let cut = cut_of(found, listing);
    if cut_count(found.len(), &cut) == 0 {
        return;
    }
    let start = pen_open(pen);
    write_cut(source, input, found, &cut, pen);
    pen_close(pen, start, attribute.level, attribute.id);
}
