// A message's own frames, of which one may be changed.
ghost use Rattle.std.specs.Prelude.{◌≡◌, ◌^◌, ◌<◌, ◌≤◌, length};
ghost use Rattle.std.specs.List.{AllByRecursion};
ghost use Rattle.source.specs.Content.{meaning};
ghost use Rattle.pen.specs.Pen.{Wrote};
ghost use Rattle.property.specs.Lists.{list_limit};
ghost use Rattle.form.specs.Targets.{Standing};
ghost use Rattle.editing.specs.Amendments as spec;
ghost use Rattle.amend.specs.Changes.{TouchMeans, RowingMeans};
ghost use Rattle.amend.specs.Parts.{message_after};

use crate::attributes::write_changed_attributes;
use crate::changes::{Change, Listing, Touch};
use crate::lists::write_changed_properties;
use crate::tables::write_changed_recipients;
use form::{MESSAGE_PROPERTIES, message_table};
use index::{AttributeRow, PropertyRow};
use pen::Pen;
use source::Source;

// The message's attributes, recipients and properties.
pub fn write_changed_message<S: Source, T: Source>(
    source: &mut S,
    input: &mut T,
    rows: &[AttributeRow],
    touch: Touch,
    rowing: Change<Listing>,
    lent: &mut [PropertyRow],
    pen: &mut Pen<'_>,
)
    requires fits { length pen.old.out.now < 2 ^ 32 }
    requires room { list_limit ≤ length lent.old }
    requires sound { AllByRecursion (Standing (meaning (S.Source.content source.old))) rows.now }
    requires meant { (τ : spec.Touch) × TouchMeans (meaning (T.Source.content input.old)) touch τ }
    requires rowed { (ρ : spec.Rowing) × RowingMeans (meaning (T.Source.content input.old)) rowing ρ }
    ensures same { S.Source.content source.new ≡ S.Source.content source.old }
    ensures kept { T.Source.content input.new ≡ T.Source.content input.old }
    ensures value { (τ : spec.Touch) → TouchMeans (meaning (T.Source.content input.old)) touch τ
        → (ρ : spec.Rowing) → RowingMeans (meaning (T.Source.content input.old)) rowing ρ
        → Wrote pen.old
        (message_after (meaning (S.Source.content source.old)) rows.now τ ρ) pen.new }
{
    write_changed_attributes(source, input, rows, message_table(), touch.slot, pen);
    write_changed_recipients(source, input, rows, rowing, lent, pen);
    write_changed_properties(
        source,
        input,
        rows,
        MESSAGE_PROPERTIES,
        touch.listing,
        lent,
        pen,
    );
}
