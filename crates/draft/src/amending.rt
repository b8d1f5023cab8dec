// The amendments that edits ask for.
ghost use Rattle.std.specs.Prelude.{◌≡◌, ℕ, Bool, true, false, List, Some};
ghost use Rattle.contents.specs.Contents.{Contents, means};
ghost use Rattle.editing.specs.Amendments as spec;
ghost use Rattle.editing.specs.Targets.{may_put};
ghost use Rattle.amend.specs.Changes.{TouchMeans, RowingMeans, AttachingMeans, AmendmentMeans};
ghost use Rattle.draft.specs.Checks.{NamedFor, put_amended};

use amend::{Amendment, Change, Listing, Slot, Touch};
use attribute::{Attribute, Rule};
use message::Target;

const UNTOUCHED: Touch = Touch {
    slot: Slot::Kept,
    listing: Listing::Same,
};

// Nothing but what is done to a target.
pub(crate) fn to_target(target: Target, touch: Touch) -> Amendment
    ensures { (ys : List ℕ) (s : spec.Touch) → TouchMeans ys touch s → AmendmentMeans ys result (spec.to_target target s) }
{
    match target {
        Target::Message => Amendment {
            page: false,
            own: touch,
            rows: Change::Kept,
            attachments: Change::Kept,
        },
        Target::Row(number) => to_rows(Change::Changed(number, touch.listing)),
        Target::Attachment(number) => to_attachments(Change::Changed(number, touch)),
    }
}

// Nothing but what is done to the rows.
pub(crate) fn to_rows(rowing: Change<Listing>) -> Amendment
    ensures { (ys : List ℕ) (s : spec.Rowing) → RowingMeans ys rowing s → AmendmentMeans ys result (spec.to_rows s) }
{
    Amendment {
        page: false,
        own: UNTOUCHED,
        rows: rowing,
        attachments: Change::Kept,
    }
}

// Nothing but what is done to the attachments.
pub(crate) fn to_attachments(attaching: Change<Touch>) -> Amendment
    ensures { (ys : List ℕ) (s : spec.Attaching) → AttachingMeans ys attaching s → AmendmentMeans ys result (spec.to_attachments s) }
{
    Amendment {
        page: false,
        own: UNTOUCHED,
        rows: Change::Kept,
        attachments: attaching,
    }
}

// The input put under an attribute of a target; the primary number is the message's own.
pub(crate) fn to_put(target: Target, attribute: Attribute) -> Amendment
    ensures { (ys : List ℕ) (i : ℕ) (c : Contents) → NamedFor target i may_put attribute → means attribute.rule ys ≡ Some c
        → AmendmentMeans ys result (put_amended target attribute c attribute.rule) }
{
    match attribute.rule {
        Rule::CodePage => Amendment {
            page: true,
            own: UNTOUCHED,
            rows: Change::Kept,
            attachments: Change::Kept,
        },
        _ => to_target(
            target,
            Touch {
                slot: Slot::Put(attribute),
                listing: Listing::Same,
            },
        ),
    }
}
