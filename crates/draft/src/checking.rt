// The checks of edits, in their order: target, input, key, limit.
// That the source is readable is required by each: a struct of a lent source with that fact would have to show it again
// behind each read.
ghost use Rattle.std.specs.Prelude.{◌≡◌, ◌≤◌, [], length, Some};
ghost use Rattle.source.specs.Content.{meaning};
ghost use Rattle.source.specs.Outcome.{over, given};
ghost use Rattle.source.specs.declared.refusals.Reason.TheVariants.{Missing};
ghost use Rattle.frame.specs.declared.stages.Stage.TheVariants.{Version};
ghost use Rattle.index.specs.Keys.{key_of};
ghost use Rattle.property.specs.Lists.{list_limit};
ghost use Rattle.stream.specs.Messages.{Holding};
ghost use Rattle.message.specs.Sameness.{holding};
ghost use Rattle.form.specs.Targets.{Readable};
ghost use Rattle.editing.specs.Slots.{has_key};
ghost use Rattle.editing.specs.Edits as edit;
ghost use Rattle.editing.specs.Edits.{change};
ghost use Rattle.lookup.specs.Finding.{message_in};
ghost use Rattle.draft.specs.Checks.{edit_of, put_by, Checked};

use crate::amending::{to_attachments, to_put, to_rows, to_target};
use crate::edits::Edit;
use crate::given::{contents_given, key_given, property_given};
use amend::{Amendment, Change, Listing, Slot, Touch};
use attribute::Rule;
use frame::ATTACHMENT_LIMIT;
use index::{PropertyKey, PropertyRow};
use lookup::{
    Usage, attribute_for, attribute_row, count_attachments, count_rows, find_key, has_target,
    properties,
};
use message::Target;
use property::{LIST_LIMIT, ROW_LIMIT};
use source::{Reason, Refusal, Source};

const MISSING: Refusal = Refusal {
    reason: Reason::Missing,
    place: 0,
};

const LIMIT: Refusal = Refusal {
    reason: Reason::Limit,
    place: 0,
};

// Whether the target is there.
pub(crate) fn target_there<S: Source>(source: &mut S, target: Target) -> Result<(), Refusal>
    requires good { Readable (meaning (S.Source.content source.old)) 6 Version }
    ensures same { S.Source.content source.new ≡ S.Source.content source.old }
    ensures value { result ≡ over (λ _. tt) (given (holding (message_in (meaning (S.Source.content source.old))) target) Missing 0) }
{
    let there = has_target(source, target);
    if !there {
        return Err(MISSING);
    }
    Ok(())
}

pub(crate) fn put_attribute<S: Source>(
    source: &mut S,
    target: Target,
    id: u32,
    bytes: &[u8],
) -> Result<Amendment, Refusal>
    requires good { Readable (meaning (S.Source.content source.old)) 6 Version }
    ensures same { S.Source.content source.new ≡ S.Source.content source.old }
    ensures checks { Checked bytes.now
        (change (edit.put_attribute target id bytes.now) (message_in (meaning (S.Source.content source.old))))
        (message_in (meaning (S.Source.content source.old))) result }
{
    target_there(source, target)?;
    let attribute = attribute_for(target, id, Usage::Put)?;
    contents_given(attribute.rule, bytes)?;
    Ok(to_put(target, attribute))
}

pub(crate) fn drop_attribute<S: Source>(
    source: &mut S,
    target: Target,
    id: u32,
) -> Result<Amendment, Refusal>
    requires good { Readable (meaning (S.Source.content source.old)) 6 Version }
    ensures same { S.Source.content source.new ≡ S.Source.content source.old }
    ensures checks { Checked []
        (change (edit.drop_attribute target id) (message_in (meaning (S.Source.content source.old))))
        (message_in (meaning (S.Source.content source.old))) result }
{
    target_there(source, target)?;
    let attribute = attribute_for(target, id, Usage::Drop)?;
    attribute_row(source, target, attribute).ok_or(MISSING)?;
    Ok(to_target(
        target,
        Touch {
            slot: Slot::Dropped(id),
            listing: Listing::Same,
        },
    ))
}

// How many properties a target has, and whether one has the key.
#[derive(Clone, Copy)]
pub(crate) struct Keys {
    count: usize,
    found: bool,
}

fn keys_of<S: Source>(
    source: &mut S,
    target: Target,
    key: &PropertyKey,
    rows: &mut [PropertyRow],
) -> Keys
    requires good { Readable (meaning (S.Source.content source.old)) 6 Version }
    requires room { list_limit ≤ length rows.old }
    ensures same { S.Source.content source.new ≡ S.Source.content source.old }
    ensures value { (h : Holding) → holding (message_in (meaning (S.Source.content source.old))) target ≡ Some h
        → (result.count ≡ length h.properties) × (result.found ≡ has_key (key_of key.now) h.properties) }
{
    match properties(source, target, rows) {
        Some(count) => Keys {
            count,
            found: find_key(&rows[0..count], key).is_some(),
        },
        None => Keys {
            count: 0,
            found: false,
        },
    }
}

pub(crate) fn put_property<S: Source>(
    source: &mut S,
    target: Target,
    bytes: &[u8],
    rows: &mut [PropertyRow],
) -> Result<Amendment, Refusal>
    requires good { Readable (meaning (S.Source.content source.old)) 6 Version }
    requires room { list_limit ≤ length rows.old }
    ensures same { S.Source.content source.new ≡ S.Source.content source.old }
    ensures checks { Checked bytes.now
        (change (edit.put_property target bytes.now) (message_in (meaning (S.Source.content source.old))))
        (message_in (meaning (S.Source.content source.old))) result }
{
    target_there(source, target)?;
    let row = property_given(bytes)?;
    let keys = keys_of(source, target, &row.key, rows);
    if !keys.found && keys.count >= LIST_LIMIT as usize {
        return Err(LIMIT);
    }
    Ok(to_target(
        target,
        Touch {
            slot: Slot::Kept,
            listing: Listing::With(row),
        },
    ))
}

pub(crate) fn drop_property<S: Source>(
    source: &mut S,
    target: Target,
    bytes: &[u8],
    rows: &mut [PropertyRow],
) -> Result<Amendment, Refusal>
    requires good { Readable (meaning (S.Source.content source.old)) 6 Version }
    requires room { list_limit ≤ length rows.old }
    ensures same { S.Source.content source.new ≡ S.Source.content source.old }
    ensures checks { Checked []
        (change (edit.drop_property target bytes.now) (message_in (meaning (S.Source.content source.old))))
        (message_in (meaning (S.Source.content source.old))) result }
{
    target_there(source, target)?;
    let key = key_given(bytes)?;
    let keys = keys_of(source, target, &key, rows);
    if !keys.found {
        return Err(MISSING);
    }
    Ok(to_target(
        target,
        Touch {
            slot: Slot::Kept,
            listing: Listing::Less(key),
        },
    ))
}

pub(crate) fn add_row<S: Source>(source: &mut S) -> Result<Amendment, Refusal>
    requires good { Readable (meaning (S.Source.content source.old)) 6 Version }
    ensures same { S.Source.content source.new ≡ S.Source.content source.old }
    ensures checks { Checked []
        (change edit.add_row (message_in (meaning (S.Source.content source.old))))
        (message_in (meaning (S.Source.content source.old))) result }
{
    let count = count_rows(source);
    if count >= ROW_LIMIT as usize {
        return Err(LIMIT);
    }
    Ok(to_rows(Change::Added))
}

pub(crate) fn add_attachment<S: Source>(source: &mut S, bytes: &[u8]) -> Result<Amendment, Refusal>
    requires good { Readable (meaning (S.Source.content source.old)) 6 Version }
    ensures same { S.Source.content source.new ≡ S.Source.content source.old }
    ensures checks { Checked bytes.now
        (change (edit.add_attachment bytes.now) (message_in (meaning (S.Source.content source.old))))
        (message_in (meaning (S.Source.content source.old))) result }
{
    contents_given(Rule::Rendering, bytes)?;
    let count = count_attachments(source);
    if count >= ATTACHMENT_LIMIT as usize {
        return Err(LIMIT);
    }
    Ok(to_attachments(Change::Added))
}

pub(crate) fn remove_row<S: Source>(source: &mut S, number: usize) -> Result<Amendment, Refusal>
    requires good { Readable (meaning (S.Source.content source.old)) 6 Version }
    ensures same { S.Source.content source.new ≡ S.Source.content source.old }
    ensures checks { Checked []
        (change (edit.remove_row number) (message_in (meaning (S.Source.content source.old))))
        (message_in (meaning (S.Source.content source.old))) result }
{
    target_there(source, Target::Row(number))?;
    Ok(to_rows(Change::Removed(number)))
}

pub(crate) fn remove_attachment<S: Source>(
    source: &mut S,
    number: usize,
) -> Result<Amendment, Refusal>
    requires good { Readable (meaning (S.Source.content source.old)) 6 Version }
    ensures same { S.Source.content source.new ≡ S.Source.content source.old }
    ensures checks { Checked []
        (change (edit.remove_attachment number) (message_in (meaning (S.Source.content source.old))))
        (message_in (meaning (S.Source.content source.old))) result }
{
    target_there(source, Target::Attachment(number))?;
    Ok(to_attachments(Change::Removed(number)))
}

// The amendment that an edit asks for, or what refuses it; a match on the edits, which are closed: none can be missed.
pub(crate) fn check<S: Source>(
    source: &mut S,
    what: Edit<'_>,
    rows: &mut [PropertyRow],
) -> Result<Amendment, Refusal>
    requires good { Readable (meaning (S.Source.content source.old)) 6 Version }
    requires room { list_limit ≤ length rows.old }
    ensures same { S.Source.content source.new ≡ S.Source.content source.old }
    ensures checks { Checked (put_by what.entry)
        (change (edit_of what.entry) (message_in (meaning (S.Source.content source.old))))
        (message_in (meaning (S.Source.content source.old))) result }
{
    match what {
        Edit::PutAttribute(target, id, bytes) => put_attribute(source, target, id, bytes),
        Edit::PutProperty(target, bytes) => put_property(source, target, bytes, rows),
        Edit::DropAttribute(target, id) => drop_attribute(source, target, id),
        Edit::DropProperty(target, bytes) => drop_property(source, target, bytes, rows),
        Edit::AddRow => add_row(source),
        Edit::AddAttachment(bytes) => add_attachment(source, bytes),
        Edit::RemoveRow(number) => remove_row(source, number),
        Edit::RemoveAttachment(number) => remove_attachment(source, number),
    }
}
