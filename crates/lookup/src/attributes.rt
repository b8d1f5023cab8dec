// Where the data of attributes stand.
ghost use Rattle.std.specs.Prelude.{◌≡◌};
ghost use Rattle.source.specs.Content.{meaning};
ghost use Rattle.frame.specs.declared.stages.Stage.TheVariants.{Version};
ghost use Rattle.message.specs.Sameness.{holding, contents_held};
ghost use Rattle.form.specs.Targets.{Readable, AsWritten};
ghost use Rattle.form.specs.Holdings.{Plain};
ghost use Rattle.lookup.specs.Finding.{message_in, ContentsStand, NormalStand};

use crate::targets::{attachment_rows, message_rows};
use attribute::{ATT_CODE_PAGE, Attribute};
use contents::code_page_at;
use index::AttributeRow;
use message::Target;
use source::Source;

// Where the data of a plain attribute of a target stand, if the target is there and holds it.
pub fn attribute_row<S: Source>(
    source: &mut S,
    target: Target,
    attribute: Attribute,
) -> Option<AttributeRow>
    requires good { Readable (meaning (S.Source.content source.old)) 6 Version }
    ensures same { S.Source.content source.new ≡ S.Source.content source.old }
    ensures value { Plain attribute → ContentsStand (meaning (S.Source.content source.old)) attribute
        (contents_held (holding (message_in (meaning (S.Source.content source.old))) target) attribute.id) result }
    ensures normal { AsWritten (meaning (S.Source.content source.old)) 6 Version → Plain attribute
        → NormalStand (meaning (S.Source.content source.old))
        (contents_held (holding (message_in (meaning (S.Source.content source.old))) target) attribute.id) result }
{
    match target {
        Target::Message => message_rows(source).under(attribute.id),
        Target::Row(_) => None,
        Target::Attachment(number) => attachment_rows(source, number)?.under(attribute.id),
    }
}

// The primary number of the message.
pub fn primary<S: Source>(source: &mut S) -> u32
    requires good { Readable (meaning (S.Source.content source.old)) 6 Version }
    ensures same { S.Source.content source.new ≡ S.Source.content source.old }
    ensures value { result ≡ (message_in (meaning (S.Source.content source.old))).primary }
{
    let rows = message_rows(source);
    let Some(row) = rows.under(ATT_CODE_PAGE) else {
        return 0;
    };
    let page = code_page_at(source, row.place, row.size);
    page.unwrap_or(None).unwrap_or(0)
}
