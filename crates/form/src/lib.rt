// The written form of what a stream carries.
// What its parts require stays in clauses: that a slice is below 2^32 bytes only closing a frame needs, 1,024 rows exactly
// would be more than is asked, and that rows stand in a source is a fact of two values, of which the source is lent anew.
#![tactic(auto)]

ghost use Rattle.std.specs.Prelude.{◌≡◌, length};
ghost use Rattle.source.specs.Content.{meaning};
ghost use Rattle.form.specs.Restating.{restated, Restates};

use index::PropertyRow;
use property::LIST_LIMIT;
use source::{Reason, Refusal, SOURCE_LIMIT, Source};
use stream::judge;
use wholes::fill;

mod attachments;
mod attributes;
mod framing;
mod fronts;
mod indexing;
mod lists;
mod messages;
mod row_list;
mod targets;
mod wholes;

pub use attachments::{
    ATTACHMENT_PROPERTIES, RENDERING, attachment_table, write_attachment, write_attachments,
    write_next,
};
pub use attributes::{write_attribute, write_attributes, write_row};
pub use framing::{pen_close, pen_open};
pub use fronts::{CODE_PAGE, write_front, write_page};
pub use indexing::index_list;
pub use lists::{write_properties, write_recipients};
pub use messages::{MESSAGE_PROPERTIES, message_table, write_message};
pub use row_list::{Rows, row_under};
pub use targets::gather;
pub use wholes::write_form;

// Writes the form of what a source carries, and says how long it is, or what refuses it: rows that are too few, the
// stream itself, or a form that does not fit.
pub fn restate<S: Source>(
    source: &mut S,
    lent: &mut [PropertyRow],
    out: &mut [u8],
) -> Result<usize, Refusal>
    ensures same { S.Source.content source.new ≡ S.Source.content source.old }
    ensures answers { result ≡ restated (meaning (S.Source.content source.old)) (length lent.old) (length out.old) }
    ensures writes { Restates (meaning (S.Source.content source.old)) out.new result }
{
    if lent.len() < LIST_LIMIT as usize {
        return Err(Refusal {
            reason: Reason::ShortWork,
            place: 0,
        });
    }
    judge(source)?;
    let size = out.len().min(SOURCE_LIMIT);
    fill(source, lent, &mut out[0..size]).ok_or(Refusal {
        reason: Reason::FormTooLong,
        place: 0,
    })
}
