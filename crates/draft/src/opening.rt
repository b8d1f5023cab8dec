// Whether a draft is a written form.
ghost use Rattle.std.specs.Prelude.{◌≡◌, ◌≤◌, length};
ghost use Rattle.source.specs.Content.{source_limit};
ghost use Rattle.source.specs.Outcome.{over, given};
ghost use Rattle.source.specs.declared.refusals.Reason.TheVariants.{NotWritten};
ghost use Rattle.property.specs.Lists.{list_limit};
ghost use Rattle.stream.specs.Messages.{read};
ghost use Rattle.draft.specs.Drafts.{memory};
ghost use Rattle.draft.specs.Calls.{state, if_written, opened};

use crate::enough;
use form::restate;
use index::PropertyRow;
use source::{Held, Reason, Refusal, SOURCE_LIMIT, Source};

const NOT_WRITTEN: Refusal = Refusal {
    reason: Reason::NotWritten,
    place: 0,
};

// Whether restating the bytes gives the bytes themselves.
fn is_written(form: &[u8], bytes: &mut [u8], rows: &mut [PropertyRow]) -> Result<(), Refusal>
    requires short { length form.now ≤ source_limit }
    requires fits { length bytes.old ≡ length form.now }
    requires room { list_limit ≤ length rows.old }
    ensures { result ≡ over (λ _. tt) (given (if_written form.now (read form.now)) NotWritten 0) }
{
    let Ok(mut source) = Held::new(form) else {
        return Err(NOT_WRITTEN);
    };
    let Ok(n) = restate(&mut source, rows, bytes) else {
        return Err(NOT_WRITTEN);
    };
    if &bytes[0..n] == form {
        return Ok(());
    }
    Err(NOT_WRITTEN)
}

// Refuses work memory that is too little, and a draft that is not a written form.
pub(crate) fn open(
    area: &[u8],
    size: usize,
    bytes: &mut [u8],
    rows: &mut [PropertyRow],
) -> Result<(), Refusal>
    ensures { result ≡ over (λ _. tt) (opened (memory bytes.old rows.old) (state area.now size)) }
{
    enough(bytes, rows, area.len())?;
    if size > area.len() || size > SOURCE_LIMIT {
        return Err(NOT_WRITTEN);
    }
    is_written(&area[0..size], &mut bytes[0..size], rows)
}
