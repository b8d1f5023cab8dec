// The bytes that a call is given, judged.
ghost use Rattle.std.specs.Prelude.{◌≡◌, ◌≤◌, length, OnOk};
ghost use Rattle.source.specs.Content.{source_limit};
ghost use Rattle.source.specs.Outcome.{over};
ghost use Rattle.index.specs.Keys.{key_of};
ghost use Rattle.property.specs.Rows.{ReadOne};
ghost use Rattle.editing.specs.Edits.{given_contents, given_property, given_key};

use attribute::Rule;
use contents::admits;
use index::{PropertyKey, PropertyRow};
use property::{one_key, one_property};
use source::{Held, Reason, Refusal, Source};

// Whether a rule admits the bytes.
pub(crate) fn contents_given(rule: Rule, bytes: &[u8]) -> Result<(), Refusal>
    ensures judged { result ≡ over (λ _. tt) (given_contents rule bytes.now) }
    ensures short { OnOk result (length bytes.now ≤ source_limit) }
{
    let mut source = Held::new(bytes)?;
    let good = admits(&mut source, rule, 0, bytes.len())?;
    if !good {
        return Err(Refusal {
            reason: Reason::NotAdmitted,
            place: 0,
        });
    }
    Ok(())
}

// The bytes as one property.
pub(crate) fn property_given(bytes: &[u8]) -> Result<PropertyRow, Refusal>
    ensures judged { ReadOne bytes.now (length bytes.now) (given_property bytes.now) result }
    ensures short { OnOk result (length bytes.now ≤ source_limit) }
{
    let mut source = Held::new(bytes)?;
    one_property(&mut source, 0, bytes.len())
}

// The bytes as the key of a property.
pub(crate) fn key_given(bytes: &[u8]) -> Result<PropertyKey, Refusal>
    ensures { over key_of result ≡ given_key bytes.now }
{
    let mut source = Held::new(bytes)?;
    one_key(&mut source, 0, bytes.len())
}
