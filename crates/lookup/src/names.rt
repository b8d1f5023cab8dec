// The attributes that a call may name for a target.
ghost use Rattle.std.specs.Prelude.{◌≡◌, unwrap_or};
ghost use Rattle.editing.specs.Targets.{target_level, use_of, attribute_for};
ghost use Rattle.lookup.specs.Usages.{may};

use attribute::{Attribute, Rule, attribute_of};
use message::Target;
use source::{Reason, Refusal};

// What a call does with an attribute: puts or asks for it, or drops it.
#[derive(Clone, Copy)]
pub enum Usage {
    Put,
    Drop,
}

// The level of the attributes that a target may have; a row has none.
fn level_of(target: Target) -> Option<u8>
    ensures { unwrap_or result 0 ≡ target_level target }
{
    match target {
        Target::Message => Some(1),
        Target::Row(_) => None,
        Target::Attachment(_) => Some(2),
    }
}

fn allowed(usage: Usage, rule: Rule) -> bool
    ensures { result ≡ may usage (use_of rule) }
{
    !matches!(
        (usage, rule),
        (_, Rule::Version | Rule::Recipients | Rule::Properties)
            | (Usage::Drop, Rule::Rendering | Rule::CodePage)
    )
}

// The attribute of an id that a call names for a target, or the refusal of the id.
pub fn attribute_for(target: Target, id: u32, usage: Usage) -> Result<Attribute, Refusal>
    ensures { result ≡ attribute_for target id (may usage) }
{
    let Some(attribute) = attribute_of(id) else {
        return Err(Refusal {
            reason: Reason::UnknownId,
            place: 0,
        });
    };
    if level_of(target) != Some(attribute.level) {
        return Err(Refusal {
            reason: Reason::Level,
            place: 0,
        });
    }
    if !allowed(usage, attribute.rule) {
        return Err(Refusal {
            reason: Reason::Misplaced,
            place: 0,
        });
    }
    Ok(attribute)
}
