// The key of a property: its id, or from FIRST_NAMED on its name.
ghost use Rattle.std.specs.Prelude.{◌≡◌, ◌≤◌, length, IfOk};
ghost use Rattle.source.specs.Content.{meaning};
ghost use Rattle.source.specs.Outcome.{over};
ghost use Rattle.index.specs.Keys.{key_of};
ghost use Rattle.property.specs.Fields.{data_end};
ghost use Rattle.property.specs.Names.{name_number, name_string, name, key_at, one_key};
ghost use Rattle.property.specs.Rows.{keyed};

use crate::fields::{ends_at, guid_at, number, padded, size_at};
use index::{NAME_LIMIT, Name, PropertyKey};
use scan::is_text16;
use source::{Reason, Refusal, Source};

// The lowest id that has a name.
pub const FIRST_NAMED: u16 = 0x8000;

// A key and the place behind it.
#[derive(Clone, Copy)]
pub struct Keyed {
    pub key: PropertyKey,
    pub next: usize,
}

#[tactic(auto, unfolding(crate::specs::Names::name_number))]
fn name_number<S: Source>(
    source: &mut S,
    end: usize,
    start: usize,
    guid: [u8; 16],
    place: usize,
) -> Result<Keyed, Refusal>
    requires { end ≤ length (meaning (S.Source.content source.old)) }
    ensures same { S.Source.content source.new ≡ S.Source.content source.old }
    ensures reads { over keyed result ≡ name_number (meaning (S.Source.content source.old)) end start guid place }
    ensures within { IfOk result (λ k. k.next ≤ end) }
{
    let n: u32 = number(source, end, start, place)?;
    Ok(Keyed {
        key: PropertyKey::Numbered(guid, n),
        next: place + 4,
    })
}

#[tactic(auto, using(scan::proofs::Numbers::length_part), unfolding(crate::specs::Names::name_string, scan::specs::Scans::asked, source::specs::Bytes::part))]
fn name_string<S: Source>(
    source: &mut S,
    end: usize,
    start: usize,
    guid: [u8; 16],
    place: usize,
) -> Result<Keyed, Refusal>
    requires { end ≤ length (meaning (S.Source.content source.old)) }
    ensures same { S.Source.content source.new ≡ S.Source.content source.old }
    ensures reads { over keyed result ≡ name_string (meaning (S.Source.content source.old)) end start guid place }
    ensures within { IfOk result (λ k. k.next ≤ end) }
{
    let n = size_at(source, end, start, place)?;
    if n > NAME_LIMIT || !is_text16(source, place + 4, n)? {
        return Err(Refusal {
            reason: Reason::FieldRule,
            place: start,
        });
    }
    let mut buffer = [0; NAME_LIMIT];
    source.fetch(place + 4, &mut buffer[..n])?;
    let text = Name::new(&buffer[..n]).unwrap();
    Ok(Keyed {
        key: PropertyKey::Named(guid, text),
        next: place + 4 + padded(n),
    })
}

// The name at `place`: a GUID, a kind, and a number or a string.
#[tactic(auto, unfolding(crate::specs::Names::name))]
fn name_at<S: Source>(
    source: &mut S,
    end: usize,
    start: usize,
    place: usize,
) -> Result<Keyed, Refusal>
    requires { end ≤ length (meaning (S.Source.content source.old)) }
    ensures same { S.Source.content source.new ≡ S.Source.content source.old }
    ensures reads { over keyed result ≡ name (meaning (S.Source.content source.old)) end start place }
    ensures within { IfOk result (λ k. k.next ≤ end) }
{
    let guid = guid_at(source, end, start, place)?;
    let kind: u32 = number(source, end, start, place + 16)?;
    match kind {
        0 => name_number(source, end, start, guid, place + 20),
        1 => name_string(source, end, start, guid, place + 20),
        _ => Err(Refusal {
            reason: Reason::FieldRule,
            place: start,
        }),
    }
}

// The key at `place`.
#[tactic(auto, unfolding(crate::specs::Names::key_at))]
pub(crate) fn key_at<S: Source>(
    source: &mut S,
    end: usize,
    start: usize,
    place: usize,
) -> Result<Keyed, Refusal>
    requires { end ≤ length (meaning (S.Source.content source.old)) }
    ensures same { S.Source.content source.new ≡ S.Source.content source.old }
    ensures reads { over keyed result ≡ key_at (meaning (S.Source.content source.old)) end start place }
    ensures within { IfOk result (λ k. k.next ≤ end) }
{
    let id: u16 = number(source, end, start, place)?;
    if id < FIRST_NAMED {
        return Ok(Keyed {
            key: PropertyKey::Tag(id),
            next: place + 2,
        });
    }
    name_at(source, end, start, place + 2)
}

// The data from `base` to `end` as one key.
#[tactic(auto, unfolding(crate::specs::Names::one_key, crate::specs::Fields::whole))]
pub fn one_key<S: Source>(source: &mut S, base: usize, end: usize) -> Result<PropertyKey, Refusal>
    ensures same { S.Source.content source.new ≡ S.Source.content source.old }
    ensures reads { over key_of result ≡ one_key (meaning (S.Source.content source.old)) base (data_end (meaning (S.Source.content source.old)) end) }
{
    let last = end.min(source.len());
    let found = key_at(source, last, base, base)?;
    ends_at(found.next, last)?;
    Ok(found.key)
}
