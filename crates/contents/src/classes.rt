// Message classes.
ghost use Rattle.std.specs.Prelude.{◌≡◌, ◌<◌, ◌≤◌, ◌++◌, length, map, IfSome};
ghost use Rattle.std.specs.List.{position as first_that};
ghost use Rattle.source.specs.Bytes.{same_bytes};
ghost use Rattle.source.specs.Content.{meaning};
ghost use Rattle.scan.specs.Scans.{asked};
ghost use Rattle.contents.specs.Classes.{pairs, class_text, means_pair, pair_from, pair_number, pair_of};
ghost use Rattle.contents.specs.Spelling.{spelled};

use scan::is_text8;
use source::{Refusal, Source};

// How a class is spelled in an attribute, and what a property calls it.
#[derive(Clone, Copy)]
struct Pair {
    attribute: &'static [u8],
    property: &'static [u8],
}

const PAIRS: [Pair; 8] = [
    Pair {
        attribute: b"IPM.Microsoft Mail.Note",
        property: b"IPM.Note",
    },
    Pair {
        attribute: b"IPM.Microsoft Mail.read receipt",
        property: b"Report.IPM.Note.IPNRN",
    },
    Pair {
        attribute: b"IPM.Microsoft Mail.Non-Delivery",
        property: b"Report.IPM.Note.NDR",
    },
    Pair {
        attribute: b"IPM.Microsoft Schedule.MtgRespP",
        property: b"IPM.Schedule.Meeting.Resp.Pos",
    },
    Pair {
        attribute: b"IPM.Microsoft Schedule.MtgRespN",
        property: b"IPM.Schedule.Meeting.Resp.Neg",
    },
    Pair {
        attribute: b"IPM.Microsoft Schedule.MtgRespA",
        property: b"IPM.Schedule.Meeting.Resp.Tent",
    },
    Pair {
        attribute: b"IPM.Microsoft Schedule.MtgReq",
        property: b"IPM.Schedule.Meeting.Request",
    },
    Pair {
        attribute: b"IPM.Microsoft Schedule.MtgCncl",
        property: b"IPM.Schedule.Meeting.Canceled",
    },
];

// Whether a text is the front, then the back.
fn is_joined(text: &[u8], front: &[u8], back: &[u8]) -> bool
    ensures { result ≡ same_bytes text.now (front.now ++ back.now) }
{
    match text.strip_prefix(front) {
        Some(rest) => rest == back,
        None => false,
    }
}

// Whether a text is one of the three spellings of a pair: older writers put a prefix before the attribute's.
fn spells(text: &[u8], pair: &Pair) -> bool
    ensures { result ≡ means_pair text.now (spelled pair.now) }
{
    text == pair.attribute
        || text == pair.property
        || is_joined(text, b"Microsoft Mail v3.0", pair.attribute)
}

// The search in the library's words; `number_in` says it in those of pairs.
fn place_in(table: &[Pair], text: &[u8]) -> Option<usize>
    ensures value { result ≡ first_that (λ x. means_pair text.now (spelled x)) table.now }
    ensures bound { IfSome result (λ k. k < length table.now) }
{
    table.iter().position(|pair| spells(text, pair))
}

// Pairs go by number, which is what programs print and the definitions count by.
// The number of the first pair of `table` that a text means, from 1.
#[tactic(auto, using(crate::proofs::Spellings::number_from))]
fn number_in(table: &[Pair], text: &[u8]) -> Option<usize>
    ensures { result ≡ pair_from text.now (map spelled table.now) 1 }
{
    let place = place_in(table, text)?;
    Some(place + 1)
}

// The pair that a text means, 1 to 8, if it means one.
#[tactic(auto, unfolding(crate::specs::Classes::pair_number))]
pub fn class_of(text: &[u8]) -> Option<usize>
    ensures { result ≡ pair_number text.now }
{
    number_in(&PAIRS, text)
}

// The attribute value of pair k of a table, from 1; empty where there is no such pair, and no Option, since callers are
// promised the text.
#[tactic(auto, using(crate::proofs::Spellings::text_here, crate::proofs::Spellings::text_none))]
fn text_in(table: &[Pair], k: usize) -> &'static [u8]
    ensures { result.now ≡ class_text (map spelled table.now) k }
{
    if k == 0 || k > table.len() {
        return b"";
    }
    table[k - 1].attribute
}

// The attribute value of pair k, 1 to 8.
pub fn class_text(k: usize) -> &'static [u8]
    ensures { result.now ≡ class_text pairs k }
{
    text_in(&PAIRS, k)
}

// The most bytes of a text that means a pair, with its zero byte.
const LONGEST: usize = 51;

// The pair that data mean, 1 to 8, if they mean one.
#[tactic(auto, using(scan::proofs::Numbers::length_part, crate::proofs::ClassTexts::long_data, crate::proofs::ClassTexts::text_size), unfolding(scan::specs::Scans::asked))]
pub fn class_at<S: Source>(
    source: &mut S,
    place: usize,
    size: usize,
) -> Result<Option<usize>, Refusal>
    ensures same { S.Source.content source.new ≡ S.Source.content source.old }
    ensures value { result ≡ asked pair_of (meaning (S.Source.content source.old)) place size }
{
    let text = is_text8(source, place, size)?;
    if !text {
        return Ok(None);
    }
    if size > LONGEST {
        return Ok(None);
    }
    let mut buffer = [0u8; LONGEST];
    let text = &mut buffer[0..size - 1];
    source.fetch(place, text)?;
    Ok(class_of(text))
}
