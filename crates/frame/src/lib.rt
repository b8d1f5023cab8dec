// The frames of a stream: the header, the order of frames, and the checks of one frame up to its checksum.
#![tactic(auto)]

ghost use Rattle.std.specs.Prelude.{◌≡◌, ◌+◌, ◌≤◌, IfSome, IfOk, OnOk};
ghost use Rattle.source.specs.Content.{meaning, source_limit};
ghost use Rattle.frame.specs.Frames.{header, head_at, head_judged, sum_judged, frame_at, next_frame, Onward};

use attribute::{Attribute, Rule, attribute_of};
use scan::{Number, checksum};
use source::{Reason, Refusal, Source};

mod stages;

pub use stages::{ATTACHMENT_LIMIT, Cursor, Stage};

// A stream begins with a signature and a key.
pub const HEADER_SIZE: usize = 6;

// Level, id and length stand before a frame's data, and its checksum behind them.
pub const HEAD_SIZE: usize = 9;

pub const CHECKSUM_SIZE: usize = 2;

// A frame that stands in a stream, as far as its checksum.
#[derive(Clone, Copy)]
pub struct Frame {
    pub place: usize,
    pub attribute: Attribute,
    pub size: usize,
    pub checksum: u16,
    // the order of frames after it
    pub stage: Stage,
    // the place behind it
    pub next: usize,
}

impl Frame {
    // Where the next frame is read.
    pub fn behind(&self) -> Cursor
        ensures { result ≡ record { place = self.now.next; stage = self.now.stage } }
    {
        Cursor {
            place: self.next,
            stage: self.stage,
        }
    }
}

// What stands before a frame's data.
#[derive(Clone, Copy)]
struct Head {
    level: u8,
    id: u32,
    size: u32,
}

// What a head alone decides.
#[derive(Clone, Copy)]
struct Judged {
    attribute: Attribute,
    stage: Stage,
}

#[tactic(auto, unfolding(crate::specs::Frames::header, source::specs::Bytes::part, source::specs::Bytes::val))]
// The two key bytes of the header that a stream begins with.
pub fn header<S: Source>(source: &mut S) -> Result<u16, Refusal>
    ensures same { S.Source.content source.new ≡ S.Source.content source.old }
    ensures reads { result ≡ header (meaning (S.Source.content source.old)) }
{
    let mut bytes = [0u8; HEADER_SIZE];
    // A match: that the stream ends too early is what the refused fetch promises.
    match source.fetch(0, &mut bytes) {
        Err(_) => Err(Refusal {
            reason: Reason::StreamEnd,
            place: 0,
        }),
        Ok(()) => match bytes {
            [0x78, 0x9F, 0x3E, 0x22, low, high] => Ok(u16::from_le_bytes([low, high])),
            _ => Err(Refusal {
                reason: Reason::Signature,
                place: 0,
            }),
        },
    }
}

#[tactic(auto, using(crate::proofs::Checks::head_short, crate::proofs::Checks::head_got), unfolding(source::specs::Bytes::part))]
fn head_at<S: Source>(source: &mut S, place: usize) -> Result<Head, Refusal>
    ensures same { S.Source.content source.new ≡ S.Source.content source.old }
    ensures reads { result ≡ head_at (meaning (S.Source.content source.old)) place }
{
    let mut bytes = [0u8; HEAD_SIZE];
    match source.fetch(place, &mut bytes) {
        Err(_) => Err(Refusal {
            reason: Reason::StreamEnd,
            place,
        }),
        Ok(()) => {
            let [level, i0, i1, i2, i3, s0, s1, s2, s3] = bytes;
            let id = u32::from_le_bytes([i0, i1, i2, i3]);
            let size = u32::from_le_bytes([s0, s1, s2, s3]);
            Ok(Head { level, id, size })
        }
    }
}

#[tactic(auto, unfolding(crate::specs::Frames::head_judged))]
fn head_judged(head: Head, place: usize, stage: Stage) -> Result<Judged, Refusal>
    ensures { result ≡ head_judged head place stage }
{
    let Some(attribute) = attribute_of(head.id) else {
        return Err(Refusal {
            reason: Reason::UnknownId,
            place,
        });
    };
    if head.level != attribute.level {
        return Err(Refusal {
            reason: Reason::Level,
            place,
        });
    }
    let stage = stage.advance(attribute, place)?;
    if head.size >= 0x8000_0000 {
        return Err(Refusal {
            reason: Reason::LengthSign,
            place,
        });
    }
    Ok(Judged { attribute, stage })
}

#[tactic(auto, unfolding(crate::specs::Frames::sum_judged, scan::specs::Scans::asked))]
// The checksum behind the data of the frame at `place`, which have `size` bytes; that of a class is not compared.
fn sum_judged<S: Source>(
    source: &mut S,
    place: usize,
    size: usize,
    rule: Rule,
) -> Result<u16, Refusal>
    ensures same { S.Source.content source.new ≡ S.Source.content source.old }
    ensures reads { result ≡ sum_judged (meaning (S.Source.content source.old)) place size rule }
    ensures within { OnOk result (place + 9 + size + 2 ≤ source_limit) }
{
    let total = source.len();
    if place > total || size > total - place || HEAD_SIZE + CHECKSUM_SIZE > total - place - size {
        return Err(Refusal {
            reason: Reason::StreamEnd,
            place,
        });
    }
    let stored = u16::at(source, place + HEAD_SIZE + size)?;
    if let Rule::Class = rule {
        return Ok(stored);
    }
    let sum = checksum(source, place + HEAD_SIZE, size)?;
    if stored != sum {
        return Err(Refusal {
            reason: Reason::Checksum,
            place,
        });
    }
    Ok(stored)
}

#[tactic(auto, unfolding(crate::specs::Frames::frame_at))]
// The frame at a place, read at a stage.
pub fn frame_at<S: Source>(source: &mut S, at: Cursor) -> Result<Frame, Refusal>
    ensures same { S.Source.content source.new ≡ S.Source.content source.old }
    ensures reads { result ≡ frame_at (meaning (S.Source.content source.old)) at.place at.stage }
    ensures within { IfOk result (λ f. Onward at.place f) }
{
    let Cursor { place, stage } = at;
    let head = head_at(source, place)?;
    let Judged { attribute, stage } = head_judged(head, place, stage)?;
    let size = head.size as usize;
    let checksum = sum_judged(source, place, size, attribute.rule)?;
    let next = place + HEAD_SIZE + size + CHECKSUM_SIZE;
    Ok(Frame {
        place,
        attribute,
        size,
        checksum,
        stage,
        next,
    })
}

#[tactic(auto, unfolding(crate::specs::Frames::next_frame))]
// The frame at a place, or none where the stream ends there and may.
pub fn next_frame<S: Source>(source: &mut S, at: Cursor) -> Result<Option<Frame>, Refusal>
    ensures same { S.Source.content source.new ≡ S.Source.content source.old }
    ensures reads { result ≡ next_frame (meaning (S.Source.content source.old)) at.place at.stage }
    ensures within { IfOk result (λ o. IfSome o (λ f. Onward at.place f)) }
{
    let total = source.len();
    let complete = at.stage.may_end();
    if complete && at.place == total {
        return Ok(None);
    }
    let frame = frame_at(source, at)?;
    Ok(Some(frame))
}
