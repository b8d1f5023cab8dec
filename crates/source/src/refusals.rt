// Why a call was refused, and where.
ghost use Rattle.std.specs.Prelude.{◌≡◌, Some};
ghost use Rattle.source.specs.Refusals.{number, layer, line};

use std::fmt;

#[derive(Clone, Copy, PartialEq, Eq, Debug)]
pub enum Reason {
    ShortWork,
    SourceTooLong,
    SourceEnd,
    StreamEnd,
    Signature,
    Level,
    UnknownId,
    Misplaced,
    LengthSign,
    Checksum,
    NotAdmitted,
    FieldEnd,
    FieldRule,
    LeftOver,
    Limit,
    Missing,
    NotWritten,
    FormTooLong,
}

impl Reason {
    // The number by which the refusal is reported, 1 to 17; no `as`, since two reasons share one.
    pub fn number(self) -> u8
        ensures { result ≡ number self }
    {
        match self {
            Reason::ShortWork => 1,
            Reason::SourceTooLong => 2,
            Reason::SourceEnd | Reason::StreamEnd => 3,
            Reason::Signature => 4,
            Reason::Level => 5,
            Reason::UnknownId => 6,
            Reason::Misplaced => 7,
            Reason::LengthSign => 8,
            Reason::Checksum => 9,
            Reason::NotAdmitted => 10,
            Reason::FieldEnd => 11,
            Reason::FieldRule => 12,
            Reason::LeftOver => 13,
            Reason::Limit => 14,
            Reason::Missing => 15,
            Reason::NotWritten => 16,
            Reason::FormTooLong => 17,
        }
    }

    // The layer that refuses, 1 (sources) to 5 (drafts).
    pub fn layer(self) -> u8
        ensures { result ≡ layer self }
    {
        match self {
            Reason::SourceTooLong | Reason::SourceEnd => 1,
            Reason::StreamEnd
            | Reason::Signature
            | Reason::Level
            | Reason::UnknownId
            | Reason::Misplaced
            | Reason::LengthSign
            | Reason::Checksum => 2,
            Reason::NotAdmitted => 3,
            Reason::FieldEnd | Reason::FieldRule | Reason::LeftOver | Reason::Limit => 4,
            Reason::ShortWork | Reason::Missing | Reason::NotWritten | Reason::FormTooLong => 5,
        }
    }
}

#[derive(Clone, Copy, PartialEq, Eq, Debug)]
pub struct Refusal {
    pub reason: Reason,
    pub place: usize,
}

// As `refused 9 2 21`: number, layer, place.
impl fmt::Display for Refusal {
    ghost output = { λ r. Some (line r) };

    fn fmt<W: fmt::Write>(&self, f: &mut fmt::Formatter<W>) -> fmt::Result {
        let number = self.reason.number();
        let layer = self.reason.layer();
        let place = self.place;
        write!(f, "refused {number} {layer} {place}")
    }
}

// A refusal, with what the refused call was given.
#[derive(Drop)]
pub struct Returned<T> {
    pub refusal: Refusal,
    pub value: T,
}
