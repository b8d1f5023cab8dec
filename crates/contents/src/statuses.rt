// The status of a message.
ghost use Rattle.std.specs.Prelude.{◌≡◌};
ghost use Rattle.source.specs.Content.{meaning};
ghost use Rattle.scan.specs.Scans.{asked};
ghost use Rattle.scan.specs.Texts.{also};
ghost use Rattle.contents.specs.Status.{flag, flags, status_bits, status_of, status_in};

use crate::fixed::number;
use source::{Refusal, Source};

#[derive(Clone, Copy, PartialEq, Eq, Debug)]
pub struct Status {
    pub read: bool,
    pub modified: bool,
    pub submitted: bool,
    pub unsent: bool,
    pub attached: bool,
}

// The value of a flag that is set; 0 for another.
fn flag_if(set: bool, value: u8) -> u8
    ensures { result ≡ flag set value }
{
    if set { value } else { 0 }
}

impl Status {
    // The flags by which it is reported: read, unmodified, submitted, unsent, with attachments.
    pub fn flags(self) -> u8
        ensures { result ≡ flags self }
    {
        flag_if(self.read, 0x01)
            + flag_if(!self.modified, 0x02)
            + flag_if(self.submitted, 0x04)
            + flag_if(self.unsent, 0x08)
            + flag_if(self.attached, 0x10)
    }

    // Its bits in normal data.
    pub(crate) fn bits(self) -> u8
        ensures { result ≡ status_bits self }
    {
        flag_if(self.read, 0x20)
            + flag_if(self.modified, 0x01)
            + flag_if(self.submitted, 0x04)
            + flag_if(self.unsent, 0x02)
            + flag_if(self.attached, 0x80)
    }
}

// The bits that count; the others are ignored.
fn status_in(bits: Option<u32>) -> Option<Status>
    ensures { result ≡ also bits status_of }
{
    let bits = bits?;
    Some(Status {
        read: bits & 0x20 != 0,
        modified: bits & 0x01 != 0,
        submitted: bits & 0x04 != 0,
        unsent: bits & 0x02 != 0,
        attached: bits & 0x80 != 0,
    })
}

// The status that data mean, if they mean one.
#[tactic(auto, unfolding(scan::specs::Scans::asked))]
pub fn status_at<S: Source>(
    source: &mut S,
    place: usize,
    size: usize,
) -> Result<Option<Status>, Refusal>
    ensures same { S.Source.content source.new ≡ S.Source.content source.old }
    ensures value { result ≡ asked status_in (meaning (S.Source.content source.old)) place size }
{
    let bits = number(source, 4, place, size)?;
    Ok(status_in(bits))
}
