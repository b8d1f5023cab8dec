// Priorities, answers of yes or no, and code pages.
ghost use Rattle.std.specs.Prelude.{◌≡◌};
ghost use Rattle.source.specs.Content.{meaning};
ghost use Rattle.scan.specs.Scans.{asked};
ghost use Rattle.scan.specs.Texts.{also};
ghost use Rattle.contents.specs.Contents.{ranked, nonzero, importance_in, truth_in, code_page_in};
ghost use Rattle.contents.specs.Options.{then};

use crate::fixed::{number, reach};
use scan::Number;
use source::{Refusal, Source};

fn rank(number: Option<u32>) -> Option<u16>
    ensures { result ≡ then number ranked }
{
    match number? {
        1 => Some(2),
        2 => Some(1),
        3 => Some(0),
        _ => None,
    }
}

// The importance that the data of a priority mean: 0, 1 or 2.
#[tactic(auto, unfolding(scan::specs::Scans::asked))]
pub fn importance_at<S: Source>(
    source: &mut S,
    place: usize,
    size: usize,
) -> Result<Option<u16>, Refusal>
    ensures same { S.Source.content source.new ≡ S.Source.content source.old }
    ensures value { result ≡ asked importance_in (meaning (S.Source.content source.old)) place size }
{
    let number = number(source, 2, place, size)?;
    Ok(rank(number))
}

fn is_nonzero(number: Option<u32>) -> Option<bool>
    ensures { result ≡ also number nonzero }
{
    Some(number? != 0)
}

// Whether data mean yes, if they mean yes or no.
#[tactic(auto, unfolding(scan::specs::Scans::asked))]
pub fn truth_at<S: Source>(
    source: &mut S,
    place: usize,
    size: usize,
) -> Result<Option<bool>, Refusal>
    ensures same { S.Source.content source.new ≡ S.Source.content source.old }
    ensures value { result ≡ asked truth_in (meaning (S.Source.content source.old)) place size }
{
    let number = number(source, 2, place, size)?;
    Ok(is_nonzero(number))
}

// The primary number of a code page's data, if they have one.
#[tactic(auto, using(scan::proofs::Numbers::length_part), unfolding(crate::specs::Options::exactly, scan::specs::Scans::asked, source::specs::Bytes::part))]
pub fn code_page_at<S: Source>(
    source: &mut S,
    place: usize,
    size: usize,
) -> Result<Option<u32>, Refusal>
    ensures same { S.Source.content source.new ≡ S.Source.content source.old }
    ensures value { result ≡ asked code_page_in (meaning (S.Source.content source.old)) place size }
{
    reach(source, place, size)?;
    if size != 8 {
        return Ok(None);
    }
    let number = u32::at(source, place)?;
    Ok(Some(number))
}
