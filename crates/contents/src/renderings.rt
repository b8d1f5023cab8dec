// Renderings of attachments, and the version of a stream.
ghost use Rattle.std.specs.Prelude.{◌≡◌, ◌&&◌, ◌||◌, ◌==◌, nat_le};
ghost use Rattle.source.specs.Content.{meaning};
ghost use Rattle.scan.specs.Scans.{asked};
ghost use Rattle.contents.specs.Contents.{right_rendering, is_rendering, is_version};

use crate::fixed::exactly;
use source::{Refusal, Source};

fn are_right(kind: u16, flags: u32) -> bool
    ensures { result ≡ ((kind == 1 || kind == 2) && nat_le flags 1) }
{
    (kind == 1 || kind == 2) && flags <= 1
}

#[tactic(auto, using(crate::proofs::Parts::rendering_tests))]
fn has_right_parts(bytes: &[u8; 14]) -> bool
    ensures { result ≡ right_rendering bytes.now }
{
    let kind = u16::from_le_bytes([bytes[0], bytes[1]]);
    let flags = u32::from_le_bytes([bytes[10], bytes[11], bytes[12], bytes[13]]);
    are_right(kind, flags)
}

// Whether data are a rendering: of type 1 or 2, with flags of 0 or 1.
#[tactic(auto, unfolding(scan::specs::Scans::asked))]
pub(crate) fn is_rendering<S: Source>(
    source: &mut S,
    place: usize,
    size: usize,
) -> Result<bool, Refusal>
    ensures same { S.Source.content source.new ≡ S.Source.content source.old }
    ensures value { result ≡ asked is_rendering (meaning (S.Source.content source.old)) place size }
{
    let Some(bytes) = exactly(source, place, size)? else {
        return Ok(false);
    };
    Ok(has_right_parts(&bytes))
}

// Whether data are the one version, 00 00 01 00.
#[tactic(auto, using(crate::proofs::Parts::version_read), unfolding(scan::specs::Scans::asked))]
pub(crate) fn is_version<S: Source>(
    source: &mut S,
    place: usize,
    size: usize,
) -> Result<bool, Refusal>
    ensures same { S.Source.content source.new ≡ S.Source.content source.old }
    ensures value { result ≡ asked is_version (meaning (S.Source.content source.old)) place size }
{
    let bytes = exactly(source, place, size)?;
    Ok(bytes == Some([0, 0, 1, 0]))
}
