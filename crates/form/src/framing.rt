// Frames around data that are written first: nine bytes are left, the data follow, and the frame is closed.
ghost use Rattle.std.specs.Prelude.{◌≡◌, ◌+◌, ◌-◌, ◌^◌, ◌<◌, ◌≤◌, ◌∷◌, ◌++◌, length, Some};
ghost use Rattle.source.specs.Bytes.{part, le};
ghost use Rattle.scan.specs.Scans.{checksum};
ghost use Rattle.pen.specs.Pen.{Told};
ghost use Rattle.form.specs.Framing.{placed, framed, Opened, Closable, Closed};

use frame::{CHECKSUM_SIZE, HEAD_SIZE};
use pen::Pen;

// Writes `bytes` over those from `here` on.
fn put(out: &mut [u8], here: usize, bytes: &[u8])
    requires { here + length bytes.now ≤ length out.old }
    ensures { out.new ≡ placed out.old here bytes.now }
{
    out[here..here + bytes.len()].copy_from_slice(bytes);
}

// The sum of bytes, modulo 65,536.
fn summed(bytes: &[u8]) -> u16
    ensures { result ≡ checksum bytes.now }
{
    bytes
        .iter()
        .fold(0, |total: u16, byte| total.wrapping_add(u16::from(*byte)))
}

// What stands before a frame's data.
fn head(level: u8, id: u32, size: u32) -> [u8; HEAD_SIZE]
    ensures { result ≡ level ∷ (le 4 id ++ le 4 size) }
{
    let [i0, i1, i2, i3] = id.to_le_bytes();
    let [s0, s1, s2, s3] = size.to_le_bytes();
    [level, i0, i1, i2, i3, s0, s1, s2, s3]
}

// Closes the frame whose data stand from nine bytes behind `start` to `end`.
fn close(out: &mut [u8], start: usize, end: usize, level: u8, id: u32) -> Option<usize>
    requires start_bound { start + 9 ≤ end }
    requires end_in_bounds { end ≤ length out.old }
    requires out_len_bound { length out.old < 2 ^ 32 }
    ensures { Told out.old (Some start) (framed level id (part out.old (start + 9) (end - (start + 9)))) out.new result }
{
    if out.len() - end < CHECKSUM_SIZE {
        return None;
    }
    let size = (end - (start + HEAD_SIZE)) as u32;
    let sum = summed(&out[start + HEAD_SIZE..end]);
    put(out, start, &head(level, id, size));
    put(out, end, &sum.to_le_bytes());
    Some(end + CHECKSUM_SIZE)
}

// Leaves the nine bytes that stand before a frame's data, and says where the frame begins.
pub fn pen_open(pen: &mut Pen<'_>) -> Option<usize>
    ensures { Opened pen.old result pen.new }
{
    let start = pen.here?;
    pen.here = if start > pen.out.len() || pen.out.len() - start < HEAD_SIZE {
        None
    } else {
        Some(start + HEAD_SIZE)
    };
    Some(start)
}

// Closes the frame that begins at `start` around the data that were written, if they were.
pub fn pen_close(pen: &mut Pen<'_>, start: Option<usize>, level: u8, id: u32)
    requires closable { Closable pen.old.out.now start pen.old.here }
    requires out_len_bound { length pen.old.out.now < 2 ^ 32 }
    ensures { Closed pen.old start level id pen.new }
{
    pen.here = match (start, pen.here) {
        (Some(start), Some(end)) => close(pen.out, start, end, level, id),
        _ => None,
    };
}
