// Reading all that a reader gives, up to a limit.
#![tactic(auto)]

ghost use Rattle.std.specs.Prelude.{◌+◌, ◌≤◌, IfOk, vec_len};

use std::alloc::Global;
use std::io;
use std::io::Read;

const CHUNK: usize = 65_536;

// All that the reader gives, or more than `limit` bytes of it, which show that it is too long.
pub fn read_past<R: Read>(reader: &mut R, limit: usize, heap: Global) -> io::Result<Vec<u8>>
    ensures { IfOk result (λ v. vec_len v ≤ limit + 65536) }
{
    read_expected(reader, 0, limit, heap)
}

// The same of a reader that is expected to give so many bytes: if it does, they are not moved for want of room.
pub fn read_expected<R: Read>(
    reader: &mut R,
    expected: usize,
    limit: usize,
    heap: Global,
) -> io::Result<Vec<u8>>
    ensures { IfOk result (λ v. vec_len v ≤ limit + 65536) }
{
    let mut bytes = Vec::with_capacity(heap, expected.min(limit))?;
    let mut chunk = [0u8; CHUNK];
    for _ in 0..u64::MAX {
        let n = reader.read(&mut chunk)?;
        if n == 0 || bytes.len() > limit {
            break;
        }
        bytes.extend_from_slice(&chunk[0..n])?;
    }
    Ok(bytes)
}
