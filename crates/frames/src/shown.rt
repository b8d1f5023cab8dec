// Bytes of a source as people read them: shortened, and escaped. Reading takes the source as `&mut`, which a `Display` lends
// none: so functions fetch, and what is fetched has its own.
use crate::texts::{Hex, Text8, Text16};
use source::Source;
use std::io;
use std::io::Write;

// The most bytes that are shown of a value.
const SHOWN: usize = 64;

// As many of the `size` bytes from `place` on as are shown.
fn front<'a, S: Source>(
    source: &mut S,
    place: usize,
    size: usize,
    buffer: &'a mut [u8; SHOWN],
) -> &'a [u8] {
    let bytes = &mut buffer[..size.min(SHOWN)];
    match source.fetch(place, bytes) {
        Ok(()) => bytes,
        Err(_) => &[],
    }
}

// Where not all was shown, how much there is.
fn print_rest<W: Write>(out: &mut W, shown: usize, size: usize) -> io::Result<()> {
    if shown < size {
        return write!(out, " .. ({size} bytes)");
    }
    Ok(())
}

// Text without its closing zero.
pub fn print_text8<S: Source, W: Write>(
    out: &mut W,
    source: &mut S,
    place: usize,
    size: usize,
) -> io::Result<()> {
    let text = size.saturating_sub(1);
    let mut buffer = [0u8; SHOWN];
    let bytes = front(source, place, text, &mut buffer);
    write!(out, "\"{}\"", Text8(bytes))?;
    print_rest(out, bytes.len(), text)
}

// UTF-16 text without its closing zero.
pub fn print_text16<S: Source, W: Write>(
    out: &mut W,
    source: &mut S,
    place: usize,
    size: usize,
) -> io::Result<()> {
    let text = size.saturating_sub(2);
    let mut buffer = [0u8; SHOWN];
    let bytes = front(source, place, text, &mut buffer);
    write!(out, "\"{}\"", Text16(bytes))?;
    print_rest(out, bytes.len(), text)
}

pub fn print_hex<S: Source, W: Write>(
    out: &mut W,
    source: &mut S,
    place: usize,
    size: usize,
) -> io::Result<()> {
    let mut buffer = [0u8; SHOWN];
    let bytes = front(source, place, size, &mut buffer);
    if bytes.is_empty() {
        write!(out, "-")?;
    }
    write!(out, "{}", Hex(bytes))?;
    print_rest(out, bytes.len(), size)
}
