// Bytes, texts and keys as people read them.
use index::PropertyKey;
use std::fmt;

// Two digits a byte.
#[derive(Clone, Copy)]
pub struct Hex<'a>(pub &'a [u8]);

impl fmt::Display for Hex<'_> {
    fn fmt<W: fmt::Write>(&self, f: &mut fmt::Formatter<W>) -> fmt::Result {
        for byte in self.0 {
            write!(f, "{byte:02X}")?;
        }
        Ok(())
    }
}

#[derive(Clone, Copy)]
struct Escaped(u8);

impl fmt::Display for Escaped {
    fn fmt<W: fmt::Write>(&self, f: &mut fmt::Formatter<W>) -> fmt::Result {
        let byte = self.0;
        match byte {
            b'"' | b'\\' => write!(f, "\\{}", char::from(byte)),
            b' '..=b'~' => write!(f, "{}", char::from(byte)),
            _ => write!(f, "\\x{byte:02X}"),
        }
    }
}

#[derive(Clone, Copy)]
pub struct Text8<'a>(pub &'a [u8]);

impl fmt::Display for Text8<'_> {
    fn fmt<W: fmt::Write>(&self, f: &mut fmt::Formatter<W>) -> fmt::Result {
        for byte in self.0 {
            write!(f, "{}", Escaped(*byte))?;
        }
        Ok(())
    }
}

#[derive(Clone, Copy)]
pub struct Text16<'a>(pub &'a [u8]);

impl fmt::Display for Text16<'_> {
    fn fmt<W: fmt::Write>(&self, f: &mut fmt::Formatter<W>) -> fmt::Result {
        for pair in self.0.chunks_exact(2) {
            match u16::from_le_bytes([pair[0], pair[1]]) {
                unit @ 0..=127 => write!(f, "{}", Escaped(unit as u8))?,
                unit => write!(f, "\\u{unit:04X}")?,
            }
        }
        Ok(())
    }
}

// The string of a name, without its closing zero unit.
#[derive(Clone, Copy)]
struct NameText<'a>(&'a [u8]);

impl fmt::Display for NameText<'_> {
    fn fmt<W: fmt::Write>(&self, f: &mut fmt::Formatter<W>) -> fmt::Result {
        for pair in self.0.chunks_exact(2) {
            match u16::from_le_bytes([pair[0], pair[1]]) {
                0 => {}
                unit @ 32..=126 => write!(f, "{}", char::from(unit as u8))?,
                unit => write!(f, "\\u{unit:04X}")?,
            }
        }
        Ok(())
    }
}

// A property's id, or its GUID and number or string.
#[derive(Clone, Copy)]
pub struct Key<'a>(pub &'a PropertyKey);

impl fmt::Display for Key<'_> {
    fn fmt<W: fmt::Write>(&self, f: &mut fmt::Formatter<W>) -> fmt::Result {
        let Key(key) = *self;
        match key {
            PropertyKey::Tag(id) => write!(f, "0x{id:04X}"),
            PropertyKey::Numbered(guid, number) => write!(f, "{}/0x{number:08X}", Hex(guid)),
            PropertyKey::Named(guid, name) => {
                write!(f, "{}/\"{}\"", Hex(guid), NameText(name.text()))
            }
        }
    }
}
