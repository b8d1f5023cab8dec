// Writing keys, with names numbered as they come.
ghost use Rattle.std.specs.Prelude.{◌≡◌, ◌<◌};
ghost use Rattle.index.specs.Keys.{key_of};
ghost use Rattle.pen.specs.Pen.{Wrote};
ghost use Rattle.property.specs.Writing.{write_key, after_key};

use crate::fields::pen_filled;
use index::PropertyKey;
use pen::Pen;

// Writes a key: its id, or the number and what the name is.
pub fn pen_key(key: &PropertyKey, number: u16, pen: &mut Pen<'_>)
    ensures { Wrote pen.old (write_key number (key_of key.now)) pen.new }
{
    match key {
        PropertyKey::Tag(id) => pen.put_le(*id),
        PropertyKey::Numbered(guid, n) => {
            pen.put_le(number);
            pen.put(guid);
            pen.put_le(0u32);
            pen.put_le(*n);
        }
        PropertyKey::Named(guid, name) => {
            let text = name.text();
            pen.put_le(number);
            pen.put(guid);
            pen.put_le(1u32);
            pen.put_le(text.len() as u32);
            pen_filled(text, pen);
        }
    }
}

// The number that the next name gets.
pub fn after_key(key: &PropertyKey, number: u16) -> u16
    requires { number < 65535 }
    ensures { result ≡ after_key (key_of key.now) number }
{
    match key {
        PropertyKey::Tag(_) => number,
        _ => number + 1,
    }
}
