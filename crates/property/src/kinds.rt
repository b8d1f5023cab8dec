// The types of properties.
ghost use Rattle.std.specs.Prelude.{◌≡◌};
ghost use Rattle.property.specs.Kinds.{single_kind, has_several, shape_of, width, Lawful};

// What values are: of a number of bytes each, or each behind its size.
#[derive(Clone, Copy, PartialEq, Eq, Debug)]
pub enum Kind {
    Fixed(u8),
    YesNo,
    String8,
    String16,
    Binary,
    Object,
}

impl Kind {
    // How wide a value is, if values of the kind are of one width; others stand behind their size.
    pub fn width(self) -> Option<u8>
        ensures { result ≡ width self }
    {
        match self {
            Kind::Fixed(width) => Some(width),
            Kind::YesNo => Some(2),
            _ => None,
        }
    }
}

#[derive(Clone, Copy, PartialEq, Eq, Debug)]
pub struct Shape {
    pub kind: Kind,
    pub several: bool,
}

// Added to the number of a type, it gives the type of several values.
const SEVERAL: u16 = 0x1000;

// A lookup and no `TryFrom`: that there is no such type is no error of its own.
fn single_kind(number: u16) -> Option<Kind>
    ensures { result ≡ single_kind number }
{
    match number {
        0x0002 => Some(Kind::Fixed(2)),
        0x000B => Some(Kind::YesNo),
        0x0003 | 0x0004 => Some(Kind::Fixed(4)),
        0x0005 | 0x0006 | 0x0007 | 0x0014 | 0x0040 => Some(Kind::Fixed(8)),
        0x0048 => Some(Kind::Fixed(16)),
        0x001E => Some(Kind::String8),
        0x001F => Some(Kind::String16),
        0x0102 => Some(Kind::Binary),
        0x000D => Some(Kind::Object),
        _ => None,
    }
}

fn has_several(kind: Kind) -> bool
    ensures { result ≡ has_several kind }
{
    !matches!(kind, Kind::YesNo | Kind::Object)
}

// How the values of a type stand in a list, if there is such a type.
#[tactic(auto, unfolding(crate::specs::Kinds::shape_of))]
pub fn shape_of(number: u16) -> Option<Shape>
    ensures { result ≡ shape_of number }
{
    if let Some(kind) = single_kind(number) {
        return Some(Shape {
            kind,
            several: false,
        });
    }
    let kind = single_kind(number.checked_sub(SEVERAL)?)?;
    has_several(kind).then_some(Shape {
        kind,
        several: true,
    })
}

// For every kind: normal bytes are admitted and mean the same value, and values are the same just where their normal bytes are.
pub fn kinds_are_lawful() -> u8
    ensures { Lawful }
{
    0
}
