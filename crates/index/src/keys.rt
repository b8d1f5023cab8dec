// What a property is found by: its id, or its name where it has one.
ghost use Rattle.std.specs.Prelude.{◌≡◌, ◌==◌, ◌&&◌, Decides};
ghost use Rattle.std.specs.Cmp.{partial_equiv_from_equiv};
ghost use Rattle.std.specs.Str.{bytes_eq};
ghost use Rattle.index.specs.Keys.{key_of, same_key, name_text};
ghost use Rattle.index.specs.SameKeys.{alike_by_key};

use crate::Name;

#[derive(Clone, Copy)]
pub enum PropertyKey {
    Tag(u16),
    Numbered([u8; 16], u32),
    Named([u8; 16], Name),
}

// What tells most names apart comes first: one byte of the GUID, then the number or the string. GUIDs are compared as
// slices: as arrays they are compared within the search, which is half as fast then among ids.
fn same_number(g: &[u8; 16], n: u32, h: &[u8; 16], m: u32) -> bool
    ensures { result ≡ (bytes_eq g.now h.now && n == m) }
{
    g[0] == h[0] && n == m && g[..] == h[..]
}

fn same_string(g: &[u8; 16], s: &Name, h: &[u8; 16], t: &Name) -> bool
    ensures { result ≡ (bytes_eq g.now h.now && bytes_eq (name_text s.now) (name_text t.now)) }
{
    g[0] == h[0] && s.text() == t.text() && g[..] == h[..]
}

// Names are one where GUID, kind, and number or string are equal; an id never equals a name. No derive: what a name's
// buffer holds behind its text does not count.
impl PartialEq for PropertyKey {
    ghost eq = { λ k l. same_key (key_of k) (key_of l) };

    ghost laws = { partial_equiv_from_equiv (alike_by_key key_of) };

    fn eq(&self, other: &PropertyKey) -> bool
        ensures value { result ≡ same_key (key_of self.now) (key_of other.now) }
        ensures decides { Decides result (key_of self.now ≡ key_of other.now) }
    {
        match (self, other) {
            (PropertyKey::Tag(a), PropertyKey::Tag(b)) => a == b,
            (PropertyKey::Numbered(g, n), PropertyKey::Numbered(h, m)) => {
                same_number(g, *n, h, *m)
            }
            (PropertyKey::Named(g, s), PropertyKey::Named(h, t)) => same_string(g, s, h, t),
            _ => false,
        }
    }
}

impl Eq for PropertyKey {
    ghost laws = { alike_by_key key_of };
}
