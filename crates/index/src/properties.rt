// Rows of properties, by key.
ghost use Rattle.std.specs.Prelude.{false};
ghost use Rattle.index.specs.Keys.{key_of, same_key};
ghost use Rattle.index.specs.SameKeys.{alike_by_key};

use crate::{PropertyKey, Row};

// A property's key, the number of its type (not its kind, since a blank row has none), where its values begin, and the
// place behind them.
#[derive(Clone, Copy)]
pub struct PropertyRow {
    pub key: PropertyKey,
    pub number: u16,
    pub values: usize,
    pub next: usize,
}

// Of two properties with one key the earlier stands.
impl Row for PropertyRow {
    ghost same = { λ x y. same_key (key_of x.key) (key_of y.key) };

    ghost later = { false };

    ghost laws = { alike_by_key (λ x. key_of x.key) };

    fn same_key(&self, other: &Self) -> bool {
        self.key == other.key
    }

    fn takes_later() -> bool {
        false
    }
}
