// Rows of attributes, by id.
ghost use Rattle.std.specs.Prelude.{false, ◌==◌};
ghost use Rattle.std.proofs.Common.{rules};
ghost use Rattle.std.specs.Cmp.Rules.{comparing};

use crate::Row;

#[derive(Clone, Copy)]
pub struct AttributeRow {
    pub id: u32,
    pub place: usize,
    pub size: usize,
}

// Of two attributes with one id the earlier stands.
impl Row for AttributeRow {
    ghost same = { λ x y. (x.id == y.id) };

    ghost later = { false };

    ghost laws = { Prim.search (comparing, rules) };

    fn same_key(&self, other: &Self) -> bool {
        self.id == other.id
    }

    fn takes_later() -> bool {
        false
    }
}
