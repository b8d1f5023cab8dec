// Rows in a lent slice, found by equality of their keys and kept as their keys first come.
#![tactic(auto)]

ghost use Rattle.std.specs.Prelude.{◌≡◌, Bool};
ghost use Rattle.std.specs.Cmp.{IsEquivalence};
ghost use Rattle.std.specs.List.{position as first_that};
ghost use Rattle.index.specs.Laws.{Lawful};
ghost use Rattle.index.specs.Rows.{position, Added};

mod attributes;
mod keys;
mod names;
mod properties;

pub use attributes::AttributeRow;
pub use keys::PropertyKey;
pub use names::{NAME_LIMIT, Name};
pub use properties::PropertyRow;

// A kind of row: which rows have the same key, and which of two such rows stands.
pub trait Row: Copy {
    ghost same: { Self → Self → Bool };

    ghost later: { Bool };

    fn same_key(&self, other: &Self) -> bool
        ensures { result ≡ same self.now other.now };

    // Whether the later of two rows with one key takes the place of the earlier.
    fn takes_later() -> bool
        ensures { result ≡ later };

    ghost laws: { IsEquivalence same };
}

// The search in the library's words; `find` says it in those of rows.
fn first_place<R: Row>(rows: &[R], probe: &R) -> Option<usize>
    ensures { result ≡ first_that (λ x. R.Row.same x probe.now) rows.now }
{
    rows.iter().position(|row| row.same_key(probe))
}

// Where the first row with the key of `probe` stands.
pub fn find<R: Row>(rows: &[R], probe: &R) -> Option<usize>
    ensures { result ≡ position R.Row.same rows.now probe.now }
{
    first_place(rows, probe)
}

#[tactic(auto, using(crate::proofs::Positions::position_below, crate::proofs::Positions::take_min, crate::proofs::Positions::added_new, crate::proofs::Positions::added_none, crate::proofs::Positions::added_stays))]
// Adds `row` to the first `used` rows (the rows are lent, so how many are used goes beside them), and says how many there are then, or nothing where its key is new and there is no room.
pub fn add<R: Row>(rows: &mut [R], used: usize, row: R) -> Option<usize>
    ensures { Added R.Row.same R.Row.later used row rows.old rows.new result }
{
    let n = used.min(rows.len());
    match find(&rows[0..n], &row) {
        Some(i) => {
            if R::takes_later() {
                rows[i] = row;
            }
            Some(n)
        }
        None => {
            if n == rows.len() {
                return None;
            }
            rows[n] = row;
            Some(n + 1)
        }
    }
}

// What holds of the index of any rows that come one after another, for every kind of row.
pub fn index_is_lawful<R: Row>() -> u8
    ensures { Lawful R.Row.same R.Row.later }
{
    0
}
