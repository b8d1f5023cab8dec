// The rows of one target, in an array that has room for all.
ghost use Rattle.std.specs.Prelude.{◌≡◌, ◌<◌, ◌≤◌, false, List, [], length, take, ◌==◌, find as first_such};
ghost use Rattle.index.specs.Rows.{added};
ghost use Rattle.index.specs.declared.attributes.AttributeRow.{AttributeRow};
ghost use Rattle.form.specs.Targets.{row_under, same_id};

use index::{AttributeRow, add};
use std::marker::Model;

// More than there are attributes.
const ROW_COUNT: usize = 32;

const NO_ROW: AttributeRow = AttributeRow {
    id: 0,
    place: 0,
    size: 0,
};

// An array and a count, since nothing is allocated; a list to whoever reads a contract.
#[derive(Drop)]
pub struct Rows {
    rows: [AttributeRow; ROW_COUNT],
    used: usize,
}

impl Model for Rows {
    ghost Value = { List AttributeRow };

    ghost view = { λ r. take r.used r.rows };

    ghost invariant = { λ r. r.used ≤ length r.rows };
}

impl Rows {
    pub(crate) fn new() -> Rows
        ensures { result ≡ [] }
    {
        Rows {
            rows: [NO_ROW; ROW_COUNT],
            used: 0,
        }
    }

    pub(crate) fn len(&self) -> usize
        ensures { result ≡ length self.now }
    {
        self.used
    }

    // Adds a row: of two with one id the earlier stands.
    pub(crate) fn add(&mut self, row: AttributeRow)
        requires { length self.old < 32 }
        ensures { self.new ≡ added same_id false self.old row }
    {
        if let Some(used) = add(&mut self.rows, self.used, row) {
            self.used = used;
        }
    }

    pub fn as_slice(&self) -> &[AttributeRow]
        ensures { result.now ≡ self.now }
    {
        &self.rows[0..self.used]
    }

    // The row under an id.
    pub fn under(&self, id: u32) -> Option<AttributeRow>
        ensures { result ≡ row_under id self.now }
    {
        row_under(self.as_slice(), id)
    }
}

// The search in the library's words; `row_under` says it in those of rows.
fn first_row(rows: &[AttributeRow], id: u32) -> Option<AttributeRow>
    ensures { result ≡ first_such (λ r. r.id == id) rows.now }
{
    rows.iter().copied().find(|row| row.id == id)
}

// The row under an id.
pub fn row_under(rows: &[AttributeRow], id: u32) -> Option<AttributeRow>
    ensures { result ≡ row_under id rows.now }
{
    first_row(rows, id)
}
