// Things of one kind in a row.
ghost use Rattle.std.specs.Prelude.{◌≡◌, ℕ, ◌≤◌, List, length, IfOk};
ghost use Rattle.std.specs.Borrow.{MutBor};
ghost use Rattle.source.specs.Content.{meaning};
ghost use Rattle.source.specs.Outcome.{Outcome};
ghost use Rattle.property.specs.Repeats.{Stays, Gives, stepped};

use source::{Refusal, Source};

// The place behind `count` things, each behind the one before; `one` answers the place behind the thing at a place.
pub(crate) fn behind_each<S: Source, F: Fn(&mut S, usize) -> Result<usize, Refusal>>(
    source: &mut S,
    end: usize,
    count: u32,
    place: usize,
    one: F,
) -> Result<usize, Refusal>
    requires sized { (end ≤ length (meaning (S.Source.content source.old))) × (place ≤ end) }
    requires callable { (x : MutBor S) (p : ℕ) → end ≤ length (meaning (S.Source.content x.now)) → F.pre one x p }
    requires stays { Stays S.Source.content end (F.post one) }
    ensures same { S.Source.content source.new ≡ S.Source.content source.old }
    ensures reads { (next : List ℕ → ℕ → Outcome ℕ) → Gives S.Source.content end (F.post one) next → result ≡ stepped (next (meaning (S.Source.content source.old))) count place }
    ensures within { IfOk result (λ n. n ≤ end) }
{
    let mut here = place;
    for i in 0..count {
        here = one(source, here)?;
    }
    Ok(here)
}
