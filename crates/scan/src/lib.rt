// Reading a part of a source in chunks, byte by byte: sums, texts, numbers.
#![tactic(auto)]

ghost use Rattle.std.specs.Prelude.{◌≡◌, ℕ, Bool, List, fold};
ghost use Rattle.source.specs.Content.{meaning};
ghost use Rattle.scan.specs.Scans.{asked};

use source::{Reason, Refusal, Source};

mod little;
mod sums;
mod texts;

pub use little::Number;
pub use sums::checksum;
pub use texts::{is_text8, is_text16};

const CHUNK: usize = 256;

// What goes from state to state by one byte after another.
pub trait Automaton: Copy {
    ghost step: { Self → ℕ → Self };

    fn after(self, byte: u8) -> Self
        ensures { result ≡ step self byte };
}

// An automaton that tells which bytes are of a kind.
pub trait Recognizer: Automaton {
    ghost start: { Self };

    ghost closed: { Self → Bool };

    ghost accepts: { List ℕ → Bool };

    fn start() -> Self
        ensures { result ≡ start };

    // Whether the bytes may end here.
    fn closed(self) -> bool
        ensures { result ≡ closed self };

    ghost right: { (xs : List ℕ) → closed (fold Self.step start xs) ≡ accepts xs };
}

// The state after all of `bytes`.
fn after_all<A: Automaton>(start: A, bytes: &[u8]) -> A
    ensures { result ≡ fold A.Automaton.step start bytes.now }
{
    bytes.iter().fold(start, |state, byte| state.after(*byte))
}

#[tactic(auto, unfolding(crate::specs::Scans::asked, source::specs::Bytes::part))]
// The state after the `size` bytes from `place` on.
pub fn scan<S: Source, A: Automaton>(
    source: &mut S,
    place: usize,
    size: usize,
    start: A,
) -> Result<A, Refusal>
    ensures same { S.Source.content source.new ≡ S.Source.content source.old }
    ensures value { result ≡ asked (fold A.Automaton.step start) (meaning (S.Source.content source.old)) place size }
{
    let total = source.len();
    if place > total || size > total - place {
        return Err(Refusal {
            reason: Reason::SourceEnd,
            place: 0,
        });
    }
    // By places and not by `step_by`: what a chunk adds is told by how much is done, and the last one is shorter.
    let mut buffer = [0u8; CHUNK];
    let mut state = start;
    let mut done: usize = 0;
    while done < size {
        let n = (size - done).min(CHUNK);
        let part = &mut buffer[0..n];
        source.fetch(place + done, part)?;
        state = after_all(state, part);
        done += n;
    }
    Ok(state)
}

#[tactic(auto, unfolding(crate::specs::Scans::asked))]
// Whether the `size` bytes from `place` on are of the kind.
pub fn recognize<A: Recognizer, S: Source>(
    source: &mut S,
    place: usize,
    size: usize,
) -> Result<bool, Refusal>
    ensures same { S.Source.content source.new ≡ S.Source.content source.old }
    ensures value { result ≡ asked A.Recognizer.accepts (meaning (S.Source.content source.old)) place size }
{
    let state = scan(source, place, size, A::start())?;
    Ok(state.closed())
}
