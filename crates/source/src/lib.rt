// What bytes are read from: a source means a list of at most SOURCE_LIMIT bytes.
#![tactic(auto)]

ghost use Rattle.std.specs.Prelude.{◌≡◌, ℕ, ◌≤◌, List, length};
ghost use Rattle.source.specs.Bytes.{Octets};
ghost use Rattle.source.specs.Content.{Content, meaning, source_limit};
ghost use Rattle.source.specs.Fetch.{Fetched};

mod joins;
mod refusals;
mod slices;
mod windows;

pub use joins::Join;
pub use refusals::{Reason, Refusal, Returned};
pub use slices::{Held, octets};
pub use windows::Window;

// The most bytes that a source can mean.
pub const SOURCE_LIMIT: usize = 16_777_216;

pub trait Source {
    ghost content: { Self → Content };

    // How many bytes it means; each is below 256.
    fn len(&self) -> usize
        ensures value { result ≡ length (meaning (content self.now)) }
        ensures bound { result ≤ source_limit }
        ensures octets { Octets (meaning (content self.now)) };

    // It takes the source as `&mut`, since reading may move a file: so every reader has to say that the bytes stay.
    // Fills the buffer with the bytes from `place` on, or refuses and leaves it where the source ends too early.
    fn fetch(&mut self, place: usize, buffer: &mut [u8]) -> Result<(), Refusal>
        ensures same { content self.new ≡ content self.old }
        ensures value { Fetched (meaning (content self.old)) place buffer.old buffer.new result };
}
