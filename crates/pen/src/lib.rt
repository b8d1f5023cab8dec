// Writing bytes into a lent slice, one part after another.
#![tactic(auto)]

ghost use Rattle.std.specs.Prelude.{◌≡◌, ◌+◌, ◌≤◌, length, replicate, Some};
ghost use Rattle.source.specs.Bytes.{part};
ghost use Rattle.source.specs.Content.{meaning};
ghost use Rattle.pen.specs.Pen.{Wrote, SameSlice, RoomFor};

use scan::Number;
use source::Source;

// A slice, and the place up to which it is written; none once something did not fit.
#[derive(Drop)]
pub struct Pen<'a> {
    pub out: &'a mut [u8],
    pub here: Option<usize>,
}

impl<'a> Pen<'a> {
    // Writes from the front of the slice on.
    pub fn new(out: &'a mut [u8]) -> Pen<'a>
        ensures reference { result.out.ghost_name ≡ out.entry.ghost_name }
        ensures bytes { result.out.now ≡ out.old }
        ensures place { result.here ≡ Some 0 }
    {
        Pen { out, here: Some(0) }
    }

    // Where `size` bytes more begin, if they fit.
    pub fn room_for(&self, size: usize) -> Option<usize>
        ensures { RoomFor self.now size result }
    {
        let start = self.here?;
        if start > self.out.len() || size > self.out.len() - start {
            return None;
        }
        Some(start)
    }

    // Writes bytes.
    pub fn put(&mut self, bytes: &[u8])
        ensures { Wrote self.old bytes.now self.new }
    {
        let Some(start) = self.room_for(bytes.len()) else {
            self.here = None;
            return;
        };
        let end = start + bytes.len();
        self.out[start..end].copy_from_slice(bytes);
        self.here = Some(end);
    }

    // Writes a number, its lowest byte first.
    pub fn put_le<N: Number>(&mut self, number: N)
        ensures { Wrote self.old (N.bytes number) self.new }
    {
        self.put(&number.to_bytes()[0..N::size()]);
    }

    // Writes `count` zeros.
    pub fn put_zeros(&mut self, count: usize)
        ensures { Wrote self.old (replicate count 0) self.new }
    {
        let Some(start) = self.room_for(count) else {
            self.here = None;
            return;
        };
        self.out[start..start + count].fill(0);
        self.here = Some(start + count);
    }

    // Writes the `size` bytes of the source from `place` on, where there are so many.
    pub fn put_from<S: Source>(&mut self, source: &mut S, place: usize, size: usize)
        ensures same { S.Source.content source.new ≡ S.Source.content source.old }
        ensures slice { SameSlice self.old self.new }
        ensures value { place + size ≤ length (meaning (S.Source.content source.old))
            → Wrote self.old (part (meaning (S.Source.content source.old)) place size) self.new }
    {
        let Some(start) = self.room_for(size) else {
            self.here = None;
            return;
        };
        let fetched = source.fetch(place, &mut self.out[start..start + size]);
        self.here = fetched.is_ok().then_some(start + size);
    }
}
