// Drafts: a message's written form in a lent area.
#![tactic(auto)]

ghost use Rattle.std.specs.Prelude.{◌≡◌, ◌-◌, ◌≤◌, ◌++◌, length, take, replicate, IfOk};
ghost use Rattle.source.specs.Bytes.{le};
ghost use Rattle.scan.specs.Scans.{checksum};
ghost use Rattle.pen.specs.Pen.{Wrote};
ghost use Rattle.form.specs.Wholes.{Fills};
ghost use Rattle.source.specs.Content.{meaning};
ghost use Rattle.source.specs.declared.refusals.Reason.TheVariants.{ShortWork};
ghost use Rattle.source.specs.Outcome.{over, need};
ghost use Rattle.stream.specs.Messages.{read};
ghost use Rattle.stream.specs.Writing.{written};
ghost use Rattle.draft.specs.Drafts.{memory, enough, blank, begun, loaded, area_after, size_after, blank_row, Front};
ghost use Rattle.std.specs.Str.{bytes_eq};
ghost use Rattle.draft.specs.Promise.{LoadsDecide, compared, next_load, Tells};

mod amending;
mod checking;
mod edits;
mod given;
mod opening;
mod rewriting;

pub use edits::Edit;
use form::restate;
use index::{PropertyKey, PropertyRow};
use pen::Pen;
use property::LIST_LIMIT;
use source::{Reason, Refusal, Source};

// A row of nothing, which rows of work memory are after every call.
pub const BLANK_ROW: PropertyRow = PropertyRow {
    key: PropertyKey::Tag(0),
    number: 0,
    values: 0,
    next: 0,
};

const TOO_LONG: Refusal = Refusal {
    reason: Reason::FormTooLong,
    place: 0,
};

// Memory that a call works in, and leaves all zero. Within a call it is taken apart: one part is lent while the other is
// written.
pub struct Work<'a> {
    pub bytes: &'a mut [u8],
    pub rows: &'a mut [PropertyRow],
}

#[derive(Drop)]
pub struct Draft<'a> {
    area: &'a mut [u8],
    size: usize,
}

// Refuses work memory that is too little for an area of `room` bytes.
fn enough(bytes: &[u8], rows: &[PropertyRow], room: usize) -> Result<(), Refusal>
    ensures { result ≡ need (enough (memory bytes.now rows.now) room) ShortWork 0 }
{
    if bytes.len() < room || rows.len() < LIST_LIMIT as usize {
        return Err(Refusal {
            reason: Reason::ShortWork,
            place: 0,
        });
    }
    Ok(())
}

fn clear(rows: &mut [PropertyRow])
    ensures { rows.new ≡ replicate (length rows.old) blank_row }
{
    rows.fill(BLANK_ROW);
}

// Restates the source within the first `room` of the work bytes.
fn restate_within<S: Source>(
    source: &mut S,
    bytes: &mut [u8],
    rows: &mut [PropertyRow],
    room: usize,
) -> Result<usize, Refusal>
    ensures same { S.Source.content source.new ≡ S.Source.content source.old }
    ensures outcome { result ≡ over length (loaded (memory bytes.old rows.old) room (meaning (S.Source.content source.old))) }
    ensures form { Front (loaded (memory bytes.old rows.old) room (meaning (S.Source.content source.old))) bytes.new }
{
    enough(bytes, rows, room)?;
    restate(source, rows, &mut bytes[0..room])
}

// The form of a blank message up to its primary number, written out: closing a frame asks for an area below 2^32 bytes,
// which no caller has to promise.
const FRONT: &[u8; 30] = b"\
    \x78\x9F\x3E\x22\x01\x00\
    \x01\x06\x90\x08\x00\x04\x00\x00\x00\x00\x00\x01\x00\x01\x00\
    \x01\x07\x90\x06\x00\x08\x00\x00\x00";

// The sum of the bytes of a number.
fn sum_of(number: u32) -> u16
    ensures { result ≡ checksum (le 4 number ++ le 4 0) }
{
    let [a, b, c, d] = number.to_le_bytes();
    u16::from(a) + u16::from(b) + u16::from(c) + u16::from(d)
}

fn pen_blank(pen: &mut Pen<'_>, primary: u32)
    ensures { Wrote pen.old (written (blank primary)) pen.new }
{
    pen.put(FRONT);
    pen.put_le(primary);
    pen.put_le(0u32);
    pen.put_le(sum_of(primary));
}

// A blank form at the front of a slice: how long it is, if it fits.
fn fill_blank(out: &mut [u8], primary: u32) -> Option<usize>
    ensures { Fills out.old (written (blank primary)) out.new result }
{
    let mut pen = Pen::new(out);
    pen_blank(&mut pen, primary);
    pen.here
}

// Writes a blank form within the first `room` of the work bytes.
fn begin_within(
    bytes: &mut [u8],
    rows: &[PropertyRow],
    room: usize,
    primary: u32,
) -> Result<usize, Refusal>
    ensures outcome { result ≡ over length (begun (memory bytes.old rows.now) room primary) }
    ensures form { Front (begun (memory bytes.old rows.now) room primary) bytes.new }
{
    enough(bytes, rows, room)?;
    fill_blank(&mut bytes[0..room], primary).ok_or(TOO_LONG)
}

// The first `n` of the bytes, and zeros behind them.
fn store(area: &mut [u8], bytes: &[u8], n: usize)
    requires { (n ≤ length area.old) × (n ≤ length bytes.now) }
    ensures { area.new ≡ take n bytes.now ++ replicate (length area.old - n) 0 }
{
    let size = area.len();
    area[0..n].copy_from_slice(&bytes[0..n]);
    area[n..size].fill(0);
}

impl<'a> Draft<'a> {
    // A draft in an area of which the first `size` bytes are said to be a form.
    pub fn new(area: &'a mut [u8], size: usize) -> Draft<'a>
        ensures area { result.area.now ≡ area.old }
        ensures size { result.size ≡ size }
    {
        Draft { area, size }
    }

    // The bytes that are said to be a form.
    pub fn form(&self) -> &[u8]
        ensures { result.now ≡ take self.now.size self.now.area.now }
    {
        let n = self.size.min(self.area.len());
        &self.area[0..n]
    }

    // Takes over the first bytes of the work memory where there are any to take, and leaves the work memory zero.
    fn settle(
        &mut self,
        res: Result<usize, Refusal>,
        bytes: &mut [u8],
        rows: &mut [PropertyRow],
    ) -> Result<(), Refusal>
        requires { IfOk res (λ n. (n ≤ length self.old.area.now) × (n ≤ length bytes.old)) }
        ensures outcome { result ≡ over (λ _. tt) res }
        ensures area { self.new.area.now ≡ area_after (over (λ n. take n bytes.old) res) self.old.area.now }
        ensures size { self.new.size ≡ size_after (over (λ n. take n bytes.old) res) self.old.size }
        ensures bytes { bytes.new ≡ replicate (length bytes.old) 0 }
        ensures rows { rows.new ≡ replicate (length rows.old) blank_row }
    {
        if let Ok(n) = res {
            store(self.area, bytes, n);
            self.size = n;
        }
        bytes.fill(0);
        clear(rows);
        res?;
        Ok(())
    }

    // The form of a message of nothing but its primary number.
    pub fn begin(&mut self, work: Work<'_>, primary: u32) -> Result<(), Refusal>
        ensures outcome { result ≡ over (λ _. tt) (begun (memory work.entry.bytes.now work.entry.rows.now) (length self.old.area.now) primary) }
        ensures area { self.new.area.now ≡ area_after (begun (memory work.entry.bytes.now work.entry.rows.now) (length self.old.area.now) primary) self.old.area.now }
        ensures size { self.new.size ≡ size_after (begun (memory work.entry.bytes.now work.entry.rows.now) (length self.old.area.now) primary) self.old.size }
        ensures bytes { work.exit.0.now ≡ replicate (length work.entry.bytes.now) 0 }
        ensures rows { work.exit.1.0.now ≡ replicate (length work.entry.rows.now) blank_row }
    {
        let Work { bytes, rows } = work;
        let room = self.area.len();
        let result = begin_within(bytes, rows, room, primary);
        self.settle(result, bytes, rows)
    }

    // The form of the message that the source carries.
    pub fn load<S: Source>(&mut self, work: Work<'_>, source: &mut S) -> Result<(), Refusal>
        ensures same { S.Source.content source.new ≡ S.Source.content source.old }
        ensures outcome { result ≡ over (λ _. tt) (loaded (memory work.entry.bytes.now work.entry.rows.now) (length self.old.area.now) (meaning (S.Source.content source.old))) }
        ensures area { self.new.area.now ≡ area_after (loaded (memory work.entry.bytes.now work.entry.rows.now) (length self.old.area.now) (meaning (S.Source.content source.old))) self.old.area.now }
        ensures size { self.new.size ≡ size_after (loaded (memory work.entry.bytes.now work.entry.rows.now) (length self.old.area.now) (meaning (S.Source.content source.old))) self.old.size }
        ensures bytes { work.exit.0.now ≡ replicate (length work.entry.bytes.now) 0 }
        ensures rows { work.exit.1.0.now ≡ replicate (length work.entry.rows.now) blank_row }
    {
        let Work { bytes, rows } = work;
        let room = self.area.len();
        let result = restate_within(source, bytes, rows, room);
        self.settle(result, bytes, rows)
    }
}

// Whether two sources carry the same message, by the forms that loading them leaves in two drafts.
pub fn same_message<A: Source, B: Source>(
    first: &mut A,
    second: &mut B,
    one: &mut Draft<'_>,
    other: &mut Draft<'_>,
    work: Work<'_>,
) -> Result<bool, Refusal>
    ensures same_first { A.Source.content first.new ≡ A.Source.content first.old }
    ensures same_second { B.Source.content second.new ≡ B.Source.content second.old }
    ensures outcome { result ≡ compared
        (loaded (memory work.entry.bytes.now work.entry.rows.now) (length one.old.area.now) (meaning (A.Source.content first.old)))
        (loaded (memory work.entry.bytes.now work.entry.rows.now) (length other.old.area.now) (meaning (B.Source.content second.old))) }
    ensures decides { Tells (meaning (A.Source.content first.old)) (meaning (B.Source.content second.old)) result }
    ensures one_area { one.new.area.now ≡ area_after (loaded (memory work.entry.bytes.now work.entry.rows.now) (length one.old.area.now) (meaning (A.Source.content first.old))) one.old.area.now }
    ensures one_size { one.new.size ≡ size_after (loaded (memory work.entry.bytes.now work.entry.rows.now) (length one.old.area.now) (meaning (A.Source.content first.old))) one.old.size }
    ensures other_area { other.new.area.now ≡ area_after (next_load (loaded (memory work.entry.bytes.now work.entry.rows.now) (length one.old.area.now) (meaning (A.Source.content first.old))) (loaded (memory work.entry.bytes.now work.entry.rows.now) (length other.old.area.now) (meaning (B.Source.content second.old)))) other.old.area.now }
    ensures other_size { other.new.size ≡ size_after (next_load (loaded (memory work.entry.bytes.now work.entry.rows.now) (length one.old.area.now) (meaning (A.Source.content first.old))) (loaded (memory work.entry.bytes.now work.entry.rows.now) (length other.old.area.now) (meaning (B.Source.content second.old)))) other.old.size }
    ensures bytes { work.exit.0.now ≡ replicate (length work.entry.bytes.now) 0 }
    ensures rows { work.exit.1.0.now ≡ replicate (length work.entry.rows.now) blank_row }
{
    let _octets = first.len();
    let _octets2 = second.len();
    let Work { bytes, rows } = work;
    one.load(
        Work {
            bytes: &mut *bytes,
            rows: &mut *rows,
        },
        first,
    )?;
    other.load(Work { bytes, rows }, second)?;
    Ok(one.form() == other.form())
}

// Two accepted loads leave equal bytes exactly for the same message.
pub fn loads_decide() -> u8
    ensures { LoadsDecide }
{
    0
}
