// Which of the named files carry the same message, and how many different messages they carry.
#![tactic(auto)]

use correspondence::Correspondence;
use draft::BLANK_ROW;
use form::restate;
use index::PropertyRow;
use input::read_expected;
use property::LIST_LIMIT;
use source::{Held, Reason, Refusal, SOURCE_LIMIT, Source};
use std::alloc::{AllocError, Global};
use std::fs::File;
use std::io::{BufWriter, Write};
use std::{env, io};

// Why a stream is in no group.
enum Ungrouped {
    Refused(Refusal),
    OutOfMemory(AllocError),
}

impl From<Refusal> for Ungrouped {
    fn from(refusal: Refusal) -> Ungrouped {
        Ungrouped::Refused(refusal)
    }
}

impl From<AllocError> for Ungrouped {
    fn from(error: AllocError) -> Ungrouped {
        Ungrouped::OutOfMemory(error)
    }
}

// Room for the form of most streams of so many bytes: a form is longer only by what a class may grow.
fn usual_room(size: usize) -> usize {
    size.saturating_add(64).min(SOURCE_LIMIT)
}

// A vector of so many bytes: those of the stream, since copying them is the quickest way to fill it, and zeros.
fn vector_for(heap: Global, bytes: &[u8], room: usize) -> Result<Vec<u8>, AllocError> {
    let mut out = Vec::with_capacity(heap, room)?;
    out.extend_from_slice(bytes)?;
    out.resize(room, 0)?;
    Ok(out)
}

// The letters so far, and the rows in which the properties of each are gathered.
#[derive(Drop)]
struct Sorter {
    heap: Global,
    letters: Correspondence,
    rows: Vec<PropertyRow>,
}

impl Sorter {
    fn new(heap: Global) -> Result<Sorter, AllocError> {
        Ok(Sorter {
            heap,
            letters: Correspondence::new(heap),
            rows: Vec::from_elem(heap, BLANK_ROW, LIST_LIMIT as usize)?,
        })
    }

    // The form of the message that the bytes carry, where it fits the room.
    fn form_within(&mut self, bytes: &[u8], room: usize) -> Result<Vec<u8>, Ungrouped> {
        let mut out = vector_for(self.heap, bytes, room)?;
        let mut source = Held::new(bytes)?;
        let n = restate(&mut source, self.rows.as_mut_slice(), out.as_mut_slice())?;
        out.truncate(n);
        if out.capacity() / 2 > n {
            out.shrink_to_fit();
        }
        Ok(out)
    }

    // The form of the message that the bytes carry: in the usual room, and where it is longer, in the largest.
    fn form_of(&mut self, bytes: &[u8]) -> Result<Vec<u8>, Ungrouped> {
        match self.form_within(bytes, usual_room(bytes.len())) {
            Err(
                Ungrouped::Refused(
                    Refusal {
                        reason: Reason::FormTooLong,
                        place: _,
                    },
                ),
            ) => self.form_within(bytes, SOURCE_LIMIT),
            formed => formed,
        }
    }

    // The number of the group of the message that the bytes carry, from 1 on.
    fn group_of(&mut self, bytes: &[u8]) -> Result<usize, Ungrouped> {
        let form = self.form_of(bytes)?;
        let before = self.letters.add_owned(form)?;
        Ok(before.saturating_add(1))
    }
}

fn print_letter<W: Write>(
    out: &mut W,
    sorter: &mut Sorter,
    bytes: &[u8],
    name: &str,
) -> io::Result<()> {
    if bytes.len() > SOURCE_LIMIT {
        return writeln!(out, "too long {name}");
    }
    match sorter.group_of(bytes) {
        Ok(group) => writeln!(out, "{group} {name}"),
        Err(Ungrouped::Refused(refusal)) => writeln!(out, "{refusal} {name}"),
        Err(Ungrouped::OutOfMemory(error)) => Err(error.into()),
    }
}

// All of a file, or more than a stream may have.
fn read_file(file: &mut File, heap: Global) -> io::Result<Vec<u8>> {
    let size = file.metadata().map_or(0, |data| data.len());
    let expected = size.min(SOURCE_LIMIT as u64) as usize;
    read_expected(file, expected, SOURCE_LIMIT, heap)
}

fn main(rt: HostRuntime) -> io::Result<()> {
    let mut out = BufWriter::new(rt.alloc(), rt.stdout())?;
    let mut sorter = Sorter::new(rt.alloc())?;
    for name in env::args(&rt)?.skip(1) {
        let bytes = read_file(&mut File::open(&rt, name.as_str())?, rt.alloc())?;
        print_letter(&mut out, &mut sorter, bytes.as_slice(), name.as_str())?;
    }
    let count = sorter.letters.count();
    writeln!(out, "{count} different messages")?;
    out.flush()
}
