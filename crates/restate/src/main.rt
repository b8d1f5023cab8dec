// Restates the stream on standard input.
#![tactic(auto)]

use draft::{BLANK_ROW, Draft, Work};
use input::read_past;
use property::LIST_LIMIT;
use source::{Held, Source};
use std::alloc::Global;
use std::io;
use std::io::{BufWriter, Write};

const AREA_SIZE: usize = 65_536;

// The form of the message that the bytes carry, or why there is none.
fn print_form<W: Write>(out: &mut W, bytes: &[u8], heap: Global) -> io::Result<()> {
    if bytes.len() > AREA_SIZE {
        return writeln!(out, "too long");
    }
    let Ok(mut source) = Held::new(bytes) else {
        return writeln!(out, "too long");
    };
    let mut area = Vec::from_elem(heap, 0u8, AREA_SIZE)?;
    let mut spare = Vec::from_elem(heap, 0u8, AREA_SIZE)?;
    let mut rows = Vec::from_elem(heap, BLANK_ROW, LIST_LIMIT as usize)?;
    let mut draft = Draft::new(area.as_mut_slice(), 0);
    let work = Work {
        bytes: spare.as_mut_slice(),
        rows: rows.as_mut_slice(),
    };
    match draft.load(work, &mut source) {
        Ok(()) => out.write_all(draft.form()),
        Err(refusal) => writeln!(out, "{refusal}"),
    }
}

fn main(rt: HostRuntime) -> io::Result<()> {
    let mut out = BufWriter::new(rt.alloc(), rt.stdout())?;
    let bytes = read_past(&mut rt.stdin(), AREA_SIZE, rt.alloc())?;
    print_form(&mut out, bytes.as_slice(), rt.alloc())?;
    out.flush()
}
