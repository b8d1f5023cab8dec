// Lists the frames of the stream on standard input, with what their data mean.
#![tactic(auto)]

mod lists;
mod meanings;
mod shown;
mod texts;

use crate::lists::{print_list, print_table};
use crate::meanings::print_meaning;
use attribute::{Attribute, Rule, name_of};
use frame::{Cursor, Frame, HEAD_SIZE, Stage, header};
use input::read_past;
use source::{Held, SOURCE_LIMIT, Source};
use std::fs::File;
use std::io::{BufWriter, Write};
use std::{env, io};
use stream::next_judged;

// Every checksum but a class's is compared with the sum of the data.
fn compared(attribute: Attribute) -> &'static str {
    match attribute.rule {
        Rule::Class => "not compared",
        _ => "compared",
    }
}

fn print_frame<W: Write>(out: &mut W, frame: Frame) -> io::Result<()> {
    let Attribute { id, level, rule: _ } = frame.attribute;
    let name = name_of(id);
    let place = frame.place;
    let size = frame.size;
    let sum = frame.checksum;
    let how = compared(frame.attribute);
    writeln!(
        out,
        "{place} {level} 0x{id:08X} {name} {size} 0x{sum:04X} {how}"
    )
}

// Whose properties a frame at a stage holds.
fn print_owner<W: Write>(out: &mut W, stage: Stage) -> io::Result<()> {
    match stage {
        Stage::Attachment(count) => {
            let k = count.saturating_sub(1);
            write!(out, "  attachment {k}: ")
        }
        _ => write!(out, "  message: "),
    }
}

fn print_data<S: Source, W: Write>(out: &mut W, source: &mut S, frame: Frame) -> io::Result<()> {
    let base = frame.place.saturating_add(HEAD_SIZE);
    let end = base.saturating_add(frame.size);
    match frame.attribute.rule {
        Rule::Recipients => print_table(out, source, base, end),
        Rule::Properties => {
            print_owner(out, frame.stage)?;
            print_list(out, source, base, end)?;
            Ok(())
        }
        rule => {
            write!(out, "  ")?;
            print_meaning(out, source, rule, base, frame.size)?;
            writeln!(out, "")
        }
    }
}

fn print_frames<S: Source, W: Write>(source: &mut S, out: &mut W) -> io::Result<()> {
    if let Err(refusal) = header(source) {
        return writeln!(out, "{refusal}");
    }
    let mut at = Cursor::FIRST;
    // Counted by hand: the frames are no iterator, since reading one takes the source as `&mut`.
    let mut count: usize = 0;
    loop {
        match next_judged(source, at) {
            Err(refusal) => return writeln!(out, "{refusal}"),
            Ok(None) => return writeln!(out, "{count} frames"),
            Ok(Some(frame)) => {
                print_frame(out, frame)?;
                print_data(out, source, frame)?;
                at = frame.behind();
                count += 1;
            }
        }
    }
}

fn print_stream<W: Write>(out: &mut W, bytes: &[u8]) -> io::Result<()> {
    let Ok(mut source) = Held::new(bytes) else {
        return writeln!(out, "too long");
    };
    print_frames(&mut source, out)
}

// Lists each file that is named, or standard input for `-` and where none is.
fn main(rt: HostRuntime) -> io::Result<()> {
    let mut out = BufWriter::new(rt.alloc(), rt.stdout())?;
    let mut names = env::args(&rt)?.skip(1).peekable();
    if names.peek().is_none() {
        let bytes = read_past(&mut rt.stdin(), SOURCE_LIMIT, rt.alloc())?;
        print_stream(&mut out, bytes.as_slice())?;
    }
    for name in names {
        let bytes = if name.as_str() == "-" {
            read_past(&mut rt.stdin(), SOURCE_LIMIT, rt.alloc())?
        } else {
            read_past(
                &mut File::open(&rt, name.as_str())?,
                SOURCE_LIMIT,
                rt.alloc(),
            )?
        };
        writeln!(out, "{name}:")?;
        print_stream(&mut out, bytes.as_slice())?;
    }
    out.flush()
}
