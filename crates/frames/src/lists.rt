// The properties of a list or a table, a line each.
use crate::shown::{print_hex, print_text8, print_text16};
use crate::texts::Key;
use index::PropertyRow;
use property::{Kind, Shape, padded, read_property, shape_of};
use scan::Number;
use source::Source;
use std::io;
use std::io::Write;

// What the types are called; one of several values has 0x1000 added to its number.
fn type_name(number: u16) -> &'static str {
    match number & 0x0FFF {
        0x0002 => "int16",
        0x0003 => "int32",
        0x0004 => "float32",
        0x0005 => "float64",
        0x0006 => "currency",
        0x0007 => "apptime",
        0x000B => "boolean",
        0x000D => "object",
        0x0014 => "int64",
        0x001E => "string8",
        0x001F => "unicode",
        0x0040 => "systime",
        0x0048 => "guid",
        _ => "binary",
    }
}

// The number of `width` bytes at `place`, with its sign.
fn signed_at<S: Source>(source: &mut S, place: usize, width: u8) -> i64 {
    match width {
        2 => i64::from(u16::at(source, place).unwrap_or(0).cast_signed()),
        4 => i64::from(u32::at(source, place).unwrap_or(0).cast_signed()),
        _ => {
            let low = u64::from(u32::at(source, place).unwrap_or(0));
            let high = u64::from(u32::at(source, place.saturating_add(4)).unwrap_or(0));
            ((high << 32) | low).cast_signed()
        }
    }
}

fn print_fixed<S: Source, W: Write>(
    out: &mut W,
    source: &mut S,
    number: u16,
    width: u8,
    place: usize,
) -> io::Result<()> {
    match number & 0x0FFF {
        0x0002 | 0x0003 | 0x0006 | 0x0014 => {
            let value = signed_at(source, place, width);
            write!(out, " {value}")
        }
        0x000B => {
            let truth = u16::at(source, place).unwrap_or(0) != 0;
            write!(out, " {truth}")
        }
        _ => {
            write!(out, " ")?;
            print_hex(out, source, place, usize::from(width))
        }
    }
}

// One value behind its size; the place behind its padding.
fn print_sized<S: Source, W: Write>(
    out: &mut W,
    source: &mut S,
    kind: Kind,
    place: usize,
) -> io::Result<usize> {
    let size = u32::at(source, place).unwrap_or(0) as usize;
    let bytes = place.saturating_add(4);
    write!(out, " ")?;
    match kind {
        Kind::String8 => print_text8(out, source, bytes, size)?,
        Kind::String16 => print_text16(out, source, bytes, size)?,
        _ => print_hex(out, source, bytes, size)?,
    }
    Ok(bytes.saturating_add(padded(size)))
}

fn print_value<S: Source, W: Write>(
    out: &mut W,
    source: &mut S,
    number: u16,
    kind: Kind,
    place: usize,
) -> io::Result<usize> {
    match kind.width() {
        Some(width) => {
            print_fixed(out, source, number, width, place)?;
            Ok(place.saturating_add(padded(usize::from(width))))
        }
        None => print_sized(out, source, kind, place),
    }
}

// How many values there are, and where the first stands.
fn count_at<S: Source>(source: &mut S, shape: Shape, place: usize) -> (u32, usize) {
    match shape.kind.width() {
        Some(_) if !shape.several => (1, place),
        _ => (u32::at(source, place).unwrap_or(0), place.saturating_add(4)),
    }
}

fn print_property<S: Source, W: Write>(
    out: &mut W,
    source: &mut S,
    row: &PropertyRow,
) -> io::Result<()> {
    write!(out, "    {} {}", Key(&row.key), type_name(row.number))?;
    let Some(shape) = shape_of(row.number) else {
        return writeln!(out, "");
    };
    let (count, first) = count_at(source, shape, row.values);
    if shape.several {
        write!(out, "[{count}]")?;
    }
    let mut place = first;
    for _ in 0..count {
        if place >= row.next {
            break;
        }
        place = print_value(out, source, row.number, shape.kind, place)?;
    }
    writeln!(out, "")
}

// The list at `place`; the place behind it.
pub fn print_list<S: Source, W: Write>(
    out: &mut W,
    source: &mut S,
    place: usize,
    end: usize,
) -> io::Result<usize> {
    let count = u32::at(source, place).unwrap_or(0);
    writeln!(out, "{count} properties")?;
    let mut here = place.saturating_add(4);
    for _ in 0..count {
        let Ok(row) = read_property(source, here, end) else {
            break;
        };
        print_property(out, source, &row)?;
        here = row.next;
    }
    Ok(here)
}

// The table at `place`: its rows, numbered from 0.
pub fn print_table<S: Source, W: Write>(
    out: &mut W,
    source: &mut S,
    place: usize,
    end: usize,
) -> io::Result<()> {
    let count = u32::at(source, place).unwrap_or(0);
    writeln!(out, "  {count} rows")?;
    let mut here = place.saturating_add(4);
    for row in 0..count {
        if here >= end {
            break;
        }
        write!(out, "  row {row}: ")?;
        here = print_list(out, source, here, end)?;
    }
    Ok(())
}
