// What the data of attributes mean, a line each.
use crate::shown::{print_hex, print_text8};
use attribute::Rule;
use contents::{Date, Status, class_at, code_page_at, date_at, importance_at, status_at, truth_at};
use scan::Number;
use source::Source;
use std::io;
use std::io::Write;

fn day_name(weekday: u16) -> &'static str {
    match weekday {
        0 => "Sun",
        1 => "Mon",
        2 => "Tue",
        3 => "Wed",
        4 => "Thu",
        5 => "Fri",
        _ => "Sat",
    }
}

fn print_date<W: Write>(out: &mut W, date: Date) -> io::Result<()> {
    let name = day_name(date.weekday());
    write!(out, "date {date} {name}")
}

fn print_flag<W: Write>(out: &mut W, set: bool, name: &str) -> io::Result<()> {
    if set {
        return write!(out, " {name}");
    }
    Ok(())
}

fn print_status<W: Write>(out: &mut W, status: Status) -> io::Result<()> {
    let flags = status.flags();
    write!(out, "status {flags}:")?;
    print_flag(out, status.read, "read")?;
    print_flag(out, !status.modified, "unmodified")?;
    print_flag(out, status.submitted, "submitted")?;
    print_flag(out, status.unsent, "unsent")?;
    print_flag(out, status.attached, "attachments")
}

fn print_class<S: Source, W: Write>(
    out: &mut W,
    source: &mut S,
    place: usize,
    size: usize,
) -> io::Result<()> {
    match class_at(source, place, size) {
        Ok(Some(pair)) => write!(out, "class pair {pair}: ")?,
        _ => write!(out, "class: ")?,
    }
    print_text8(out, source, place, size)
}

// The position, width and height are signed.
fn print_rendering<S: Source, W: Write>(
    out: &mut W,
    source: &mut S,
    place: usize,
) -> io::Result<()> {
    let kind = u16::at(source, place).unwrap_or(0);
    let position = u32::at(source, place.saturating_add(2))
        .unwrap_or(0)
        .cast_signed();
    let width = u16::at(source, place.saturating_add(6))
        .unwrap_or(0)
        .cast_signed();
    let height = u16::at(source, place.saturating_add(8))
        .unwrap_or(0)
        .cast_signed();
    let flags = u32::at(source, place.saturating_add(10)).unwrap_or(0);
    write!(
        out,
        "rendering type {kind} position {position} width {width} height {height} flags {flags}"
    )
}

// What the `size` bytes from `place` on mean under a rule that admits them.
pub fn print_meaning<S: Source, W: Write>(
    out: &mut W,
    source: &mut S,
    rule: Rule,
    place: usize,
    size: usize,
) -> io::Result<()> {
    match rule {
        Rule::Text | Rule::Digits => print_text8(out, source, place, size),
        Rule::Class => print_class(out, source, place, size),
        Rule::Date => match date_at(source, place, size) {
            Ok(Some(date)) => print_date(out, date),
            _ => Ok(()),
        },
        Rule::Status => match status_at(source, place, size) {
            Ok(Some(status)) => print_status(out, status),
            _ => Ok(()),
        },
        Rule::Priority => match importance_at(source, place, size) {
            Ok(Some(importance)) => write!(out, "importance {importance}"),
            _ => Ok(()),
        },
        Rule::YesNo => match truth_at(source, place, size) {
            Ok(Some(answer)) => write!(out, "{}", if answer { "yes" } else { "no" }),
            _ => Ok(()),
        },
        Rule::CodePage => match code_page_at(source, place, size) {
            Ok(Some(page)) => write!(out, "code page {page}"),
            _ => Ok(()),
        },
        Rule::Rendering => print_rendering(out, source, place),
        _ => print_hex(out, source, place, size),
    }
}
