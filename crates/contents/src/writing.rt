// Writing the normal data of attributes.
ghost use Rattle.std.specs.Prelude.{◌≡◌, ◌+◌, ◌≤◌, map, length};
ghost use Rattle.source.specs.Bytes.{part, Octets};
ghost use Rattle.source.specs.Content.{meaning};
ghost use Rattle.attribute.specs.declared.Rule.TheVariants as rules;
ghost use Rattle.pen.specs.Pen.{Wrote, SameSlice};
ghost use Rattle.contents.specs.Contents.{normal, date, class, status, truth, code_page};
ghost use Rattle.contents.specs.Writing.{Written, known, upper};

use crate::classes::class_text;
use crate::{Date, Status, class_at, code_page_at, date_at, status_at, truth_at};
use attribute::Rule;
use pen::Pen;
use source::{Refusal, Source};

// What was read, if anything was.
fn if_known<T: Drop>(read: Result<Option<T>, Refusal>) -> Option<T>
    ensures { result ≡ known read }
{
    read.ok()?
}

fn pen_date(pen: &mut Pen<'_>, day: Date)
    ensures { Wrote pen.old (normal (date day)) pen.new }
{
    pen.put_le(day.year);
    pen.put_le(day.month);
    pen.put_le(day.day);
    pen.put_le(day.hour);
    pen.put_le(day.minute);
    pen.put_le(day.second);
    pen.put_le(day.weekday());
}

#[tactic(auto, unfolding(crate::specs::Contents::normal))]
fn pen_status(pen: &mut Pen<'_>, state: Status)
    ensures { Wrote pen.old (normal (status state)) pen.new }
{
    pen.put_le(u32::from(state.bits()));
}

#[tactic(auto, unfolding(crate::specs::Contents::normal))]
fn pen_truth(pen: &mut Pen<'_>, answer: bool)
    ensures { Wrote pen.old (normal (truth answer)) pen.new }
{
    pen.put_le(u16::from(answer));
}

#[tactic(auto, unfolding(crate::specs::Contents::normal))]
fn pen_code_page(pen: &mut Pen<'_>, primary: u32)
    ensures { Wrote pen.old (normal (code_page primary)) pen.new }
{
    pen.put_le(primary);
    pen.put_le(0u32);
}

#[tactic(auto, unfolding(crate::specs::Contents::normal))]
fn pen_class(pen: &mut Pen<'_>, k: usize)
    ensures { Wrote pen.old (normal (class k)) pen.new }
{
    pen.put(class_text(k));
    pen.put(&[0]);
}

// Writes data that are their own normal data; a source's length says besides that it means bytes.
fn write_same<S: Source>(source: &mut S, place: usize, size: usize, pen: &mut Pen<'_>)
    ensures same { S.Source.content source.new ≡ S.Source.content source.old }
    ensures octets { Octets (meaning (S.Source.content source.old)) }
    ensures slice { SameSlice pen.old pen.new }
    ensures value { place + size ≤ length (meaning (S.Source.content source.old))
        → Wrote pen.old (part (meaning (S.Source.content source.old)) place size) pen.new }
{
    let _total = source.len();
    pen.put_from(source, place, size);
}

// Writes the pair's attribute value for any of its spellings, and another text as it is.
#[tactic(auto, unfolding(scan::specs::Scans::asked, crate::specs::Contents::admits, crate::specs::Contents::means))]
fn write_class<S: Source>(source: &mut S, place: usize, size: usize, pen: &mut Pen<'_>)
    ensures same { S.Source.content source.new ≡ S.Source.content source.old }
    ensures slice { SameSlice pen.old pen.new }
    ensures value { Written rules.Class (meaning (S.Source.content source.old)) place size pen.old pen.new }
{
    match if_known(class_at(source, place, size)) {
        Some(k) => pen_class(pen, k),
        None => pen.put_from(source, place, size),
    }
}

fn capital_of(byte: u8) -> u8
    ensures { result ≡ upper byte }
{
    match byte {
        b'a'..=b'f' => byte - 32,
        _ => byte,
    }
}

fn capitalize(bytes: &mut [u8])
    ensures { bytes.new ≡ map upper bytes.old }
{
    for byte in bytes.iter_mut() {
        *byte = capital_of(*byte);
    }
}

// Writes the digits of a part, where it is there, as capitals.
fn pen_capitals<S: Source>(source: &mut S, place: usize, size: usize, pen: &mut Pen<'_>)
    ensures same { S.Source.content source.new ≡ S.Source.content source.old }
    ensures slice { SameSlice pen.old pen.new }
    ensures value { place + size ≤ length (meaning (S.Source.content source.old))
        → Wrote pen.old (map upper (part (meaning (S.Source.content source.old)) place size)) pen.new }
{
    let Some(start) = pen.room_for(size) else {
        pen.here = None;
        return;
    };
    let digits = &mut pen.out[start..start + size];
    match source.fetch(place, digits) {
        Ok(()) => {
            capitalize(digits);
            pen.here = Some(start + size);
        }
        Err(_) => pen.here = None,
    }
}

// Writes the normal data of the `size` bytes from `place` on, where the rule admits them; else the pen is nowhere.
#[tactic(auto, unfolding(scan::specs::Scans::asked, crate::specs::Contents::admits, crate::specs::Contents::means))]
pub fn write_normal<S: Source>(
    source: &mut S,
    rule: Rule,
    place: usize,
    size: usize,
    pen: &mut Pen<'_>,
)
    ensures same { S.Source.content source.new ≡ S.Source.content source.old }
    ensures slice { SameSlice pen.old pen.new }
    ensures value { Written rule (meaning (S.Source.content source.old)) place size pen.old pen.new }
{
    // Both arms of each inner match stand there, since an `if let` keeps nothing of what it leaves out.
    match rule {
        Rule::Text | Rule::Priority | Rule::Raw | Rule::Rendering | Rule::Version => {
            write_same(source, place, size, pen)
        }
        Rule::Class => write_class(source, place, size, pen),
        Rule::Date => match if_known(date_at(source, place, size)) {
            Some(day) => pen_date(pen, day),
            None => pen.here = None,
        },
        Rule::Digits => pen_capitals(source, place, size, pen),
        Rule::Status => match if_known(status_at(source, place, size)) {
            Some(state) => pen_status(pen, state),
            None => pen.here = None,
        },
        Rule::YesNo => match if_known(truth_at(source, place, size)) {
            Some(answer) => pen_truth(pen, answer),
            None => pen.here = None,
        },
        Rule::CodePage => match if_known(code_page_at(source, place, size)) {
            Some(primary) => pen_code_page(pen, primary),
            None => pen.here = None,
        },
        Rule::Recipients | Rule::Properties => pen.here = None,
    }
}
