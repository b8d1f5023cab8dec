// Dates of the Gregorian calendar.
ghost use Rattle.std.specs.Prelude.{◌≡◌, ◌-◌, ◌*◌, ◌<◌, ◌≤◌};
ghost use Rattle.source.specs.Content.{meaning};
ghost use Rattle.scan.specs.Scans.{asked};
ghost use Rattle.contents.specs.Calendar.{leap, month_length, is_date, days_before, weekday, word, date_in, checked, date_of};
ghost use Rattle.contents.specs.Options.{then};

use crate::fixed::exactly;
use source::{Refusal, Source};
use std::fmt;

#[derive(Clone, Copy, PartialEq, Eq, Debug)]
pub struct Date {
    pub year: u16,
    pub month: u16,
    pub day: u16,
    pub hour: u16,
    pub minute: u16,
    pub second: u16,
}

// As `2002-12-24 10:00:00`.
impl fmt::Display for Date {
    fn fmt<W: fmt::Write>(&self, f: &mut fmt::Formatter<W>) -> fmt::Result {
        let Date {
            year,
            month,
            day,
            hour,
            minute,
            second,
        } = *self;
        write!(
            f,
            "{year:04}-{month:02}-{day:02} {hour:02}:{minute:02}:{second:02}"
        )
    }
}

fn is_leap(year: u16) -> bool
    ensures { result ≡ leap year }
{
    year % 4 == 0 && (year % 100 != 0 || year % 400 == 0)
}

fn length_of(year: u16, month: u16) -> u16
    ensures { result ≡ month_length year month }
{
    match month {
        2 => { if is_leap(year) { 29 } else { 28 } }
        4 | 6 | 9 | 11 => 30,
        _ => 31,
    }
}

// The days in the months of a year before a month.
#[tactic(auto, unfolding(crate::specs::Calendar::days_before))]
fn days_ahead(year: u16, month: u16) -> u32
    ensures value { result ≡ days_before year (month - 1) }
    ensures bound { result ≤ 31 * 65536 }
{
    let mut days: u32 = 0;
    for m in 1..month {
        days += u32::from(length_of(year, m));
    }
    days
}

impl Date {
    // 1 for Monday to 6, and 0 for Sunday.
    #[tactic(auto, unfolding(crate::specs::Calendar::weekday))]
    pub fn weekday(self) -> u16
        ensures { result ≡ weekday self }
    {
        let n = u32::from(self.year.saturating_sub(1601));
        let years = 365 * n + n / 4 - n / 100 + n / 400;
        let months = days_ahead(self.year, self.month);
        let days = years + months + u32::from(self.day.saturating_sub(1));
        ((days + 1) % 7) as u16
    }

    fn is_right(self) -> bool
        ensures { result ≡ is_date self }
    {
        1601 <= self.year
            && self.year <= 9999
            && 1 <= self.month
            && self.month <= 12
            && 1 <= self.day
            && self.day <= length_of(self.year, self.month)
            && self.hour <= 23
            && self.minute <= 59
            && self.second <= 59
    }
}

#[tactic(auto, using(crate::proofs::Parts::word_is))]
fn word_of(bytes: &[u8; 14], k: usize) -> u16
    requires { k < 7 }
    ensures { result ≡ word bytes.now k }
{
    u16::from_le_bytes([bytes[2 * k], bytes[2 * k + 1]])
}

// The date in bytes, if it is one.
fn right_date(bytes: Option<[u8; 14]>) -> Option<Date>
    ensures { result ≡ then bytes (λ ys. checked (date_in ys)) }
{
    let bytes = bytes?;
    let date = Date {
        year: word_of(&bytes, 0),
        month: word_of(&bytes, 1),
        day: word_of(&bytes, 2),
        hour: word_of(&bytes, 3),
        minute: word_of(&bytes, 4),
        second: word_of(&bytes, 5),
    };
    date.is_right().then_some(date)
}

// The date that data mean, if they mean one.
#[tactic(auto, unfolding(scan::specs::Scans::asked))]
pub fn date_at<S: Source>(
    source: &mut S,
    place: usize,
    size: usize,
) -> Result<Option<Date>, Refusal>
    ensures same { S.Source.content source.new ≡ S.Source.content source.old }
    ensures value { result ≡ asked date_of (meaning (S.Source.content source.old)) place size }
{
    let bytes = exactly(source, place, size)?;
    Ok(right_date(bytes))
}
