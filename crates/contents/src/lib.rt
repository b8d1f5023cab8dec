// What the data of attributes mean, and their normal data.
#![tactic(auto)]

ghost use Rattle.std.specs.Prelude.{◌≡◌};
ghost use Rattle.source.specs.Content.{meaning};
ghost use Rattle.scan.specs.Scans.{asked};
ghost use Rattle.contents.specs.Contents.{admits};
ghost use Rattle.contents.specs.Examples.{Worked};
ghost use Rattle.contents.specs.Laws.{NormalMeansSame, NormalDecides};

mod classes;
mod dates;
mod digits;
mod fixed;
mod numbers;
mod renderings;
mod statuses;
mod writing;

use attribute::Rule;
pub use classes::{class_at, class_of, class_text};
pub use dates::{Date, date_at};
pub use digits::are_digits;
use fixed::{of_any, present};
pub use numbers::{code_page_at, importance_at, truth_at};
use renderings::{is_rendering, is_version};
use scan::is_text8;
use source::{Refusal, Source};
pub use statuses::{Status, status_at};
pub use writing::write_normal;

// Whether the rule admits the `size` bytes from `place` on. A match on the rules, which are closed: none can be missed.
#[tactic(auto, unfolding(crate::specs::Contents::admits, crate::specs::Contents::means, scan::specs::Scans::asked))]
pub fn admits<S: Source>(
    source: &mut S,
    rule: Rule,
    place: usize,
    size: usize,
) -> Result<bool, Refusal>
    ensures same { S.Source.content source.new ≡ S.Source.content source.old }
    ensures value { result ≡ asked (admits rule) (meaning (S.Source.content source.old)) place size }
{
    match rule {
        Rule::Text | Rule::Class => is_text8(source, place, size),
        Rule::Date => present(date_at(source, place, size)),
        Rule::Digits => are_digits(source, place, size),
        Rule::Status => present(status_at(source, place, size)),
        Rule::Priority => present(importance_at(source, place, size)),
        Rule::YesNo => present(truth_at(source, place, size)),
        Rule::Raw => of_any(source, place, size, true),
        Rule::Rendering => is_rendering(source, place, size),
        Rule::Version => is_version(source, place, size),
        Rule::CodePage => present(code_page_at(source, place, size)),
        Rule::Recipients | Rule::Properties => of_any(source, place, size, false),
    }
}

// Normal data are admitted, and mean what the data mean that they come from.
pub fn normal_data_mean_the_same() -> u8
    ensures { NormalMeansSame }
{
    0
}

// Two admitted data mean the same exactly where their normal data are equal.
#[tactic(auto, using(crate::proofs::Normal::decides))]
pub fn normal_data_decide() -> u8
    ensures { NormalDecides }
{
    0
}

// Dates, weekdays, flags and classes at examples.
#[tactic(auto, unfolding(source::specs::Bytes::part, source::specs::Bytes::val, source::specs::Bytes::le, scan::specs::Texts::before_zero, crate::specs::Options::exactly, crate::specs::Calendar::days_before, crate::specs::Calendar::weekday, crate::specs::Classes::pair_number, crate::specs::Contents::means, crate::specs::Contents::admits))]
pub fn worked_examples() -> u8
    ensures { Worked }
{
    0
}
