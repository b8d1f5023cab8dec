// Judging a stream from the front: every frame with its data.
#![tactic(auto)]

ghost use Rattle.std.specs.Prelude.{◌≡◌, ◌+◌, ◌≤◌, length, IfSome, IfOk};
ghost use Rattle.source.specs.Content.{meaning};
ghost use Rattle.source.specs.Outcome.{over};
ghost use Rattle.frame.specs.Frames.{Onward};
ghost use Rattle.stream.specs.Reading.{meant_at, next_judged, entries_of};

use attribute::Rule;
use contents::admits;
use frame::{Cursor, Frame, HEAD_SIZE, header, next_frame};
use property::{property_list, recipient_table};
use source::{Reason, Refusal, Source};

#[tactic(auto, using(crate::proofs::Judging::by_rule, crate::proofs::Judging::by_table, crate::proofs::Judging::by_list), unfolding(scan::specs::Scans::asked))]
// Judges the data of a frame by its rule; a match on the rules, which are closed: none can be missed.
fn judge_data<S: Source>(source: &mut S, frame: Frame) -> Result<(), Refusal>
    requires { frame.place + 9 + frame.size ≤ length (meaning (S.Source.content source.old)) }
    ensures same { S.Source.content source.new ≡ S.Source.content source.old }
    ensures reads { result ≡ over (λ _. tt) (meant_at (meaning (S.Source.content source.old)) frame) }
{
    let _total = source.len();
    let base = frame.place + HEAD_SIZE;
    match frame.attribute.rule {
        Rule::Recipients => recipient_table(source, base, base + frame.size),
        Rule::Properties => property_list(source, base, base + frame.size),
        rule => {
            let good = admits(source, rule, base, frame.size)?;
            if !good {
                return Err(Refusal {
                    reason: Reason::NotAdmitted,
                    place: base,
                });
            }
            Ok(())
        }
    }
}

#[tactic(auto, using(frame::proofs::Standing::next_stands), unfolding(crate::specs::Reading::next_judged))]
// The frame at a place with its data judged, or none where the stream ends there and may.
pub fn next_judged<S: Source>(source: &mut S, at: Cursor) -> Result<Option<Frame>, Refusal>
    ensures same { S.Source.content source.new ≡ S.Source.content source.old }
    ensures reads { result ≡ next_judged (meaning (S.Source.content source.old)) at.place at.stage }
    ensures within { IfOk result (λ o. IfSome o (λ f. Onward at.place f)) }
{
    let Some(frame) = next_frame(source, at)? else {
        return Ok(None);
    };
    judge_data(source, frame)?;
    Ok(Some(frame))
}

#[tactic(auto, using(crate::proofs::Judging::rest_refused, crate::proofs::Judging::rest_ended, crate::proofs::Judging::rest_on, crate::proofs::Judging::unsigned, crate::proofs::Judging::opened))]
// The first refusal of a stream, if it is not readable.
pub fn judge<S: Source>(source: &mut S) -> Result<(), Refusal>
    ensures same { S.Source.content source.new ≡ S.Source.content source.old }
    ensures reads { result ≡ over (λ _. tt) (entries_of (meaning (S.Source.content source.old))) }
{
    header(source)?;
    let mut at = Cursor::FIRST;
    while let Some(frame) = next_judged(source, at)? {
        at = frame.behind();
    }
    Ok(())
}
