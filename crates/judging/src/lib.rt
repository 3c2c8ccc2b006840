// Judging a reading against what is required of it.
#![tactic(auto)]

ghost use Rattle.std.specs.Prelude.{◌≡◌, true, ◌-ℤ◌};
ghost use Rattle.faults.specs.Faults.{AnswersBy};
ghost use Rattle.requirement.specs.Limits.{in_reach};
ghost use Rattle.judging.specs.Brackets.{reading_refusal, bracketed};
ghost use Rattle.judging.specs.Verdicts.{judge_refusal, judged};
ghost use Rattle.judging.specs.Guarantee.{BracketHolds, JudgementHolds};

mod answers;
mod verdicts;
mod words;

use acceptance::{guard_width, limits};
pub use answers::{Bracket, Judgement, Verdict};
use faults::{Fault, Refusal};
use knowledge::{Knowledge, MILLION};
use requirement::{Requirement, Tolerance, in_reach};
use verdicts::verdict_on;

// Floor and ceiling of the probability that the true value does not exceed a limit.
fn up_to<K: Knowledge>(limit: i64, reading: i64, knowledge: &K) -> (u32, u32)
    requires { (in_reach limit ≡ true) × (in_reach reading ≡ true) }
    ensures { (result.0 ≡ (K.answers knowledge.now).floor (limit -ℤ reading)) × (result.1 ≡ (K.answers knowledge.now).ceiling (limit -ℤ reading)) }
{
    knowledge.at_most(limit - reading)
}

// The bracket of a reading in reach, in its three forms.
fn bounds<K: Knowledge>(tolerance: &Tolerance, reading: i64, knowledge: &K) -> Bracket
    requires { in_reach reading ≡ true }
    ensures { result ≡ bracketed (K.answers knowledge.now) tolerance.now reading }
{
    match (tolerance.lower(), tolerance.upper()) {
        (Some(lower), Some(upper)) => {
            let (least_below, most_below) = up_to(lower, reading, knowledge);
            let (least, most) = up_to(upper, reading, knowledge);
            Bracket {
                floor: least.saturating_sub(most_below),
                ceiling: most - least_below,
            }
        }
        (None, Some(upper)) => {
            let (floor, ceiling) = up_to(upper, reading, knowledge);
            Bracket { floor, ceiling }
        }
        (Some(lower), None) => {
            let (least_below, most_below) = up_to(lower, reading, knowledge);
            Bracket {
                floor: MILLION - most_below,
                ceiling: MILLION - least_below,
            }
        }
        (None, None) => unreachable(),
    }
}

// What is known of the probability that the true value lies within the tolerance limits.
pub fn bracket<K: Knowledge>(
    requirement: &Requirement,
    reading: i64,
    knowledge: &K,
) -> Result<Bracket, Fault>
    ensures { AnswersBy (reading_refusal reading) result (λ b. (b ≡ bracketed (K.answers knowledge.now) requirement.now.tolerance reading) × BracketHolds (K.answers knowledge.now) requirement.now.tolerance reading b) }
{
    Refusal::OutOfRange.unless(in_reach(reading))?;
    Ok(bounds(&requirement.tolerance(), reading, knowledge))
}

// The verdict on a reading, and the bracket on its conformity probability. Its parameters stay apart: the sheet, the measurement and the instrument each
// give theirs, and `limits` and `bracket` ask for some of them alone.
pub fn judge<K: Knowledge>(
    requirement: &Requirement,
    expanded: i64,
    reading: i64,
    knowledge: &K,
) -> Result<Judgement, Fault>
    ensures { AnswersBy (judge_refusal requirement.now expanded reading (K.answers knowledge.now)) result (λ j. (j ≡ judged requirement.now expanded reading (K.answers knowledge.now)) × JudgementHolds (K.answers knowledge.now) requirement.now reading j) }
{
    let bracket = bracket(requirement, reading, knowledge)?;
    let band = guard_width(requirement, expanded)?;
    let acceptance = limits(requirement, expanded, knowledge)?;
    let verdict = verdict_on(requirement, &acceptance, band, reading);
    Ok(Judgement { verdict, bracket })
}
