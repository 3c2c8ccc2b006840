// The verdict on a reading, once the acceptance limits are known.
ghost use Rattle.std.specs.Prelude.{◌≡◌, Some};
ghost use Rattle.judging.specs.Verdicts.{verdict_by};

use crate::Verdict;
use acceptance::{Acceptance, GuardBand};
use requirement::{Mode, Requirement, within};

// The verdict, given where readings are accepted and the guard band.
pub(crate) fn verdict_on(
    requirement: &Requirement,
    acceptance: &Acceptance,
    band: GuardBand,
    reading: i64,
) -> Verdict
    ensures { result ≡ verdict_by (Some acceptance.now) requirement.now.mode requirement.now.tolerance.lower requirement.now.tolerance.upper band.width reading }
{
    if within(acceptance.lower, acceptance.upper, reading) {
        return Verdict::Pass;
    }
    let tolerance = requirement.tolerance();
    match requirement.mode() {
        Mode::Two => Verdict::Fail,
        Mode::Four => {
            if tolerance.holds(reading) {
                Verdict::ConditionalPass
            } else if band.holds_widened(&tolerance, reading) {
                Verdict::ConditionalFail
            } else {
                Verdict::Fail
            }
        }
    }
}
