// Making a guard band and moving limits by it.
ghost use Rattle.std.specs.Prelude.{◌≡◌, true, pos, ◌+ℤ◌, ◌-ℤ◌, ◌*ℤ◌, neg_ℤ};
ghost use Rattle.std.specs.Option.{option_map};
ghost use Rattle.faults.specs.Faults.{AnswersBy};
ghost use Rattle.faults.specs.Ranges.{from_to};
ghost use Rattle.acceptance.specs.Guard.{is_expanded, is_width, hundredths_up, LeastHundredth, width_of, width_refusal};
ghost use Rattle.acceptance.specs.Acceptance.{guarded, widened};

use super::GuardBand;
use crate::bounds::Acceptance;
use faults::{Fault, Refusal};
use requirement::{Requirement, Rule, Tolerance, within};

// The greatest expanded uncertainty, in steps.
pub const WIDEST: i64 = 1_000_000;

// Whether a number can be an expanded uncertainty.
pub fn is_expanded(value: i64) -> bool
    ensures { result ≡ is_expanded value }
{
    (0..=WIDEST).contains(&value)
}

// So many hundredths of the expanded uncertainty, rounded up to the least whole number not below them.
fn multiple_width(hundredths: i64, expanded: i64) -> i64
    requires { (from_to (neg_ℤ (pos 200)) (pos 200) hundredths ≡ true) × (is_expanded expanded ≡ true) }
    ensures { (result ≡ hundredths_up (hundredths *ℤ expanded)) × LeastHundredth (hundredths *ℤ expanded) result × (is_width result ≡ true) }
{
    let product = hundredths * expanded;
    -(-product).div_euclid(100)
}

// The guard band that the requirement's rule sets; shares have none.
pub fn guard_width(requirement: &Requirement, expanded: i64) -> Result<GuardBand, Fault>
    ensures { AnswersBy (width_refusal expanded) result (λ band. band.width ≡ width_of requirement.now.rule expanded) }
{
    Refusal::OutOfRange.unless(is_expanded(expanded))?;
    let width = match requirement.rule() {
        Rule::Simple | Rule::Shares(_, _) => 0,
        Rule::Guard(width) => width,
        Rule::Multiple(hundredths) => multiple_width(hundredths, expanded),
    };
    Ok(GuardBand { width })
}

impl GuardBand {
    pub fn width(self) -> i64
        ensures { result ≡ self.width }
    {
        self.width
    }

    // The tolerance limits moved inwards by the width.
    pub(crate) fn narrowed(self, tolerance: &Tolerance) -> Acceptance
        ensures { result ≡ guarded tolerance.now.lower tolerance.now.upper self.width }
    {
        Acceptance {
            lower: tolerance.lower().map(|x| x + self.width),
            upper: tolerance.upper().map(|x| x - self.width),
        }
    }

    // Whether a reading lies within the tolerance limits moved outwards by the width.
    pub fn holds_widened(self, tolerance: &Tolerance, reading: i64) -> bool
        ensures { result ≡ widened tolerance.now.lower tolerance.now.upper self.width reading }
    {
        let outwards = GuardBand { width: -self.width };
        let wide = outwards.narrowed(tolerance);
        within(wide.lower, wide.upper, reading)
    }
}
