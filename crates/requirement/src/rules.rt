// Decision rules and modes.
ghost use Rattle.std.specs.Prelude.{◌≡◌, is_some, None, Some};
ghost use Rattle.faults.specs.Faults.{AnswersBy, check};
ghost use Rattle.faults.specs.declared.Refusal.TheVariants.{OutOfRange};
ghost use Rattle.requirement.specs.Rules.{rule_of, mode_of, known_letter, is_share, numbers_fit, fits_limits, fits_mode};

use crate::Tolerance;
use faults::{Fault, Refusal};

// The greatest share of the risk on one side, in millionths: one half.
const GREATEST_SHARE: i64 = 500_000;

// The greatest width of a guard band, to either side, in steps.
const GREATEST_WIDTH: i64 = 100_000;

// How many times the expanded uncertainty a guard band has at most, to either side, in hundredths.
const GREATEST_TIMES: i64 = 200;

// How acceptance limits come from tolerance limits. Each case holds what its rule needs.
#[derive(Clone, Copy, PartialEq, Eq, Debug)]
pub enum Rule {
    // Simple acceptance: the acceptance limits are the tolerance limits.
    Simple,
    // A guard band of a fixed width, in steps; negative where it lies outside the tolerance interval.
    Guard(i64),
    // A guard band that is a multiple of the expanded uncertainty, in hundredths.
    Multiple(i64),
    // The greatest share of risk, in millionths, on the lower and on the upper side.
    Shares(u32, u32),
}

// How many verdicts there are.
#[derive(Clone, Copy, PartialEq, Eq, Debug)]
pub enum Mode {
    Two,
    Four,
}

// Whether a letter names a rule.
pub fn names_rule(letter: char) -> bool
    ensures { result ≡ known_letter letter }
{
    matches!(letter, 'S' | 'G' | 'M' | 'P')
}

// Whether a number can be a share of the risk, in millionths.
fn is_share(value: i64) -> bool
    ensures { result ≡ is_share value }
{
    (0..=GREATEST_SHARE).contains(&value)
}

impl Rule {
    // The rule that the letter names, with its numbers; the second is 0 unless the rule has two.
    // No `TryFrom`: it would take letter and numbers as one triple, which says no more than three parameters do.
    pub fn from_letter(letter: char, first: i64, second: i64) -> Option<Self>
        ensures { result ≡ rule_of letter first second }
    {
        match letter {
            'S' if first == 0 && second == 0 => Some(Rule::Simple),
            'G' if second == 0 => Some(Rule::Guard(first)),
            'M' if second == 0 => Some(Rule::Multiple(first)),
            'P' if is_share(first) && is_share(second) => Some(Rule::Shares(
                first as u32,
                second as u32,
            )),
            _ => None,
        }
    }

    // Whether the numbers are such as the rule takes.
    pub fn numbers_fit(self) -> bool
        ensures { result ≡ numbers_fit self }
    {
        match self {
            Rule::Simple => true,
            Rule::Guard(width) => (-GREATEST_WIDTH..=GREATEST_WIDTH).contains(&width),
            Rule::Multiple(hundredths) => (-GREATEST_TIMES..=GREATEST_TIMES).contains(&hundredths),
            Rule::Shares(lower, upper) => is_share(i64::from(lower)) && is_share(i64::from(upper)),
        }
    }

    // Whether an absent limit has no share of the risk.
    pub fn fits_limits(self, tolerance: &Tolerance) -> bool
        ensures { result ≡ fits_limits self tolerance.now.lower tolerance.now.upper }
    {
        match self {
            Rule::Shares(lower, upper) => {
                (tolerance.lower().is_some() || lower == 0)
                    && (tolerance.upper().is_some() || upper == 0)
            }
            _ => true,
        }
    }

    // Whether the mode goes with the rule: four verdicts need a guard band that is not negative.
    pub fn fits_mode(self, mode: Mode) -> bool
        ensures { result ≡ fits_mode self mode }
    {
        match (self, mode) {
            (_, Mode::Two) => true,
            (Rule::Simple, Mode::Four) => true,
            (Rule::Guard(width), Mode::Four) => width >= 0,
            (Rule::Multiple(hundredths), Mode::Four) => hundredths >= 0,
            (Rule::Shares(_, _), Mode::Four) => false,
        }
    }
}

// The mode of a number, 2 or 4.
impl TryFrom<i64> for Mode {
    type Error = Fault;

    ghost try_from_gives = { λ number r. AnswersBy (check (is_some (mode_of number)) OutOfRange None) r (λ m. Some m ≡ mode_of number) };

    fn try_from(number: i64) -> Result<Self, Fault> {
        match number {
            2 => Ok(Mode::Two),
            4 => Ok(Mode::Four),
            _ => Err(Fault::direct(Refusal::OutOfRange)),
        }
    }
}
