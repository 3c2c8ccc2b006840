// The tolerance interval, by its limits.
ghost use Rattle.std.specs.Prelude.{◌≡◌, true};
ghost use Rattle.faults.specs.Faults.{AnswersBy};
ghost use Rattle.requirement.specs.Limits.{in_reach, limit_in_reach, some_limit, ascending, tolerance_refusal, within};

use faults::{Fault, Refusal};

// Readings and tolerance limits lie at most this many steps from zero.
pub const REACH: i64 = 1_000_000;

// Whether a reading or a limit lies in the range that the engine covers.
pub fn in_reach(value: i64) -> bool
    ensures { result ≡ in_reach value }
{
    (-REACH..=REACH).contains(&value)
}

// Whether a limit, where there is one, lies in that range.
pub fn limit_in_reach(limit: Option<i64>) -> bool
    ensures { result ≡ limit_in_reach limit }
{
    limit.is_none_or(in_reach)
}

// Whether a value is not below the lower limit nor above the upper one, as far as these stand.
pub fn within(lower: Option<i64>, upper: Option<i64>, value: i64) -> bool
    ensures { result ≡ within lower upper value }
{
    lower.is_none_or(|limit| limit <= value) && upper.is_none_or(|limit| value <= limit)
}

// A lower and an upper tolerance limit. Either may be absent, never both; both belong to the interval.
#[derive(Clone, Copy, PartialEq, Eq, Debug)]
pub struct Tolerance {
    lower: Option<i64>,
    upper: Option<i64>,
    ghost lower_reach: { limit_in_reach lower ≡ true },
    ghost upper_reach: { limit_in_reach upper ≡ true },
    ghost some: { some_limit lower upper ≡ true },
    ghost ascends: { ascending lower upper ≡ true },
}

impl Tolerance {
    // The interval with these limits.
    pub fn new(lower: Option<i64>, upper: Option<i64>) -> Result<Self, Fault>
        ensures { AnswersBy (tolerance_refusal lower upper) result (λ t. (t.lower ≡ lower) × (t.upper ≡ upper)) }
    {
        Refusal::OutOfRange.unless(limit_in_reach(lower) && limit_in_reach(upper))?;
        match (lower, upper) {
            (None, None) => Err(Fault::direct(Refusal::NoLimit)),
            (Some(l), Some(u)) if l >= u => Err(Fault::direct(Refusal::LimitsNotAscending)),
            _ => Ok(Tolerance { lower, upper }),
        }
    }

    pub fn lower(&self) -> Option<i64>
        ensures { result ≡ self.now.lower }
    {
        self.lower
    }

    pub fn upper(&self) -> Option<i64>
        ensures { result ≡ self.now.upper }
    {
        self.upper
    }

    // Whether a value lies in the interval, the limits included.
    pub fn holds(&self, value: i64) -> bool
        ensures { result ≡ within self.now.lower self.now.upper value }
    {
        within(self.lower, self.upper, value)
    }
}
