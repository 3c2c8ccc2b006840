// The expanded uncertainty of either kind: twice its standard uncertainty.
#![tactic(auto)]

ghost use Rattle.std.specs.Prelude.{◌≡◌, ◌≤◌, pos, ◌≤ℤ◌};
ghost use Rattle.expanded.specs.Expanded.{expanded_of, LeastOver, FollowsRule};

use kinds::Kind;

// Two over the square root of 3 in units of 10⁻⁹, rounded up.
const TWO_OVER_ROOT_3: u64 = 1_154_700_539;

// As many units make one.
const UNITS: u64 = 1_000_000_000;

// Twice the half-width over the square root of 3, rounded up. The factor is near enough for half-widths in range: no number before the product rounded down reaches, and the next one does.
#[tactic(auto, using(crate::proofs::Firsts::least_below, crate::proofs::Firsts::least_above))]
fn first_reaching(half_width: u32) -> u64
    requires { half_width ≤ 400000 }
    ensures { LeastOver half_width result }
{
    let half_width = u64::from(half_width);
    let below = half_width * TWO_OVER_ROOT_3 / UNITS;
    if 4 * (half_width * half_width) <= 3 * (below * below) {
        below
    } else {
        below + 1
    }
}

// The expanded uncertainty of a kind, in steps. A rectangular kind's standard uncertainty is its half-width over the square root of 3.
#[tactic(auto, using(crate::proofs::Firsts::first_of_least, crate::proofs::Firsts::at_most_twice))]
pub fn expanded_uncertainty(kind: &Kind) -> i64
    ensures value { result ≡ pos (expanded_of kind.now) }
    ensures rule { FollowsRule kind.now (expanded_of kind.now) }
    ensures within { (pos 0 ≤ℤ result) × (result ≤ℤ pos 1000000) }
{
    match kind {
        Kind::Normal(normal) => 2 * i64::from(normal.standard_uncertainty()),
        Kind::Rectangular(rectangular) => first_reaching(rectangular.half_width()) as i64,
    }
}

#[cfg(test)]
mod tests {
    use super::*;
    use std::test::Fail;

    // The expanded uncertainty of the kind of this letter.
    fn expanded(letter: char, spread: i64) -> Result<i64, Fail> {
        Ok(expanded_uncertainty(&Kind::new(letter, spread)?))
    }

    #[test]
    fn of_a_normal_kind(rt: HostRuntime) -> Result<(), Fail> {
        assert_eq!(rt; expanded('N', 1)?, 2);
        assert_eq!(rt; expanded('N', 100)?, 200);
        assert_eq!(rt; expanded('N', 100_000)?, 200_000);
        Ok(())
    }

    // 2s over the square root of 3, rounded up: 1.15, 3.46, 115.47 and 461,880.2.
    #[test]
    fn of_a_rectangular_kind(rt: HostRuntime) -> Result<(), Fail> {
        assert_eq!(rt; expanded('R', 1)?, 2);
        assert_eq!(rt; expanded('R', 3)?, 4);
        assert_eq!(rt; expanded('R', 100)?, 116);
        assert_eq!(rt; expanded('R', 400_000)?, 461_881);
        Ok(())
    }
}
