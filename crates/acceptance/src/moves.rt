// Acceptance limits.
ghost use Rattle.std.specs.Prelude.{◌≡◌, is_some, Some, None, ok_or};
ghost use Rattle.faults.specs.Faults.{AnswersBy, check, direct, first_of};
ghost use Rattle.faults.specs.declared.Refusal.TheVariants.{NoOffset};
ghost use Rattle.acceptance.specs.Guard.{width_refusal};
ghost use Rattle.acceptance.specs.Acceptance.{share_limit, both_limits, acceptance, limits_refusal};

use crate::bounds::Acceptance;
use crate::guard::methods::guard_width;
use crate::search::{Side, SideShare};
use faults::{Fault, Refusal};
use knowledge::Knowledge;
use requirement::{Requirement, Rule, Tolerance};

// The acceptance limits under the shares rule, refused if a side has no offset that keeps its share.
fn by_shares<K: Knowledge>(
    tolerance: &Tolerance,
    lower_share: u32,
    upper_share: u32,
    knowledge: &K,
) -> Result<Acceptance, Fault>
    ensures { result ≡ ok_or (both_limits (share_limit (K.answers knowledge.now) Side.Lower tolerance.now.lower lower_share) (share_limit (K.answers knowledge.now) Side.Upper tolerance.now.upper upper_share)) (direct NoOffset) }
{
    let below = SideShare {
        side: Side::Lower,
        share: lower_share,
        knowledge,
    };
    let above = SideShare {
        side: Side::Upper,
        share: upper_share,
        knowledge,
    };
    let lower = below.acceptance_limit(tolerance.lower())?;
    let upper = above.acceptance_limit(tolerance.upper())?;
    Ok(Acceptance { lower, upper })
}

// The acceptance limits by the requirement's rule, not yet compared with each other.
fn by_rule<K: Knowledge>(
    requirement: &Requirement,
    expanded: i64,
    knowledge: &K,
) -> Result<Acceptance, Fault>
    ensures { AnswersBy (first_of (width_refusal expanded) (check (is_some (acceptance requirement.now expanded (K.answers knowledge.now))) NoOffset None)) result (λ a. Some a ≡ acceptance requirement.now expanded (K.answers knowledge.now)) }
{
    let band = guard_width(requirement, expanded)?;
    let tolerance = requirement.tolerance();
    match requirement.rule() {
        Rule::Shares(lower, upper) => by_shares(&tolerance, lower, upper, knowledge),
        _ => Ok(band.narrowed(&tolerance)),
    }
}

// The interval of readings that the requirement accepts, given the expanded uncertainty and what is known of the error.
pub fn limits<K: Knowledge>(
    requirement: &Requirement,
    expanded: i64,
    knowledge: &K,
) -> Result<Acceptance, Fault>
    ensures { AnswersBy (limits_refusal requirement.now expanded (K.answers knowledge.now)) result (λ a. Some a ≡ acceptance requirement.now expanded (K.answers knowledge.now)) }
{
    let acceptance = by_rule(requirement, expanded, knowledge)?;
    Refusal::NothingAcceptable.unless(acceptance.in_order())?;
    Ok(acceptance)
}
