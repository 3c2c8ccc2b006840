// What a record has of a requirement, and the checks of its fields.
ghost use Rattle.std.specs.Prelude.{◌≡◌, true, Some};
ghost use Rattle.faults.specs.Faults.{AnswersBy};
ghost use Rattle.requirement.specs.Rules.{rule_of, mode_of};
ghost use Rattle.requirement.specs.Requirements.{together};
ghost use Rattle.requirement.specs.Making.{Placed, place_refusal, rule_refusal, suit_refusal};

use crate::{
    Mode, Rule, Tolerance, in_reach, is_characteristic, is_class, limit_in_reach, names_rule,
};
use faults::{Fault, Refusal};

// The fields of a requirement in a record's order, with any values.
#[derive(Clone, Copy, PartialEq, Eq, Debug)]
pub struct RequirementRow {
    pub class: i64,
    pub characteristic: i64,
    pub lower: Option<i64>,
    pub upper: Option<i64>,
    pub letter: char,
    pub first: i64,
    pub second: i64,
    pub mode: i64,
}

impl RequirementRow {
    pub(crate) fn check_place(&self) -> Result<(), Fault>
        ensures { AnswersBy (place_refusal self.now) result (λ _. Placed self.now) }
    {
        Refusal::OutOfRange.unless(is_class(self.class))?;
        Refusal::OutOfRange.unless(is_characteristic(self.characteristic))?;
        Refusal::OutOfRange.unless(limit_in_reach(self.lower))?;
        Refusal::OutOfRange.unless(limit_in_reach(self.upper))
    }

    pub(crate) fn check_rule(&self) -> Result<(), Fault>
        ensures { AnswersBy (rule_refusal self.now) result (λ _. Unit {0}) }
    {
        Refusal::UnknownLetter.unless(names_rule(self.letter))?;
        Refusal::OutOfRange.unless(in_reach(self.first))?;
        Refusal::OutOfRange.unless(in_reach(self.second))
    }

    // The rule that the letter and the numbers make, if it goes with the limits and the mode.
    pub(crate) fn suited_rule(&self, tolerance: &Tolerance, mode: Mode) -> Result<Rule, Fault>
        requires { (tolerance.now.lower ≡ self.now.lower) × ((tolerance.now.upper ≡ self.now.upper) × (Some mode ≡ mode_of self.now.mode)) }
        ensures { AnswersBy (suit_refusal self.now) result (λ x. (Some x ≡ rule_of self.now.letter self.now.first self.now.second) × (together x self.now.lower self.now.upper mode ≡ true)) }
    {
        let rule = Rule::from_letter(self.letter, self.first, self.second).ok_or(Fault::direct(
            Refusal::AgainstRule,
        ))?;
        Refusal::AgainstRule.unless(
            rule.numbers_fit() && rule.fits_limits(tolerance) && rule.fits_mode(mode),
        )?;
        Ok(rule)
    }
}
