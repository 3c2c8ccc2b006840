// A requirement, with the rules that every one keeps.
ghost use Rattle.std.specs.Prelude.{◌≡◌, true, pos};
ghost use Rattle.requirement.specs.Requirements.{is_class, is_characteristic, together};

use crate::{Mode, RequirementRow, Rule, Tolerance};
use faults::Fault;

// Classes run from 1 to this one.
pub const LAST_CLASS: i64 = 9;

// Characteristics run from 1 to this one.
pub const LAST_CHARACTERISTIC: i64 = 20;

// Whether a number is a class.
pub fn is_class(value: i64) -> bool
    ensures { result ≡ is_class value }
{
    (1..=LAST_CLASS).contains(&value)
}

// Whether a number is a characteristic.
pub fn is_characteristic(value: i64) -> bool
    ensures { result ≡ is_characteristic value }
{
    (1..=LAST_CHARACTERISTIC).contains(&value)
}

// What is required of one characteristic of the roads of one class.
#[derive(Clone, Copy, PartialEq, Eq, Debug)]
pub struct Requirement {
    class: u8,
    characteristic: u8,
    tolerance: Tolerance,
    rule: Rule,
    mode: Mode,
    ghost class_in: { is_class (pos class) ≡ true },
    ghost characteristic_in: { is_characteristic (pos characteristic) ≡ true },
    ghost suited: { together rule tolerance.lower tolerance.upper mode ≡ true },
}

impl Requirement {
    ghost use Rattle.faults.specs.Faults.{AnswersBy};
    ghost use Rattle.requirement.specs.Making.{Placed, HoldsRow, requirement_refusal};

    // The requirement with what a record has.
    pub fn new(row: &RequirementRow) -> Result<Self, Fault>
        ensures { AnswersBy (requirement_refusal row.now) result (HoldsRow row.now) }
    {
        row.check_place()?;
        row.check_rule()?;
        let mode = Mode::try_from(row.mode)?;
        let tolerance = Tolerance::new(row.lower, row.upper)?;
        let rule = row.suited_rule(&tolerance, mode)?;
        Ok(Self::assembled(row, tolerance, rule, mode))
    }

    // The parts, once all have passed their checks.
    fn assembled(row: &RequirementRow, tolerance: Tolerance, rule: Rule, mode: Mode) -> Self
        requires { (Placed row.now) × (together rule tolerance.lower tolerance.upper mode ≡ true) }
        ensures { (pos result.class ≡ row.now.class) × (pos result.characteristic ≡ row.now.characteristic) × (result.tolerance ≡ tolerance) × (result.rule ≡ rule) × (result.mode ≡ mode) }
    {
        Requirement {
            class: row.class as u8,
            characteristic: row.characteristic as u8,
            tolerance,
            rule,
            mode,
        }
    }

    pub fn class(&self) -> u8
        ensures { result ≡ self.now.class }
    {
        self.class
    }

    pub fn characteristic(&self) -> u8
        ensures { result ≡ self.now.characteristic }
    {
        self.characteristic
    }

    pub fn tolerance(&self) -> Tolerance
        ensures { result ≡ self.now.tolerance }
    {
        self.tolerance
    }

    pub fn rule(&self) -> Rule
        ensures { result ≡ self.now.rule }
    {
        self.rule
    }

    pub fn mode(&self) -> Mode
        ensures { result ≡ self.now.mode }
    {
        self.mode
    }
}
