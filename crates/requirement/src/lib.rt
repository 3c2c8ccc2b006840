// What is required of a characteristic: tolerance limits, a decision rule and a mode.
#![tactic(auto)]

mod keys;
mod requirements;
mod rows;
mod rules;
mod tolerance;

pub use requirements::{LAST_CHARACTERISTIC, LAST_CLASS, Requirement, is_characteristic, is_class};
pub use rows::RequirementRow;
pub use rules::{Mode, Rule, names_rule};
pub use tolerance::{REACH, Tolerance, in_reach, limit_in_reach, within};
