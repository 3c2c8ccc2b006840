// What the tests share.
use faults::Fault;
use judging::{Bracket, bracket};
use normal::Normal;
use requirement::{Requirement, RequirementRow};

// Simple acceptance within these limits, with two verdicts.
pub fn simple(lower: Option<i64>, upper: Option<i64>) -> RequirementRow {
    RequirementRow {
        class: 1,
        characteristic: 1,
        lower,
        upper,
        letter: 'S',
        first: 0,
        second: 0,
        mode: 2,
    }
}

// What is known of conformity, the error being normal.
pub fn known(
    lower: Option<i64>,
    upper: Option<i64>,
    standard_uncertainty: i64,
    reading: i64,
) -> Result<Bracket, Fault> {
    let requirement = Requirement::new(&simple(lower, upper))?;
    bracket(&requirement, reading, &Normal::new(standard_uncertainty)?)
}
