// Readings of a haul road carried from what is required of them to their verdicts, each step printed. What is printed has no contract.
#![tactic(auto)]

mod carried;
mod stops;
mod words;

use bias::{Biased, check_bias};
use carried::Case;
use figures::{figures_held, greatest_passing_grade};
use judging::{Bracket, Judgement};
use normal::Normal;
use rectangular::Rectangular;
use requirement::RequirementRow;
pub use stops::{Stop, told};

// The grade of a haul road in hundredths of a percent, from level to 10 %, with 2.5 % of risk on either side.
const GRADE: RequirementRow = RequirementRow {
    class: 1,
    characteristic: 1,
    lower: Some(0),
    upper: Some(1_000),
    letter: 'P',
    first: 25_000,
    second: 25_000,
    mode: 2,
};

// A reading of the grade. Its expanded uncertainty is twice the standard one, 58 steps for a half-width of 100.
const GRADED: Case = Case {
    row: GRADE,
    expanded: 116,
    reading: 905,
};

// The requirement on the grade with another decision rule and mode.
fn by_rule(letter: char, first: i64, second: i64, mode: i64) -> RequirementRow {
    RequirementRow {
        letter,
        first,
        second,
        mode,
        ..GRADE
    }
}

// A grade whose error lies within 100 steps.
fn within_half_width(rt: &impl Print) -> Result<(), Stop> {
    println!(rt;
        "1. A grade whose error is at most 100 steps either way, each part as likely as any other"
    )?;
    GRADED.carry(rt, &Rectangular::new(100)?)
}

// The same grade, its error normal, by an instrument that reads 20 steps too high.
fn normal_with_bias(rt: &impl Print) -> Result<(), Stop> {
    println!(rt;
        "2. The same reading with standard uncertainty 58, by an instrument that reads 20 steps too high"
    )?;
    check_bias(20)?;
    let knowledge = Biased::new(Normal::new(58)?, 20);
    GRADED.carry(rt, &knowledge)
}

// One reading under every rule, with standard uncertainty 40; the last shares are smaller than what is known can promise.
fn under_each_rule(rt: &impl Print, reading: i64) -> Result<(), Stop> {
    println!(rt; "   reading {reading}, standard uncertainty 40, expanded uncertainty 80")?;
    let knowledge = Normal::new(40)?;
    let rows = [
        by_rule('S', 0, 0, 2),
        by_rule('G', 50, 0, 4),
        by_rule('M', 100, 0, 4),
        by_rule('M', -50, 0, 2),
        by_rule('P', 50_000, 50_000, 2),
        by_rule('P', 30, 30, 2),
    ];
    for row in rows {
        let case = Case {
            row,
            expanded: 80,
            reading,
        };
        case.decide(rt, &knowledge)?;
    }
    Ok(())
}

// What contracts say: worked figures, and one reading that passes.
fn by_contract(rt: &impl Print) -> Result<(), Stop> {
    println!(rt; "4. By contract: {} worked figures hold", figures_held())?;
    let Judgement {
        verdict,
        bracket: Bracket { floor, ceiling },
    } = greatest_passing_grade();
    println!(rt;
        "   reading 910 within 100 steps, at most 1000 with a risk of at most 50000: bracket {floor} to {ceiling}, verdict {verdict}"
    )?;
    Ok(())
}

// Prints the steps of each reading.
pub fn show_steps(rt: &impl Print) -> Result<(), Stop> {
    within_half_width(rt)?;
    normal_with_bias(rt)?;
    println!(rt; "3. Two readings against the limits 0 and 1000 under each decision rule")?;
    under_each_rule(rt, 960)?;
    under_each_rule(rt, 1_010)?;
    by_contract(rt)
}
