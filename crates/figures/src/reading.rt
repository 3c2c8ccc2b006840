// One reading, carried from the record of its requirement to its verdict, with nothing known of the calls but their contracts.
ghost use Rattle.std.specs.Prelude.{None};
ghost use Rattle.faults.specs.Faults.{AnswersBy};
ghost use Rattle.requirement.specs.Making.{HoldsRow};
ghost use Rattle.judging.specs.Brackets.{reading_refusal};
ghost use Rattle.figures.specs.Grades.{grade_row};
ghost use Rattle.figures.specs.Reading.{Decided, Passes};

use faults::Fault;
use judging::{Judgement, judge};
use rectangular::Rectangular;
use requirement::{Requirement, RequirementRow};

// A grade of at most 1,000, with a risk of at most 50,000 millionths.
pub fn grade_requirement() -> Result<Requirement, Fault>
    ensures { AnswersBy None result (HoldsRow grade_row) }
{
    Requirement::new(&RequirementRow {
        class: 1,
        characteristic: 1,
        lower: None,
        upper: Some(1_000),
        letter: 'P',
        first: 0,
        second: 50_000,
        mode: 2,
    })
}

// The verdict on a grade, known to within 100.
fn judged_grade(reading: i64) -> Result<Judgement, Fault>
    ensures { AnswersBy (reading_refusal reading) result (Decided reading) }
{
    let requirement = grade_requirement()?;
    let knowledge = Rectangular::new(100)?;
    judge(&requirement, 0, reading, &knowledge)
}

// The greatest grade that passes.
pub fn greatest_passing_grade() -> Judgement
    ensures { Passes result }
{
    judged_grade(910).unwrap()
}
