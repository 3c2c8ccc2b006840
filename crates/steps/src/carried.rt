// The steps from a requirement to a verdict, each printed as it is taken.
use crate::stops::Stop;
use crate::words::Decision;
use acceptance::{Acceptance, limits};
use faults::Fault;
use judging::{Bracket, Judgement, bracket, judge};
use knowledge::Knowledge;
use requirement::{Requirement, RequirementRow};
use std::{fmt, io};
use trials::Limit;

// A reading, with what is required of it and the expanded uncertainty of its measurement.
#[derive(Clone, Copy)]
pub struct Case {
    pub row: RequirementRow,
    pub expanded: i64,
    pub reading: i64,
}

// What is known of the probability up to one limit.
fn show_limit<K: Knowledge>(
    rt: &impl Print,
    name: &str,
    limit: Option<i64>,
    reading: i64,
    knowledge: &K,
) -> io::Result<()> {
    let Some(limit) = limit else {
        return println!(rt; "   no {name} limit");
    };
    // a reading out of range is refused when its bracket is asked for
    let offset = limit.saturating_sub(reading);
    let (floor, ceiling) = knowledge.at_most(offset);
    println!(rt;
        "   {name} limit at offset {offset}: {floor} to {ceiling} millionths lie at or below it"
    )
}

// What judging one reading gives.
#[derive(Clone, Copy)]
struct Outcome {
    accepted: Acceptance,
    judgement: Judgement,
}

impl fmt::Display for Outcome {
    fn fmt<W: fmt::Write>(&self, f: &mut fmt::Formatter<W>) -> fmt::Result {
        let Acceptance { lower, upper } = self.accepted;
        let Judgement {
            verdict,
            bracket: Bracket { floor, ceiling },
        } = self.judgement;
        write!(
            f,
            "accepted from {} to {}, bracket {floor} to {ceiling}, verdict {verdict}",
            Limit(lower),
            Limit(upper)
        )
    }
}

impl Case {
    fn show(&self, rt: &impl Print) -> io::Result<()> {
        let Case {
            row,
            expanded,
            reading,
        } = *self;
        println!(rt;
            "   required: {} to {}, {}",
            Limit(row.lower),
            Limit(row.upper),
            Decision(row)
        )?;
        println!(rt; "   reading: {reading}, expanded uncertainty {expanded}")
    }

    // Carries the reading through, step by step.
    pub fn carry<K: Knowledge>(&self, rt: &impl Print, knowledge: &K) -> Result<(), Stop> {
        let requirement = Requirement::new(&self.row)?;
        self.show(rt)?;
        let tolerance = requirement.tolerance();
        show_limit(rt, "lower", tolerance.lower(), self.reading, knowledge)?;
        show_limit(rt, "upper", tolerance.upper(), self.reading, knowledge)?;
        let Bracket { floor, ceiling } = bracket(&requirement, self.reading, knowledge)?;
        println!(rt;
            "   bracket: conforming has a probability of {floor} to {ceiling} millionths"
        )?;
        let Acceptance { lower, upper } = limits(&requirement, self.expanded, knowledge)?;
        println!(rt;
            "   acceptance limits: {} to {}",
            Limit(lower),
            Limit(upper)
        )?;
        let judgement = judge(&requirement, self.expanded, self.reading, knowledge)?;
        println!(rt; "   verdict: {}", judgement.verdict)?;
        Ok(())
    }

    fn outcome<K: Knowledge>(&self, knowledge: &K) -> Result<Outcome, Fault> {
        let requirement = Requirement::new(&self.row)?;
        let accepted = limits(&requirement, self.expanded, knowledge)?;
        let judgement = judge(&requirement, self.expanded, self.reading, knowledge)?;
        Ok(Outcome {
            accepted,
            judgement,
        })
    }

    // Judges the reading, in a line; a refusal is printed with its number.
    pub fn decide<K: Knowledge>(&self, rt: &impl Print, knowledge: &K) -> io::Result<()> {
        let decision = Decision(self.row);
        match self.outcome(knowledge) {
            Ok(outcome) => println!(rt; "   {decision}: {outcome}"),
            Err(fault) => println!(rt; "   {decision}: {}", Stop::Refused(fault)),
        }
    }
}
