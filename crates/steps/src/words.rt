// How decision rules are written.
use requirement::RequirementRow;
use std::fmt;

// A record's decision rule and mode.
#[derive(Clone, Copy)]
pub struct Decision(pub RequirementRow);

impl fmt::Display for Decision {
    fn fmt<W: fmt::Write>(&self, f: &mut fmt::Formatter<W>) -> fmt::Result {
        let RequirementRow {
            letter,
            first,
            second,
            mode,
            ..
        } = self.0;
        write!(f, "rule {letter} with {first} and {second}, mode {mode}")
    }
}
