// How limits, faults and answers are written.
ghost use Rattle.std.specs.Prelude.{Some};
ghost use Rattle.trials.specs.Shown.{limit_text, fault_text, answer_text};

use faults::Fault;
use std::fmt;

// A limit: its value, or `none`.
#[derive(Clone, Copy)]
pub struct Limit(pub Option<i64>);

impl fmt::Display for Limit {
    ghost output = { λ limit. Some (limit_text limit.0) };

    fn fmt<W: fmt::Write>(&self, f: &mut fmt::Formatter<W>) -> fmt::Result {
        match self.0 {
            Some(value) => write!(f, "{value}"),
            None => f.write_str("none"),
        }
    }
}

// A fault by its numbers: refusal, record and field.
#[derive(Clone, Copy)]
pub struct Numbers(pub Fault);

impl fmt::Display for Numbers {
    ghost output = { λ numbers. Some (fault_text numbers.0) };

    fn fmt<W: fmt::Write>(&self, f: &mut fmt::Formatter<W>) -> fmt::Result {
        let Fault {
            refusal,
            record,
            field,
        } = self.0;
        write!(f, "!{},{record},{field}", refusal.number())
    }
}

// What a call answers: its value, or its fault by its numbers.
#[derive(Drop)]
pub struct Answer<T>(pub Result<T, Fault>);

impl<T: fmt::Display> fmt::Display for Answer<T> {
    ghost output = { λ answer. answer_text T.output answer.0 };

    fn fmt<W: fmt::Write>(&self, f: &mut fmt::Formatter<W>) -> fmt::Result {
        match &self.0 {
            Ok(value) => write!(f, "{value}"),
            Err(fault) => write!(f, "{}", Numbers(*fault)),
        }
    }
}
