// How verdicts are written.
ghost use Rattle.std.specs.Prelude.{◌≡◌, Some};
ghost use Rattle.judging.specs.Words.{word_for};

use crate::Verdict;
use std::fmt;

impl Verdict {
    // The word for a verdict.
    pub fn word(self) -> &'static str
        ensures { result.now ≡ word_for self }
    {
        match self {
            Verdict::Pass => "pass",
            Verdict::ConditionalPass => "cpass",
            Verdict::ConditionalFail => "cfail",
            Verdict::Fail => "fail",
        }
    }
}

impl fmt::Display for Verdict {
    ghost output = { λ v. Some (word_for v) };

    fn fmt<W: fmt::Write>(&self, f: &mut fmt::Formatter<W>) -> fmt::Result {
        f.write_str(self.word())
    }
}
