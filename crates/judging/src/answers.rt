// What judging answers.

// Floor and ceiling, in millionths, of the probability that the true value conforms.
#[derive(Clone, Copy, PartialEq, Eq, Debug)]
pub struct Bracket {
    pub floor: u32,
    pub ceiling: u32,
}

// What is said of a reading. The conditional ones are said only where a requirement has four verdicts.
#[derive(Clone, Copy, PartialEq, Eq, Debug)]
pub enum Verdict {
    Pass,
    ConditionalPass,
    ConditionalFail,
    Fail,
}

// A verdict with the bracket on the conformity probability.
#[derive(Clone, Copy, PartialEq, Eq, Debug)]
pub struct Judgement {
    pub verdict: Verdict,
    pub bracket: Bracket,
}
