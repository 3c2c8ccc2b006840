// The machine that finds a field's end: its state and the next byte together decide the step.
ghost use Rattle.text.specs.Machine.{Does};

use faults::Refusal;

// The part of a field that the next byte stands in.
#[derive(Clone, Copy)]
pub enum State {
    Start,
    Bare,
    Quoted,
    AfterQuote,
}

// What ends a field.
#[derive(Clone, Copy)]
pub enum Ending {
    Comma,
    Line,
    Text,
}

// What a byte does that is not refused: it belongs to the field, or ends it.
#[derive(Clone, Copy)]
pub enum Effect {
    On(State),
    Off(Ending),
}

// The step at a byte; `before_lf` tells whether a LF stands right after it.
pub fn step(state: State, byte: u8, before_lf: bool) -> Result<Effect, Refusal>
    ensures { Does state byte before_lf result }
{
    match (state, byte) {
        (State::Start, b'"') => Ok(Effect::On(State::Quoted)),
        (State::Quoted, b'"') => Ok(Effect::On(State::AfterQuote)),
        (State::AfterQuote, b'"') => Ok(Effect::On(State::Quoted)),
        (State::Quoted, _) => Ok(Effect::On(State::Quoted)),
        (_, b',') => Ok(Effect::Off(Ending::Comma)),
        (_, b'\r') if before_lf => Ok(Effect::Off(Ending::Line)),
        (State::AfterQuote, _) => Err(Refusal::BrokenQuotes),
        (_, b'"' | b'\r' | b'\n') => Err(Refusal::StrayByte),
        (_, _) => Ok(Effect::On(State::Bare)),
    }
}
