// One field from the front of a text.
ghost use Rattle.std.specs.Prelude.{◌≡◌, ℕ, ◌≤◌, List, ◌∷◌, length, take, drop, Decides, MatchResult};
ghost use Rattle.text.specs.Fronts.{form, Ended, Leads};
ghost use Rattle.text.specs.Grammar.{LF, IsField, spelling};
ghost use Rattle.text.specs.Machine.{SoFar, Complete};
ghost use Rattle.text.specs.Offences.{Offence};

use crate::field::Field;
use crate::machine::{Effect, Ending, State, step};
use faults::Refusal;

// A field at the front of a text, what ends it, and the text after that.
#[derive(Clone, Copy)]
pub struct Front<'a> {
    pub field: Field<'a>,
    pub ending: Ending,
    pub rest: &'a [u8],
}

// Whether a LF stands at this place.
fn lf_at(text: &[u8], at: usize) -> bool
    ensures { Decides result ((cs : List ℕ) × (drop at text.now ≡ LF ∷ cs)) }
{
    text.get(at) == Some(&b'\n')
}

// The field that these bytes are, where the machine stands in `state` after them.
fn whole<'a>(bytes: &'a [u8], state: State) -> Field<'a>
    requires { SoFar state bytes.now × Complete state }
    ensures { IsField (form result) × (spelling (form result) ≡ bytes.now) }
{
    match state {
        State::AfterQuote => Field::Quoted(&bytes[1..bytes.len() - 1]),
        _ => Field::Bare(bytes),
    }
}

// What comes after the ending that stands at the front.
fn past<'a>(tail: &'a [u8], ending: Ending) -> &'a [u8]
    requires { (after : List ℕ) × Ended ending after tail.now }
    ensures { Ended ending result.now tail.now }
{
    match ending {
        Ending::Comma => &tail[1..],
        Ending::Line => &tail[2..],
        Ending::Text => tail,
    }
}

// The front of `text`, whose first field takes `len` bytes, where the machine stands in `state` after them.
fn cut<'a>(text: &'a [u8], len: usize, state: State, ending: Ending) -> Front<'a>
    requires within { len ≤ length text.now }
    requires whole { SoFar state (take len text.now) × Complete state }
    requires ended { (after : List ℕ) × Ended ending after (drop len text.now) }
    ensures { Leads (form result.field) result.ending result.rest.now text.now }
{
    let (bytes, tail) = text.split_at(len);
    Front {
        field: whole(bytes, state),
        ending,
        rest: past(tail, ending),
    }
}

// The first field of `text`.
pub fn scan<'a>(text: &'a [u8]) -> Result<Front<'a>, Refusal>
    ensures { MatchResult result (λ f. Leads (form f.field) f.ending f.rest.now text.now) (λ e. Offence e text.now) }
{
    let mut state = State::Start;
    for (at, byte) in text.iter().enumerate() {
        match step(state, *byte, lf_at(text, at + 1))? {
            Effect::On(next) => state = next,
            Effect::Off(ending) => return Ok(cut(text, at, state, ending)),
        }
    }
    match state {
        State::Quoted => Err(Refusal::BrokenQuotes),
        _ => Ok(cut(text, text.len(), state, Ending::Text)),
    }
}
