// Fields to values: numbers, limits, letters and words, by what a field says. A fault carries the field's place.
#![tactic(auto)]

mod letters;
mod numbers;
mod words;

pub use letters::letter;
pub use numbers::{limit, number};
pub use words::says;
