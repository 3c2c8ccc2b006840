// The output lines of the engine: a header, an item with its judgement, a refused record, and the sums of a class.
#![tactic(auto)]

mod cells;
mod forms;

pub use forms::Line;
