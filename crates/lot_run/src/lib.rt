// One lot, carried from the record of its requirement to the rows of its class, with nothing known of the calls but their contracts.
#![tactic(auto)]

mod grades;
mod worked;

pub use worked::{WorkedLot, worked_lot};
