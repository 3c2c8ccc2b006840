// A lot: items entered under a sheet of requirements, with a row for each class and what its sums guarantee.
#![tactic(auto)]

mod checks;
mod class;
mod lots;
mod rows;

pub use lots::Lot;
