// Records: the fields of one record as a typed record.
#![tactic(auto)]

mod columns;
mod makers;
mod rows;

pub use makers::entry;
pub use rows::{Entry, ItemRow};
