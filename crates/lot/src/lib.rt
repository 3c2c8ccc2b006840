// What a lot stores: its items, and the row of a class; with the definitions of a lot's book and what its class sums guarantee.
#![tactic(auto)]

mod items;
mod keys;
mod rows;

pub use items::{Item, ItemFields, Row};
