// Acceptance limits: where a reading is accepted, by the requirement's decision rule and what is known of the error.
#![tactic(auto)]

mod bounds;
mod guard;
mod moves;
mod search;

pub use bounds::Acceptance;
pub use guard::GuardBand;
pub use guard::methods::{guard_width, is_expanded};
pub use moves::limits;
pub use search::Side;
