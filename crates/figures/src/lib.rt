// Worked figures: known numbers carried through the definitions, as one proved statement, and one reading through the calls.
#![tactic(auto)]

ghost use Rattle.std.specs.Prelude.{◌≡◌, length};
ghost use Rattle.figures.specs.Figures.{figures, AllHold};

mod reading;

pub use reading::{grade_requirement, greatest_passing_grade};

// How many worked figures there are; that each of them holds is what the contract says.
pub fn figures_held() -> u32
    ensures { (result ≡ length figures) × AllHold figures }
{
    20
}
