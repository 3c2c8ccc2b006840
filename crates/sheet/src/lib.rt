// The requirement sheet: requirements by class and characteristic, over the caller's list.
#![tactic(auto)]

ghost use Rattle.std.specs.Prelude.{◌≡◌};
ghost use Rattle.faults.specs.Faults.{AnswersBy};
ghost use Rattle.sheet.specs.Lists.{list_refusal, places_of};

use faults::{Fault, Refusal};

mod sheets;

pub use sheets::Sheet;

// The most places that a sheet or a lot has.
pub const MOST_PLACES: usize = 10_000;

// Whether a list of so many places can carry a sheet or a lot.
pub fn check_places(places: usize) -> Result<(), Fault>
    ensures { AnswersBy (list_refusal places) result (λ _. Unit {0}) }
{
    Refusal::OutOfRange.unless(places <= MOST_PLACES)
}

// How many places a list of so many gives a sheet or a lot: all of its own, but none where `check_places` refuses it.
pub fn usable_places(places: usize) -> usize
    ensures { result ≡ places_of places }
{
    if check_places(places).is_ok() {
        places
    } else {
        0
    }
}
