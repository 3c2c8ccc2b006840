// Carries readings of a haul road from what is required of them to their verdicts, and prints each step; then a lot through its calls.
#![tactic(auto)]

mod lots;

use lots::enter_and_strike;
use steps::{Stop, show_steps, told};

fn run(rt: &impl Print) -> Result<(), Stop> {
    show_steps(rt)?;
    enter_and_strike(rt)
}

fn main(rt: HostRuntime) -> Result<(), Stop> {
    told(&rt.stderr(), run(&rt))
}
