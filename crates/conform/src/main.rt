// Carries readings of a haul road from what is required of them to their verdicts, and prints each step.
#![tactic(auto)]

use steps::{Stop, show_steps, told};

fn main(rt: HostRuntime) -> Result<(), Stop> {
    told(&rt.stderr(), show_steps(&rt))
}
