// A guard band, with the range that its width keeps.
ghost use Rattle.std.specs.Prelude.{◌≡◌, true};
ghost use Rattle.acceptance.specs.Guard.{is_width};

pub mod methods;

// How far the acceptance limits lie inside the tolerance limits, in steps; negative where they lie outside.
#[derive(Clone, Copy, PartialEq, Eq, Debug)]
pub struct GuardBand {
    width: i64,
    ghost in_range: { is_width width ≡ true },
}
