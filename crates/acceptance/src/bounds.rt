// The interval of readings that are accepted.
ghost use Rattle.std.specs.Prelude.{◌≡◌};
ghost use Rattle.acceptance.specs.Acceptance.{in_order};

// A lower and an upper acceptance limit; where the tolerance has no limit, the acceptance has none.
#[derive(Clone, Copy, PartialEq, Eq, Debug)]
pub struct Acceptance {
    pub lower: Option<i64>,
    pub upper: Option<i64>,
}

impl Acceptance {
    // Whether the lower limit is not above the upper one.
    pub(crate) fn in_order(self) -> bool
        ensures { result ≡ in_order self.lower self.upper }
    {
        match (self.lower, self.upper) {
            (Some(lower), Some(upper)) => lower <= upper,
            _ => true,
        }
    }
}
