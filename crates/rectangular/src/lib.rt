// The rectangular kind: the error lies within a half-width of the reading, every part of that interval equally likely.
#![tactic(auto)]

ghost use Rattle.std.specs.Prelude.{◌≡◌, ◌≤◌, pos};
ghost use Rattle.faults.specs.Faults.{AnswersBy};
ghost use Rattle.faults.specs.Ranges.{range_refusal};
ghost use Rattle.rectangular.specs.Rectangular.{covered, rectangular};
ghost use Rattle.rectangular.specs.Rules.{rectangular_rules};

use faults::{Fault, Refusal};
use knowledge::{Knowledge, MILLION, nearest_offset};

// The greatest half-width, in steps.
pub const WIDEST: i64 = 400_000;

// A rectangular state of knowledge.
#[derive(Clone, Copy)]
pub struct Rectangular {
    half_width: u32,
    ghost some: { 1 ≤ half_width },
    ghost bounded: { half_width ≤ 400000 },
}

impl Rectangular {
    // The kind with this half-width, from 1 to 400,000 steps.
    pub fn new(half_width: i64) -> Result<Self, Fault>
        ensures { AnswersBy (range_refusal (pos 1) (pos 400000) half_width) result (λ k. pos k.half_width ≡ half_width) }
    {
        Refusal::OutOfRange.unless((1..=WIDEST).contains(&half_width))?;
        Ok(Rectangular {
            half_width: half_width as u32,
        })
    }

    // The half-width, in steps.
    pub fn half_width(&self) -> u32
        ensures { result ≡ self.now.half_width }
    {
        self.half_width
    }

    // How many of the interval's steps lie at or below the offset.
    fn covered(&self, offset: i64) -> u64
        ensures { result ≡ covered self.now.half_width offset }
    {
        let half_width = i64::from(self.half_width);
        (nearest_offset(offset) + half_width).clamp(0, 2 * half_width) as u64
    }
}

impl Knowledge for Rectangular {
    ghost answers = { λ s. rectangular s.half_width };

    ghost rules = { λ k. rectangular_rules k.half_width k.some k.bounded };

    fn at_most(&self, offset: i64) -> (u32, u32) {
        let steps = 2 * u64::from(self.half_width);
        let parts = u64::from(MILLION) * self.covered(offset);
        ((parts / steps) as u32, parts.div_ceil(steps) as u32)
    }

    fn width(&self) -> u32 {
        1
    }
}
