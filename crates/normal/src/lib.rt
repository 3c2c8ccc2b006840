// The normal kind: the error has a normal distribution about the reading, known by its standard uncertainty.
#![tactic(auto)]

mod table;

ghost use Rattle.std.specs.Prelude.{◌≡◌, ◌-◌, ◌≤◌, pos};
ghost use Rattle.faults.specs.Faults.{AnswersBy};
ghost use Rattle.faults.specs.Ranges.{range_refusal};
ghost use Rattle.knowledge.specs.Millionths.{million};
ghost use Rattle.normal.specs.Normal.{HeightAt, floor_above, ceiling_above, normal};
ghost use Rattle.normal.specs.Rules.{normal_rules};

use faults::{Fault, Refusal};
use knowledge::{Knowledge, MILLION, nearest_offset};
pub use table::{Chord, chord_over};

// The greatest standard uncertainty, in steps.
pub const WIDEST: i64 = 100_000;

// One half, in millionths: what lies on either side of the reading.
const HALF: u32 = 500_000;

// Half a unit of the table, in millionths: the most by which a chord lies too high.
const TABLE_ROUNDING: u32 = 5;

// The most by which a chord lies too low, in millionths: the table's rounding and the sag below the curve.
const ROUNDING_AND_SAG: u32 = 308;

// The floor from four standard uncertainties on, in millionths: the table's last value less its rounding.
const FAR_FLOOR: u32 = 999_965;

// A normal state of knowledge. Not one type with the rectangular kind over a bound: definitions and callers read the number by its
// name, a half-width there and a standard uncertainty here.
#[derive(Clone, Copy)]
pub struct Normal {
    standard_uncertainty: u32,
    ghost some: { 1 ≤ standard_uncertainty },
    ghost bounded: { standard_uncertainty ≤ 100000 },
}

impl Normal {
    // The kind with this standard uncertainty, from 1 to 100,000 steps.
    pub fn new(standard_uncertainty: i64) -> Result<Self, Fault>
        ensures { AnswersBy (range_refusal (pos 1) (pos 100000) standard_uncertainty) result (λ k. pos k.standard_uncertainty ≡ standard_uncertainty) }
    {
        Refusal::OutOfRange.unless((1..=WIDEST).contains(&standard_uncertainty))?;
        Ok(Normal {
            standard_uncertainty: standard_uncertainty as u32,
        })
    }

    // The standard uncertainty, in steps.
    pub fn standard_uncertainty(&self) -> u32
        ensures { result ≡ self.now.standard_uncertainty }
    {
        self.standard_uncertainty
    }

    // The chord's height at this many steps above the reading, in millionths, multiplied by the standard uncertainty; none past the table.
    #[tactic(auto, using(crate::proofs::Answered::capped))]
    fn height(&self, steps: u64) -> Option<u64>
        requires { steps ≤ 2000000 }
        ensures { HeightAt self.now.standard_uncertainty steps result }
    {
        let tenth = u64::from(self.standard_uncertainty);
        let chord = chord_over(10 * steps / tenth)?;
        let risen = u64::from(chord.rise) * (10 * steps % tenth);
        Some(10 * (u64::from(chord.start) * tenth + risen))
    }

    // Floor and ceiling at this many steps above the reading.
    #[tactic(auto, using(crate::proofs::Answered::between))]
    fn above(&self, steps: u64) -> (u32, u32)
        requires { steps ≤ 2000000 }
        ensures { (result.0 ≡ floor_above self.now.standard_uncertainty steps) × (result.1 ≡ ceiling_above self.now.standard_uncertainty steps) }
    {
        let Some(height) = self.height(steps) else {
            return (FAR_FLOOR, MILLION);
        };
        let spread = u64::from(self.standard_uncertainty);
        let floor = (height / spread) as u32 - TABLE_ROUNDING;
        let ceiling = height.div_ceil(spread) as u32 + ROUNDING_AND_SAG;
        (floor.max(HALF), ceiling.min(MILLION))
    }
}

impl Knowledge for Normal {
    ghost answers = { λ s. normal s.standard_uncertainty };

    ghost rules = { λ k. normal_rules k.standard_uncertainty k.some k.bounded };

    fn at_most(&self, offset: i64) -> (u32, u32) {
        let offset = nearest_offset(offset);
        if offset == 0 {
            return (HALF, HALF);
        }
        // Asked for once, and no match on the sign: in two arms it would stand twice in the program, and take a quarter longer.
        let image = self.above(offset.unsigned_abs());
        if offset > 0 { image } else { mirrored(image) }
    }

    fn width(&self) -> u32 {
        // The one more is for the floor's rounding down and the ceiling's rounding up.
        TABLE_ROUNDING + ROUNDING_AND_SAG + 1
    }
}

// Floor and ceiling at an offset from those at its mirror image about the reading.
fn mirrored(image: (u32, u32)) -> (u32, u32)
    requires { (image.0 ≤ million) × (image.1 ≤ million) }
    ensures { (result.0 ≡ million - image.1) × (result.1 ≡ million - image.0) }
{
    let (floor, ceiling) = image;
    (MILLION - ceiling, MILLION - floor)
}
