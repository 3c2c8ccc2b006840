// The bias layer: a state of knowledge for an instrument that reads too high or too low by a known number of steps.
#![tactic(auto)]

ghost use Rattle.std.specs.Prelude.{◌≡◌, pos, ◌+ℤ◌, neg_ℤ, ◌≤ℤ◌};
ghost use Rattle.faults.specs.Faults.{AnswersBy};
ghost use Rattle.knowledge.specs.Offsets.{nearest};
ghost use Rattle.bias.specs.Bias.{bias_refusal, kept, shifted};
ghost use Rattle.bias.specs.Shift.{shifted_rules};

use faults::{Fault, Refusal};
use knowledge::{Knowledge, nearest_offset};

// The greatest bias, in steps; its negative is the least one.
pub const GREATEST_BIAS: i64 = 100_000;

// A state of knowledge over another, for an instrument that reads `bias` steps too high.
// No `Clone`: it is not derived for a generic struct with a ghost field, and nothing copies a layer.
#[derive(Drop)]
pub struct Biased<K> {
    below: K,
    bias: i64,
    ghost not_low: { neg_ℤ (pos 100000) ≤ℤ bias },
    ghost not_high: { bias ≤ℤ pos 100000 },
}

// Whether a layer can have this bias, from -100,000 to 100,000 steps.
pub fn check_bias(bias: i64) -> Result<(), Fault>
    ensures { AnswersBy (bias_refusal bias) result (λ _. Unit {0}) }
{
    Refusal::OutOfRange.unless((-GREATEST_BIAS..=GREATEST_BIAS).contains(&bias))
}

impl<K: Knowledge> Biased<K> {
    // The layer with this bias over the state of knowledge below; a bias that the check refuses is taken as 0.
    pub fn new(below: K, bias: i64) -> Self
        ensures { (result.below ≡ below) × (result.bias ≡ kept bias) }
    {
        let bias = if check_bias(bias).is_ok() { bias } else { 0 };
        Biased { below, bias }
    }

    // The offset at which the state of knowledge below answers for this one.
    fn offset_below(&self, offset: i64) -> i64
        ensures { result ≡ nearest offset +ℤ self.now.bias }
    {
        nearest_offset(offset) + self.bias
    }
}

impl<K: Knowledge> Knowledge for Biased<K> {
    ghost answers = { λ s. shifted s.bias (K.Knowledge.answers s.below) };

    ghost rules = { λ s. shifted_rules s.bias (K.Knowledge.answers s.below) (K.Knowledge.rules s.below) };

    fn at_most(&self, offset: i64) -> (u32, u32) {
        self.below.at_most(self.offset_below(offset))
    }

    fn width(&self) -> u32 {
        self.below.width()
    }
}
