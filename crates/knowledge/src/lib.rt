// States of knowledge: what is known of a reading's error, asked through two questions that every kind answers.
#![tactic(auto)]

ghost use Rattle.std.specs.Prelude.{◌≡◌};
ghost use Rattle.knowledge.specs.Knowledge.{Answers, Rules};
ghost use Rattle.knowledge.specs.Offsets.{nearest};

// One in the unit of every probability, the millionth.
pub const MILLION: u32 = 1_000_000;

// The greatest offset; its negative is the least one.
pub const FARTHEST: i64 = 2_000_000;

// What is known of the error of a reading. An offset is how many steps the true value lies above it.
pub trait Knowledge {
    // Everything that a value answers.
    ghost answers: { Self → Answers };

    // Floor and ceiling, in millionths, of the probability that the true value lies no more than `offset` steps above the reading.
    fn at_most(&self, offset: i64) -> (u32, u32)
        ensures { (result.0 ≡ (answers self.now).floor offset) × (result.1 ≡ (answers self.now).ceiling offset) };

    // A bound, in millionths, on ceiling less floor at every offset.
    fn width(&self) -> u32
        ensures { result ≡ (answers self.now).width };

    // Each kind shows that its answers keep the rules; code above rests on them alone.
    ghost rules: { (s : Self) → Rules (answers s) };
}

// The offset itself, or the nearer end of the range of offsets where it lies outside.
pub fn nearest_offset(offset: i64) -> i64
    ensures { result ≡ nearest offset }
{
    offset.clamp(-FARTHEST, FARTHEST)
}
