// What a lot stores of an item, and what it keeps for each class.
use judging::{Bracket, Judgement, Verdict};

// What is entered of an item, with any values; `expanded` is the expanded uncertainty of its reading.
#[derive(Clone, Copy)]
pub struct ItemFields {
    pub number: i64,
    pub class: i64,
    pub characteristic: i64,
    pub expanded: i64,
    pub reading: i64,
}

// One item of a lot with its judgement.
#[derive(Clone, Copy, PartialEq, Eq, Debug)]
pub struct Item {
    pub number: u32,
    pub class: u8,
    pub characteristic: u8,
    pub reading: i64,
    pub judgement: Judgement,
}

impl Item {
    // What holds a place of the list until a lot uses it; no call answers it.
    pub const UNUSED: Item = Item {
        number: 0,
        class: 0,
        characteristic: 0,
        reading: 0,
        judgement: Judgement {
            verdict: Verdict::Fail,
            bracket: Bracket {
                floor: 0,
                ceiling: 0,
            },
        },
    };
}

// The row of one class: how many items have each verdict and, over the passes, the sums of the least and of the greatest
// risk that their brackets leave open, in millionths.
#[derive(Clone, Copy, PartialEq, Eq, Debug)]
pub struct Row {
    pub passes: u32,
    pub conditional_passes: u32,
    pub conditional_fails: u32,
    pub fails: u32,
    pub lesser: u64,
    pub greater: u64,
}
