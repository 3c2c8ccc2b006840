// What a judgement adds to the row of its class, and takes from it again.
ghost use Rattle.std.specs.Prelude.{◌≡◌, ◌*◌, ◌<◌, ◌≤◌};
ghost use Rattle.lot.specs.Rows.{share_of, counts_none};

use crate::Row;
use judging::{Judgement, Verdict};
use knowledge::MILLION;

impl Row {
    // The row of a class without an item.
    pub const EMPTY: Row = Row {
        passes: 0,
        conditional_passes: 0,
        conditional_fails: 0,
        fails: 0,
        lesser: 0,
        greater: 0,
    };

    // What one judgement adds to a row.
    pub fn share_of(judgement: &Judgement) -> Row
        ensures { result ≡ share_of judgement.now }
    {
        match judgement.verdict {
            Verdict::Pass => Row {
                passes: 1,
                lesser: u64::from(MILLION.saturating_sub(judgement.bracket.ceiling)),
                greater: u64::from(MILLION.saturating_sub(judgement.bracket.floor)),
                ..Row::EMPTY
            },
            Verdict::ConditionalPass => Row {
                conditional_passes: 1,
                ..Row::EMPTY
            },
            Verdict::ConditionalFail => Row {
                conditional_fails: 1,
                ..Row::EMPTY
            },
            Verdict::Fail => Row {
                fails: 1,
                ..Row::EMPTY
            },
        }
    }

    // Whether the row counts no item. The four counts alone say so, and the sums do not take part, so this is no `== Row::EMPTY`.
    pub fn is_empty(&self) -> bool
        ensures { result ≡ counts_none self.now }
    {
        self.passes == 0
            && self.conditional_passes == 0
            && self.conditional_fails == 0
            && self.fails == 0
    }
}
