// The rows of a lot, one for each class, and how they gain and lose an item's share.
ghost use Rattle.std.specs.Prelude.{◌≡◌, ◌-◌, slice_set};
ghost use Rattle.lot.specs.Rows.{plus, minus};
ghost use Rattle.lot_calls.specs.Sizes.{row_for, RowOfAtMost, Contains};

use crate::class::Class;
use lot::Row;

// The row of each class from 1 to 9.
#[derive(Clone, Copy)]
pub struct Rows {
    by_class: [Row; 9],
}

impl Rows {
    // The rows of no item.
    pub(crate) const EMPTY: Rows = Rows {
        by_class: [Row::EMPTY; 9],
    };

    // The row of a class.
    pub(crate) fn of(&self, class: Class) -> Row
        ensures { result ≡ row_for self.now class.number }
    {
        self.by_class[class.place()]
    }

    // No operators of `Row`: the bounds that keep the sums from overflowing stand here as clauses, where a trait would put them out of sight.

    // Adds the share of one more item to the row of its class, and leaves the others.
    pub(crate) fn raise(&mut self, class: Class, share: Row)
        requires many { RowOfAtMost 10000 (row_for self.old class.number) }
        requires one { RowOfAtMost 1 share }
        ensures { self.new.by_class ≡ slice_set self.old.by_class (class.number - 1) (plus (row_for self.old class.number) share) }
    {
        let row = &mut self.by_class[class.place()];
        row.passes += share.passes;
        row.conditional_passes += share.conditional_passes;
        row.conditional_fails += share.conditional_fails;
        row.fails += share.fails;
        row.lesser += share.lesser;
        row.greater += share.greater;
    }

    // Takes the share of an item from the row of its class, and leaves the others.
    pub(crate) fn lower(&mut self, class: Class, share: Row)
        requires { Contains (row_for self.old class.number) share }
        ensures { self.new.by_class ≡ slice_set self.old.by_class (class.number - 1) (minus (row_for self.old class.number) share) }
    {
        let row = &mut self.by_class[class.place()];
        row.passes -= share.passes;
        row.conditional_passes -= share.conditional_passes;
        row.conditional_fails -= share.conditional_fails;
        row.fails -= share.fails;
        row.lesser -= share.lesser;
        row.greater -= share.greater;
    }
}
