// A lot, with what every one keeps.
ghost use Rattle.std.specs.Prelude.{◌≡◌, ◌≤◌};
ghost use Rattle.table.specs.Tables.{standing, capacity};
ghost use Rattle.lot.specs.Rows.{Classed};
ghost use Rattle.lot_calls.specs.Sizes.{rows_of};

use crate::rows::Rows;
use lot::Item;
use table::Table;

mod methods;

// Items in the order of their numbers, no two with one number, and the row of each class.
#[derive(Drop)]
pub struct Lot<'a> {
    table: Table<'a, Item>,
    rows: Rows,
    ghost few: { capacity table ≤ 10000 },
    // every item is of a class that has a row
    ghost classed: { Classed (standing table) },
    // the rows are what the items add up to
    ghost tallied: { rows ≡ rows_of (standing table) },
}
