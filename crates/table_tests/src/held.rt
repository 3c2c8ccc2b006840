// A table within a struct: its order is the table's own, so a caller has the outcome of every call with nothing to show.
// A clause `list` says that a call leaves it over the caller's own list: a fact of before and after together, which no field can hold.
ghost use Rattle.std.specs.Prelude.{◌≡◌, [], length};
ghost use Rattle.table.specs.Changes.{Allowed, Insertion, Picked, Removal};
ghost use Rattle.table.specs.Tables.{capacity, standing};

use crate::Reading;
use table::{Refused, Table};

// Readings by item number, and how often one was entered.
#[derive(Drop)]
pub struct Held<'a> {
    table: Table<'a, Reading>,
    entered: u32,
}

impl<'a> Held<'a> {
    // A held table over the whole list.
    pub fn new(places: &'a mut [Reading]) -> Self
        ensures list { (result.table.places.now ≡ places.old) × (result.table.places.ghost_name ≡ places.entry.ghost_name) }
        ensures empty { (standing result.table ≡ []) × (capacity result.table ≡ length places.old) }
    {
        let limit = places.len();
        let table = Table::new(places, limit);
        Held { table, entered: 0 }
    }

    // Enters a reading, and counts it where it is not refused.
    pub fn enter(&mut self, reading: Reading) -> Result<usize, Refused>
        ensures list { self.new.table.places.ghost_name ≡ self.old.table.places.ghost_name }
        ensures change { Insertion self.old.table reading result self.new.table }
        ensures outcome { Allowed (λ e. e.number) self.old.table reading.number result }
    {
        let entered = self.table.insert(reading);
        if entered.is_ok() {
            self.entered = self.entered.saturating_add(1);
        }
        entered
    }

    // Strikes the reading with this number.
    pub fn strike(&mut self, number: u32) -> Option<Reading>
        ensures list { self.new.table.places.ghost_name ≡ self.old.table.places.ghost_name }
        ensures change { Removal self.old.table result self.new.table }
        ensures outcome { Picked (λ e. e.number) (standing self.old.table) number result }
    {
        self.table.remove(number)
    }
}
