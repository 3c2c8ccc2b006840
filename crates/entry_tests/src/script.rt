// Calls on a table of five places, with the answers that are due.
use std::fmt::Debug;
use std::process::Abort;
use table::{Entry, Refused, Table};

// A table under trial, with what a trial fails by.
#[derive(Drop)]
struct Trial<'r, 't, R, X: Entry> {
    rt: &'r R,
    table: Table<'t, X>,
}

impl<R: Abort, X: Entry + PartialEq + Debug> Trial<'_, '_, R, X> {
    // Looking each of the entries up finds it.
    fn check_found(&self, entries: &[X]) {
        for entry in entries {
            assert_eq!(self.rt; self.table.lookup(entry.key()), Some(*entry));
        }
    }

    // Neither looking the entry up nor removing it finds one.
    fn check_lacking(&mut self, entry: X) {
        assert_eq!(self.rt; self.table.lookup(entry.key()), None);
        assert_eq!(self.rt; self.table.remove(entry.key()), None);
    }

    // These entries stand in this order, and no other.
    fn check_order(&self, entries: &[X]) {
        for (place, entry) in entries.iter().enumerate() {
            assert_eq!(self.rt; self.table.at(place), Some(*entry));
        }
        assert_eq!(self.rt; self.table.at(entries.len()), None);
    }

    fn check_removed(&mut self, entry: X) {
        assert_eq!(self.rt; self.table.remove(entry.key()), Some(entry));
    }

    // Fills the table out of order; a key that stands is refused before a sixth entry is.
    fn fill(&mut self, entries: &[X; 7]) {
        let [a, b, c, d, e, f, g] = *entries;
        assert_eq!(self.rt; self.table.insert(d), Ok(0));
        assert_eq!(self.rt; self.table.insert(a), Ok(0));
        assert_eq!(self.rt; self.table.insert(e), Ok(2));
        assert_eq!(self.rt; self.table.insert(c), Ok(1));
        assert_eq!(self.rt; self.table.insert(c), Err(Refused::Present));
        assert_eq!(self.rt; self.table.len(), 4);
        assert_eq!(self.rt; self.table.insert(b), Ok(1));
        assert_eq!(self.rt; self.table.len(), 5);
        assert_eq!(self.rt; self.table.insert(e), Err(Refused::Present));
        assert_eq!(self.rt; self.table.insert(f), Err(Refused::Full));
        assert_eq!(self.rt; self.table.insert(g), Err(Refused::Full));
        assert_eq!(self.rt; self.table.len(), 5);
    }

    // Five entries stand in this order, and a sixth does not.
    fn check_standing(&mut self, five: [X; 5], absent: X) {
        self.check_order(&five);
        self.check_found(&five);
        self.check_lacking(absent);
    }

    // Removes the five in another order, looking at the rest between.
    fn empty(&mut self, entries: &[X; 7]) {
        let [a, b, c, d, e, _, _] = *entries;
        self.check_removed(c);
        self.check_removed(a);
        self.check_removed(e);
        assert_eq!(self.rt; self.table.len(), 2);
        self.check_order(&[b, d]);
        self.check_lacking(c);
        self.check_removed(b);
        self.check_found(&[d]);
        self.check_removed(d);
        assert_eq!(self.rt; self.table.len(), 0);
        self.check_order(&[]);
    }

    // Fills the empty table anew.
    fn refill(&mut self, others: &[X; 7]) {
        let [a, b, c, d, _, f, g] = *others;
        assert_eq!(self.rt; self.table.insert(g), Ok(0));
        assert_eq!(self.rt; self.table.insert(b), Ok(0));
        assert_eq!(self.rt; self.table.insert(f), Ok(1));
        assert_eq!(self.rt; self.table.insert(d), Ok(1));
        assert_eq!(self.rt; self.table.insert(b), Err(Refused::Present));
        assert_eq!(self.rt; self.table.insert(a), Ok(0));
        assert_eq!(self.rt; self.table.insert(c), Err(Refused::Full));
        assert_eq!(self.rt; self.table.insert(g), Err(Refused::Present));
        assert_eq!(self.rt; self.table.len(), 5);
    }
}

// Fills, empties and refills a table over five places. The entries' keys ascend; the others have the same keys and carry other values.
pub fn fill_empty_refill<X: Entry + PartialEq + Debug>(
    rt: &impl Abort,
    places: &mut [X],
    entries: &[X; 7],
    others: &[X; 7],
) {
    let table = Table::new(places, 5);
    assert_eq!(rt; table.capacity(), 5);
    let mut trial = Trial { rt, table };
    trial.fill(entries);
    let [a, b, c, d, e, f, _] = *entries;
    trial.check_standing([a, b, c, d, e], f);
    trial.empty(entries);
    trial.refill(others);
    let [a, b, c, d, _, f, g] = *others;
    trial.check_standing([a, b, d, f, g], c);
}
