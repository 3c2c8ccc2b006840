// Making a table, reading it, finding in it, and what puts an entry in or takes one out. A clause `same` says that a call leaves the table
// over the caller's own list: a fact of before and after together, so that no field of the table can hold it.
ghost use Rattle.std.specs.Prelude.{◌≡◌, min, [], length, nat_le};
ghost use Rattle.std.specs.List.{slice_get};
ghost use Rattle.table.specs.Changes.{Allowed, Insertion, Picked, Removal};
ghost use Rattle.table.specs.Places.{Found, Known};
ghost use Rattle.table.specs.Tables.{standing, capacity};

use crate::search::bisect;
use crate::{Entry, Refused, Table};

impl<'a, E: Entry> Table<'a, E> {
    // An empty table over the list, with room for at most `limit` entries: with a limit of 0 it has no place.
    // What the caller's list held is a fact of the making, which no field can keep; so each maker over a list says it.
    pub fn new(places: &'a mut [E], limit: usize) -> Self
        ensures list { result.places.now ≡ places.old }
        ensures same { result.places.ghost_name ≡ places.entry.ghost_name }
        ensures empty { (standing result ≡ []) × (capacity result ≡ min limit (length places.old)) }
    {
        Table {
            places,
            limit,
            count: 0,
        }
    }

    // The entries that stand, in the order of their keys.
    pub fn entries(&self) -> &[E]
        ensures { result.now ≡ standing self.now }
    {
        &self.places[..self.count]
    }

    // How many entries stand.
    pub fn len(&self) -> usize
        ensures { result ≡ length (standing self.now) }
    {
        self.entries().len()
    }

    // How many entries may stand.
    pub fn capacity(&self) -> usize
        ensures { result ≡ capacity self.now }
    {
        self.limit.min(self.places.len())
    }

    // No further entry may stand.
    pub fn is_full(&self) -> bool
        ensures { result ≡ nat_le (capacity self.now) (length (standing self.now)) }
    {
        self.len() >= self.capacity()
    }

    // The entry at a place, counted from 0.
    pub fn at(&self, place: usize) -> Option<E>
        ensures { result ≡ slice_get (standing self.now) place }
    {
        self.entries().get(place).copied()
    }

    // The place of the entry with this key, or as an error the place where it belongs.
    pub fn find(&self, key: E::Key) -> Result<usize, usize>
        ensures place { Found E.Entry.key E.Key.Ord.cmp (standing self.now) key result }
        ensures known { Known E.Entry.key (standing self.now) key result }
    {
        bisect(self.entries(), key)
    }

    // The entry with this key, if one stands.
    pub fn lookup(&self, key: E::Key) -> Option<E>
        ensures { Picked E.Entry.key (standing self.now) key result }
    {
        self.at(self.find(key).ok()?)
    }

    // Puts the entry where its key belongs and answers that place. Each later entry moves once.
    pub fn insert(&mut self, entry: E) -> Result<usize, Refused>
        ensures same { self.new.places.ghost_name ≡ self.old.places.ghost_name }
        ensures room { capacity self.new ≡ capacity self.old }
        ensures change { Insertion self.old entry result self.new }
        ensures outcome { Allowed E.Entry.key self.old (E.Entry.key entry) result }
    {
        match self.find(entry.key()) {
            Ok(_) => Err(Refused::Present),
            Err(_) if self.is_full() => Err(Refused::Full),
            Err(place) => {
                self.places[self.count] = entry;
                self.places[place..=self.count].rotate_right(1);
                self.count += 1;
                Ok(place)
            }
        }
    }

    // Takes the entry with this key out of the table and closes its place. Each later entry moves once.
    pub fn remove(&mut self, key: E::Key) -> Option<E>
        ensures same { self.new.places.ghost_name ≡ self.old.places.ghost_name }
        ensures room { capacity self.new ≡ capacity self.old }
        ensures change { Removal self.old result self.new }
        ensures outcome { Picked E.Entry.key (standing self.old) key result }
    {
        let place = self.find(key).ok()?;
        let entry = self.places[place];
        self.places[place..self.count].rotate_left(1);
        self.count -= 1;
        Some(entry)
    }
}
