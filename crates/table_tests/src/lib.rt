// The table at three kinds of entry, each with a key of another make.
#![tactic(auto)]

ghost use Rattle.table_tests.specs.Entered.{Entered};
ghost use Rattle.table.proofs.Orders.{exact_unsigned, exact_pairs, exact_signed, exact_triples};

use table::{Entry, Refused, Table};

pub mod held;

// A reading under its item number.
#[derive(Clone, Copy, PartialEq, Eq, Debug)]
pub struct Reading {
    pub number: u32,
    pub value: i32,
}

impl Entry for Reading {
    type Key = u32;

    ghost key = { λ e. e.number };

    ghost exact = { exact_unsigned };

    fn key(&self) -> u32 {
        self.number
    }
}

// A limit under its class and characteristic together.
#[derive(Clone, Copy, PartialEq, Eq, Debug)]
pub struct Limit {
    pub class: u8,
    pub characteristic: u8,
    pub value: i32,
}

impl Entry for Limit {
    type Key = (u8, u8);

    ghost key = { λ e. (e.class, e.characteristic) };

    ghost exact = { exact_pairs exact_unsigned exact_unsigned };

    fn key(&self) -> (u8, u8) {
        (self.class, self.characteristic)
    }
}

// A mark on a road under the road, a position that may be negative, and a number.
#[derive(Clone, Copy, PartialEq, Eq, Debug)]
pub struct Mark {
    pub road: u16,
    pub position: i32,
    pub number: u8,
}

impl Entry for Mark {
    type Key = (u16, i32, u8);

    ghost key = { λ e. (e.road, e.position, e.number) };

    ghost exact = { exact_triples exact_unsigned exact_signed exact_unsigned };

    fn key(&self) -> (u16, i32, u8) {
        (self.road, self.position, self.number)
    }
}

// Enters one reading through a table over the caller's list: what the list holds afterwards follows from the table's contracts.
fn enter_first(places: &mut [Reading], reading: Reading) -> Result<usize, Refused>
    ensures { Entered places.old reading result places.new }
{
    let limit = places.len();
    let mut table = Table::new(places, limit);
    table.insert(reading)
}

#[cfg(test)]
mod tests {
    use super::*;
    use std::fmt::Debug;
    use std::process::Abort;

    // Fills a table of three places, with refusals: the keys of a, b, c and d ascend.
    fn fill<E: Entry + PartialEq + Debug>(
        rt: &impl Abort,
        table: &mut Table<E>,
        [a, b, c, d]: [E; 4],
    ) {
        assert_eq!(rt; table.insert(b), Ok(0));
        assert_eq!(rt; table.insert(d), Ok(1));
        assert_eq!(rt; table.insert(b), Err(Refused::Present));
        assert_eq!(rt; table.insert(a), Ok(0));
        assert_eq!(rt; table.insert(c), Err(Refused::Full));
        assert_eq!(rt; table.insert(d), Err(Refused::Present));
        assert_eq!(rt; table.at(1), Some(b));
        assert_eq!(rt; table.at(3), None);
        assert_eq!(rt; table.find(d.key()), Ok(2));
        assert_eq!(rt; table.find(c.key()), Err(2));
    }

    // Empties the filled table and fills it anew.
    fn refill<E: Entry + PartialEq + Debug>(
        rt: &impl Abort,
        table: &mut Table<E>,
        [a, b, c, d]: [E; 4],
    ) {
        assert_eq!(rt; table.remove(c.key()), None);
        assert_eq!(rt; table.remove(b.key()), Some(b));
        assert_eq!(rt; table.at(1), Some(d));
        assert_eq!(rt; table.remove(a.key()), Some(a));
        assert_eq!(rt; table.remove(d.key()), Some(d));
        assert_eq!(rt; table.at(0), None);
        assert_eq!(rt; table.insert(d), Ok(0));
        assert_eq!(rt; table.insert(c), Ok(0));
        assert_eq!(rt; table.insert(a), Ok(0));
        assert_eq!(rt; table.insert(b), Err(Refused::Full));
        assert_eq!(rt; table.at(1), Some(c));
    }

    fn reading(number: u32) -> Reading {
        Reading { number, value: -4 }
    }

    fn limit(class: u8, characteristic: u8) -> Limit {
        Limit {
            class,
            characteristic,
            value: 1000,
        }
    }

    fn mark(position: i32, number: u8) -> Mark {
        Mark {
            road: 7,
            position,
            number,
        }
    }

    #[test]
    fn under_numbers(rt: HostRuntime) {
        let mut places = [reading(0); 3];
        let mut table = Table::new(&mut places, 3);
        let entries = [reading(2), reading(3), reading(5), reading(900)];
        fill(&rt, &mut table, entries);
        refill(&rt, &mut table, entries);
    }

    #[test]
    fn under_pairs(rt: HostRuntime) {
        let mut places = [limit(9, 9); 3];
        let mut table = Table::new(&mut places, 3);
        let entries = [limit(1, 20), limit(2, 1), limit(2, 3), limit(3, 2)];
        fill(&rt, &mut table, entries);
        refill(&rt, &mut table, entries);
    }

    #[test]
    fn under_triples(rt: HostRuntime) {
        let mut places = [mark(0, 0); 3];
        let mut table = Table::new(&mut places, 3);
        let entries = [mark(-5, 9), mark(-4, 1), mark(0, 0), mark(0, 1)];
        fill(&rt, &mut table, entries);
        refill(&rt, &mut table, entries);
    }

    // What the caller's list holds once the table is gone: the standing entries, then what was removed.
    #[test]
    fn list_afterwards(rt: HostRuntime) {
        let mut places = [reading(0), reading(1), reading(2)];
        let mut table = Table::new(&mut places, 3);
        assert_eq!(rt; table.insert(reading(8)), Ok(0));
        assert_eq!(rt; table.insert(reading(6)), Ok(0));
        assert_eq!(rt; table.remove(6), Some(reading(6)));
        assert_eq!(rt; table.lookup(6), None);
        assert_eq!(rt; table.lookup(8), Some(reading(8)));
        assert_eq!(rt; places, [reading(8), reading(6), reading(2)]);
        assert_eq!(rt; enter_first(&mut places, reading(5)), Ok(0));
        assert_eq!(rt; places, [reading(5), reading(6), reading(2)]);
    }

    // With no place every entry is refused, and the list stays as it was.
    #[test]
    fn without_place(rt: HostRuntime) {
        let mut places = [reading(0), reading(1)];
        let mut table = Table::new(&mut places, 0);
        assert_eq!(rt; table.insert(reading(8)), Err(Refused::Full));
        assert_eq!(rt; table.capacity(), 0);
        assert_eq!(rt; places, [reading(0), reading(1)]);
    }
}
