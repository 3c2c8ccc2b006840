// One ordered table over the caller's list, for every kind of entry. An entry names its own key.
#![tactic(auto)]

ghost use Rattle.std.specs.Prelude.{◌≡◌, ◌≤◌, length};
ghost use Rattle.table.specs.Keys.{Exact, Ordered, Ordered-prop};

mod methods;
mod search;

// What a table holds: plain values, each with a key that it names itself.
pub trait Entry: Copy {
    type Key: Ord + Copy;

    // The key of each entry.
    ghost key: { Self → Self.Key };

    // The entry's own key.
    fn key(&self) -> Self::Key
        ensures { result ≡ key self.now };

    // The order of keys is total, as every order is; beyond that each kind of entry shows that only a key itself compares as equal.
    ghost exact: { Exact Self.Key.Ord.cmp };
}

// Why an entry is not inserted.
#[derive(Clone, Copy, PartialEq, Eq, Debug)]
pub enum Refused {
    Present,
    Full,
}

// Entries in the order of their keys, no two with one key, in the first places of the caller's list. Nothing is allocated, so their count stands beside it.
#[derive(Drop)]
pub struct Table<'a, E: Entry> {
    places: &'a mut [E],
    limit: usize,
    count: usize,
    ghost counted: { count ≤ length places.now },
    ghost ordered: { Ordered E.key E.Key.Ord.cmp limit count places.now } by { Ordered-prop E.key E.Key.Ord.cmp limit count places.now },
}
