// The search for a key among entries in order.
ghost use Rattle.std.specs.Prelude.{◌≡◌};
ghost use Rattle.table.specs.Keys.{Ascending};
ghost use Rattle.table.specs.Places.{Found};

use crate::Entry;
use std::cmp::Ordering;

// Where the key stands, or else where it belongs, by bisection. It ends at the key, with fourteen comparisons at most among 10,000 entries,
// where the library's search goes on to a single entry and compares once more.
pub(crate) fn bisect<E: Entry>(entries: &[E], key: E::Key) -> Result<usize, usize>
    requires { Ascending E.Entry.key E.Key.Ord.cmp entries.now }
    ensures { Found E.Entry.key E.Key.Ord.cmp entries.now key result }
{
    let mut low = 0;
    let mut high = entries.len();
    while low < high {
        let middle = low + (high - low) / 2;
        match entries[middle].key().cmp(&key) {
            Ordering::Less => low = middle + 1,
            Ordering::Equal => return Ok(middle),
            Ordering::Greater => high = middle,
        }
    }
    Err(low)
}
