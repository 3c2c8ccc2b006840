// The key under which a lot keeps an item.
ghost use Rattle.table.proofs.Orders.{exact_unsigned};

use crate::Item;
use table::Entry;

impl Entry for Item {
    type Key = u32;

    ghost key = { λ e. e.number };

    ghost exact = { exact_unsigned };

    fn key(&self) -> u32 {
        self.number
    }
}
