// The key under which a table keeps a requirement.
ghost use Rattle.requirement.specs.Keys.{key_of};
ghost use Rattle.table.proofs.Orders.{exact_unsigned, exact_pairs};

use crate::Requirement;
use table::Entry;

impl Entry for Requirement {
    type Key = (u8, u8);

    ghost key = { key_of };

    ghost exact = { exact_pairs exact_unsigned exact_unsigned };

    fn key(&self) -> (u8, u8) {
        (self.class(), self.characteristic())
    }
}
