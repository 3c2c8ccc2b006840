// A class that is in range.
ghost use Rattle.std.specs.Prelude.{◌≡◌, ◌-◌, ◌≤◌, true, unsigned_abs};
ghost use Rattle.faults.specs.Faults.{AnswersBy};
ghost use Rattle.lot.specs.Book.{tally_refusal};
ghost use Rattle.lot.specs.Rows.{of_a_class};

use faults::{Fault, Refusal};
use lot::Item;
use requirement::is_class;

// A class from 1 to 9, which has a row.
#[derive(Clone, Copy)]
pub(crate) struct Class {
    number: u8,
    ghost first: { 1 ≤ number },
    ghost last: { number ≤ 9 },
}

impl Class {
    // The class of a number, unless it is out of range.
    pub(crate) fn new(number: i64) -> Result<Self, Fault>
        ensures { AnswersBy (tally_refusal number) result (λ class. class.number ≡ unsigned_abs number) }
    {
        Refusal::OutOfRange.unless(is_class(number))?;
        Ok(Class {
            number: number as u8,
        })
    }

    // The class of an item that is of one.
    pub(crate) fn of(item: &Item) -> Self
        requires { of_a_class item.now ≡ true }
        ensures { result.number ≡ item.now.class }
    {
        Class { number: item.class }
    }

    // The place of its row among the nine.
    pub(crate) fn place(self) -> usize
        ensures { result ≡ self.number - 1 }
    {
        usize::from(self.number) - 1
    }
}
