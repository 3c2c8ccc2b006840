// What the calls of a lot refuse for their arguments alone, and the item that is stored.
ghost use Rattle.std.specs.Prelude.{◌≡◌, true};
ghost use Rattle.faults.specs.Faults.{AnswersBy};
ghost use Rattle.lot.specs.Book.{is_number, is_named, in_range, fields_refusal, number_refusal};
ghost use Rattle.lot.specs.Notes.{item_of};

use acceptance::is_expanded;
use faults::{Fault, Refusal};
use judging::Judgement;
use lot::{Item, ItemFields};
use requirement::{in_reach, is_characteristic, is_class};

// The numbers of items run from 1 to this one.
const LAST_NUMBER: i64 = 999_999_999;

// Whether a number can be that of an item.
pub(crate) fn is_number(value: i64) -> bool
    ensures { result ≡ is_number value }
{
    (1..=LAST_NUMBER).contains(&value)
}

// Whether number, class and characteristic are in range.
fn is_named(fields: &ItemFields) -> bool
    ensures { result ≡ is_named fields.now }
{
    is_number(fields.number) && is_class(fields.class) && is_characteristic(fields.characteristic)
}

// Whether every field is in range.
fn in_range(fields: &ItemFields) -> bool
    ensures { result ≡ in_range fields.now }
{
    is_named(fields) && is_expanded(fields.expanded) && in_reach(fields.reading)
}

// Refuses fields of which one is out of range.
pub(crate) fn check_fields(fields: &ItemFields) -> Result<(), Fault>
    ensures { AnswersBy (fields_refusal fields.now) result (λ _. Unit {0}) }
{
    Refusal::OutOfRange.unless(in_range(fields))
}

// Refuses a number that can be no item's.
pub(crate) fn check_number(number: i64) -> Result<(), Fault>
    ensures { AnswersBy (number_refusal number) result (λ _. Unit {0}) }
{
    Refusal::OutOfRange.unless(is_number(number))
}

// The item with these fields, which are in range, and this judgement.
pub(crate) fn item_of(fields: &ItemFields, judgement: Judgement) -> Item
    requires { in_range fields.now ≡ true }
    ensures { result ≡ item_of fields.now judgement }
{
    Item {
        number: fields.number as u32,
        class: fields.class as u8,
        characteristic: fields.characteristic as u8,
        reading: fields.reading,
        judgement,
    }
}
