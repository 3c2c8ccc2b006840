// The columns of the records: a field to its value, or the fault of the field.
ghost use Rattle.std.specs.Prelude.{◌≡◌, cond, Ok, Err};
ghost use Rattle.faults.specs.Ranges.{from_to};
ghost use Rattle.fields.specs.Values.{number_of};
ghost use Rattle.text.specs.Faults.{fault_at};
ghost use Rattle.records.specs.Tests.{limit_of, letter_of};
ghost use Rattle.records.specs.Columns.{a_number, number_in, a_limit, tolerance_limit_in, a_letter, rule_in, kind_in, mode_in};
ghost use Rattle.records.specs.Cells.{cell, column_answer};

use faults::{Fault, Refusal};
use fields::{letter, limit};
use kinds::names_kind;
use requirement::{Mode, limit_in_reach, names_rule};
use text::Placed;

// The three `said_` functions: each restates the contract of a function of `fields` by its column, which the readers below are proved from.

// The number that a field says.
pub(crate) fn said_number(field: Placed<'_>) -> Result<i64, Fault>
    ensures { result ≡ column_answer (cell field.entry) a_number number_of }
{
    fields::number(field)
}

// The limit that a field says.
fn said_limit(field: Placed<'_>) -> Result<Option<i64>, Fault>
    ensures { result ≡ column_answer (cell field.entry) a_limit limit_of }
{
    limit(field)
}

// The letter that a field says.
fn said_letter(field: Placed<'_>) -> Result<char, Fault>
    ensures { result ≡ column_answer (cell field.entry) a_letter letter_of }
{
    letter(field)
}

// The value that a field says, where the column admits it; else the field is refused.
fn admitted<T: Copy>(
    field: Placed<'_>,
    value: T,
    admits: bool,
    refusal: Refusal,
) -> Result<T, Fault>
    ensures { result ≡ cond admits (Ok value) (Err (fault_at field.entry refusal)) }
{
    if admits {
        Ok(value)
    } else {
        Err(field.fault(refusal))
    }
}

// Whether a value lies from `low` to `high`.
fn lies_within(value: i64, low: i64, high: i64) -> bool
    ensures { result ≡ from_to low high value }
{
    (low..=high).contains(&value)
}

// A number from `low` to `high`.
pub(crate) fn ranged(field: Placed<'_>, low: i64, high: i64) -> Result<i64, Fault>
    ensures { result ≡ column_answer (cell field.entry) (number_in low high) number_of }
{
    let value = said_number(field)?;
    admitted(
        field,
        value,
        lies_within(value, low, high),
        Refusal::OutOfRange,
    )
}

// A tolerance limit, which may be absent.
pub(crate) fn tolerance_limit(field: Placed<'_>) -> Result<Option<i64>, Fault>
    ensures { result ≡ column_answer (cell field.entry) tolerance_limit_in limit_of }
{
    let found = said_limit(field)?;
    admitted(field, found, limit_in_reach(found), Refusal::OutOfRange)
}

// The letter of a rule.
pub(crate) fn rule_letter(field: Placed<'_>) -> Result<char, Fault>
    ensures { result ≡ column_answer (cell field.entry) rule_in letter_of }
{
    let found = said_letter(field)?;
    admitted(field, found, names_rule(found), Refusal::UnknownLetter)
}

// The letter of a kind.
pub(crate) fn kind_letter(field: Placed<'_>) -> Result<char, Fault>
    ensures { result ≡ column_answer (cell field.entry) kind_in letter_of }
{
    let found = said_letter(field)?;
    admitted(field, found, names_kind(found), Refusal::UnknownLetter)
}

// The number of a mode. The row keeps the number, as `Requirement::new` takes a row of any values.
pub(crate) fn mode_number(field: Placed<'_>) -> Result<i64, Fault>
    ensures { result ≡ column_answer (cell field.entry) mode_in number_of }
{
    let value = said_number(field)?;
    admitted(
        field,
        value,
        Mode::try_from(value).is_ok(),
        Refusal::OutOfRange,
    )
}
