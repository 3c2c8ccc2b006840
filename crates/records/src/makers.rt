// The records by their words: a requirement or an item.
ghost use Rattle.std.specs.Prelude.{◌≡◌, length, true, false, Decides, IfOk};
ghost use Rattle.fields.specs.Values.{number_of};
ghost use Rattle.kinds.specs.Kinds.{known_kind, letter_of, spread_of};
ghost use Rattle.records.specs.Columns.{spread_in};
ghost use Rattle.records.specs.Cells.{cell, cells, contents, outcome, column_answer};
ghost use Rattle.records.specs.Entries.{is_record, requirement_fault, requirement_of, item_fault, item_of, item_meant, entry_meant, answer_meant, answer_of};

use crate::columns::{kind_letter, mode_number, ranged, rule_letter, said_number, tolerance_limit};
use crate::{Entry, ItemRow};
use bias::GREATEST_BIAS;
use faults::{Fault, Refusal};
use fields::says;
use kinds::Kind;
use requirement::{LAST_CHARACTERISTIC, LAST_CLASS, REACH, RequirementRow};
use text::Placed;

// The numbers of items run from 1 to this one. The lot, which this crate does not see, tests the same bound.
const LAST_NUMBER: i64 = 999_999_999;

// The requirement that the fields make.
fn requirement(fields: &[Placed<'_>; 9]) -> Result<RequirementRow, Fault>
    ensures { result ≡ outcome (requirement_fault (cells fields.now)) (requirement_of (contents (cells fields.now))) }
{
    let [
        _,
        class,
        characteristic,
        lower,
        upper,
        letter,
        first,
        second,
        mode,
    ] = *fields;
    Ok(RequirementRow {
        class: ranged(class, 1, LAST_CLASS)?,
        characteristic: ranged(characteristic, 1, LAST_CHARACTERISTIC)?,
        lower: tolerance_limit(lower)?,
        upper: tolerance_limit(upper)?,
        letter: rule_letter(letter)?,
        first: ranged(first, -REACH, REACH)?,
        second: ranged(second, -REACH, REACH)?,
        mode: mode_number(mode)?,
    })
}

// The kind that a known letter and the field of its spread make.
fn known_kind(letter: char, spread: Placed<'_>) -> Result<Kind, Fault>
    requires { known_kind letter ≡ true }
    ensures spread { answer_meant spread_of result ≡ column_answer (cell spread.entry) (spread_in letter) number_of }
    ensures letter { IfOk result (λ k. letter_of k ≡ letter) }
{
    let value = said_number(spread)?;
    // A known letter can only be refused for its spread. Not `map_err`: its contract is two cases about a closure, that of `or` one equation.
    Kind::new(letter, value).or(Err(spread.fault(Refusal::OutOfRange)))
}

// The item that the fields make.
fn item(fields: &[Placed<'_>; 8]) -> Result<ItemRow, Fault>
    ensures { answer_meant item_meant result ≡ outcome (item_fault (cells fields.now)) (item_of (contents (cells fields.now))) }
{
    let [
        _,
        number,
        class,
        characteristic,
        reading,
        letter,
        spread,
        bias,
    ] = *fields;
    Ok(ItemRow {
        number: ranged(number, 1, LAST_NUMBER)?,
        class: ranged(class, 1, LAST_CLASS)?,
        characteristic: ranged(characteristic, 1, LAST_CHARACTERISTIC)?,
        reading: ranged(reading, -REACH, REACH)?,
        kind: known_kind(kind_letter(letter)?, spread)?,
        bias: ranged(bias, -GREATEST_BIAS, GREATEST_BIAS)?,
    })
}

// Whether a record has so many fields, and no more.
fn has_count(fields: &[Placed<'_>], count: usize) -> bool
    ensures { Decides result (length fields.now ≡ count) }
{
    fields.len() == count
}

// The record of these fields, as record `number` of the text.
pub fn entry(number: u32, fields: &[Placed<'_>]) -> Result<Entry, Fault>
    ensures { answer_meant entry_meant result ≡ answer_of number (cells fields.now) }
{
    if has_count(fields, 9)
        && let Some(fields) = fields.first_chunk::<9>()
        && says(fields[0], b"REQ")
    {
        return Ok(Entry::Requirement(requirement(fields)?));
    }
    if has_count(fields, 8)
        && let Some(fields) = fields.first_chunk::<8>()
        && says(fields[0], b"ITEM")
    {
        return Ok(Entry::Item(item(fields)?));
    }
    Err(Fault {
        refusal: Refusal::MalformedRecord,
        record: number,
        field: 0,
    })
}
