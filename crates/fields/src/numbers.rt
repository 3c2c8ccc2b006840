// Numbers, and limits, which may be absent.
ghost use Rattle.std.specs.Prelude.{◌≡◌, [], Decides};
ghost use Rattle.std.specs.Option.{SomeIff};
ghost use Rattle.faults.specs.declared.Refusal.TheVariants.{NotANumber};
ghost use Rattle.text.specs.Content.{content_of};
ghost use Rattle.fields.specs.Answers.{said, Told};
ghost use Rattle.fields.specs.Values.{Numeral, worth, IsNumber, number_of, IsLimit, SaysLimit};

use faults::{Fault, Refusal};
use text::{Field, Placed};

// The most digits of a number.
const MOST_DIGITS: usize = 10;

// The value of 1 to 10 digits. The library's parse takes a plus sign and any number of digits too.
fn unsigned(digits: &[u8]) -> Option<u64>
    ensures { SomeIff result (Numeral digits.now) (worth digits.now) }
{
    if !(1..=MOST_DIGITS).contains(&digits.len()) {
        return None;
    }
    let mut value = 0;
    for digit in digits {
        if !digit.is_ascii_digit() {
            return None;
        }
        value = 10 * value + u64::from(*digit - b'0');
    }
    Some(value)
}

// The number that bytes say: digits after an optional minus.
fn parsed(bytes: &[u8]) -> Option<i64>
    ensures { SomeIff result (IsNumber bytes.now) (number_of bytes.now) }
{
    match bytes {
        [b'-', digits @ ..] => unsigned(digits).map(|value| -(value as i64)),
        digits => unsigned(digits).map(|value| value as i64),
    }
}

// The number that a field says. One that holds a quote says none, whether the quote is doubled or not.
fn said_number(content: Field<'_>) -> Option<i64>
    ensures { SomeIff result (IsNumber (content_of content.entry)) (number_of (content_of content.entry)) }
{
    parsed(content.bytes())
}

// Whether a field says nothing.
fn is_silent(content: Field<'_>) -> bool
    ensures { Decides result (content_of content.entry ≡ []) }
{
    content.bytes().is_empty()
}

// The number that the field says: an optional minus and 1 to 10 digits.
pub fn number(field: Placed<'_>) -> Result<i64, Fault>
    ensures { Told field.entry result (IsNumber (said field.entry)) (λ v. v ≡ number_of (said field.entry)) NotANumber }
{
    said_number(field.content).ok_or(field.fault(Refusal::NotANumber))
}

// The limit that the field says: a number, or none where the field is empty.
pub fn limit(field: Placed<'_>) -> Result<Option<i64>, Fault>
    ensures { Told field.entry result (IsLimit (said field.entry)) (SaysLimit (said field.entry)) NotANumber }
{
    if is_silent(field.content) {
        Ok(None)
    } else {
        number(field).map(Some)
    }
}
