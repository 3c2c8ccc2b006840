// Whole numbers in decimal. By place values and no `write!`: each divisor is known when this is compiled, and the error says that memory is wanting.
#![tactic(auto)]

ghost use Rattle.std.specs.Prelude.{◌≡◌, ◌+◌, ◌-◌, ◌/◌, ◌%◌, ◌^◌, ◌<◌, ◌≤◌, true, ◌++◌, replicate, is_ok, if◌then◌else◌, vec_len, vec_capacity, decimal};
ghost use Rattle.numerals.specs.Digits.{lowest_digits, Skips, Shortest};

use std::alloc::AllocError;

// How many digits are written at once.
const DIGITS: usize = 11;

// The place values of the digits, highest first.
const PLACES: [u64; DIGITS] = [
    10_000_000_000,
    1_000_000_000,
    100_000_000,
    10_000_000,
    1_000_000,
    100_000,
    10_000,
    1_000,
    100,
    10,
    1,
];

// The least number with more digits than these.
const BEYOND: u64 = 100_000_000_000;

// The value of one of the places.
fn place_value(place: usize) -> u64
    requires { place < DIGITS }
    ensures { result ≡ 10 ^ (10 - place) }
{
    PLACES[place]
}

// The digit at a place value of what the places above it leave of a number.
fn digit(rest: u64, value: u64) -> u8
    requires some { 0 < value }
    requires one { rest / value < 10 }
    ensures { result ≡ 48 + rest / value }
{
    b'0' + (rest / value) as u8
}

// Writes the eleven digits over zeros, so that only the digits that are not 0 are computed. The places are gone through from the highest on,
// small number or not: so each divisor is known when this is compiled.
// The bound stands in three contracts: a type for it would be made in two places, each with the same proof.
fn write_digits(digits: &mut [u8; DIGITS], number: u64)
    requires zeros { digits.old ≡ replicate DIGITS 48 }
    requires few { number < BEYOND }
    ensures { digits.new ≡ lowest_digits DIGITS number }
{
    let mut rest = number;
    // By index: `digits.iter_mut().zip(&PLACES)` costs the same, and leaves an invariant open that would speak of digits still lent to the loop.
    for place in 0..DIGITS {
        let value = place_value(place);
        if value <= rest {
            digits[place] = digit(rest, value);
            rest %= value;
        }
    }
}

// How many of the eleven digits are leading zeros; the last digit is none. Most numbers are small, so the last places come first.
fn leading_zeros(number: u64) -> usize
    requires { number < BEYOND }
    ensures { Skips number result }
{
    let before_last = &PLACES[..DIGITS - 1];
    match before_last.iter().rposition(|value| number < *value) {
        Some(place) => place + 1,
        None => 0,
    }
}

// Appends a number of at most eleven digits. What a push leaves of the output is a fact of before and after, so each of the three says it.
fn push_short(out: &mut Vec<u8>, number: u64) -> Result<(), AllocError>
    requires { number < BEYOND }
    ensures items { out.new.items ≡ (if is_ok result then out.old.items ++ decimal number else out.old.items) }
    ensures len { vec_len out.new ≤ vec_len out.old + DIGITS }
    ensures capacity { vec_capacity out.old ≤ vec_capacity out.new }
    ensures succeeds { vec_len out.old + DIGITS ≤ vec_capacity out.old → is_ok result ≡ true }
{
    let mut digits = [b'0'; DIGITS];
    write_digits(&mut digits, number);
    out.extend_from_slice(&digits[leading_zeros(number)..])
}

// Appends a number of more than eleven digits. Room is made first, so that without memory nothing is written.
fn push_long(out: &mut Vec<u8>, number: u64) -> Result<(), AllocError>
    requires { BEYOND ≤ number }
    ensures { out.new.items ≡ (if is_ok result then out.old.items ++ decimal number else out.old.items) }
{
    out.reserve(2 * DIGITS)?;
    push_short(out, number / BEYOND)?;
    let mut digits = [b'0'; DIGITS];
    write_digits(&mut digits, number % BEYOND);
    out.extend_from_slice(&digits)
}

// Appends the shortest decimal form of a number. Without memory nothing is written.
pub fn push_decimal(out: &mut Vec<u8>, number: u64) -> Result<(), AllocError>
    ensures items { out.new.items ≡ (if is_ok result then out.old.items ++ decimal number else out.old.items) }
    ensures shortest { Shortest number (decimal number) }
{
    if number < BEYOND {
        push_short(out, number)
    } else {
        push_long(out, number)
    }
}

#[cfg(test)]
mod tests {
    use super::*;
    use std::process::Abort;
    use std::test::Fail;

    // The form that is due of a number stands after what was there.
    fn check_form(rt: &(impl Abort + AllocGlobal), number: u64, due: &[u8]) -> Result<(), Fail> {
        let mut out = Vec::new(rt.alloc());
        out.push(b'=')?;
        push_decimal(&mut out, number)?;
        assert!(rt; out.as_slice().starts_with(b"=") && out.as_slice().ends_with(due));
        assert_eq!(rt; out.len(), due.len().saturating_add(1));
        Ok(())
    }

    #[test]
    fn up_to_eleven_digits(rt: HostRuntime) -> Result<(), Fail> {
        check_form(&rt, 0, b"0")?;
        check_form(&rt, 9, b"9")?;
        check_form(&rt, 10, b"10")?;
        check_form(&rt, 1_020_300, b"1020300")?;
        check_form(&rt, 10_000_000_000, b"10000000000")?;
        check_form(&rt, 99_999_999_999, b"99999999999")
    }

    #[test]
    fn more_than_eleven_digits(rt: HostRuntime) -> Result<(), Fail> {
        check_form(&rt, 100_000_000_000, b"100000000000")?;
        check_form(&rt, 7_000_000_000_000_005, b"7000000000000005")?;
        check_form(&rt, u64::MAX, b"18446744073709551615")
    }
}
