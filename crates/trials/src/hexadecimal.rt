// Bytes from hexadecimal digits, as cases are written.
ghost use Rattle.std.specs.Prelude.{◌≡◌, IfOk};
ghost use Rattle.trials.specs.Hexadecimal.{digit_value, spelled_bytes};

use std::alloc::{AllocError, Global};

// The value of a digit. The kit's `hex` refuses a byte that is no digit and takes capitals too.
fn value(digit: u8) -> u8
    ensures { result ≡ digit_value digit }
{
    match digit {
        b'0'..=b'9' => digit - b'0',
        b'a'..=b'f' => digit - b'a' + 10,
        _ => 0,
    }
}

// The bytes that digits spell, two for each; a digit left over spells none.
pub fn decoded(heap: Global, digits: &[u8]) -> Result<Vec<u8>, AllocError>
    ensures { IfOk result (λ bytes. bytes.items ≡ spelled_bytes digits.now) }
{
    let mut bytes = Vec::new(heap);
    let mut left = digits;
    while let [high, low, rest @ ..] = left {
        bytes.push(value(*high) * 16 + value(*low))?;
        left = rest;
    }
    Ok(bytes)
}
