// What the programs and tests share that try the engine: how they write limits and faults, the number of a refusal, bytes in hexadecimal, and long texts.
#![tactic(auto)]

ghost use Rattle.std.specs.Prelude.{◌≡◌, IfOk};
ghost use Rattle.trials.specs.Texts.{with_commas};
ghost use Rattle.trials.specs.Refused.{number_of};

mod hexadecimal;
mod shown;

use faults::Fault;
pub use hexadecimal::decoded;
pub use shown::{Answer, Limit, Numbers};
use std::alloc::{AllocError, Global};

// The number of a refusal, if the call was refused.
pub fn refused<T: Drop>(answer: Result<T, Fault>) -> Option<u8>
    ensures { result ≡ number_of answer }
{
    answer.err().map(|fault| fault.refusal.number())
}

// The text of a case: three bytes are a number, the others begin the text, and so many commas end it, which keeps cases of long texts short.
pub fn with_commas(heap: Global, case: &[u8]) -> Result<Vec<u8>, AllocError>
    ensures { IfOk result (λ text. text.items ≡ with_commas case.now) }
{
    let [high, middle, low, start @ ..] = case else {
        return Ok(Vec::new(heap));
    };
    let commas = u32::from_be_bytes([0, *high, *middle, *low]) as usize;
    let mut text = start.to_vec(heap)?;
    text.resize(start.len() + commas, b',')?;
    Ok(text)
}

#[cfg(test)]
mod tests {
    use super::*;
    use std::test::Fail;

    // Two commas end a text of two bytes, and a case of fewer than three bytes is an empty text.
    #[test]
    fn commas_end_a_text(rt: HostRuntime) -> Result<(), Fail> {
        let text = with_commas(rt.alloc(), b"\x00\x00\x02ab")?;
        assert!(rt; text.as_slice() == b"ab,,".as_slice());
        let none = with_commas(rt.alloc(), b"\x00\x00")?;
        assert!(rt; none.is_empty());
        Ok(())
    }

    // A capital and any other byte count as 0, and a digit left over spells no byte.
    #[test]
    fn digits_spell_bytes(rt: HostRuntime) -> Result<(), Fail> {
        let bytes = decoded(rt.alloc(), b"00ff4azz4A7")?;
        assert!(rt; bytes.as_slice() == b"\x00\xff\x4a\x00\x40".as_slice());
        Ok(())
    }
}
