// Words.
ghost use Rattle.std.specs.Prelude.{◌≡◌, ℕ, [], ◌∷◌, drop, Decides, MatchOption, IfSome};
ghost use Rattle.text.specs.Content.{singled};
ghost use Rattle.fields.specs.Answers.{said};
ghost use Rattle.fields.specs.Spoken.{SaysOne};

use text::{Field, Placed};

// The byte that bytes between quotes say first, and what stands after it, which is the rest of these bytes. A quote that stands twice says one.
fn first_said<'a>(bytes: &'a [u8]) -> Option<(u8, &'a [u8])>
    ensures said { MatchOption result (bytes.now ≡ []) (λ s. singled bytes.now ≡ s.0 ∷ singled s.1.now) }
    ensures rest { IfSome result (λ s. (n : ℕ) × SaysOne bytes.now 0 n × (s.1.now ≡ drop n bytes.now)) }
{
    match bytes {
        [b'"', b'"', rest @ ..] => Some((b'"', rest)),
        [byte, rest @ ..] => Some((*byte, rest)),
        [] => None,
    }
}

// Whether bytes between quotes say the word.
fn quoted_says(bytes: &[u8], word: &[u8]) -> bool
    ensures { Decides result (singled bytes.now ≡ word.now) }
{
    let mut rest = bytes;
    for letter in word {
        match first_said(rest) {
            Some((said, after)) if said == *letter => rest = after,
            _ => return false,
        }
    }
    rest.is_empty()
}

// Whether the field says the word.
pub fn says(field: Placed<'_>, word: &[u8]) -> bool
    ensures { Decides result (said field.entry ≡ word.now) }
{
    match field.content {
        Field::Bare(bytes) => bytes == word,
        Field::Quoted(bytes) => quoted_says(bytes, word),
    }
}
