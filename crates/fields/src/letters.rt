// Letters.
ghost use Rattle.std.specs.Prelude.{MatchOption};
ghost use Rattle.faults.specs.declared.Refusal.TheVariants.{UnknownLetter};
ghost use Rattle.text.specs.Content.{content_of};
ghost use Rattle.fields.specs.Answers.{said, Told};
ghost use Rattle.fields.specs.Values.{IsLetter, SaysLetter};

use faults::{Fault, Refusal};
use text::{Field, Placed};

// The one letter that a field says.
fn said_letter(content: Field<'_>) -> Option<char>
    ensures { MatchOption result (IsLetter (content_of content.entry) → ⊥) (SaysLetter (content_of content.entry)) }
{
    match content {
        Field::Quoted([b'"', b'"']) => Some('"'),
        Field::Bare([byte]) | Field::Quoted([byte]) => Some(char::from(*byte)),
        _ => None,
    }
}

// The one letter that the field says.
pub fn letter(field: Placed<'_>) -> Result<char, Fault>
    ensures { Told field.entry result (IsLetter (said field.entry)) (SaysLetter (said field.entry)) UnknownLetter }
{
    said_letter(field.content).ok_or(field.fault(Refusal::UnknownLetter))
}
