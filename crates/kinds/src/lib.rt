// The kinds of states of knowledge by their letters, as records name them.
#![tactic(auto)]

ghost use Rattle.std.specs.Prelude.{◌≡◌};
ghost use Rattle.faults.specs.Faults.{AnswersBy};
ghost use Rattle.kinds.specs.Kinds.{answered, kind_refusal, known_kind, HasGiven};
ghost use Rattle.normal.specs.Rules.{normal_rules};
ghost use Rattle.rectangular.specs.Rules.{rectangular_rules};
ghost use Rattle.kinds.specs.declared.Kind.TheVariants.{Normal as N, Rectangular as R};

use faults::{Fault, Refusal};
use knowledge::Knowledge;
use normal::Normal;
use rectangular::Rectangular;

// A state of knowledge of either kind.
#[derive(Clone, Copy)]
pub enum Kind {
    Normal(Normal),
    Rectangular(Rectangular),
}

// Whether a letter names a kind.
pub fn names_kind(letter: char) -> bool
    ensures { result ≡ known_kind letter }
{
    matches!(letter, 'N' | 'R')
}

impl Kind {
    // The kind of this letter with this spread: a standard uncertainty under N, a half-width under R.
    pub fn new(letter: char, spread: i64) -> Result<Self, Fault>
        ensures { AnswersBy (kind_refusal letter spread) result (HasGiven letter spread) }
    {
        match letter {
            'N' => Ok(Kind::Normal(Normal::new(spread)?)),
            'R' => Ok(Kind::Rectangular(Rectangular::new(spread)?)),
            _ => Err(Fault::direct(Refusal::UnknownLetter)),
        }
    }
}

// An enum and no `Box<dyn Knowledge>`, which would allocate and hide that there are two kinds.
impl Knowledge for Kind {
    ghost answers = { answered };

    ghost rules = { elim [
      | N k ↦ normal_rules k.standard_uncertainty k.some k.bounded
      | R k ↦ rectangular_rules k.half_width k.some k.bounded
    ] };

    fn at_most(&self, offset: i64) -> (u32, u32) {
        match self {
            Kind::Normal(kind) => kind.at_most(offset),
            Kind::Rectangular(kind) => kind.at_most(offset),
        }
    }

    fn width(&self) -> u32 {
        match self {
            Kind::Normal(kind) => kind.width(),
            Kind::Rectangular(kind) => kind.width(),
        }
    }
}
