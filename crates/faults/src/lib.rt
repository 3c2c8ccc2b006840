// Why a call was refused, and where in the record text the cause stands: one fault type for the whole engine.
#![tactic(auto)]

ghost use Rattle.std.specs.Prelude.{◌≡◌, Some};
ghost use Rattle.faults.specs.Numbers.{number, layer};
ghost use Rattle.faults.specs.Faults.{AnswersBy, check, direct};
ghost use Rattle.faults.specs.Shown.{fault_text};

use std::error::Error;
use std::fmt;

// A cause of refusal. `number` gives each its published number.
#[derive(Clone, Copy, PartialEq, Eq, Debug)]
pub enum Refusal {
    TextTooLong,
    BrokenQuotes,
    StrayByte,
    MalformedRecord,
    NotANumber,
    OutOfRange,
    UnknownLetter,
    NoLimit,
    LimitsNotAscending,
    AgainstRule,
    DuplicateRequirement,
    SheetFull,
    NoRequirement,
    NoOffset,
    NothingAcceptable,
    DuplicateItem,
    LotFull,
    NoItem,
    NoPlace,
}

impl Refusal {
    // The published number of the cause. A method of its own, since a conversion to a number would not say which of the two it gives.
    pub fn number(self) -> u8
        ensures { result ≡ number self }
    {
        match self {
            Refusal::TextTooLong => 1,
            Refusal::BrokenQuotes => 2,
            Refusal::StrayByte => 3,
            Refusal::MalformedRecord => 10,
            Refusal::NotANumber => 11,
            Refusal::OutOfRange => 12,
            Refusal::UnknownLetter => 13,
            Refusal::NoLimit => 20,
            Refusal::LimitsNotAscending => 21,
            Refusal::AgainstRule => 22,
            Refusal::DuplicateRequirement => 23,
            Refusal::SheetFull => 24,
            Refusal::NoRequirement => 30,
            Refusal::NoOffset => 31,
            Refusal::NothingAcceptable => 32,
            Refusal::DuplicateItem => 40,
            Refusal::LotFull => 41,
            Refusal::NoItem => 42,
            Refusal::NoPlace => 43,
        }
    }

    // The layer that finds the cause: text 1, field 2, sheet 3, judging 4, lot 5.
    pub fn layer(self) -> u8
        ensures { result ≡ layer self }
    {
        self.number() / 10 + 1
    }

    // Refuses directly unless the condition holds.
    pub fn unless(self, holds: bool) -> Result<(), Fault>
        ensures { AnswersBy (check holds self None) result (λ _. Unit {0}) }
    {
        if holds {
            Ok(())
        } else {
            Err(Fault::direct(self))
        }
    }
}

// A refusal with the record and the field that it concerns, both 0 where a call has no record text: 0 and no Option, as it is what the output writes.
#[derive(Clone, Copy, PartialEq, Eq, Debug)]
pub struct Fault {
    pub refusal: Refusal,
    pub record: u32,
    pub field: u32,
}

impl Fault {
    // The fault of a call that was made directly, without record text.
    pub fn direct(refusal: Refusal) -> Self
        ensures { result ≡ direct refusal }
    {
        Fault {
            refusal,
            record: 0,
            field: 0,
        }
    }
}

impl fmt::Display for Fault {
    ghost output = { λ fault. Some (fault_text fault) };

    fn fmt<W: fmt::Write>(&self, f: &mut fmt::Formatter<W>) -> fmt::Result {
        let Fault {
            refusal,
            record,
            field,
        } = *self;
        let number = refusal.number();
        write!(f, "refusal {number}, record {record}, field {field}")
    }
}

impl Error for Fault {}
