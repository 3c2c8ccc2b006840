// Records as text.
use kinds::Kind;
use knowledge::Knowledge;
use records::{Entry, ItemRow, entry};
use requirement::RequirementRow;
use std::fmt;
use text::{Placed, Reader};
use trials::{Answer, Limit, Numbers};

// How many places the list of fields has: one more than any record needs.
const PLACES: usize = 10;

// The record of a requirement.
#[derive(Clone, Copy)]
struct ShownRequirement(RequirementRow);

impl fmt::Display for ShownRequirement {
    fn fmt<W: fmt::Write>(&self, f: &mut fmt::Formatter<W>) -> fmt::Result {
        let RequirementRow {
            class,
            characteristic,
            lower,
            upper,
            letter,
            first,
            second,
            mode,
        } = self.0;
        let (lower, upper) = (Limit(lower), Limit(upper));
        write!(
            f,
            "(R {class} {characteristic} {lower} {upper} {letter} {first} {second} {mode})"
        )
    }
}

// A kind: its letter, and where it is rectangular, what it answers one step above the reading, which tells its spread.
#[derive(Clone, Copy)]
struct ShownKind(Kind);

impl fmt::Display for ShownKind {
    fn fmt<W: fmt::Write>(&self, f: &mut fmt::Formatter<W>) -> fmt::Result {
        match self.0 {
            Kind::Normal(_) => f.write_str("N"),
            Kind::Rectangular(_) => {
                let (floor, ceiling) = self.0.at_most(1);
                write!(f, "R:{floor}:{ceiling}")
            }
        }
    }
}

// The record of an item.
#[derive(Clone, Copy)]
struct ShownItem(ItemRow);

impl fmt::Display for ShownItem {
    fn fmt<W: fmt::Write>(&self, f: &mut fmt::Formatter<W>) -> fmt::Result {
        let ItemRow {
            number,
            class,
            characteristic,
            reading,
            kind,
            bias,
        } = self.0;
        let kind = ShownKind(kind);
        write!(
            f,
            "(I {number} {class} {characteristic} {reading} {kind} {bias})"
        )
    }
}

// A typed record.
#[derive(Clone, Copy)]
struct Typed(Entry);

impl fmt::Display for Typed {
    fn fmt<W: fmt::Write>(&self, f: &mut fmt::Formatter<W>) -> fmt::Result {
        match self.0 {
            Entry::Requirement(row) => write!(f, "{}", ShownRequirement(row)),
            Entry::Item(row) => write!(f, "{}", ShownItem(row)),
        }
    }
}

// The records of a text, up to its end or the text's fault. The loop stands in text_tests too: a shared one would take what is done with each
// record as a closure, and so require of its callers that this may be called, which no public function here does.
#[derive(Clone, Copy)]
pub struct Records<'a>(pub &'a [u8]);

impl fmt::Display for Records<'_> {
    fn fmt<W: fmt::Write>(&self, f: &mut fmt::Formatter<W>) -> fmt::Result {
        let mut reader = Reader::new(self.0);
        loop {
            let mut list = [Placed::NONE; PLACES];
            match reader.next_record(&mut list) {
                Ok(Some(read)) => {
                    let held = list.get(..read.count as usize).unwrap_or(&list);
                    let typed = entry(read.number, held).map(Typed);
                    write!(f, "{}", Answer(typed))?;
                }
                Ok(None) => return Ok(()),
                Err(fault) => return write!(f, "{}", Numbers(fault)),
            }
        }
    }
}
