// Records and values as text.
use fields::{letter, limit, number, says};
use std::fmt;
use text::{Field, Placed, Reader, Record};
use trials::{Answer, Limit, Numbers};

// How many places the list of fields has: fewer than some records have fields.
const PLACES: usize = 3;

// The hexadecimal digits.
const DIGITS: [&str; 16] = [
    "0", "1", "2", "3", "4", "5", "6", "7", "8", "9", "a", "b", "c", "d", "e", "f",
];

// A field: its kind, its place and its bytes in hexadecimal.
#[derive(Clone, Copy)]
struct Shown<'a>(Placed<'a>);

impl fmt::Display for Shown<'_> {
    fn fmt<W: fmt::Write>(&self, f: &mut fmt::Formatter<W>) -> fmt::Result {
        let Placed {
            content,
            record,
            field,
        } = self.0;
        let kind = match content {
            Field::Bare(_) => 'b',
            Field::Quoted(_) => 'q',
        };
        write!(f, "{kind}{record}.{field}:")?;
        // By a table: over a text with long fields `{byte:02x}` takes three quarters more instructions.
        for byte in content.bytes() {
            f.write_str(DIGITS[usize::from(byte / 16)])?;
            f.write_str(DIGITS[usize::from(byte % 16)])?;
        }
        Ok(())
    }
}

// A record: its number, its count of fields, and all that the list holds.
#[derive(Clone, Copy)]
struct Listed<'a> {
    record: Record,
    list: [Placed<'a>; PLACES],
}

impl fmt::Display for Listed<'_> {
    fn fmt<W: fmt::Write>(&self, f: &mut fmt::Formatter<W>) -> fmt::Result {
        let Record { number, count } = self.record;
        write!(f, "({number},{count}")?;
        for placed in self.list {
            write!(f, " {}", Shown(placed))?;
        }
        f.write_char(')')
    }
}

// The records of a text, up to its end or its fault. The loop stands in records_tests too: a shared one would take what is done with each
// record as a closure, and so require of its callers that this may be called, which no public function here does.
#[derive(Clone, Copy)]
pub struct Records<'a>(pub &'a [u8]);

impl fmt::Display for Records<'_> {
    fn fmt<W: fmt::Write>(&self, f: &mut fmt::Formatter<W>) -> fmt::Result {
        let mut reader = Reader::new(self.0);
        loop {
            let mut list = [Placed::NONE; PLACES];
            match reader.next_record(&mut list) {
                Ok(Some(record)) => write!(f, "{}", Listed { record, list })?,
                Ok(None) => return Ok(()),
                Err(fault) => return write!(f, "{}", Numbers(fault)),
            }
        }
    }
}

// The first field of a text as a number, as a limit, as a letter, and whether it says REQ and a quote.
#[derive(Clone, Copy)]
pub struct Values<'a>(pub &'a [u8]);

impl fmt::Display for Values<'_> {
    fn fmt<W: fmt::Write>(&self, f: &mut fmt::Formatter<W>) -> fmt::Result {
        let mut list = [Placed::NONE; 1];
        if Reader::new(self.0).next_record(&mut list).is_err() {
            return f.write_str("refused");
        }
        let [placed] = list;
        write!(
            f,
            "{} {} {} {} {}",
            Answer(number(placed)),
            Answer(limit(placed).map(Limit)),
            Answer(letter(placed).map(u32::from)),
            says(placed, b"REQ"),
            says(placed, b"\"")
        )
    }
}
