// The reading of a text.
ghost use Rattle.std.specs.Prelude.{◌≡◌, ◌+◌, ◌<◌, ◌≤◌, length, slice_set};
ghost use Rattle.text.specs.Reading.{left, handed, longest, Reads};
ghost use Rattle.text.specs.Rows.{Split};

use crate::field::{Field, Placed};
use crate::machine::Ending;
use crate::reader::Reader;
use crate::scan::scan;
use faults::{Fault, Refusal};

// The length of the longest text that is read.
pub const LONGEST: usize = 65_536;

// A record that was read: its number, counted from 1, and how many fields it has.
// The fields themselves are in the caller's list: nothing is allocated here, and a record may have more fields than a list reaches.
#[derive(Clone, Copy)]
pub struct Record {
    pub number: u32,
    pub count: u32,
}

// The number of a record's fields, and the text after it.
#[derive(Clone, Copy)]
struct Row<'a> {
    count: u32,
    rest: &'a [u8],
}

// Writes the field to its place in the list, if the list reaches so far.
fn put<'a>(fields: &mut [Placed<'a>], at: usize, placed: Placed<'a>)
    ensures { fields.new ≡ slice_set fields.old at placed.entry }
{
    // Written through the slice's `get_mut`, the list is not known afterwards, and the proof does not close.
    if at < fields.len() {
        fields[at] = placed;
    }
}

// Goes through the first record of `text`, as record `number`, and writes its fields to the list as far as that reaches.
fn walk<'a>(text: &'a [u8], number: u32, fields: &mut [Placed<'a>]) -> Result<Row<'a>, Fault>
    requires some { 0 < length text.now }
    requires short { length text.now ≤ longest }
    ensures { Split number text.now fields.old fields.new result }
{
    let mut rest = text;
    // Counted by hand: the count is part of the answer, as is what is left behind the last field, which no iterator of fields gives.
    let mut count = 0;
    loop {
        let field = count + 1;
        let front = scan(rest).map_err(|refusal| Fault {
            refusal,
            record: number,
            field,
        })?;
        let placed = Placed {
            content: front.field,
            record: number,
            field,
        };
        put(fields, count as usize, placed);
        count = field;
        rest = front.rest;
        match front.ending {
            Ending::Comma => {}
            Ending::Line | Ending::Text => return Ok(Row { count, rest }),
        }
    }
}

impl<'a> Reader<'a> {
    // A reader at the start of the text.
    pub fn new(text: &'a [u8]) -> Self
        ensures { (left result ≡ text.now) × (handed result ≡ 0) }
    {
        Reader {
            rest: text,
            record: 0,
        }
    }

    // The next record, its fields written to the list as far as that reaches; none at the end of the text.
    // A refusal leaves the list and the reader as they were.
    pub fn next_record(&mut self, fields: &mut [Placed<'a>]) -> Result<Option<Record>, Fault>
        ensures { Reads self.old self.new fields.old fields.new result }
    {
        Refusal::TextTooLong.unless(self.rest.len() <= LONGEST)?;
        if self.rest.is_empty() {
            return Ok(None);
        }
        let number = self.record + 1;
        // The whole record is checked before its first field is written.
        walk(self.rest, number, &mut [])?;
        let row = walk(self.rest, number, fields)?;
        self.rest = row.rest;
        self.record = number;
        Ok(Some(Record {
            number,
            count: row.count,
        }))
    }
}
