// Reading a text record by record, with what each record does and the line it gives.
ghost use Rattle.std.specs.Prelude.{IfOk, OnOk};
ghost use Rattle.report.specs.Turns.{Turn, ReadsThrough};

use crate::answers::{line_for, push_if};
use intake::take_in;
use lines::Line;
use lot_calls::Lot;
use sheet::Sheet;
use std::alloc::AllocError;
use text::{Placed, Reader};

// How many fields of a record are looked at: one more than any record has, so that a longer one shows.
const FIELDS: usize = 10;

// Reads the next record, takes it in and writes its line; answers whether there was one. A refusal of the text ends the reading.
// Sheet, lot and output come as parameters of their own, as `take_in` and `Line::push` take them.
fn turn<'t>(
    reader: &mut Reader<'t>,
    fields: &mut [Placed<'t>; FIELDS],
    sheet: &mut Sheet<'_>,
    lot: &mut Lot<'_>,
    out: &mut Vec<u8>,
) -> Result<bool, AllocError>
    ensures { IfOk result (Turn reader.old reader.new sheet.old lot.old sheet.new lot.new out.old.items out.new.items) }
{
    let record = match reader.next_record(fields) {
        Ok(Some(record)) => record,
        Ok(None) => return Ok(false),
        Err(fault) => {
            Line::Refused(fault).push(out)?;
            return Ok(false);
        }
    };
    let count = (record.count as usize).min(FIELDS);
    let answer = take_in(record.number, &fields[..count], sheet, lot);
    push_if(line_for(answer), out)?;
    Ok(true)
}

// Reads a text to its end or its first offence.
pub(crate) fn read_records(
    text: &[u8],
    sheet: &mut Sheet<'_>,
    lot: &mut Lot<'_>,
    out: &mut Vec<u8>,
) -> Result<(), AllocError>
    ensures { OnOk result (ReadsThrough text.now sheet.old lot.old sheet.new lot.new out.old.items out.new.items) }
{
    let mut reader = Reader::new(text);
    let mut fields = [Placed::NONE; FIELDS];
    // By turns: the reader hands out one record at a time, into the list that it is lent.
    while turn(&mut reader, &mut fields, sheet, lot, out)? {}
    Ok(())
}
