// From record text to the whole output: each record is read, taken in and answered by a line, and a line for each class follows.
#![tactic(auto)]

ghost use Rattle.std.specs.Prelude.{IfOk};
ghost use Rattle.report.specs.Output.{OutputFor};

use answers::push_classes;
use lines::Line;
use lot::Item;
use lot_calls::Lot;
use reading::read_records;
use requirement::{Requirement, RequirementRow};
use sheet::Sheet;
use std::alloc::{AllocError, Global};

mod answers;
mod reading;

// What the places of the sheet hold while they are not used; no call answers it.
const UNUSED_ROW: RequirementRow = RequirementRow {
    class: 1,
    characteristic: 1,
    lower: None,
    upper: Some(0),
    letter: 'S',
    first: 0,
    second: 0,
    mode: 2,
};

fn unused_requirement() -> Requirement {
    Requirement::new(&UNUSED_ROW).unwrap()
}

// The whole output for a text: 100 requirements and 1,000 items may stand.
pub fn report(heap: Global, text: &[u8]) -> Result<Vec<u8>, AllocError>
    ensures { IfOk result (λ v. OutputFor text.now v.items) }
{
    let mut requirements = [unused_requirement(); 100];
    let mut items = [Item::UNUSED; 1_000];
    let mut sheet = Sheet::new(&mut requirements);
    let mut lot = Lot::new(&mut items);
    let mut out = Vec::new(heap);
    Line::Header.push(&mut out)?;
    read_records(text, &mut sheet, &mut lot, &mut out)?;
    push_classes(&lot, &mut out)?;
    Ok(out)
}
