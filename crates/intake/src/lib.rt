// What a record does: a requirement goes to the sheet, an item to the lot. A clause `same` says that the lists are still the caller's, a fact of before
// and after together, which no field can hold.
#![tactic(auto)]

ghost use Rattle.std.specs.Prelude.{◌≡◌};
ghost use Rattle.records.specs.Cells.{cells};
ghost use Rattle.records.specs.Entries.{item_meant, answer_of};
ghost use Rattle.intake.specs.Faults.{field_of, placed};
ghost use Rattle.intake.specs.Items.{fields_of};
ghost use Rattle.intake.specs.Intake.{Adds, Enters, TakesIn, LeftByAdding, LeftByEntering, Leaves};

use bias::Biased;
use expanded::expanded_uncertainty;
use faults::{Fault, Refusal};
use judging::Judgement;
use lot::ItemFields;
use lot_calls::Lot;
use records::{Entry, ItemRow, entry};
use requirement::{Requirement, RequirementRow};
use sheet::Sheet;
use text::Placed;

// What became of a record that was not refused: a requirement was added, or the item of a number was judged.
// No Option: a reader finds `Added` where `None` would say that nothing was taken in.
#[derive(Clone, Copy)]
pub enum Taken {
    Added,
    Judged(u32, Judgement),
}

// The field that a refusal of the engine concerns. A number and no Option: 0 is what the output writes where there is none.
fn field_of(refusal: Refusal) -> u32
    ensures { result ≡ field_of refusal }
{
    match refusal {
        Refusal::DuplicateRequirement | Refusal::DuplicateItem => 2,
        Refusal::NoRequirement => 3,
        _ => 0,
    }
}

// A direct call's fault, with the record that it comes from and the field that it concerns.
fn placed(fault: Fault, record: u32) -> Fault
    ensures { result ≡ placed «record» fault.refusal }
{
    Fault {
        refusal: fault.refusal,
        record,
        field: field_of(fault.refusal),
    }
}

// Adds the requirement of a record to the sheet.
fn add(number: u32, row: &RequirementRow, sheet: &mut Sheet<'_>) -> Result<Taken, Fault>
    ensures same { sheet.new.table.places.ghost_name ≡ sheet.old.table.places.ghost_name }
    ensures step { Adds number row.now result sheet.old sheet.new }
    ensures lists { LeftByAdding row.now sheet.old.table sheet.new.table }
{
    let requirement = Requirement::new(row).map_err(|fault| placed(fault, number))?;
    sheet
        .add(requirement)
        .map_err(|fault| placed(fault, number))?;
    Ok(Taken::Added)
}

// What is entered of a record's item. No `From`: both types are of other crates.
fn fields_of(row: &ItemRow) -> ItemFields
    ensures { result ≡ fields_of (item_meant row.now) }
{
    ItemFields {
        number: row.number,
        class: row.class,
        characteristic: row.characteristic,
        expanded: expanded_uncertainty(&row.kind),
        reading: row.reading,
    }
}

// Enters the item of a record in the lot.
fn enter(number: u32, row: &ItemRow, sheet: &Sheet<'_>, lot: &mut Lot<'_>) -> Result<Taken, Fault>
    ensures same { lot.new.table.places.ghost_name ≡ lot.old.table.places.ghost_name }
    ensures step { Enters number (item_meant row.now) result sheet.now lot.old lot.new }
    ensures lists { LeftByEntering (item_meant row.now) sheet.now lot.old lot.new }
{
    let knowledge = Biased::new(row.kind, row.bias);
    let judgement = lot
        .enter(sheet, &fields_of(row), &knowledge)
        .map_err(|fault| placed(fault, number))?;
    Ok(Taken::Judged(row.number as u32, judgement))
}

// Takes in a record: a requirement for the sheet, or an item for the lot.
// A requirement changes the sheet alone; an item changes the lot and only reads the sheet. So the two are parameters of their own,
// and no struct of both is asked for a part.
pub fn take_in(
    number: u32,
    fields: &[Placed<'_>],
    sheet: &mut Sheet<'_>,
    lot: &mut Lot<'_>,
) -> Result<Taken, Fault>
    ensures same_sheet { sheet.new.table.places.ghost_name ≡ sheet.old.table.places.ghost_name }
    ensures same_lot { lot.new.table.places.ghost_name ≡ lot.old.table.places.ghost_name }
    ensures step { TakesIn number (answer_of number (cells fields.now)) result sheet.old lot.old sheet.new lot.new }
    ensures lists { Leaves (answer_of number (cells fields.now)) sheet.old lot.old sheet.new lot.new }
{
    match entry(number, fields)? {
        Entry::Requirement(row) => add(number, &row, sheet),
        Entry::Item(row) => enter(number, &row, sheet, lot),
    }
}
