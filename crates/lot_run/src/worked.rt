// A lot over two places: two items entered, one struck, the other shown, and the row of their class before and after.
ghost use Rattle.std.specs.Prelude.{◌≡◌, [], None};
ghost use Rattle.faults.specs.Faults.{AnswersBy};
ghost use Rattle.table.specs.Tables.{standing};
ghost use Rattle.lot_calls.specs.Guarantee.{StandsAfter};
ghost use Rattle.lot_run.specs.Grades.{GradeSheet};
ghost use Rattle.lot_run.specs.Worked.{Worked};

use crate::grades::grade;
use faults::Fault;
use figures::grade_requirement;
use judging::Judgement;
use lot::{Item, Row};
use lot_calls::Lot;
use rectangular::Rectangular;
use sheet::Sheet;

// What the calls answer, in their order.
#[derive(Clone, Copy)]
pub struct WorkedLot {
    pub first: Judgement,
    pub second: Judgement,
    pub again: Option<Fault>,
    pub before: Row,
    pub shown: Item,
    pub after: Row,
}

// The calls on an empty lot.
fn worked_on(
    lot: &mut Lot<'_>,
    sheet: &Sheet<'_>,
    knowledge: &Rectangular,
) -> Result<WorkedLot, Fault>
    requires empty { StandsAfter lot.old 2 [] }
    requires required { GradeSheet (standing sheet.now.table) }
    requires known { knowledge.now.half_width ≡ 100 }
    ensures { AnswersBy None result Worked }
{
    let first = lot.enter(sheet, &grade(7, 910), knowledge)?;
    let second = lot.enter(sheet, &grade(8, 905), knowledge)?;
    let again = lot.enter(sheet, &grade(7, 910), knowledge).err();
    let before = lot.tally(1)?;
    lot.strike(7)?;
    let shown = lot.show(0)?;
    let after = lot.tally(1)?;
    Ok(WorkedLot {
        first,
        second,
        again,
        before,
        shown,
        after,
    })
}

// The lot and its sheet, over lists of their own; no call fails but the one that enters an item again.
pub fn worked_lot() -> Result<WorkedLot, Fault>
    ensures { AnswersBy None result Worked }
{
    let requirement = grade_requirement()?;
    let knowledge = Rectangular::new(100)?;
    let mut requirements = [requirement];
    let mut sheet = Sheet::new(&mut requirements);
    sheet.add(requirement)?;
    let mut places = [Item::UNUSED; 2];
    let mut lot = Lot::new(&mut places);
    worked_on(&mut lot, &sheet, &knowledge)
}
