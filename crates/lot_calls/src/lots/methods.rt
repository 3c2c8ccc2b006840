// Making a lot, and the calls on it. A clause `same` says that a call leaves the lot over the caller's own list, which is a fact of
// before and after together, so that no field of the lot can hold it.
ghost use Rattle.std.specs.Prelude.{◌≡◌, true, [], length, pos, Some, None, unsigned_abs};
ghost use Rattle.std.specs.List.{slice_get};
ghost use Rattle.faults.specs.Faults.{AnswersBy};
ghost use Rattle.sheet.specs.Lists.{places_of};
ghost use Rattle.table.specs.Tables.{standing};
ghost use Rattle.lot.specs.Book.{in_range, room_refusal, judged_refusal, requirement_for, show_refusal, tally_refusal};
ghost use Rattle.lot_calls.specs.Lots.{items, numbers, room, class_row, JudgedBy, StandsEntered, TakenIf, Entered, Struck};
ghost use Rattle.lot_calls.specs.Guarantee.{StandsAfter, EntersOn, StrikesOn, ShowsOn, TalliesOn};
ghost use Rattle.lot.specs.Rows.{of_a_class};

use crate::checks::{check_fields, check_number, item_of};
use crate::class::Class;
use crate::lots::Lot;
use crate::rows::Rows;
use faults::{Fault, Refusal};
use judging::{Judgement, judge};
use knowledge::Knowledge;
use lot::{Item, ItemFields, Row};
use sheet::{Sheet, usable_places};
use table::Table;

// The judgement of an item whose fields are in range, by the requirement that the sheet has for it.
fn judged_by<K: Knowledge>(
    sheet: &Sheet<'_>,
    fields: &ItemFields,
    knowledge: &K,
) -> Result<Judgement, Fault>
    requires { in_range fields.now ≡ true }
    ensures { AnswersBy (judged_refusal (requirement_for (standing sheet.now.table) fields.now) fields.now (K.answers knowledge.now)) result (JudgedBy (requirement_for (standing sheet.now.table) fields.now) fields.now (K.answers knowledge.now)) }
{
    let requirement = sheet
        .find(fields.class as u8, fields.characteristic as u8)
        .ok_or(Fault::direct(Refusal::NoRequirement))?;
    judge(&requirement, fields.expanded, fields.reading, knowledge)
}

impl<'a> Lot<'a> {
    // An empty lot over the list; one that `check_places` refuses has no place.
    pub fn new(places: &'a mut [Item]) -> Self
        ensures list { result.table.places.now ≡ places.old }
        ensures same { result.table.places.ghost_name ≡ places.entry.ghost_name }
        ensures empty { (items result ≡ []) × (room result ≡ places_of (length places.old)) }
        ensures run { StandsAfter result (places_of (length places.old)) [] }
    {
        let limit = usable_places(places.len());
        let table = Table::new(places, limit);
        let rows = Rows::EMPTY;
        Lot { table, rows }
    }

    // How many items stand.
    pub fn len(&self) -> usize
        ensures { result ≡ length (items self.now) }
    {
        self.table.len()
    }

    // The item at a place, counted from 0.
    pub fn show(&self, place: usize) -> Result<Item, Fault>
        ensures outcome { AnswersBy (show_refusal (length (items self.now)) place) result (λ e. slice_get (items self.now) place ≡ Some e) }
        ensures run { ShowsOn self.now place result }
    {
        self.table.at(place).ok_or(Fault::direct(Refusal::NoPlace))
    }

    // The row of a class.
    pub fn tally(&self, class: i64) -> Result<Row, Fault>
        ensures outcome { AnswersBy (tally_refusal class) result (λ row. row ≡ class_row self.now (unsigned_abs class)) }
        ensures run { TalliesOn self.now class result }
    {
        let class = Class::new(class)?;
        Ok(self.rows.of(class))
    }

    // Whether there is room for an item of this number.
    fn check_room(&self, number: u32) -> Result<(), Fault>
        ensures { AnswersBy (room_refusal (numbers self.now) (room self.now) (pos number)) result (λ _. Unit {0}) }
    {
        match self.table.find(number) {
            Ok(_) => Err(Fault::direct(Refusal::DuplicateItem)),
            Err(_) if self.table.is_full() => Err(Fault::direct(Refusal::LotFull)),
            Err(_) => Ok(()),
        }
    }

    // Puts in an item for which there is room, and adds its share to the row of its class.
    fn put_in(&mut self, item: Item)
        requires free { room_refusal (numbers self.old) (room self.old) (pos item.number) ≡ None }
        requires classed { of_a_class item ≡ true }
        ensures same { self.new.table.places.ghost_name ≡ self.old.table.places.ghost_name }
        ensures stands { StandsEntered self.old item self.new }
        ensures keeps { room self.new ≡ room self.old }
    {
        // Never refused: the number is free and there is room.
        let _ = self.table.insert(item);
        self.rows
            .raise(Class::of(&item), Row::share_of(&item.judgement));
    }

    // Takes out the item of a number, and its share from the row of its class.
    fn take_out(&mut self, number: u32) -> Option<Item>
        ensures same { self.new.table.places.ghost_name ≡ self.old.table.places.ghost_name }
        ensures change { TakenIf self.old number result self.new }
        ensures keeps { room self.new ≡ room self.old }
    {
        let item = self.table.remove(number)?;
        self.rows
            .lower(Class::of(&item), Row::share_of(&item.judgement));
        Some(item)
    }

    // Enters an item: judges it by the requirement that the sheet has for it, and stores it with its judgement.
    pub fn enter<K: Knowledge>(
        &mut self,
        sheet: &Sheet<'_>,
        fields: &ItemFields,
        knowledge: &K,
    ) -> Result<Judgement, Fault>
        ensures same { self.new.table.places.ghost_name ≡ self.old.table.places.ghost_name }
        ensures outcome { Entered self.old (standing sheet.now.table) fields.now (K.answers knowledge.now) result self.new }
        ensures run { EntersOn self.old (standing sheet.now.table) fields.now (K.answers knowledge.now) result self.new }
    {
        check_fields(fields)?;
        self.check_room(fields.number as u32)?;
        let judgement = judged_by(sheet, fields, knowledge)?;
        self.put_in(item_of(fields, judgement));
        Ok(judgement)
    }

    // Takes the item of a number out of the lot.
    pub fn strike(&mut self, number: i64) -> Result<(), Fault>
        ensures same { self.new.table.places.ghost_name ≡ self.old.table.places.ghost_name }
        ensures outcome { Struck self.old number result self.new }
        ensures run { StrikesOn self.old number result self.new }
    {
        check_number(number)?;
        self.take_out(number as u32)
            .ok_or(Fault::direct(Refusal::NoItem))?;
        Ok(())
    }
}
