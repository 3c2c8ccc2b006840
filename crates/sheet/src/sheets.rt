// A sheet: making it, adding to it and finding in it. A clause `list` or `same` tells of the caller's list, by what it was before
// a call and is after it: a fact of both together, so that no field of the sheet can hold it.
ghost use Rattle.std.specs.Prelude.{◌≡◌, [], length};
ghost use Rattle.table.specs.Tables.{standing, capacity};
ghost use Rattle.sheet.specs.Lists.{places_of};
ghost use Rattle.sheet.specs.Sheets.{refusal_of, Added, lookup};

use crate::usable_places;
use faults::{Fault, Refusal};
use requirement::Requirement;
use table::{Refused, Table};

// Requirements in the order of class and characteristic, no two with both the same.
#[derive(Drop)]
pub struct Sheet<'a> {
    table: Table<'a, Requirement>,
}

// The sheet's refusal for the table's: no From, since both types are of other crates.
fn refusal_of(refused: Refused) -> Refusal
    ensures { result ≡ refusal_of refused }
{
    match refused {
        Refused::Present => Refusal::DuplicateRequirement,
        Refused::Full => Refusal::SheetFull,
    }
}

impl<'a> Sheet<'a> {
    // An empty sheet over the list; one that `check_places` refuses has no place.
    pub fn new(places: &'a mut [Requirement]) -> Self
        ensures list { result.table.places.now ≡ places.old }
        ensures same { result.table.places.ghost_name ≡ places.entry.ghost_name }
        ensures empty { (standing result.table ≡ []) × (capacity result.table ≡ places_of (length places.old)) }
    {
        let limit = usable_places(places.len());
        let table = Table::new(places, limit);
        Sheet { table }
    }

    // Puts a requirement in the sheet.
    pub fn add(&mut self, requirement: Requirement) -> Result<(), Fault>
        ensures same { self.new.table.places.ghost_name ≡ self.old.table.places.ghost_name }
        ensures outcome { Added self.old.table requirement result self.new.table }
    {
        self.table
            .insert(requirement)
            .map(|_| ())
            .map_err(|refused| Fault::direct(refusal_of(refused)))
    }

    // The requirement of a class and a characteristic, if the sheet has one.
    pub fn find(&self, class: u8, characteristic: u8) -> Option<Requirement>
        ensures { result ≡ lookup (standing self.now.table) class characteristic }
    {
        self.table.lookup((class, characteristic))
    }

    // How many requirements stand.
    pub fn len(&self) -> usize
        ensures { result ≡ length (standing self.now.table) }
    {
        self.table.len()
    }
}
