// Typed records.
use kinds::Kind;
use requirement::RequirementRow;

// The fields of an item in a record's order, in their ranges; the kind is made of letter and spread.
#[derive(Clone, Copy)]
pub struct ItemRow {
    pub number: i64,
    pub class: i64,
    pub characteristic: i64,
    pub reading: i64,
    pub kind: Kind,
    pub bias: i64,
}

// What a record holds.
#[derive(Clone, Copy)]
pub enum Entry {
    Requirement(RequirementRow),
    Item(ItemRow),
}
