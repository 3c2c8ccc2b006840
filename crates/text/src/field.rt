// A field, as the text has it.
ghost use Rattle.std.specs.Prelude.{◌≡◌};
ghost use Rattle.text.specs.Content.{holds};
ghost use Rattle.text.specs.Faults.{fault_at};
ghost use Rattle.text.specs.Fronts.{form};

use faults::{Fault, Refusal};

// The bytes of a field, borrowed from the text.
#[derive(Clone, Copy, Debug)]
pub enum Field<'a> {
    // The field itself.
    Bare(&'a [u8]),
    // What stands between the outer quotes, where each quote of the content is doubled.
    Quoted(&'a [u8]),
}

impl<'a> Field<'a> {
    // The bytes that the field holds of the text.
    pub fn bytes(self) -> &'a [u8]
        ensures { result.now ≡ holds (form self.entry) }
    {
        match self {
            Field::Bare(bytes) | Field::Quoted(bytes) => bytes,
        }
    }
}

// A field with its place, records and fields counted from 1.
#[derive(Clone, Copy, Debug)]
pub struct Placed<'a> {
    pub content: Field<'a>,
    pub record: u32,
    pub field: u32,
}

impl Placed<'_> {
    // What stands in a list of fields before any is read: an empty field of no record.
    pub const NONE: Placed<'static> = Placed {
        content: Field::Bare(b""),
        record: 0,
        field: 0,
    };

    // The fault of this field.
    pub fn fault(self, refusal: Refusal) -> Fault
        ensures { result ≡ fault_at self.entry refusal }
    {
        Fault {
            refusal,
            record: self.record,
            field: self.field,
        }
    }
}
