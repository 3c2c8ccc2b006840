// Record text: comma separated fields in lines that end in CR LF, as RFC 4180 has them, read record by record.
// No field is copied: each is a part of the text. Nothing is allocated: fields go to the caller's list.
#![tactic(auto)]

mod field;
mod machine;
mod reader;
mod scan;

pub use field::{Field, Placed};
pub use reader::Reader;
pub use reader::methods::{LONGEST, Record};
