// What is left of a text, and how many records were handed out of it.
ghost use Rattle.std.specs.Prelude.{◌-◌, ◌≤◌, length};

pub mod methods;

// Reads a text record by record.
#[derive(Clone, Copy)]
pub struct Reader<'a> {
    rest: &'a [u8],
    record: u32,
    // each record took a byte at least, of a text that is not too long
    ghost counted: { «record» ≤ 65536 - length rest.now },
}
