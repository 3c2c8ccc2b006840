// The fields of a line, and how a line is made of them. Without memory the output is unfinished: what was written stands.
ghost use Rattle.std.specs.Prelude.{◌≡◌, ◌++◌, map, OnOk};
ghost use Rattle.lines.specs.Lines.{written, following, line_of};

use numerals::push_decimal;
use std::alloc::AllocError;

// One field of a line: a word, or a number in its shortest decimal form.
#[derive(Clone, Copy)]
pub(crate) enum Cell {
    Word(&'static str),
    Number(u64),
}

impl Cell {
    // Appends the field. No `Display`: numbers are written by `push_decimal`'s digits, and an `AllocError` is passed on as it is.
    fn push(self, out: &mut Vec<u8>) -> Result<(), AllocError>
        ensures { OnOk result (out.new.items ≡ out.old.items ++ written self) }
    {
        match self {
            Cell::Word(word) => out.extend_from_slice(word.as_bytes()),
            Cell::Number(value) => push_decimal(out, value),
        }
    }
}

// Appends fields with a comma before each.
fn push_following(out: &mut Vec<u8>, cells: &[Cell]) -> Result<(), AllocError>
    ensures { OnOk result (out.new.items ≡ out.old.items ++ following (map written cells.now)) }
{
    for cell in cells {
        out.extend_from_slice(b",")?;
        cell.push(out)?;
    }
    Ok(())
}

// Appends a line of five fields, which CR LF ends.
pub(crate) fn push_line(out: &mut Vec<u8>, cells: &[Cell; 5]) -> Result<(), AllocError>
    ensures { OnOk result (out.new.items ≡ out.old.items ++ line_of (map written cells.now)) }
{
    // By index, since the check does not take an array's part by a pattern.
    cells[0].push(out)?;
    push_following(out, &cells[1..])?;
    out.extend_from_slice(b"\r\n")
}
