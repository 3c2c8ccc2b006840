// Reads record text from standard input and writes what the engine answers to standard output.
#![tactic(auto)]

ghost use Rattle.std.specs.Prelude.{◌≤◌, length, IfOk};

use report::report;
use std::io;
use std::io::{Read, Write};
use text::LONGEST;

// Reads until the input ends or the buffer is full, and answers how many bytes were read.
// One fixed buffer, filled no further than it takes to tell that a text is too long: reading asks for no memory.
fn fill(input: &mut impl Read, buffer: &mut [u8]) -> io::Result<usize>
    ensures { IfOk result (λ n. n ≤ length buffer.new) }
{
    let mut filled = 0;
    while filled < buffer.len() {
        let more = input.read(&mut buffer[filled..])?;
        if more == 0 {
            break;
        }
        filled += more;
    }
    Ok(filled)
}

fn main(rt: HostRuntime) -> io::Result<()> {
    // One byte more than a text may have, so that a longer one shows.
    let mut buffer = [0; LONGEST + 1];
    let count = fill(&mut rt.stdin(), &mut buffer)?;
    let output = report(rt.alloc(), &buffer[..count])?;
    rt.stdout().write_all(output.as_slice())
}
