// Reads the cases on standard input, a line each in hexadecimal, and writes the whole output for each, which begins with its header.
// A case begins with the number of the commas that end its text.
#![tactic(auto)]

use report::report;
use std::io;
use std::io::{BufRead, BufReader, Write};
use trials::{decoded, with_commas};

fn main(rt: HostRuntime) -> io::Result<()> {
    let heap = rt.alloc();
    for line in BufReader::new(heap, rt.stdin())?.lines(heap) {
        let line = line?;
        let case = decoded(heap, line.as_bytes())?;
        let text = with_commas(heap, case.as_slice())?;
        let output = report(heap, text.as_slice())?;
        rt.stdout().write_all(output.as_slice())?;
    }
    Ok(())
}
