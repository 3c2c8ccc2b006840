// Reads texts on standard input, a line each in hexadecimal, and writes what is made of each of their records.
#![tactic(auto)]

use show::Records;
use std::io;
use std::io::{BufRead, BufReader};
use trials::decoded;

mod show;

fn main(rt: HostRuntime) -> io::Result<()> {
    let heap = rt.alloc();
    for line in BufReader::new(heap, rt.stdin())?.lines(heap) {
        let line = line?;
        let text = decoded(heap, line.as_bytes())?;
        rt.println(Records(text.as_slice()))?;
    }
    Ok(())
}
