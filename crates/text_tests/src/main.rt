// Reads the cases on standard input, a line each, and writes what is made of them.
// A case is a letter and bytes in hexadecimal: `t` asks for the records of that text, `v` for the values of its first
// field, and `n` for the records of a text of commas, as many as the three bytes say.
#![tactic(auto)]

use show::{Records, Values};
use std::alloc::{AllocError, Global};
use std::io;
use std::io::{BufRead, BufReader};
use trials::{decoded, with_commas};

mod show;

// As many commas as three bytes say, and none where there are not three.
fn commas(heap: Global, count: &[u8]) -> Result<Vec<u8>, AllocError> {
    with_commas(heap, if count.len() == 3 { count } else { &[] })
}

fn answer(rt: &impl Print, heap: Global, case: &[u8]) -> io::Result<()> {
    match case {
        [b't', digits @ ..] => rt.println(Records(decoded(heap, digits)?.as_slice())),
        [b'v', digits @ ..] => rt.println(Values(decoded(heap, digits)?.as_slice())),
        [b'n', digits @ ..] => {
            let count = decoded(heap, digits)?;
            rt.println(Records(commas(heap, count.as_slice())?.as_slice()))
        }
        _ => rt.println("no case"),
    }
}

fn main(rt: HostRuntime) -> io::Result<()> {
    let heap = rt.alloc();
    for line in BufReader::new(heap, rt.stdin())?.lines(heap) {
        answer(&rt, heap, line?.as_bytes())?;
    }
    Ok(())
}
