//! Answers cases that are read from standard input, a line each: the call that the first field names, on the
//! texts of the other fields.
#![tactic(auto)]

mod answer;
mod calls;
mod field;
mod values;

use calls::answer_to;
use std::io::{self, BufRead, BufReader};

fn main(rt: HostRuntime) -> io::Result<()> {
    let alloc = rt.alloc();
    for line in BufReader::new(alloc, rt.reader())?.lines(alloc) {
        let line = line?;
        if line.is_empty() || line.starts_with('#') {
            continue;
        }
        let answer = answer_to(alloc, line.as_bytes())?;
        println!(rt; "{answer}")?;
    }
    Ok(())
}
