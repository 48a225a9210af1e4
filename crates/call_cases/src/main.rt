//! Whole calls of the program, a case a line.
#![tactic(auto)]

mod call;
mod case;
mod database;
mod journal;

use crate::call::{answer, answer_in_files, answer_stopped, misuses};
use crate::case::Case;
use std::io;

/// Answers a line of the input. One that has no bars stands for the calls whose words name no file.
fn answer_line(rt: &HostRuntime, line: &str) -> io::Result<String> {
    match Case::read(line) {
        Some(case) if case.option("files") == Some(1) => answer_in_files(rt, &case),
        Some(case) if case.option("stopped") == Some(1) => Ok(answer_stopped(rt.alloc(), &case)?),
        Some(case) => Ok(answer(rt.alloc(), &case)?),
        None => Ok(misuses(rt.alloc())?),
    }
}

/// Answers each line of the input.
fn main(rt: HostRuntime) -> io::Result<()> {
    for line in rt.lines(rt.alloc()) {
        let text = answer_line(&rt, line?.as_str())?;
        print!(rt; "{text}")?;
    }
    Ok(())
}
