//! ALTER TABLE on a SQLite database file, by a script on standard input.
#![tactic(auto)]

use alter_cli::{Ended, Status, sqlalter};
use alter_disk::{FileDisk, Sink, StdSink, StdSource};
use std::alloc::AllocError;
use std::process::ExitCode;
use std::{env, io};

/// Ends with the status of the run.
fn main(rt: HostRuntime) -> ExitCode {
    let status = match run(&rt) {
        Ok(status) => status,
        Err(_) => out_of_memory(rt),
    };
    ExitCode::from(status.code())
}

/// The process's words. Words that aren't UTF-8 are answered as none, which name no file.
fn words_of(rt: &HostRuntime) -> Result<Vec<String>, AllocError> {
    let alloc = rt.alloc();
    match env::args(rt) {
        Ok(words) => words.collect(alloc),
        Err(error) if error.kind() == io::ErrorKind::OutOfMemory => Err(AllocError),
        Err(_) => Ok(Vec::new(alloc)),
    }
}

/// Runs the process's words, and fails if they don't fit into memory. The output is tried before a file is
/// opened, since the file would take the number of an output that is closed, and get the lines.
fn run(rt: &HostRuntime) -> Result<Status, AllocError> {
    let alloc = rt.alloc();
    let words = words_of(rt)?;
    let mut script = StdSource::new(rt.clone()?);
    let mut out = StdSink::new(rt.clone()?);
    if out.write(b"").is_err() {
        return Ok(Status::Fault);
    }
    let disk = FileDisk::new(rt.clone()?);
    let ended = sqlalter(alloc, words.as_slice(), disk, &mut script, &mut out);
    Ok(ended.status)
}

/// Prints the line of a run that could not begin for want of memory. It takes none.
fn out_of_memory(rt: HostRuntime) -> Status {
    let mut out = StdSink::new(rt);
    match out.write(b"memory\n") {
        Ok(_) => Status::Memory,
        Err(_) => Status::Fault,
    }
}
