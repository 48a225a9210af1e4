//! Standard output as a sink.
ghost use Rattle.std.specs.Prelude.{◌≡◌, ◌<◌, ◌≤◌, ℕ, None, length, IfOk};

use crate::fault::counted;
use crate::{Failed, Sink};
use std::io::{self, Print};
use std::marker::Model;

/// Standard output. It tells nothing of its bytes. Contracts see it as its count of faults.
#[derive(Drop)]
pub struct StdSink<R: Print + Drop> {
    rt: R,
    faults: u64,
}

impl<R: Print + Drop> Model for StdSink<R> {
    ghost Value = { ℕ };

    ghost view = { λ s. s.faults };
}

impl<R: Print + Drop> StdSink<R> {
    pub fn new(rt: R) -> StdSink<R>
        ensures { result ≡ 0 }
    {
        StdSink { rt, faults: 0 }
    }
}

impl<R: Print + Drop> Sink for StdSink<R> {
    ghost written = { λ _. None };

    ghost faults = { λ s. s };

    fn write(&mut self, bytes: &[u8]) -> Result<usize, Failed> {
        let outcome = write_some(&self.rt, bytes);
        counted(outcome, &mut self.faults)
    }
}

/// Writes some of the bytes: at least one, if there are any.
fn write_some<R: Print>(rt: &R, bytes: &[u8]) -> io::Result<usize>
    ensures count { IfOk result (λ n. n ≤ length bytes.now) }
    ensures some { 0 < length bytes.now → IfOk result (λ n. 0 < n) }
{
    let count = rt.write_some(bytes)?;
    if count == 0 && !bytes.is_empty() {
        return Err(io::ErrorKind::WriteZero.into());
    }
    Ok(count)
}
