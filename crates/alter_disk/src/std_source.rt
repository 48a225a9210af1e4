//! Standard input as a source.
ghost use Rattle.std.specs.Prelude.{◌≡◌, ℕ, None};

use crate::fault::counted;
use crate::{Failed, Source};
use std::io::{Input, Read};
use std::marker::Model;

/// Standard input. It tells nothing of its bytes. Contracts see it as its count of faults.
#[derive(Drop)]
pub struct StdSource<R: Input + Drop> {
    _rt: R,
    reader: R::Reader,
    faults: u64,
}

impl<R: Input + Drop> Model for StdSource<R> {
    ghost Value = { ℕ };

    ghost view = { λ s. s.faults };
}

impl<R: Input + Drop> StdSource<R> {
    pub fn new(rt: R) -> StdSource<R>
        ensures { result ≡ 0 }
    {
        let reader = rt.reader();
        StdSource {
            _rt: rt,
            reader,
            faults: 0,
        }
    }
}

impl<R: Input + Drop> Source for StdSource<R> {
    ghost left = { λ _. None };

    ghost faults = { λ s. s };

    fn read(&mut self, buf: &mut [u8]) -> Result<usize, Failed> {
        let outcome = self.reader.read(buf);
        counted(outcome, &mut self.faults)
    }
}
