//! A source in memory.
ghost use Rattle.std.specs.Prelude.{◌≡◌, ◌≤◌, ℕ, List, ◌++◌, length, take, drop, min, Ok, Some, IfOk};

use crate::copy::copy_front;
use crate::{Failed, Source};
use std::alloc::{AllocError, Global};
use std::marker::Model;

/// A source of bytes that are given from the start. No read of it fails, and each gives all that there is
/// room for. Contracts see it as the bytes that are left.
#[derive(Drop)]
pub struct ListSource {
    bytes: Vec<u8>,
    at: usize,
}

impl Model for ListSource {
    ghost Value = { List ℕ };

    ghost view = { λ s. drop s.at s.bytes.items };

    ghost invariant = { λ s. s.at ≤ length s.bytes.items };
}

impl ListSource {
    pub fn new(alloc: Global, bytes: &[u8]) -> Result<ListSource, AllocError>
        ensures { IfOk result (λ source. source ≡ bytes.now) }
    {
        Ok(ListSource {
            bytes: Vec::from_slice(alloc, bytes)?,
            at: 0,
        })
    }
}

impl Source for ListSource {
    ghost left = { λ s. Some s };

    ghost faults = { λ _. 0 };

    fn read(&mut self, buf: &mut [u8]) -> Result<usize, Failed>
        ensures count { result ≡ Ok (min (length buf.old) (length self.old)) }
        ensures buffer { buf.new ≡ take (length buf.old) self.old ++ drop (length self.old) buf.old }
        ensures taken { self.new ≡ drop (length buf.old) self.old }
    {
        let count = copy_front(&self.bytes[self.at..], buf);
        self.at += count;
        Ok(count)
    }
}
