//! A sink in memory, whose failures its maker chooses.
ghost use Rattle.std.specs.Prelude.{◌≡◌, ◌≤◌, Some, length, is_err, vec_len, vec_capacity, IfOk};
ghost use Rattle.alter_disk.specs.Collected.{Collected, empty, refuses_piece, after_piece};

use crate::fault::raise;
use crate::{Failed, Sink};
use std::alloc::{AllocError, Global};
use std::marker::Model;

/// A sink that keeps what it is given. Its calls are numbered from 0. One fails where its number is listed
/// or the piece does not fit the room that is left, and else takes the whole piece.
#[derive(Drop)]
pub struct ListSink {
    bytes: Vec<u8>,
    room: usize,
    made: u64,
    fails: Vec<u64>,
    faults: u64,
}

impl Model for ListSink {
    ghost Value = { Collected };

    ghost view = { λ s. record {
      bytes = s.bytes.items;
      room = s.room;
      made = s.made;
      fails = s.fails.items;
      faults = s.faults;
    } };

    ghost invariant = { λ s. (vec_len s.bytes ≤ s.room) × (s.room ≤ vec_capacity s.bytes) };
}

impl ListSink {
    /// A sink that reserves `room` bytes, and takes no memory after that.
    pub fn new(alloc: Global, room: usize, fails: &[u64]) -> Result<ListSink, AllocError>
        ensures { IfOk result (λ sink. sink ≡ empty room fails.now) }
    {
        Ok(ListSink {
            bytes: Vec::with_capacity(alloc, room)?,
            room,
            made: 0,
            fails: Vec::from_slice(alloc, fails)?,
            faults: 0,
        })
    }

    /// All bytes that were written.
    pub fn written(&self) -> &[u8]
        ensures { result.now ≡ self.now.bytes }
    {
        self.bytes.as_slice()
    }
}

impl Sink for ListSink {
    ghost written = { λ s. Some s.bytes };

    ghost faults = { λ s. s.faults };

    fn write(&mut self, bytes: &[u8]) -> Result<usize, Failed>
        ensures failed { is_err result ≡ refuses_piece (length bytes.now) self.old }
        ensures count { IfOk result (λ n. n ≡ length bytes.now) }
        ensures after { self.new ≡ after_piece bytes.now self.old }
    {
        let failed = self.fails.contains(&self.made) || self.room - self.bytes.len() < bytes.len();
        self.made = self.made.saturating_add(1);
        if failed {
            return Err(raise(&mut self.faults));
        }
        self.bytes.extend_from_slice(bytes).unwrap();
        Ok(bytes.len())
    }
}
