//! The two files of a disk in memory.
ghost use Rattle.std.specs.Prelude.{◌≡◌, ◌+◌, ◌-◌, ◌^◌, ◌<◌, ◌≤◌, ◌++◌, true, false, [], length, take, drop, replicate, vec_len, vec_capacity, IsOk, IfOk, OnOk, OnErr};
ghost use Rattle.alter_disk.specs.Files.{file, with_file};
ghost use Rattle.alter_disk.specs.Changes.{overwritten};
ghost use Rattle.alter_disk.specs.Memory.{Held, IsReserved};

use crate::Which;
use std::alloc::{AllocError, Global};
use std::marker::Model;

/// Two files in buffers of a fixed size, or in buffers that grow.
#[derive(Drop)]
pub(crate) struct Buffers {
    db: Vec<u8>,
    journal: Vec<u8>,
    grows: bool,
    room: usize,
}

impl Model for Buffers {
    ghost Value = { Held };

    ghost view = { λ b. record { files = record { db = b.db.items; journal = b.journal.items }; grows = b.grows; room = b.room } };

    ghost invariant = { λ b. IsReserved b.grows b.room (vec_len b.db) (vec_capacity b.db) × IsReserved b.grows b.room (vec_len b.journal) (vec_capacity b.journal) };
}

impl Buffers {
    /// Buffers of `room` bytes that hold these.
    pub(crate) fn new(
        alloc: Global,
        db: &[u8],
        journal: &[u8],
        room: usize,
    ) -> Result<Buffers, AllocError>
        requires db { length db.now ≤ room }
        requires journal { length journal.now ≤ room }
        ensures { IfOk result (λ b. b ≡ record { files = record { db = db.now; journal = journal.now }; grows = false; room = room }) }
    {
        Ok(Buffers {
            db: reserved(alloc, db, room)?,
            journal: reserved(alloc, journal, room)?,
            grows: false,
            room,
        })
    }

    /// Buffers that hold these, and grow.
    pub(crate) fn growing(alloc: Global, db: &[u8], journal: &[u8]) -> Result<Buffers, AllocError>
        ensures { IfOk result (λ b. b ≡ record { files = record { db = db.now; journal = journal.now }; grows = true; room = 0 }) }
    {
        Ok(Buffers {
            db: Vec::from_slice(alloc, db)?,
            journal: Vec::from_slice(alloc, journal)?,
            grows: true,
            room: 0,
        })
    }

    pub(crate) fn grow(&self) -> bool
        ensures { result ≡ self.now.grows }
    {
        self.grows
    }

    /// How many bytes each can hold.
    pub(crate) fn room(&self) -> usize
        ensures { result ≡ self.now.room }
    {
        self.room
    }

    pub(crate) fn bytes(&self, which: Which) -> &[u8]
        ensures bytes { result.now ≡ file which self.now.files }
        ensures within { self.now.grows ≡ false → length result.now ≤ self.now.room }
    {
        match which {
            Which::Db => self.db.as_slice(),
            Which::Journal => self.journal.as_slice(),
        }
    }

    pub(crate) fn overlay(
        &mut self,
        which: Which,
        at: usize,
        piece: &[u8],
    ) -> Result<(), AllocError>
        requires end { at + length piece.now < 2 ^ 64 }
        requires room { self.old.grows ≡ false → at + length piece.now ≤ self.old.room }
        ensures succeeds { self.old.grows ≡ false → IsOk result }
        ensures written { OnOk result (self.new ≡ record self.old { files = with_file which (overwritten (file which self.old.files) at piece.now) self.old.files }) }
        ensures kept { OnErr result (self.new ≡ self.old) }
    {
        match which {
            Which::Db => overlay_growing(&mut self.db, at, piece),
            Which::Journal => overlay_growing(&mut self.journal, at, piece),
        }
    }

    pub(crate) fn truncate(&mut self, which: Which, len: usize)
        ensures { self.new ≡ record self.old { files = with_file which (take len (file which self.old.files)) self.old.files } }
    {
        match which {
            Which::Db => self.db.truncate(len),
            Which::Journal => self.journal.truncate(len),
        }
    }
}

/// A buffer for `room` bytes that holds these.
fn reserved(alloc: Global, bytes: &[u8], room: usize) -> Result<Vec<u8>, AllocError>
    requires { length bytes.now ≤ room }
    ensures items { IfOk result (λ v. v.items ≡ bytes.now) }
    ensures room { IfOk result (λ v. room ≤ vec_capacity v) }
{
    let mut buffer = Vec::with_capacity(alloc, room)?;
    buffer.extend_from_slice(bytes)?;
    Ok(buffer)
}

/// Fills the buffer up with zeros to a length within what it has reserved.
fn fill(buffer: &mut Vec<u8>, len: usize)
    requires { len ≤ vec_capacity buffer.old }
    ensures filled { buffer.new.items ≡ buffer.old.items ++ replicate (len - length buffer.old.items) 0 }
    ensures room { vec_capacity buffer.old ≤ vec_capacity buffer.new }
{
    if buffer.len() < len {
        buffer.resize(len, 0).unwrap();
    }
}

fn write_at(bytes: &mut [u8], at: usize, piece: &[u8])
    requires { at + length piece.now ≤ length bytes.old }
    ensures { bytes.new ≡ take at bytes.old ++ piece.now ++ drop (at + length piece.now) bytes.old }
{
    bytes[at..at + piece.len()].copy_from_slice(piece);
}

/// Writes a piece within what the buffer has reserved.
fn overlay(buffer: &mut Vec<u8>, at: usize, piece: &[u8])
    requires { at + length piece.now ≤ vec_capacity buffer.old }
    ensures written { buffer.new.items ≡ overwritten buffer.old.items at piece.now }
    ensures room { vec_capacity buffer.old ≤ vec_capacity buffer.new }
{
    fill(buffer, at + piece.len());
    write_at(buffer, at, piece);
}

/// Writes a piece, which needs no memory within what the buffer has reserved.
fn overlay_growing(buffer: &mut Vec<u8>, at: usize, piece: &[u8]) -> Result<(), AllocError>
    requires { at + length piece.now < 2 ^ 64 }
    ensures succeeds { at + length piece.now ≤ vec_capacity buffer.old → IsOk result }
    ensures written { OnOk result (buffer.new.items ≡ overwritten buffer.old.items at piece.now) }
    ensures kept { OnErr result (buffer.new.items ≡ buffer.old.items) }
    ensures room { vec_capacity buffer.old ≤ vec_capacity buffer.new }
{
    buffer.reserve((at + piece.len()).saturating_sub(buffer.len()))?;
    overlay(buffer, at, piece);
    Ok(())
}
