//! A disk in memory, whose failures its maker chooses.
ghost use Rattle.std.specs.Prelude.{◌≡◌, ◌+◌, ◌^◌, ◌<◌, ◌≤◌, ◌⊎◌, ◌||◌, ◌&&◌, not, nat_lt, nat_le, [], false, true, Some, length, take, drop, refl, is_err, vec_len, vec_capacity, string_bytes, IsOk, IfOk, OnOk, OnErr, IfErr};
ghost use Rattle.alter_disk.specs.Files.{Files, file};
ghost use Rattle.alter_disk.specs.Changes.{ReadsAt, Torn, CutShort, ChangesOne, overwritten};
ghost use Rattle.std.specs.List.{AllByRecursion};
ghost use Rattle.alter_disk.specs.Crash.{After, NoMore};
ghost use Rattle.alter_disk.specs.Memory.{Memory, IsSpare, HoldsCalls, HasSlot, fresh, fresh_growing, refuses, refuses_write, Fails, counted, after_open, after_call, with_bytes, noted, after_write, after_cut, after_sync, stopped_file};
ghost use Rattle.alter_disk.specs.Pending.{Wrote, Cut, Synced, LeftOf, MayLeave, LeftSince, now_counts, only_now, newest_first};

use crate::buffers::Buffers;
use crate::call::{Call, Change, filled, keep, synced};
use crate::copy::copy_front;
use crate::fault::raise;
use crate::{Disk, Failed, OpenFault, Way, Which};
use std::alloc::{AllocError, Global};
use std::marker::Model;

/// A disk whose files are two buffers. One that `new` makes has a fixed room, and takes no memory after that.
/// One that is `growing` takes memory as its calls need it, and fails where there is none.
///
/// It keeps what its files were at first and each call that changed what a crash may leave, so that it tells
/// exactly what a crash may leave now and what it might have left at any moment before.
///
/// Its calls are numbered from 0. A call of a disk with a fixed room fails where its number is listed, where the
/// record of calls is full, or where a write ends past the room. A call that fails changes neither file.
#[derive(Drop)]
pub struct MemoryDisk {
    alloc: Global,
    name: String,
    first_db: Vec<u8>,
    first_journal: Vec<u8>,
    files: Buffers,
    steps: Vec<Call>,
    spare: Vec<Vec<u8>>,
    calls: usize,
    made: u64,
    fails: Vec<u64>,
    was_called: bool,
    is_open: bool,
    read_faults: u64,
    write_faults: u64,
}

impl Model for MemoryDisk {
    ghost Value = { Memory };

    ghost view = { λ d. record {
      name = string_bytes d.name;
      files = d.files.files;
      first = record { db = d.first_db.items; journal = d.first_journal.items };
      steps = newest_first d.steps.items;
      grows = d.files.grows;
      room = d.files.room;
      calls = d.calls;
      made = d.made;
      fails = d.fails.items;
      called = d.was_called;
      opened = d.is_open;
      read_faults = d.read_faults;
      write_faults = d.write_faults;
    } };

    ghost invariant = { λ d. HoldsCalls d.files.grows d.calls d.made (newest_first d.steps.items) (vec_len d.steps) (vec_len d.spare) (vec_capacity d.steps)
        × AllByRecursion (IsSpare d.files.room) d.spare.items
        × MayLeave (record { db = d.first_db.items; journal = d.first_journal.items }) (newest_first d.steps.items) d.files.files };
}

impl MemoryDisk {
    /// A disk that takes the name `name` alone. It reserves `room` bytes for each file, and a record of
    /// `calls` calls.
    pub fn new(
        alloc: Global,
        name: &str,
        db: &[u8],
        journal: &[u8],
        room: usize,
        calls: usize,
        fails: &[u64],
    ) -> Result<MemoryDisk, AllocError>
        requires db { length db.now ≤ room }
        requires journal { length journal.now ≤ room }
        ensures { IfOk result (λ disk. disk ≡ fresh name.now (record { db = db.now; journal = journal.now }) room calls fails.now) }
    {
        Ok(MemoryDisk {
            alloc,
            name: String::from_str(alloc, name)?,
            first_db: Vec::from_slice(alloc, db)?,
            first_journal: Vec::from_slice(alloc, journal)?,
            files: Buffers::new(alloc, db, journal, room)?,
            steps: Vec::with_capacity(alloc, calls)?,
            spare: spares(alloc, room, calls)?,
            calls,
            made: 0,
            fails: Vec::from_slice(alloc, fails)?,
            was_called: false,
            is_open: false,
            read_faults: 0,
            write_faults: 0,
        })
    }

    /// A disk that takes the name `name` alone, and whose room and record of calls grow.
    pub fn growing(
        alloc: Global,
        name: &str,
        db: &[u8],
        journal: &[u8],
    ) -> Result<MemoryDisk, AllocError>
        ensures { IfOk result (λ disk. disk ≡ fresh_growing name.now (record { db = db.now; journal = journal.now })) }
    {
        Ok(MemoryDisk {
            alloc,
            name: String::from_str(alloc, name)?,
            first_db: Vec::from_slice(alloc, db)?,
            first_journal: Vec::from_slice(alloc, journal)?,
            files: Buffers::growing(alloc, db, journal)?,
            steps: Vec::new(alloc),
            spare: Vec::new(alloc),
            calls: 0,
            made: 0,
            fails: Vec::new(alloc),
            was_called: false,
            is_open: false,
            read_faults: 0,
            write_faults: 0,
        })
    }

    /// All bytes of a file.
    pub fn bytes(&self, which: Which) -> &[u8]
        ensures bytes { result.now ≡ file which self.now.files }
        ensures left { LeftOf which (file which self.now.first) self.now.steps result.now }
    {
        self.files.bytes(which)
    }

    /// Files that a crash now may leave: with the choice 0 what the last sync of each made durable, with 1
    /// what a read gives, and with any other all that is pending filled with zeros (2) or with d9, at the
    /// greatest length since then.
    pub fn stopped(&self, choice: u8) -> Result<(Vec<u8>, Vec<u8>), AllocError>
        ensures db { IfOk result (λ files. files.0.items ≡ stopped_file choice Which.Db self.now) }
        ensures journal { IfOk result (λ files. files.1.items ≡ stopped_file choice Which.Journal self.now) }
        ensures left { IfOk result (λ files. MayLeave self.now.first self.now.steps (record { db = files.0.items; journal = files.1.items })) }
    {
        Ok((
            self.stopped_file(Which::Db, choice)?,
            self.stopped_file(Which::Journal, choice)?,
        ))
    }

    fn stopped_file(&self, which: Which, choice: u8) -> Result<Vec<u8>, AllocError>
        ensures bytes { IfOk result (λ bytes. bytes.items ≡ stopped_file choice which self.now) }
        ensures left { IfOk result (λ bytes. LeftOf which (file which self.now.first) self.now.steps bytes.items) }
    {
        let now = self.bytes(which);
        self.chosen_file(which, choice, now)
    }

    /// The file of this choice, of which a read gives these bytes now.
    fn chosen_file(&self, which: Which, choice: u8, now: &[u8]) -> Result<Vec<u8>, AllocError>
        requires { now.now ≡ file which self.now.files }
        ensures { IfOk result (λ bytes. bytes.items ≡ stopped_file choice which self.now) }
    {
        let first = self.first_bytes(which);
        match choice {
            0 => synced(self.alloc, which, first, &self.steps),
            1 => Vec::from_slice(self.alloc, now),
            2 => filled(self.alloc, which, first, &self.steps, 0),
            _ => filled(self.alloc, which, first, &self.steps, 0xd9),
        }
    }

    fn first_bytes(&self, which: Which) -> &[u8]
        ensures { result.now ≡ file which self.now.first }
    {
        match which {
            Which::Db => self.first_db.as_slice(),
            Which::Journal => self.first_journal.as_slice(),
        }
    }

    /// Whether the record of calls has no place for one more.
    fn is_full(&self) -> bool
        ensures { result ≡ (not self.now.grows && nat_le self.now.calls self.now.made) }
    {
        !self.files.grow() && self.calls as u64 <= self.made
    }

    /// Whether a write ends past the room.
    fn is_past_room(&self, end: usize) -> bool
        ensures { result ≡ (not self.now.grows && nat_lt self.now.room end) }
    {
        !self.files.grow() && self.files.room() < end
    }

    /// Counts a call, and its fault where it fails: because it is `unfit`, or refused whatever it is.
    fn count(&mut self, way: Way, unfit: bool) -> Result<(), Failed>
        ensures outcome { is_err result ≡ (refuses self.old || unfit) }
        ensures slot { OnOk result (HasSlot self.new) }
        ensures after { self.new ≡ counted way (refuses self.old || unfit) self.old }
    {
        let failed = self.fails.contains(&self.made) || self.is_full() || unfit;
        self.made = self.made.saturating_add(1);
        if !failed {
            return Ok(());
        }
        Err(match way {
            Way::Read => raise(&mut self.read_faults),
            Way::Write => raise(&mut self.write_faults),
        })
    }

    /// Writes a piece, and keeps where it stands.
    fn overlay(&mut self, which: Which, at: usize, piece: &[u8]) -> Result<(), AllocError>
        requires end { at + length piece.now < 2 ^ 64 }
        requires room { self.old.grows ≡ false → at + length piece.now ≤ self.old.room }
        requires slot { HasSlot self.old }
        ensures succeeds { self.old.grows ≡ false → IsOk result }
        ensures written { OnOk result (self.new ≡ noted which (Wrote at (at + length piece.now)) (with_bytes which (overwritten (file which self.old.files) at piece.now) self.old)) }
        ensures kept { OnErr result (self.new ≡ self.old) }
    {
        self.steps.reserve(1)?;
        self.files.overlay(which, at, piece)?;
        keep(&mut self.steps, which, Change::Wrote(at, at + piece.len()));
        Ok(())
    }

    /// Shortens a file, and keeps its new length.
    fn truncate(&mut self, which: Which, len: usize) -> Result<(), AllocError>
        requires { HasSlot self.old }
        ensures succeeds { self.old.grows ≡ false → IsOk result }
        ensures cut { OnOk result (self.new ≡ noted which (Cut len) (with_bytes which (take len (file which self.old.files)) self.old)) }
        ensures kept { OnErr result (self.new ≡ self.old) }
    {
        self.steps.reserve(1)?;
        self.files.truncate(which, len);
        keep(&mut self.steps, which, Change::Cut(len));
        Ok(())
    }

    /// Keeps what a read gives of a file as durable.
    fn seal(&mut self, which: Which) -> Result<(), AllocError>
        requires { HasSlot self.old }
        ensures succeeds { self.old.grows ≡ false → IsOk result }
        ensures crash { NoMore (MayLeave self.old.first self.old.steps) (MayLeave self.new.first self.new.steps) }
        ensures sealed { OnOk result (self.new ≡ noted which (Synced (file which self.old.files)) self.old) }
        ensures kept { OnErr result (self.new ≡ self.old) }
    {
        self.steps.reserve(1)?;
        let bytes = self.files.bytes(which);
        let synced = copied(self.alloc, self.files.room(), &mut self.spare, bytes)?;
        keep(&mut self.steps, which, Change::Synced(synced));
        Ok(())
    }
}

impl Disk for MemoryDisk {
    ghost label = { λ d. Some d.name };

    ghost called = { λ d. d.called };

    ghost opened = { λ d. d.opened };

    ghost files = { λ d. Some d.files };

    ghost may_leave = { λ d. MayLeave d.first d.steps };

    ghost moment = { λ d. length d.steps };

    ghost left_since = { λ d. LeftSince d.first d.steps };

    ghost read_faults = { λ d. d.read_faults };

    ghost write_faults = { λ d. d.write_faults };

    ghost counts_now = { λ d t c le now. now_counts d.first d.steps t c le now };

    ghost only_now = { λ d c left. only_now d.first d.steps c left };

    ghost tells = { λ d c left. refl };

    fn open(&mut self, name: &str) -> Result<(), OpenFault>
        requires first { self.old.called ≡ false }
        requires name { name.now ≡ self.old.name }
        ensures failed { is_err result ≡ refuses self.old }
        ensures no_memory { IfErr result (λ fault. fault ≡ OpenFault.Failed) }
        ensures after { self.new ≡ after_open self.old }
    {
        self.was_called = true;
        self.is_open = false;
        self.count(Way::Read, false)?;
        self.is_open = true;
        Ok(())
    }

    fn len(&mut self, which: Which) -> Result<u64, Failed>
        ensures failed { is_err result ≡ refuses self.old }
        ensures len { IfOk result (λ n. n ≡ length (file which self.old.files)) }
        ensures after { self.new ≡ after_call Way.Read self.old }
    {
        self.count(Way::Read, false)?;
        Ok(self.bytes(which).len() as u64)
    }

    fn read(&mut self, which: Which, at: u64, buf: &mut [u8]) -> Result<usize, Failed>
        ensures failed { is_err result ≡ refuses self.old }
        ensures read { IfOk result (λ n. ReadsAt (file which self.old.files) at n buf.old buf.new) }
        ensures after { self.new ≡ after_call Way.Read self.old }
    {
        self.count(Way::Read, false)?;
        Ok(copy_front(rest_from(self.bytes(which), at), buf))
    }

    #[tactic(auto, using(crate::proofs::Pending::write_crash))]
    fn write(&mut self, which: Which, at: u64, bytes: &[u8]) -> Result<(), Failed>
        requires { at + length bytes.now ≤ 2 ^ 30 }
        ensures failed { Fails (refuses_write at (length bytes.now) self.old) self.old (is_err result) }
        ensures crash { (c : Files) → MayLeave self.new.first self.new.steps c → After (ChangesOne which (Torn at (length bytes.now))) (MayLeave self.old.first self.old.steps) c }
        ensures after { self.new ≡ after_write (is_err result) which at bytes.now self.old }
    {
        let at = at as usize;
        self.count(Way::Write, self.is_past_room(at + bytes.len()))?;
        if self.overlay(which, at, bytes).is_err() {
            return Err(raise(&mut self.write_faults));
        }
        Ok(())
    }

    #[tactic(auto, using(crate::proofs::Pending::cut_crash))]
    fn cut(&mut self, which: Which, len: u64) -> Result<(), Failed>
        requires { len ≤ length (file which self.old.files) }
        ensures failed { Fails (refuses self.old) self.old (is_err result) }
        ensures crash { (c : Files) → MayLeave self.new.first self.new.steps c → After (ChangesOne which (CutShort len)) (MayLeave self.old.first self.old.steps) c }
        ensures after { self.new ≡ after_cut (is_err result) which len self.old }
    {
        self.count(Way::Write, false)?;
        if self.truncate(which, len as usize).is_err() {
            return Err(raise(&mut self.write_faults));
        }
        Ok(())
    }

    fn sync(&mut self, which: Which) -> Result<(), Failed>
        ensures failed { Fails (refuses self.old) self.old (is_err result) }
        ensures crash { NoMore (MayLeave self.old.first self.old.steps) (MayLeave self.new.first self.new.steps) }
        ensures after { self.new ≡ after_sync (is_err result) which self.old }
    {
        self.count(Way::Write, false)?;
        if self.seal(which).is_err() {
            return Err(raise(&mut self.write_faults));
        }
        Ok(())
    }
}

/// What stands from a place on, which may lie past the end.
fn rest_from(bytes: &[u8], at: u64) -> &[u8]
    ensures { result.now ≡ drop at bytes.now }
{
    if at < bytes.len() as u64 {
        &bytes[at as usize..]
    } else {
        &[]
    }
}

/// So many empty buffers of `room` bytes.
fn spares(alloc: Global, room: usize, count: usize) -> Result<Vec<Vec<u8>>, AllocError>
    ensures spare { IfOk result (λ v. AllByRecursion (IsSpare room) v.items) }
    ensures count { IfOk result (λ v. vec_len v ≡ count) }
{
    let mut buffers = Vec::with_capacity(alloc, count)?;
    for _ in 0..count {
        buffers.push(Vec::with_capacity(alloc, room)?)?;
    }
    Ok(buffers)
}

/// An empty buffer for `room` bytes: a spare one, where there is any.
fn buffer_of(alloc: Global, room: usize, spare: &mut Vec<Vec<u8>>) -> Result<Vec<u8>, AllocError>
    requires { AllByRecursion (IsSpare room) spare.old.items }
    ensures buffer { IfOk result (λ buffer. IsSpare room buffer) }
    ensures succeeds { 0 < vec_len spare.old → IsOk result }
    ensures spare { AllByRecursion (IsSpare room) spare.new.items }
    ensures count { vec_len spare.old ≤ vec_len spare.new + 1 }
{
    match spare.pop() {
        Some(buffer) => Ok(buffer),
        None => Vec::with_capacity(alloc, room),
    }
}

/// Bytes in a buffer of their own, which needs no memory where they fit a spare one.
fn copied(
    alloc: Global,
    room: usize,
    spare: &mut Vec<Vec<u8>>,
    bytes: &[u8],
) -> Result<Vec<u8>, AllocError>
    requires { AllByRecursion (IsSpare room) spare.old.items }
    ensures copied { IfOk result (λ copy. copy.items ≡ bytes.now) }
    ensures failed { OnErr result ((vec_len spare.old ≡ 0) ⊎ (room < length bytes.now)) }
    ensures spare { AllByRecursion (IsSpare room) spare.new.items }
    ensures count { vec_len spare.old ≤ vec_len spare.new + 1 }
{
    let mut buffer = buffer_of(alloc, room, spare)?;
    buffer.extend_from_slice(bytes)?;
    Ok(buffer)
}
