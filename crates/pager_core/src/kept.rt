//! The pages that were read or changed, by their numbers.
ghost use Rattle.std.specs.Prelude.{◌≡◌, ◌≤◌, ◌<◌, ◌+◌, ◌-◌, ◌*◌, ◌^◌, true, false, Some, length, option_copied, IfOk, IfSome, IsSome, OnOk, is_some, take, map, slice_set, slice_index_or};
ghost use Rattle.pager_core.specs.Shape.{IsShape};
ghost use Rattle.pager_core.specs.Kept.{AddsUnread};
ghost use Rattle.pager_core.specs.Slots.{HasRoom, changed_slot, forgotten, is_changed_in, settled, shown_in};

use crate::file_shape::FileShape;
use crate::slot::Slot;
use alter_bytes::Bytes;
use std::alloc::{AllocError, Global};
use std::marker::Model;

/// What is kept of each page stands at its number, so that it is found at once. Place 0 stays empty.
#[derive(Drop)]
pub(crate) struct Kept {
    shape: FileShape,
    before: u32,
    slots: Vec<Slot>,
}

impl Model for Kept {
    ghost use Rattle.pager_core.specs.Kept.{KeptPages, AreKept};

    ghost Value = { KeptPages };

    ghost view = { λ k. record { shape = k.shape; before = k.before; slots = k.slots.items } };

    ghost invariant = { λ k. AreKept (record { shape = k.shape; before = k.before; slots = k.slots.items }) };
}

impl Kept {
    ghost use Rattle.pager_core.specs.Kept.{CountsAdded, Forgets, KeepsAll, Puts, Settles, changed_pages, slot_of, unread};

    pub(crate) fn new(alloc: Global, shape: FileShape) -> Kept
        requires { IsShape shape }
        ensures { result ≡ unread shape }
    {
        Kept {
            shape,
            before: shape.count,
            slots: Vec::new(alloc),
        }
    }

    pub(crate) fn shape(&self) -> FileShape
        ensures shape { result ≡ self.now.shape }
        ensures sound { IsShape result }
    {
        self.shape
    }

    pub(crate) fn before(&self) -> u32
        ensures before { result ≡ self.now.before }
        ensures within { (1 ≤ result) × (result ≤ self.now.shape.count) }
        ensures added { CountsAdded self.now }
    {
        self.before
    }

    pub(crate) fn allocator(&self) -> Global {
        *self.slots.allocator()
    }

    /// The bytes of a page that was read.
    pub(crate) fn shown(&self, n: u32) -> Option<&[u8]>
        ensures shown { option_copied result ≡ shown_in (slot_of self.now n) }
        ensures extent { IfSome result (λ bytes. length bytes.now ≡ self.now.shape.page) }
        ensures number { IfSome result (λ _. (1 ≤ n) × (n ≤ self.now.shape.count)) }
    {
        shown_at(self.slots.as_slice(), n as usize)
    }

    /// Whether page `n` was read or changed.
    pub(crate) fn is_shown(&self, n: u32) -> bool
        ensures { result ≡ is_some (shown_in (slot_of self.now n)) }
    {
        self.shown(n).is_some()
    }

    pub(crate) fn is_changed(&self, n: u32) -> bool
        ensures { result ≡ is_changed_in (slot_of self.now n) }
    {
        is_changed_at(self.slots.as_slice(), n as usize)
    }

    /// How many pages count as changed.
    pub(crate) fn dirty(&self) -> usize
        ensures { result ≡ changed_pages self.now }
    {
        self.slots.iter().filter(|slot| slot.is_changed()).count()
    }

    /// Makes room for what is to be kept of page `n`.
    pub(crate) fn reserve(&mut self, n: u32) -> Result<(), AllocError>
        requires { n ≤ self.old.shape.count }
        ensures there { OnOk result (n < length self.new.slots) }
        ensures kept { KeepsAll self.old self.new }
    {
        fill(&mut self.slots, n as usize + 1)
    }

    /// Keeps a page as it was read.
    pub(crate) fn keep(&mut self, n: u32, bytes: Vec<u8>)
        requires some { 1 ≤ n }
        requires there { n < length self.old.slots }
        requires unread { is_some (shown_in (slot_of self.old n)) ≡ false }
        requires extent { length bytes.items ≡ self.old.shape.page }
        ensures { Puts n (Slot.Same bytes.items) self.old self.new }
    {
        self.slots[n as usize] = Slot::Same(Bytes::new(bytes));
    }

    /// Room for a copy of page `n`, or none where it was changed before.
    pub(crate) fn room_for(&self, n: u32) -> Result<Vec<u8>, AllocError>
        ensures { IfOk result (λ room. is_changed_in (slot_of self.now n) ≡ false → length room.items ≡ self.now.shape.page) }
    {
        if self.is_changed(n) {
            return Ok(Vec::new(self.allocator()));
        }
        let room = vec![in self.allocator(); 0u8; self.shape.page as usize]?;
        Ok(room)
    }

    /// Where a page that counts as changed stands in the database, and its bytes.
    pub(crate) fn placed(&self, n: u32) -> (u64, &[u8])
        requires { is_changed_in (slot_of self.now n) ≡ true }
        ensures place { result.0 ≡ (n - 1) * self.now.shape.page }
        ensures bytes { shown_in (slot_of self.now n) ≡ Some result.1.now }
        ensures page { (1 ≤ n) × (length result.1.now ≡ self.now.shape.page) }
        ensures end { result.0 + length result.1.now ≤ 2 ^ 30 }
    {
        let page = self.shape.page as u64;
        match self.shown(n) {
            Some(bytes) => ((n - 1) as u64 * page, bytes),
            None => (0, &[]),
        }
    }

    /// Writes `piece` into page `n`, which was read. Where it was not changed before, its copy is made in
    /// `room`.
    pub(crate) fn change(&mut self, n: u32, room: Vec<u8>, at: usize, piece: &[u8])
        requires shown { IsSome (shown_in (slot_of self.old n)) }
        requires room { is_changed_in (slot_of self.old n) ≡ false → length room.items ≡ self.old.shape.page }
        requires fits { at + length piece.now ≤ self.old.shape.page }
        ensures { Puts n (changed_slot at piece.now (slot_of self.old n)) self.old self.new }
    {
        self.slots[n as usize].change(room, at, piece);
    }

    /// Drops all changes, and the pages that came with them.
    pub(crate) fn forget(&mut self)
        ensures { Forgets self.old self.new }
    {
        self.shape.count = self.before;
        self.slots.truncate(self.before as usize + 1);
        forget_all(&mut self.slots);
    }

    /// Counts no page as changed any more.
    pub(crate) fn settle(&mut self)
        ensures { Settles self.old self.new }
    {
        self.before = self.shape.count;
        settle_all(&mut self.slots);
    }
}

/// The bytes at a place, if there are some.
fn shown_at(slots: &[Slot], n: usize) -> Option<&[u8]>
    ensures { option_copied result ≡ shown_in (slice_index_or slots.now n Slot.Unread) }
{
    if n < slots.len() {
        slots[n].shown()
    } else {
        None
    }
}

fn is_changed_at(slots: &[Slot], n: usize) -> bool
    ensures { result ≡ is_changed_in (slice_index_or slots.now n Slot.Unread) }
{
    n < slots.len() && slots[n].is_changed()
}

/// Adds empty places up to `len`.
fn fill(slots: &mut Vec<Slot>, len: usize) -> Result<(), AllocError>
    ensures there { OnOk result (len ≤ length slots.new.items) }
    ensures empty { AddsUnread len slots.old.items slots.new.items }
{
    while slots.len() < len {
        slots.push(Slot::Unread)?;
    }
    Ok(())
}

fn forget_all(slots: &mut Vec<Slot>)
    ensures { slots.new.items ≡ map forgotten slots.old.items }
{
    for n in 0..slots.len() {
        slots[n].forget();
    }
}

fn settle_all(slots: &mut Vec<Slot>)
    ensures { slots.new.items ≡ map settled slots.old.items }
{
    for n in 0..slots.len() {
        slots[n].settle();
    }
}
