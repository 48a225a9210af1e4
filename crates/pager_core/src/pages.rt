//! The pages of a file over its disk.
ghost use Rattle.std.specs.Prelude.{◌≡◌, ◌≤◌, ◌+◌, ◌-◌, ◌*◌, ◌^◌, ◌++◌, ◌<◌, true, false, length, take, drop, replicate, Some, IfOk, OnOk, OnErr, IsSome, IsSomeAnd, ⊤};
ghost use Rattle.alter_disk.specs.Changes.{IfTold, Torn, TornIn, Written};
ghost use Rattle.alter_disk.specs.Faults.{HasCause, HasCauseOf};
ghost use Rattle.alter_disk.specs.Rest.{KeepsRest};
ghost use Rattle.alter_disk.specs.Moments.{ChangesFile, ReadsQuietly};
ghost use Rattle.pager_core.specs.Shape.{IsShape};
ghost use Rattle.pager_core.specs.Pages.{ChangesPage, CountsAdded, ForgetsChanges, IsPage, KeepsKnown, KeepsNoMore, KeepsOthers, SettlesChanges, StayAll, before_of, bytes_of, dirty_of, disk_of, is_changed, page_bytes, place_of, shape_of, shown, unread_pages, with_disk};
ghost use Rattle.pager_core.specs.contracts.pages.Pages.{the_row};
ghost use Rattle.std.specs.Borrow.{Lends, follows_so, sem};
ghost use mathlib.Core.Option.{none};

use crate::error::PageError;
use crate::file_shape::FileShape;
use crate::kept::Kept;
use alter_disk::{Disk, Failed, Which};
use std::alloc::Global;

/// The pages of a file, by their numbers from 1, and the disk that they own.
///
/// A page that was asked for is read once and kept, so it is the same until it is changed, whatever the disk
/// does later. No other page is read or kept.
#[derive(Drop)]
pub struct Pages<D: Disk> {
    disk: D,
    kept: Kept,
}

impl<D: Disk> Pages<D> {
    /// The pages of a file of this shape. It calls no method of the disk.
    pub fn new(alloc: Global, disk: D, shape: FileShape) -> Pages<D>
        requires { IsShape shape }
        ensures { result ≡ unread_pages disk shape }
    {
        Pages {
            disk,
            kept: Kept::new(alloc, shape),
        }
    }

    pub fn into_disk(self) -> D
        ensures { result ≡ disk_of self }
    {
        self.disk
    }

    /// How many pages there are.
    pub fn count(&self) -> u32
        ensures { result ≡ (shape_of self.now).count }
    {
        self.kept.shape().count
    }

    /// How many pages there were before the changes.
    pub fn before(&self) -> u32
        ensures before { result ≡ before_of self.now }
        ensures within { (1 ≤ result) × (result ≤ (shape_of self.now).count) }
        ensures added { CountsAdded self.now }
    {
        self.kept.before()
    }

    pub fn shape(&self) -> FileShape
        ensures shape { result ≡ shape_of self.now }
        ensures sound { IsShape result }
    {
        self.kept.shape()
    }

    /// How many pages count as changed.
    pub fn dirty(&self) -> usize
        ensures { result ≡ dirty_of self.now }
    {
        self.kept.dirty()
    }

    /// Whether page `n` counts as changed.
    pub fn changed(&self, n: u32) -> bool
        requires { IsPage self.now n }
        ensures { result ≡ is_changed self.now n }
    {
        self.kept.is_changed(n)
    }

    /// Reads page `n`, if it was not read or changed before.
    pub fn load(&mut self, n: u32) -> Result<(), PageError>
        requires called { D.called (disk_of self.old) ≡ true }
        requires number { IsPage self.old n }
        ensures there { OnOk result (IsSome (shown self.new n)) }
        ensures stay { StayAll D.Disk self.old self.new }
        ensures none { OnErr result (KeepsNoMore self.old self.new) }
        ensures others { KeepsOthers n self.old self.new }
        ensures again { IsSome (shown self.old n) → self.new ≡ self.old }
        ensures cause { HasCauseOf PageError.Failed (D.read_faults (disk_of self.old)) (D.read_faults (disk_of self.new)) result }
    {
        if self.kept.is_shown(n) {
            return Ok(());
        }
        self.kept.reserve(n)?;
        let page = self.kept.shape().page;
        let bytes = read_page(self.kept.allocator(), &mut self.disk, page, n)?;
        self.kept.keep(n, bytes);
        Ok(())
    }

    /// Page `n`, which was read or changed.
    pub fn loaded(&self, n: u32) -> &[u8]
        requires { IsSome (shown self.now n) }
        ensures bytes { shown self.now n ≡ Some result.now }
        ensures extent { length result.now ≡ (shape_of self.now).page }
    {
        match self.kept.shown(n) {
            Some(bytes) => bytes,
            None => &[],
        }
    }

    /// Page `n`. It is read, if it was not read or changed before.
    pub fn page(&mut self, n: u32) -> Result<&[u8], PageError>
        requires called { D.called (disk_of self.old) ≡ true }
        requires number { IsPage self.old n }
        ensures* after { sem 𝓛 (follows_so (the_row D.row) (the_row D.row) self.entry.ghost_name none (λ _ _. ⊤)
            (λ now. StayAll D.Disk self.old now × IfOk result (λ bytes. (shown now n ≡ Some bytes.now) × (length bytes.now ≡ (shape_of now).page))
            × OnErr result (KeepsNoMore self.old now) × (IsSome (shown self.old n) → now ≡ self.old)
            × HasCauseOf PageError.Failed (D.read_faults (disk_of self.old)) (D.read_faults (disk_of now)) result
            × KeepsOthers n self.old now)) }
    {
        self.load(n)?;
        Ok(self.loaded(n))
    }

    /// Writes `bytes` into page `n` from `at` on.
    pub fn change(&mut self, n: u32, at: usize, bytes: &[u8]) -> Result<(), PageError>
        requires called { D.called (disk_of self.old) ≡ true }
        requires number { IsPage self.old n }
        requires fits { at + length bytes.now ≤ (shape_of self.old).page }
        ensures changed { OnOk result (ChangesPage D.Disk n at bytes.now self.old self.new) }
        ensures stay { OnErr result (StayAll D.Disk self.old self.new) }
        ensures none { OnErr result (KeepsNoMore self.old self.new) }
        ensures others { KeepsOthers n self.old self.new }
        ensures cause { HasCauseOf PageError.Failed (D.read_faults (disk_of self.old)) (D.read_faults (disk_of self.new)) result }
    {
        let room = self.kept.room_for(n)?;
        self.load(n)?;
        self.kept.change(n, room, at, bytes);
        Ok(())
    }

    /// Page `n` as it stands in the database, without its changes. Nothing of it is kept.
    pub fn stored(&mut self, n: u32) -> Result<Vec<u8>, PageError>
        requires called { D.called (disk_of self.old) ≡ true }
        requires number { IsPage self.old n }
        ensures sound { IsShape (shape_of self.old) }
        ensures extent { IfOk result (λ bytes. length bytes.items ≡ (shape_of self.old).page) }
        ensures told { IfOk result (λ bytes. IfTold (D.files (disk_of self.old)) (λ files. bytes.items ≡ page_bytes (shape_of self.old).page n files.db)) }
        ensures kept { self.new ≡ with_disk self.old (disk_of self.new) }
        ensures reads { ReadsQuietly D.Disk (disk_of self.old) (disk_of self.new) }
        ensures cause { HasCauseOf PageError.Failed (D.read_faults (disk_of self.old)) (D.read_faults (disk_of self.new)) result }
    {
        let page = self.kept.shape().page;
        read_page(self.kept.allocator(), &mut self.disk, page, n)
    }

    /// Drops all changes.
    pub fn forget(&mut self)
        ensures { ForgetsChanges D.Disk self.old self.new }
    {
        self.kept.forget();
    }

    /// Counts no page as changed any more.
    pub fn settle(&mut self)
        ensures { SettlesChanges D.Disk self.old self.new }
    {
        self.kept.settle();
    }

    /// The disk. The pages that were read or changed stay as they are.
    pub fn disk(&mut self) -> &mut D
        ensures* writes_back { sem 𝓛 (Lends (the_row D.row) D.row self.entry result (λ disk. with_disk self.old disk)) }
        ensures disk { result.now ≡ disk_of self.old }
    {
        &mut self.disk
    }

    /// Writes page `n`, which counts as changed, at its place in the database, by one write.
    pub fn write_back(&mut self, n: u32) -> Result<(), Failed>
        requires called { D.called (disk_of self.old) ≡ true }
        requires changed { is_changed self.old n ≡ true }
        ensures written { OnOk result (Written Which.Db (place_of self.old n) (bytes_of self.old n) (D.files (disk_of self.old)) (D.files (disk_of self.new))) }
        ensures torn { OnErr result (TornIn Which.Db (place_of self.old n) (length (bytes_of self.old n)) (D.files (disk_of self.old)) (D.files (disk_of self.new))) }
        ensures page { (1 ≤ n) × (length (bytes_of self.old n) ≡ (shape_of self.old).page) }
        ensures kept { self.new ≡ with_disk self.old (disk_of self.new) }
        ensures known { OnOk result (KeepsKnown D.Disk self.old self.new) }
        ensures changes { ChangesFile D.Disk Which.Db (Torn (place_of self.old n) (length (bytes_of self.old n))) (disk_of self.old) (disk_of self.new) }
        ensures rest { KeepsRest D.label D.called D.opened D.read_faults (disk_of self.old) (disk_of self.new) }
        ensures cause { HasCause (D.write_faults (disk_of self.old)) (D.write_faults (disk_of self.new)) result }
    {
        let (at, bytes) = self.kept.placed(n);
        self.disk.write(Which::Db, at, bytes)
    }
}

/// Reads a page of the database. Bytes that the disk does not give count as zero.
fn read_page<D: Disk>(alloc: Global, disk: &mut D, page: u32, n: u32) -> Result<Vec<u8>, PageError>
    requires called { D.called disk.old ≡ true }
    requires some { 1 ≤ n }
    requires place { n * page ≤ 2 ^ 30 }
    ensures extent { IfOk result (λ bytes. length bytes.items ≡ page) }
    ensures told { IfOk result (λ bytes. IfTold (D.files disk.old) (λ files. bytes.items ≡ page_bytes page n files.db)) }
    ensures reads { ReadsQuietly D.Disk disk.old disk.new }
    ensures cause { HasCauseOf PageError.Failed (D.read_faults disk.old) (D.read_faults disk.new) result }
{
    let mut bytes = vec![in alloc; 0u8; page as usize]?;
    let at = (n - 1) as u64 * page as u64;
    let len = disk.read(Which::Db, at, bytes.as_mut_slice())?;
    bytes.truncate(len);
    bytes.resize(page as usize, 0)?;
    Ok(bytes)
}
