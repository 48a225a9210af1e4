ghost use Rattle.std.specs.Prelude.{◌≡◌, ◌≤◌, true, false, IfSome};
ghost use Rattle.pager_core.specs.Pages.{disk_of, shape_of};

use crate::Plan;
use alter_disk::{Disk, FuseDisk, MemoryDisk, Which};
use pager_core::{FileShape, PageError, Pages};
use rollback_journal::recover;
use std::alloc::{AllocError, Global};
use std::test::Fail;

/// A page of 512 bytes: a hundred of a header, and others of one value.
fn page(header: &[u8; 100], fill: u8) -> [u8; 512] {
    let mut page = [fill; 512];
    page[..100].copy_from_slice(header);
    page
}

/// A database of three pages, whose page 1 says so.
fn database(alloc: Global, fills: [u8; 3]) -> Result<Vec<u8>, AllocError> {
    let [first, second, third] = fills;
    let mut header = [0; 100];
    header[16] = 2;
    header[27] = 7;
    header[31] = 3;
    header[95] = 7;
    let mut bytes = Vec::new(alloc);
    bytes.extend_from_slice(&page(&header, first))?;
    bytes.extend_from_slice(&page(&[0; 100], second))?;
    bytes.extend_from_slice(&page(&[0; 100], third))?;
    Ok(bytes)
}

/// Changes page 1, or all pages, and commits that.
fn change_and_commit<D: Disk>(
    alloc: Global,
    pages: &mut Pages<D>,
    all: bool,
) -> Result<(), PageError>
    requires called { D.called (disk_of pages.old) ≡ true }
    requires page { (shape_of pages.old).page ≡ 512 }
    requires count { 3 ≤ (shape_of pages.old).count }
{
    pages.change(1, 100, &[8; 412])?;
    if all {
        pages.change(2, 100, &[8; 412])?;
        pages.change(3, 100, &[8; 412])?;
    }
    let plan = Plan::prepare(alloc, pages)?;
    plan.commit(pages)?;
    Ok(())
}

/// Opens the disk of a database of so many pages and commits the changes. Says whether all of that succeeded.
fn run<D: Disk>(alloc: Global, mut disk: D, name: &str, count: u32, all: bool) -> (D, bool)
    requires first { D.called disk ≡ false }
    requires name { IfSome (D.label disk) (λ known. name.now ≡ known) }
    requires some { 3 ≤ count }
    requires few { count ≤ 65536 }
{
    if disk.open(name).is_err() {
        return (disk, false);
    }
    let shape = FileShape {
        page: 512,
        usable: 512,
        count,
        format: 4,
    };
    let mut pages = Pages::new(alloc, disk, shape);
    let done = change_and_commit(alloc, &mut pages, all).is_ok();
    (pages.into_disk(), done)
}

/// Opens a disk, syncs both files, so that nothing is pending, and recovers.
fn open_and_recover<D: Disk>(alloc: Global, disk: &mut D, name: &str) -> bool
    requires first { D.called disk.old ≡ false }
    requires name { IfSome (D.label disk.old) (λ known. name.now ≡ known) }
{
    if disk.open(name).is_err() {
        return false;
    }
    if disk.sync(Which::Db).is_err() || disk.sync(Which::Journal).is_err() {
        return false;
    }
    recover(alloc, disk).is_ok()
}

#[test]
fn a_stop_leaves_the_pages_before_or_after(rt: HostRuntime) -> Result<(), Fail> {
    let alloc = rt.alloc();
    let before = database(alloc, [1, 2, 3])?;
    for (all, fills) in [(false, [8, 2, 3]), (true, [8, 8, 8])] {
        let after = database(alloc, fills)?;
        let mut ended = false;
        for k in 0..30 {
            let inner = MemoryDisk::growing(alloc, "a.db", &before, &[])?;
            let (fuse, done) = run(alloc, FuseDisk::new(inner, k), "a.db", 3, all);
            for choice in 0..4 {
                let (db, journal) = fuse.inner().stopped(choice)?;
                let mut disk = MemoryDisk::growing(alloc, "a.db", &db, &journal)?;
                assert!(rt; open_and_recover(alloc, &mut disk, "a.db"));
                let left = disk.bytes(Which::Db);
                let old = !done && left == before.as_slice();
                assert!(rt; old || left == after.as_slice(), "{k} {choice}");
            }
            ended = done;
        }
        assert!(rt; ended);
    }
    Ok(())
}

#[test]
fn a_large_file_takes_no_more_calls(rt: HostRuntime) -> Result<(), Fail> {
    let alloc = rt.alloc();
    let mut bytes = database(alloc, [1, 2, 3])?;
    let mut calls = 0;
    for k in 0..30 {
        let inner = MemoryDisk::growing(alloc, "a.db", &bytes, &[])?;
        let (_, done) = run(alloc, FuseDisk::new(inner, k), "a.db", 3, false);
        if !done {
            calls = k + 1;
        }
    }
    bytes.resize(65536 * 512, 0)?;
    let inner = MemoryDisk::growing(alloc, "a.db", &bytes, &[])?;
    let (_, done) = run(alloc, FuseDisk::new(inner, calls), "a.db", 65536, false);
    assert!(rt; done && calls < 30, "{calls} calls");
    Ok(())
}
