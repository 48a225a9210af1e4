ghost use Rattle.std.specs.Prelude.{◌≡◌, true, IfOk};
ghost use Rattle.pager_core.specs.Pages.{disk_of, shape_of};

use crate::{WalkError, tree_pages};
use alter_disk::{Disk, MemoryDisk};
use pager_core::{FileShape, Pages};
use std::alloc::Global;
use std::test::Fail;

/// The number of pages of the files of these tests.
const COUNT: u32 = 24;

/// Bytes from a place of a file on.
type Piece<'a> = (usize, &'a [u8]);

/// Writes bytes from a place on.
fn put(db: &mut Vec<u8>, at: usize, bytes: &[u8]) -> Result<(), Fail> {
    let end = at.checked_add(bytes.len()).ok_or("no such place")?;
    if end > db.len() {
        return Err("no such place".into());
    }
    db[at..end].copy_from_slice(bytes);
    Ok(())
}

/// A file of pages of 512 zeros.
fn zeros(alloc: Global) -> Result<Vec<u8>, Fail> {
    Ok(vec![in alloc; 0u8; COUNT as usize * 512]?)
}

/// Such a file with pieces in it.
fn bytes(alloc: Global, pieces: &[Piece]) -> Result<Vec<u8>, Fail> {
    let mut db = zeros(alloc)?;
    for (at, piece) in pieces {
        put(&mut db, *at, piece)?;
    }
    Ok(db)
}

/// The pages of a file.
fn pages_of(alloc: Global, db: &[u8]) -> Result<Pages<MemoryDisk>, Fail>
    ensures { IfOk result (λ pages. ((disk_of pages).called ≡ true) × ((shape_of pages).count ≡ COUNT)) }
{
    let mut disk = MemoryDisk::new(alloc, "a.db", db, b"", db.len(), 99, &[])?;
    disk.open("a.db")?;
    let shape = FileShape {
        page: 512,
        usable: 512,
        count: COUNT,
        format: 4,
    };
    Ok(Pages::new(alloc, disk, shape))
}

/// The page at fault in the tree at page 2, or the number of its pages.
fn answer_of(alloc: Global, db: &[u8]) -> Result<Result<usize, u32>, Fail> {
    let mut pages = pages_of(alloc, db)?;
    match tree_pages(alloc, &mut pages, 2) {
        Ok(found) => Ok(Ok(found.len())),
        Err(WalkError::Corrupt(page)) => Ok(Err(page)),
        Err(_) => Err("a fault of reading or of memory".into()),
    }
}

/// The same of a file with these pieces.
fn answer(alloc: Global, pieces: &[Piece]) -> Result<Result<usize, u32>, Fail> {
    let db = bytes(alloc, pieces)?;
    answer_of(alloc, db.as_slice())
}

/// Where page 2 begins, and page 3, and so on.
const TWO: usize = 512;

const THREE: usize = 1024;

const FOUR: usize = 1536;

const FIVE: usize = 2048;

/// An interior page of a table tree, with one cell at 500 and page 4 as its right-most child.
const INNER: [u8; 14] = [5, 0, 0, 0, 1, 1, 244, 0, 0, 0, 0, 4, 1, 244];
/// The cell of its child 3, with the rowid 7.
const CHILD: [u8; 5] = [0, 0, 0, 3, 7];
/// A leaf page of a table tree without a cell, and one with a cell at 500.
const EMPTY: [u8; 8] = [13, 0, 0, 0, 0, 2, 0, 0];

const LEAF: [u8; 10] = [13, 0, 0, 0, 1, 1, 244, 0, 1, 244];

/// A leaf page of a table tree with a cell at 300.
const LONG: [u8; 10] = [13, 0, 0, 0, 1, 1, 44, 0, 1, 44];

#[test]
fn a_tree_of_two_levels(rt: HostRuntime) -> Result<(), Fail> {
    let cells = [
        (TWO, INNER.as_slice()),
        (TWO + 500, CHILD.as_slice()),
        (THREE, LEAF.as_slice()),
        (THREE + 500, [0, 7].as_slice()),
        (FOUR, LEAF.as_slice()),
        (FOUR + 500, [0, 8].as_slice()),
    ];
    let db = bytes(rt.alloc(), &cells)?;
    let mut pages = pages_of(rt.alloc(), db.as_slice())?;
    let found = tree_pages(rt.alloc(), &mut pages, 2)?;
    assert_eq!(rt; found.as_slice(), [2, 3, 4].as_slice());
    Ok(())
}

#[test]
fn rowids_stay_within_the_limits_of_their_parents(rt: HostRuntime) -> Result<(), Fail> {
    for (left, right, at) in [(7, 8, Ok(3)), (8, 9, Err(3)), (7, 7, Err(4))] {
        let rows = ([0, left], [0, right]);
        let cells = [
            (TWO, INNER.as_slice()),
            (TWO + 500, CHILD.as_slice()),
            (THREE, LEAF.as_slice()),
            (THREE + 500, rows.0.as_slice()),
            (FOUR, LEAF.as_slice()),
            (FOUR + 500, rows.1.as_slice()),
        ];
        assert_eq!(rt; answer(rt.alloc(), &cells)?, at);
    }
    Ok(())
}

#[test]
fn a_page_by_itself(rt: HostRuntime) -> Result<(), Fail> {
    let kind = [7, 0, 0, 0, 0, 2, 0, 0];
    let index = [10, 0, 0, 0, 0, 2, 0, 0];
    for (leaf, at) in [(kind, Err(3)), (index, Err(3)), (EMPTY, Ok(3))] {
        let cells = [
            (TWO, INNER.as_slice()),
            (TWO + 500, CHILD.as_slice()),
            (THREE, leaf.as_slice()),
            (FOUR, EMPTY.as_slice()),
        ];
        assert_eq!(rt; answer(rt.alloc(), &cells)?, at);
    }
    Ok(())
}

#[test]
fn links_of_a_page(rt: HostRuntime) -> Result<(), Fail> {
    for (child, at) in [
        (0, Err(2)),
        (25, Err(2)),
        (2, Err(2)),
        (4, Err(4)),
        (3, Ok(3)),
    ] {
        let cell = [0, 0, 0, child, 7];
        let cells = [
            (TWO, INNER.as_slice()),
            (TWO + 500, cell.as_slice()),
            (THREE, EMPTY.as_slice()),
            (FOUR, EMPTY.as_slice()),
        ];
        assert_eq!(rt; answer(rt.alloc(), &cells)?, at);
    }
    Ok(())
}

#[test]
fn a_leaf_is_as_deep_as_the_first(rt: HostRuntime) -> Result<(), Fail> {
    let deeper = [5, 0, 0, 0, 1, 1, 244, 0, 0, 0, 0, 6, 1, 244];
    let cells = [
        (TWO, INNER.as_slice()),
        (TWO + 500, CHILD.as_slice()),
        (THREE, EMPTY.as_slice()),
        (FOUR, deeper.as_slice()),
        (FOUR + 500, [0, 0, 0, 5, 9].as_slice()),
        (FIVE, EMPTY.as_slice()),
    ];
    assert_eq!(rt; answer(rt.alloc(), &cells)?, Err(5));
    let no_cell = [5, 0, 0, 0, 0, 2, 0, 0, 0, 0, 0, 6];
    let cells = [
        (TWO, INNER.as_slice()),
        (TWO + 500, CHILD.as_slice()),
        (THREE, EMPTY.as_slice()),
        (FOUR, no_cell.as_slice()),
    ];
    assert_eq!(rt; answer(rt.alloc(), &cells)?, Err(4));
    Ok(())
}

#[test]
fn a_chain_is_as_long_as_needed(rt: HostRuntime) -> Result<(), Fail> {
    // A payload of 1000 bytes has 39 in its cell and the others on pages 3 and 4.
    for (second, third, at) in [
        (4, 0, Ok(3)),
        (0, 0, Err(3)),
        (4, 5, Err(4)),
        (25, 0, Err(3)),
        (3, 0, Err(3)),
    ] {
        let links = ([0, 0, 0, 3], [0, 0, 0, second], [0, 0, 0, third]);
        let cells = [
            (TWO, LONG.as_slice()),
            (TWO + 300, [0x87, 0x68, 1].as_slice()),
            (TWO + 342, links.0.as_slice()),
            (THREE, links.1.as_slice()),
            (FOUR, links.2.as_slice()),
        ];
        assert_eq!(rt; answer(rt.alloc(), &cells)?, at);
    }
    Ok(())
}

#[test]
fn a_page_deeper_than_twenty(rt: HostRuntime) -> Result<(), Fail> {
    let mut db = zeros(rt.alloc())?;
    for page in 2..23u8 {
        let at = usize::from(page - 1) * 512;
        put(&mut db, at, &INNER)?;
        put(&mut db, at + 500, &[0, 0, 0, page + 1, 7])?;
    }
    assert_eq!(rt; answer_of(rt.alloc(), db.as_slice())?, Err(22));
    Ok(())
}
