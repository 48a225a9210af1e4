ghost use Rattle.std.specs.Prelude.{◌≤◌, ◌+◌, ◌≡◌, true, length, IfOk};
ghost use Rattle.pager_core.specs.Pages.{disk_of, shape_of};

use crate::{FileRefusal, FileShape, HEADER_LEN, Pages, shape};
use alter_disk::{Disk, MemoryDisk, Which};
use std::alloc::Global;
use std::test::Fail;

/// The header of a file of two pages of 512 bytes.
fn header() -> [u8; 100] {
    let mut bytes = [0; HEADER_LEN];
    bytes[..16].copy_from_slice(b"SQLite format 3\0");
    bytes[16..24].copy_from_slice(&[2, 0, 1, 1, 0, 64, 32, 32]);
    bytes[27] = 7;
    bytes[31] = 2;
    bytes[47] = 4;
    bytes[59] = 1;
    bytes[95] = 7;
    bytes
}

/// The same with other bytes from `at` on.
fn with(at: usize, piece: &[u8]) -> [u8; 100]
    requires { at + length piece.now ≤ 100 }
{
    let mut bytes = header();
    bytes[at..at + piece.len()].copy_from_slice(piece);
    bytes
}

/// The number of pages, or why the file is refused.
fn count(header: [u8; 100], len: u64) -> Result<u32, FileRefusal>
    requires { 100 ≤ len }
{
    match shape(&header, len) {
        Ok(shape) => Ok(shape.count),
        Err(refusal) => Err(refusal),
    }
}

#[test]
fn short_files_are_empty_or_no_database(rt: HostRuntime) -> Result<(), Fail> {
    assert_eq!(rt; shape(&[], 0).err(), Some(FileRefusal::Empty));
    assert_eq!(rt; shape(b"S", 1).err(), Some(FileRefusal::NotDatabase));
    assert_eq!(rt; shape(&[0; 99], 99).err(), Some(FileRefusal::NotDatabase));
    assert_eq!(rt; count(header(), 100), Err(FileRefusal::Size));
    Ok(())
}

#[test]
fn each_field_has_its_refusal(rt: HostRuntime) -> Result<(), Fail> {
    assert_eq!(rt; count(with(15, &[1]), 1024), Err(FileRefusal::NotDatabase));
    assert_eq!(rt; count(with(22, &[64]), 1024), Err(FileRefusal::NotDatabase));
    assert_eq!(rt; count(with(18, &[2]), 1024), Err(FileRefusal::Wal));
    assert_eq!(rt; count(with(19, &[2]), 1024), Err(FileRefusal::Wal));
    assert_eq!(rt; count(with(55, &[1]), 1024), Err(FileRefusal::AutoVacuum));
    assert_eq!(rt; count(with(67, &[1]), 1024), Err(FileRefusal::AutoVacuum));
    assert_eq!(rt; count(with(59, &[2]), 1024), Err(FileRefusal::Encoding));
    assert_eq!(rt; count(with(59, &[0]), 1024), Ok(2));
    assert_eq!(rt; count(with(47, &[5]), 1024), Err(FileRefusal::SchemaFormat));
    assert_eq!(rt; count(with(47, &[0]), 1024), Ok(2));
    Ok(())
}

#[test]
fn page_sizes(rt: HostRuntime) -> Result<(), Fail> {
    assert_eq!(rt; count(header(), 1024), Ok(2));
    assert_eq!(rt; count(with(16, &[0, 1]), 131072), Ok(2));
    assert_eq!(rt;
        count(with(16, &[0, 0]), 131072),
        Err(FileRefusal::PageSize)
    );
    assert_eq!(rt; count(with(16, &[3, 0]), 1536), Err(FileRefusal::PageSize));
    assert_eq!(rt; count(with(20, &[32]), 1024), Ok(2));
    assert_eq!(rt; count(with(20, &[33]), 1024), Err(FileRefusal::PageSize));
    Ok(())
}

#[test]
fn sizes_by_header_and_by_length(rt: HostRuntime) -> Result<(), Fail> {
    assert_eq!(rt; count(header(), 1023), Err(FileRefusal::Size));
    assert_eq!(rt; count(header(), 1025), Ok(2));
    assert_eq!(rt; count(with(27, &[8]), 1536), Ok(3));
    assert_eq!(rt; count(with(27, &[8]), 1535), Err(FileRefusal::Size));
    assert_eq!(rt; count(with(31, &[0]), 511), Err(FileRefusal::Size));
    Ok(())
}

#[test]
fn files_that_are_too_large(rt: HostRuntime) -> Result<(), Fail> {
    assert_eq!(rt; count(with(29, &[1, 0, 0]), 1 << 25), Ok(65536));
    assert_eq!(rt;
        count(with(29, &[1, 0, 1]), (1 << 25) + 512),
        Err(FileRefusal::TooLarge)
    );
    let mut large = with(16, &[128, 0]);
    large[30] = 32;
    large[31] = 0;
    assert_eq!(rt; count(large, 1 << 28), Ok(8192));
    large[31] = 1;
    assert_eq!(rt; count(large, (1 << 28) + 32768), Err(FileRefusal::TooLarge));
    Ok(())
}

/// Two pages of a file that ends inside the second.
fn pages(alloc: Global, calls: usize) -> Result<Pages<MemoryDisk>, Fail>
    ensures { IfOk result (λ pages. ((disk_of pages).called ≡ true) × ((shape_of pages).page ≡ 512) × ((shape_of pages).count ≡ 2)) }
{
    let mut disk = MemoryDisk::new(alloc, "a.db", &[7; 1000], b"", 1024, calls, &[])?;
    disk.open("a.db")?;
    let shape = FileShape {
        page: 512,
        usable: 512,
        count: 2,
        format: 4,
    };
    Ok(Pages::new(alloc, disk, shape))
}

#[test]
fn a_page_is_changed_written_and_forgotten(rt: HostRuntime) -> Result<(), Fail> {
    let mut pages = pages(rt.alloc(), 9)?;
    assert_eq!(rt; &pages.page(2)?[486..490], [7, 7, 0, 0].as_slice());
    pages.change(2, 487, b"ab")?;
    pages.write_back(2)?;
    pages.settle();
    pages.change(2, 0, b"c")?;
    assert_eq!(rt; pages.dirty(), 1);
    pages.forget();
    assert_eq!(rt; &pages.page(2)?[486..490], [7, b'a', b'b', 0].as_slice());
    assert_eq!(rt; pages.page(2)?[0], 7);
    assert_eq!(rt; pages.into_disk().bytes(Which::Db).len(), 1024);
    Ok(())
}

#[test]
fn a_page_is_read_once(rt: HostRuntime) -> Result<(), Fail> {
    let mut pages = pages(rt.alloc(), 2)?;
    assert_eq!(rt; pages.page(1)?[0], 7);
    assert_eq!(rt; pages.page(1)?[511], 7);
    assert!(rt; pages.page(2).is_err(), "the disk takes two calls");
    Ok(())
}
