use crate::{Header, Heat, checksum, header_bytes, hot, read_header};
use alter_disk::{Disk, MemoryDisk};
use std::alloc::{AllocError, Global};
use std::test::Fail;

const HEADER: Header = Header {
    count: 2,
    nonce: 0,
    size: 3,
    sector: 512,
    page: 512,
};

const BYTES: [u8; 28] = [
    0xd9, 0xd5, 0x05, 0xf9, 0x20, 0xa1, 0x63, 0xd7, 0, 0, 0, 2, 0, 0, 0, 0, 0, 0, 0, 3, 0, 0, 2, 0,
    0, 0, 2, 0,
];

#[test]
fn a_header_is_written_and_read(rt: HostRuntime) -> Result<(), Fail> {
    assert_eq!(rt; header_bytes(&HEADER, true), BYTES);
    assert_eq!(rt; read_header(&BYTES), Some(HEADER));
    let shut = header_bytes(&HEADER, false);
    assert!(rt; shut.starts_with(&[0; 8]));
    assert_eq!(rt; &shut[8..], &BYTES[8..]);
    assert_eq!(rt; read_header(&shut), None);
    Ok(())
}

/// Whether a header of these sizes is read.
fn is_read(sector: u32, page: u32) -> bool {
    let mut header = HEADER;
    header.sector = sector;
    header.page = page;
    read_header(&header_bytes(&header, true)).is_some()
}

#[test]
fn a_header_of_other_sizes_is_refused(rt: HostRuntime) -> Result<(), Fail> {
    for (sector, page, read) in [
        (32, 512, true),
        (65536, 65536, true),
        (4096, 1024, true),
        (16, 512, false),
        (131072, 512, false),
        (48, 512, false),
        (0, 512, false),
        (512, 256, false),
        (512, 131072, false),
        (512, 1000, false),
        (512, 0, false),
    ] {
        assert_eq!(rt; is_read(sector, page), read, "{sector} {page}");
    }
    Ok(())
}

#[test]
fn the_checksum_takes_every_200th_byte_from_the_end(rt: HostRuntime) -> Result<(), Fail> {
    let mut page = [0; 512];
    page[312] = 7;
    page[112] = 9;
    page[311] = 1;
    page[511] = 1;
    assert_eq!(rt; checksum(0, &page), 0x10);
    assert_eq!(rt; checksum(u32::MAX, &page), 0xf);
    assert_eq!(rt; checksum(5, &[1; 199]), 5);
    assert_eq!(rt; checksum(5, &[1; 200]), 6);
    Ok(())
}

/// A journal of this length that begins with a header of this count and ends with these bytes.
fn journal(alloc: Global, count: u32, end: &[u8], len: usize) -> Result<Vec<u8>, AllocError> {
    let mut header = HEADER;
    header.count = count;
    let mut bytes = header_bytes(&header, true).to_vec(alloc)?;
    bytes.resize(len.saturating_sub(end.len()), 0)?;
    bytes.extend_from_slice(end)?;
    Ok(bytes)
}

/// The heat of this journal.
fn heat(alloc: Global, journal: &[u8]) -> Result<Heat, Fail> {
    let mut disk = MemoryDisk::new(alloc, "a.db", &[], journal, journal.len(), 9, &[])?;
    disk.open("a.db")?;
    Ok(hot(&mut disk)?)
}

/// The bytes of a sector and one record.
const ONE: usize = 512 + 512 + 8;

#[test]
fn a_journal_without_a_whole_record_is_cold(rt: HostRuntime) -> Result<(), Fail> {
    let alloc = rt.alloc();
    for (count, len) in [(2, 0), (2, 27), (2, 512), (2, ONE - 1), (0, ONE)] {
        let bytes = journal(alloc, count, &[], len)?;
        assert_eq!(rt; heat(alloc, &bytes)?, Heat::Cold, "{count} {len}");
    }
    Ok(())
}

#[test]
fn a_journal_with_a_record_is_hot_or_super(rt: HostRuntime) -> Result<(), Fail> {
    let alloc = rt.alloc();
    let whole = journal(alloc, 2, &[], ONE)?;
    assert_eq!(rt; heat(alloc, &whole)?, Heat::Hot(HEADER));
    let named = journal(alloc, 2, &BYTES[..8], ONE)?;
    assert_eq!(rt; heat(alloc, &named)?, Heat::Super);
    let cold = journal(alloc, 0, &BYTES[..8], ONE)?;
    assert_eq!(rt; heat(alloc, &cold)?, Heat::Cold, "no record is counted");
    Ok(())
}
