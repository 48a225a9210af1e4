//! A rollback journal, built byte by byte from SQLite's `fileformat2.html` ("The Rollback Journal") and not by the
//! program's writers.
use std::alloc::{AllocError, Global};

/// The bytes with which a journal that counts begins.
const MAGIC: [u8; 8] = [0xd9, 0xd5, 0x05, 0xf9, 0x20, 0xa1, 0x63, 0xd7];

/// The header, in a sector of 512 bytes: so many records, the nonce 0, and a database of so many pages.
fn header(alloc: Global, count: u32, size: u32, page: usize) -> Result<Vec<u8>, AllocError> {
    let mut bytes = Vec::from_slice(alloc, &MAGIC)?;
    for number in [count, 0, size, 512, u32::try_from(page).unwrap_or(0)] {
        bytes.extend_from_slice(&number.to_be_bytes())?;
    }
    bytes.resize(512, 0)?;
    Ok(bytes)
}

/// The sum of every 200th byte of the page, counted from its end.
fn checksum(page: &[u8]) -> u32 {
    let mut sum = 0u32;
    for place in 1..page.len() {
        if page.len().saturating_sub(place) % 200 == 0 {
            sum = sum.wrapping_add(page[place] as u32);
        }
    }
    sum
}

/// Adds the record of a page. Its sum is off by so much.
fn push_record(number: u32, page: &[u8], off: u32, bytes: &mut Vec<u8>) -> Result<(), AllocError> {
    bytes.extend_from_slice(&number.to_be_bytes())?;
    bytes.extend_from_slice(page)?;
    bytes.extend_from_slice(&checksum(page).wrapping_add(off).to_be_bytes())
}

/// The journal of this kind beside a database with pages of this size: `torn` has page 2, and page 1 with a wrong
/// sum; `headed` has no record; `super` ends as one with a super-journal does; `short` lacks page 3; `huge` is of a database
/// of more pages than the program takes.
pub fn journal(alloc: Global, kind: &str, db: &[u8], page: usize) -> Result<Vec<u8>, AllocError> {
    let first = db.get(..page).unwrap_or(&[]);
    let second = db.get(page..page.saturating_mul(2)).unwrap_or(&[]);
    if kind == "torn" {
        let mut bytes = header(alloc, 2, 2, page)?;
        push_record(2, second, 0, &mut bytes)?;
        push_record(1, second, 1, &mut bytes)?;
        Ok(bytes)
    } else if kind == "headed" {
        header(alloc, 1, 2, page)
    } else if kind == "super" {
        let mut bytes = header(alloc, 1, 2, page)?;
        push_record(1, first, 0, &mut bytes)?;
        bytes.extend_from_slice(&MAGIC)?;
        Ok(bytes)
    } else if kind == "short" {
        let mut bytes = header(alloc, 1, 3, page)?;
        push_record(1, first, 0, &mut bytes)?;
        Ok(bytes)
    } else if kind == "huge" {
        let mut bytes = header(alloc, 1, 262_145, page)?;
        push_record(1, first, 0, &mut bytes)?;
        Ok(bytes)
    } else {
        Ok(Vec::new(alloc))
    }
}
