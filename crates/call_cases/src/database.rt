//! A database file, built byte by byte from SQLite's `fileformat2.html` and not by the program's writers.
use std::alloc::{AllocError, Global};

/// Two bytes of a number, the high one first; 65536 is written as zeros.
fn two(number: usize) -> [u8; 2] {
    u16::try_from(number).unwrap_or(0).to_be_bytes()
}

/// Adds a number below 2^21 as a varint (fileformat2.html, "Record Format").
fn push_varint(number: usize, bytes: &mut Vec<u8>) -> Result<(), AllocError> {
    if number >= 16384 {
        bytes.push((number / 16384 % 128 + 128) as u8)?;
    }
    if number >= 128 {
        bytes.push((number / 128 % 128 + 128) as u8)?;
    }
    bytes.push((number % 128) as u8)?;
    Ok(())
}

/// The name in `CREATE TABLE name(..)`.
fn name_of(text: &str) -> &str {
    let behind = text.strip_prefix("CREATE TABLE ").unwrap_or(text);
    match behind.split_once('(') {
        Some((name, _)) => name,
        None => behind,
    }
}

/// The serial type of a text (fileformat2.html, "Record Format").
fn serial_of(text: &str) -> usize {
    text.len().saturating_mul(2).saturating_add(13)
}

/// The record of the schema's row of a table with this text and this root.
fn record_of(alloc: Global, root: u8, text: &str) -> Result<Vec<u8>, AllocError> {
    let name = name_of(text);
    let mut types = Vec::new(alloc);
    for serial in [23, serial_of(name), serial_of(name), 1, serial_of(text)] {
        push_varint(serial, &mut types)?;
    }
    let mut record = Vec::new(alloc);
    push_varint(types.len().saturating_add(1), &mut record)?;
    record.extend_from_slice(types.as_slice())?;
    record.extend_from_slice(b"table")?;
    record.extend_from_slice(name.as_bytes())?;
    record.extend_from_slice(name.as_bytes())?;
    record.push(root)?;
    record.extend_from_slice(text.as_bytes())?;
    Ok(record)
}

/// The rows of the schema: how many, where the cell of each begins, and the cells.
#[derive(Drop)]
struct Rows {
    count: u8,
    starts: Vec<usize>,
    cells: Vec<u8>,
}

impl Rows {
    /// Adds the cell of a row with this text, with rowids from 1 and roots from 2 on (fileformat2.html,
    /// "B-tree Cell Format").
    fn push(&mut self, alloc: Global, text: &str) -> Result<(), AllocError> {
        self.count = self.count.wrapping_add(1);
        let record = record_of(alloc, self.count.wrapping_add(1), text)?;
        self.starts.push(self.cells.len())?;
        push_varint(record.len(), &mut self.cells)?;
        self.cells.push(self.count)?;
        self.cells.extend_from_slice(record.as_slice())
    }
}

/// The rows of tables, whose texts stand between semicolons.
fn rows_of(alloc: Global, tables: &str) -> Result<Rows, AllocError> {
    let mut rows = Rows {
        count: 0,
        starts: Vec::new(alloc),
        cells: Vec::new(alloc),
    };
    for text in tables.split(';') {
        if !text.is_empty() {
            rows.push(alloc, text)?;
        }
    }
    Ok(rows)
}

/// The header of a file of so many pages of this size, whose change counter and schema cookie are `counter`.
fn header(alloc: Global, page: usize, counter: u8, pages: u8) -> Result<Vec<u8>, AllocError> {
    let mut bytes = Vec::from_slice(alloc, b"SQLite format 3\0")?;
    // 65536 is written as 1.
    bytes.extend_from_slice(&two(page % 65535))?;
    bytes.extend_from_slice(b"\x01\x01\0\x40\x20\x20")?;
    for number in [counter, pages, 0, 0, counter, 4, 0, 0, 1] {
        bytes.extend_from_slice(&[0, 0, 0, number])?;
    }
    bytes.resize(92, 0)?;
    bytes.extend_from_slice(&[0, 0, 0, counter])?;
    bytes.extend_from_slice(&3_050_000u32.to_be_bytes())?;
    Ok(bytes)
}

/// A database with pages of this size and these tables, each without rows, whose schema was changed so
/// often.
pub fn database(
    alloc: Global,
    page: usize,
    changes: u8,
    tables: &str,
) -> Result<Vec<u8>, AllocError> {
    let rows = rows_of(alloc, tables)?;
    let content = page.saturating_sub(rows.cells.len());
    let counter = changes.wrapping_add(1);
    let mut bytes = header(alloc, page, counter, rows.count.wrapping_add(1))?;
    bytes.extend_from_slice(&[13, 0, 0, 0, rows.count])?;
    bytes.extend_from_slice(&two(content))?;
    bytes.push(0)?;
    for start in rows.starts.as_slice() {
        bytes.extend_from_slice(&two(content.saturating_add(*start)))?;
    }
    bytes.resize(content, 0)?;
    bytes.extend_from_slice(rows.cells.as_slice())?;
    for _ in 0..rows.count {
        push_empty(page, &mut bytes)?;
    }
    Ok(bytes)
}

/// Adds an empty page of a table.
fn push_empty(page: usize, bytes: &mut Vec<u8>) -> Result<(), AllocError> {
    let end = bytes.len().saturating_add(page);
    bytes.extend_from_slice(&[13, 0, 0, 0, 0])?;
    bytes.extend_from_slice(&two(page))?;
    bytes.resize(end, 0)
}
