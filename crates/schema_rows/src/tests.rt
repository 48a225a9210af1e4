use super::*;
use alter_bytes::Bytes;
use std::test::Fail;

/// The record (`table`, `t`, `T`, 2, `CREATE TABLE t(a)`) (fileformat2.html, "Record Format").
const RECORD: &[u8] = b"\x06\x17\x0f\x0f\x01\x2ftabletT\x02CREATE TABLE t(a)";

#[test]
fn a_row_is_read_and_written(rt: HostRuntime) -> Result<(), Fail> {
    let row = read_schema_row(rt.alloc(), 7, RECORD)?.ok_or("no row")?;
    assert_eq!(rt; row.rowid, 7);
    assert_eq!(rt; row.name.as_slice(), b"t".as_slice());
    assert_eq!(rt; row.table.as_slice(), b"T".as_slice());
    assert_eq!(rt; row.root, 2);
    assert_eq!(rt; row.text.as_slice(), b"CREATE TABLE t(a)".as_slice());
    Ok(())
}

#[test]
fn other_records_are_no_rows(rt: HostRuntime) -> Result<(), Fail> {
    let table: [&[u8]; 5] = [
        // of another type
        b"\x06\x17\x0f\x0f\x01\x2findextT\x02CREATE TABLE t(a)",
        // with a negative root
        b"\x06\x17\x0f\x0f\x01\x2ftabletT\xffCREATE TABLE t(a)",
        // with a byte behind
        b"\x06\x17\x0f\x0f\x01\x2ftabletT\x02CREATE TABLE t(a);",
        // of four values
        b"\x05\x17\x0f\x0f\x01tabletT\x02",
        b"",
    ];
    for payload in table {
        assert!(rt; read_schema_row(rt.alloc(), 7, payload)?.is_none());
    }
    Ok(())
}

#[test]
fn a_row_is_a_cell(rt: HostRuntime) -> Result<(), Fail> {
    let row = SchemaRow {
        rowid: 200,
        name: Bytes::from_slice(rt.alloc(), b"t")?,
        table: Bytes::from_slice(rt.alloc(), b"T")?,
        root: 2,
        text: Bytes::from_slice(rt.alloc(), b"CREATE TABLE t(a)")?,
    };
    let copy = row.try_clone()?;
    assert_eq!(rt; copy.record(rt.alloc())?.as_slice(), RECORD);
    // the length of the record, the rowid in two bytes, the record
    let cell = copy.cell(rt.alloc())?;
    let (front, record) = cell.as_slice().split_at(3);
    assert_eq!(rt; front, [31, 0x81, 0x48].as_slice());
    assert_eq!(rt; record, RECORD);
    Ok(())
}
