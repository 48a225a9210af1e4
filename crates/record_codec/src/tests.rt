use super::*;
use alter_bytes::Bytes;
use std::test::Fail;

/// The record of NULL, 5 and the text `ab`.
const RECORD: &[u8] = b"\x04\x00\x01\x11\x05ab";

/// The integer in front of some values.
fn first_integer(values: &[Value]) -> Option<i64> {
    match values {
        [Value::Int(number), ..] => Some(*number),
        _ => None,
    }
}

#[test]
fn values_of_the_format(rt: HostRuntime) -> Result<(), Fail> {
    let values = decode(rt.alloc(), RECORD)?;
    match values.as_slice() {
        [Value::Null, Value::Int(5), Value::Text(text)] => {
            assert_eq!(rt; text.as_slice(), b"ab".as_slice());
        }
        _ => assert!(rt; false),
    }
    let record = b"\x03\x07\x10\x3f\xf8\0\0\0\0\0\0\x01\x02";
    let values = decode(rt.alloc(), record)?;
    match values.as_slice() {
        [Value::Real(real), Value::Blob(blob)] => {
            assert_eq!(rt; real.as_slice(), b"\x3f\xf8\0\0\0\0\0\0".as_slice());
            assert_eq!(rt; blob.as_slice(), b"\x01\x02".as_slice());
        }
        _ => assert!(rt; false),
    }
    Ok(())
}

#[test]
fn integers_have_their_sign(rt: HostRuntime) -> Result<(), Fail> {
    let table: [(&[u8], i64); 11] = [
        (b"\x02\x01\x80", -128),
        (b"\x02\x02\x80\0", -32768),
        (b"\x02\x03\xff\xff\xfe", -2),
        (b"\x02\x03\x7f\xff\xff", 8388607),
        (b"\x02\x04\x80\0\0\0", -2147483648),
        (b"\x02\x05\x80\0\0\0\0\0", -140737488355328),
        (b"\x02\x06\x80\0\0\0\0\0\0\0", i64::MIN),
        (b"\x02\x08", 0),
        (b"\x02\x09", 1),
        // varints of two bytes for 1 and for the header's 3
        (b"\x03\x80\x01\x05", 5),
        (b"\x80\x03\x01\x05", 5),
    ];
    for (record, number) in table {
        assert_eq!(rt; first_bad(record), None);
        let values = decode(rt.alloc(), record)?;
        assert_eq!(rt; values.len(), 1);
        assert_eq!(rt; first_integer(values.as_slice()), Some(number));
    }
    Ok(())
}

#[test]
fn bytes_that_are_no_record(rt: HostRuntime) -> Result<(), Fail> {
    let table: [(&[u8], usize); 13] = [
        // the header's size: none, cut off, less than itself, past the end
        (b"", 0),
        (b"\x80", 0),
        (b"\x00", 0),
        (b"\x05\0\0\0", 0),
        // a serial type: reserved, past the header, reserved behind one whose body is missing
        (b"\x02\x0a", 1),
        (b"\x02\x0b", 1),
        (b"\x02\x81\x01", 1),
        (b"\x03\x01\x0a", 2),
        // a body: missing, cut off behind another
        (b"\x02\x01", 2),
        (b"\x03\x01\x02\x05\0", 4),
        (b"\x0a\xff\xff\xff\xff\xff\xff\xff\xff\xff", 10),
        // a byte behind the last body
        (b"\x02\x01\x05\x06", 3),
        (b"\x01\0", 1),
    ];
    for (bytes, place) in table {
        assert_eq!(rt; first_bad(bytes), Some(place));
        match decode(rt.alloc(), bytes) {
            Err(RecordError::Bad(at)) => assert_eq!(rt; at, place),
            _ => assert!(rt; false),
        }
    }
    Ok(())
}

#[test]
fn records_are_written_in_their_shortest_form(rt: HostRuntime) -> Result<(), Fail> {
    // what is read, the schema format, and what is written
    let table: [(&[u8], u8, &[u8]); 8] = [
        (RECORD, 1, RECORD),
        (b"\x01", 4, b"\x01"),
        (b"\x03\x08\x09", 4, b"\x03\x08\x09"),
        (b"\x03\x08\x09", 3, b"\x03\x01\x01\0\x01"),
        (b"\x02\x06\0\0\0\0\0\0\0\x80", 1, b"\x02\x02\0\x80"),
        (
            b"\x02\x06\xff\xff\xff\xff\xff\x80\0\0",
            2,
            b"\x02\x03\x80\0\0",
        ),
        (b"\x80\x03\x02\xff\xff", 4, b"\x02\x01\xff"),
        (
            b"\x03\x07\x0e\x01\x02\x03\x04\x05\x06\x07\x08a",
            4,
            b"\x03\x07\x0e\x01\x02\x03\x04\x05\x06\x07\x08a",
        ),
    ];
    for (bytes, format, written) in table {
        let values = decode(rt.alloc(), bytes)?;
        let record = encode(rt.alloc(), values.as_slice(), format)?;
        assert_eq!(rt; record.as_slice(), written);
    }
    Ok(())
}

#[test]
fn the_size_of_a_header_counts_itself(rt: HostRuntime) -> Result<(), Fail> {
    // so many values of no bytes, and the size of their header
    let table: [(usize, &[u8]); 4] = [
        (126, b"\x7f"),
        (127, b"\x81\x01"),
        (16381, b"\xff\x7f"),
        (16382, b"\x81\x80\x01"),
    ];
    for (count, size) in table {
        let mut values = Vec::new(rt.alloc());
        for _ in 0..count {
            values.push(Value::Null)?;
        }
        let record = encode(rt.alloc(), values.as_slice(), 4)?;
        assert_eq!(rt; record.as_slice().get(..size.len()), Some(size));
        match record.as_slice().get(size.len()..) {
            Some(types) => assert_eq!(rt; types.len(), count),
            None => assert!(rt; false),
        }
        assert_eq!(rt; decode(rt.alloc(), record.as_slice())?.len(), count);
    }
    Ok(())
}
