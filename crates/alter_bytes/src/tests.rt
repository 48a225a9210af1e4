use crate::*;
use std::test::Fail;

#[test]
fn fields_are_big_endian(rt: HostRuntime) -> Result<(), Fail> {
    let mut bytes = [0, 0, 0, 0, 0, 0];
    write_u16(&mut bytes, 0, 0x1234);
    write_u32(&mut bytes, 2, 0x5678_9abc);
    assert_eq!(rt; bytes, [0x12, 0x34, 0x56, 0x78, 0x9a, 0xbc]);
    assert_eq!(rt; u16_at(&bytes, 1), 0x3456);
    assert_eq!(rt; u32_at(&bytes, 2), 0x5678_9abc);
    assert_eq!(rt; read_u16(&bytes, 4), Some(0x9abc));
    assert_eq!(rt; read_u16(&bytes, 5), None);
    assert_eq!(rt; read_u32(&bytes, 1), Some(0x3456_789a));
    assert_eq!(rt; read_u32(&bytes, 3), None);
    Ok(())
}

#[test]
fn varints_of_the_format(rt: HostRuntime) -> Result<(), Fail> {
    let table: [(u64, &[u8]); 4] = [
        (127, &[0x7f]),
        (128, &[0x81, 0]),
        (16384, &[0x81, 0x80, 0]),
        (u64::MAX, &[0xff; 9]),
    ];
    for (value, form) in table {
        let mut out = [0; 9];
        let len = write_varint(value, &mut out);
        assert_eq!(rt; out.get(..len), Some(form));
        assert_eq!(rt; varint_len(value), form.len());
        assert_eq!(rt; read_varint(form, 0), Some((value, form.len())));
    }
    assert_eq!(rt; read_varint(&[0xff; 8], 0), None);
    assert_eq!(rt; read_varint(&[0x7f], 2), None);
    Ok(())
}

#[test]
fn bytes_are_their_list(rt: HostRuntime) -> Result<(), Fail> {
    let bytes = Bytes::from_slice(rt.alloc(), b"page")?;
    let copy = bytes.try_clone()?;
    assert_eq!(rt; copy, bytes);
    assert_eq!(rt; bytes.len(), 4);
    assert!(rt; !bytes.is_empty());
    assert_eq!(rt; bytes.as_slice(), b"page".as_slice());
    assert_eq!(rt; Bytes::new(copy.into_vec()), bytes);
    Ok(())
}
