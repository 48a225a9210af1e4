use crate::*;
use alter_bytes::Bytes;
use std::test::Fail;

#[test]
fn local_lengths_of_the_format(rt: HostRuntime) -> Result<(), Fail> {
    let small = [
        (Kind::TableLeaf, 477, 477),
        (Kind::TableLeaf, 478, 39),
        (Kind::TableLeaf, 600, 92),
        (Kind::TableLeaf, 1000, 39),
        (Kind::IndexLeaf, 102, 102),
        (Kind::IndexLeaf, 103, 39),
        (Kind::IndexInner, 600, 92),
    ];
    for (kind, payload, local) in small {
        assert_eq!(rt; local_len(kind, 512, payload), local);
    }
    let large = [
        (Kind::TableLeaf, 4061, 4061),
        (Kind::TableLeaf, 4062, 489),
        (Kind::IndexLeaf, 1002, 1002),
        (Kind::IndexInner, 1003, 489),
    ];
    for (kind, payload, local) in large {
        assert_eq!(rt; local_len(kind, 4096, payload), local);
    }
    Ok(())
}

#[test]
fn cells_fit_to_the_last_usable_byte(rt: HostRuntime) -> Result<(), Fail> {
    let zeros = [0; 512];
    let table = [
        (false, Kind::TableLeaf, 502, true),
        (false, Kind::TableLeaf, 503, false),
        (true, Kind::TableLeaf, 402, true),
        (true, Kind::TableLeaf, 403, false),
        (false, Kind::IndexInner, 498, true),
        (false, Kind::IndexInner, 499, false),
    ];
    for (first, kind, len, fit) in table {
        let cell = Bytes::from_slice(rt.alloc(), zeros.get(..len).ok_or("no such cell")?)?;
        assert_eq!(rt; fits(first, 512, kind, &[cell]), fit);
    }
    Ok(())
}

#[test]
fn a_page_is_written_around_its_file_header(rt: HostRuntime) -> Result<(), Fail> {
    let mut page = [7; 512];
    let cells = [
        Bytes::from_slice(rt.alloc(), &[1, 2, 0x39])?,
        Bytes::from_slice(rt.alloc(), &[3, 0x81, 0, 0x61, 0x62, 0x63])?,
    ];
    write_page(&mut page, true, 500, Kind::TableLeaf, None, &cells);
    let header = [13, 0, 0, 0, 2, 1, 0xea, 0, 1, 0xea, 1, 0xee, 0];
    let content = [0, 1, 2, 0x39, 0, 3, 0x81, 0, 0x61, 0x62, 0x63, 7];
    assert_eq!(rt; page[99], 7);
    assert_eq!(rt; page.get(100..113), Some(header.as_slice()));
    assert_eq!(rt; page.get(489..501), Some(content.as_slice()));
    Ok(())
}

#[test]
fn interior_and_index_pages_are_written(rt: HostRuntime) -> Result<(), Fail> {
    let mut page = [7; 512];
    let rows = [
        Bytes::from_slice(rt.alloc(), &[0, 0, 0, 5, 0x82, 0x2c])?,
        Bytes::from_slice(rt.alloc(), &[0, 0, 0, 6, 3])?,
    ];
    write_page(&mut page, false, 512, Kind::TableInner, Some(8), &rows);
    let header = [5, 0, 0, 0, 2, 1, 0xf5, 0, 0, 0, 0, 8, 1, 0xf5, 1, 0xfb, 0];
    let content = [0, 0, 0, 0, 5, 0x82, 0x2c, 0, 0, 0, 6, 3];
    assert_eq!(rt; page.get(..17), Some(header.as_slice()));
    assert_eq!(rt; page.get(500..), Some(content.as_slice()));

    let keys = [Bytes::from_slice(rt.alloc(), &[0, 0, 0, 9, 1, 0x61])?];
    write_page(&mut page, false, 510, Kind::IndexInner, Some(65538), &keys);
    let header = [2, 0, 0, 0, 1, 1, 0xf8, 0, 0, 1, 0, 2, 1, 0xf8, 0];
    let content = [0, 0, 0, 0, 9, 1, 0x61, 6, 3];
    assert_eq!(rt; page.get(..15), Some(header.as_slice()));
    assert_eq!(rt; page.get(503..), Some(content.as_slice()));

    let leaves = [Bytes::from_slice(rt.alloc(), &[2, 1, 9])?];
    write_page(&mut page, false, 512, Kind::IndexLeaf, None, &leaves);
    let header = [10, 0, 0, 0, 1, 1, 0xfc, 0, 1, 0xfc, 0];
    let content = [0, 2, 1, 9, 0];
    assert_eq!(rt; page.get(..11), Some(header.as_slice()));
    assert_eq!(rt; page.get(507..), Some(content.as_slice()));
    Ok(())
}

/// A page of 512 bytes that begins with `head` and has a cell at `at`.
fn page_of(head: &[u8], at: usize, cell: &[u8]) -> Option<[u8; 512]> {
    let mut page = [0; 512];
    page.get_mut(..head.len())?.copy_from_slice(head);
    page.get_mut(at..)?
        .get_mut(..cell.len())?
        .copy_from_slice(cell);
    Some(page)
}

#[test]
fn a_page_of_each_kind_is_read(rt: HostRuntime) -> Result<(), Fail> {
    let of = |left, rowid, payload, start, end, overflow| Cell {
        left,
        rowid,
        payload,
        start,
        end,
        overflow,
    };
    let mut long = [0; 48];
    long[3] = 9;
    long[4] = 103;
    long[47] = 11;
    let table: [(Kind, Option<u32>, &[u8], usize, &[u8], Cell); 4] = [
        (
            Kind::TableLeaf,
            None,
            &[13, 0, 0, 0, 1, 0, 0, 0, 1, 0xf7],
            503,
            &[7, 1, 4, 0, 1, 0x11, 5, 0x61, 0x62],
            of(None, Some(1), 7, 505, 512, None),
        ),
        (
            Kind::TableInner,
            Some(7),
            &[5, 0, 0, 0, 1, 0, 0, 0, 0, 0, 0, 7, 1, 0xf0],
            496,
            &[0, 0, 0, 5, 0x82, 0x2c],
            of(Some(5), Some(300), 0, 502, 502, None),
        ),
        (
            Kind::IndexLeaf,
            None,
            &[10, 0, 0, 0, 1, 0, 0, 0, 1, 0xf9],
            505,
            &[6, 3, 1, 1, 9, 9, 9],
            of(None, None, 6, 506, 512, None),
        ),
        (
            Kind::IndexInner,
            Some(65538),
            &[2, 0, 0, 0, 1, 0, 0, 0, 0, 1, 0, 2, 1, 0x90],
            400,
            &long,
            of(Some(9), None, 103, 405, 444, Some(11)),
        ),
    ];
    for (kind, right, head, at, bytes, cell) in table {
        let page = page_of(head, at, bytes).ok_or("no such page")?;
        let found = cells(rt.alloc(), &page, false, 512)?;
        assert_eq!(rt; found.kind, kind);
        assert_eq!(rt; found.right, right);
        assert_eq!(rt; found.cells.as_slice(), [cell].as_slice());
    }
    Ok(())
}

#[test]
fn faults_name_their_field(rt: HostRuntime) -> Result<(), Fail> {
    let mut page = [0; 512];
    assert!(rt; matches!(cells(rt.alloc(), &page, false, 512), Err(CellError::Kind)));
    page[0] = 13;
    page[4] = 253;
    assert!(rt;
        matches!(
            cells(rt.alloc(), &page, false, 512),
            Err(CellError::Bounds(3))
        )
    );
    page[4] = 2;
    page[9] = 200;
    page[11] = 201;
    assert!(rt;
        matches!(
            cells(rt.alloc(), &page, false, 512),
            Err(CellError::Bounds(10))
        )
    );
    Ok(())
}
