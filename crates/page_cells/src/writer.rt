ghost use Rattle.std.specs.Prelude.{◌≡◌, ◌≤◌, ◌<◌, ◌+◌, ◌-◌, ◌*◌, ◌++◌, ◌%◌, ◌↔◌, length, replicate, IsTrue, All};
ghost use Rattle.alter_bytes.specs.Field.{overlaid};
ghost use Rattle.page_cells.specs.Layout.{IsUsable, least_usable, most_usable, page_header_len};
ghost use Rattle.page_cells.specs.Write.{Fits, HoldsCells, IsChild, IsWholeCell, cell_bytes, header_bytes, header_fields, pointer_bytes, room, rooms, written_page};

use crate::Kind;
use crate::layout::{CHILD_AT, COUNT_AT, POINTER_LEN, header_at};
use alter_bytes::{Bytes, write_u16, write_u32};

/// The fewest bytes that a cell takes of its page.
const LEAST_ROOM: usize = 4;

/// The first size of a page that two bytes do not hold; they hold 0 for it.
const MOST_USABLE: usize = 65536;

/// Whether a page has room for its header, these whole cells and their pointers. `first` says that it is
/// page 1, and `usable` is the size of a page less its reserved bytes.
pub fn fits(first: bool, usable: usize, kind: Kind, cells: &[Bytes]) -> bool
    requires least { least_usable ≤ usable }
    requires most { usable ≤ most_usable }
    ensures { IsTrue result ↔ Fits first kind usable cells.now }
{
    let mut free = usable - header_at(first) - kind.header_len();
    for cell in cells {
        let room = room_of(cell);
        if free < POINTER_LEN || free - POINTER_LEN < room {
            return false;
        }
        free -= POINTER_LEN + room;
    }
    true
}

/// Writes a page of the kind with these cells and, on interior pages, the right-most child. The file's
/// header on page 1 and the bytes behind the usable ones stay.
pub fn write_page(
    page: &mut [u8],
    first: bool,
    usable: usize,
    kind: Kind,
    right: Option<u32>,
    cells: &[Bytes],
)
    requires right { IsChild kind right }
    requires usable { IsUsable usable (length page.old) }
    requires whole { All (IsWholeCell kind usable) cells.now }
    requires fits { Fits first kind usable cells.now }
    ensures written { page.new ≡ written_page page.old first kind right usable cells.now }
    ensures cells { HoldsCells page.new first kind right usable cells.now }
{
    let header = header_at(first);
    let pointers = header + kind.header_len();
    let free = pointers + POINTER_LEN * cells.len();
    let content = usable - total_room(cells);
    write_header(page, header, kind, right, cells.len(), content);
    write_pointers(page, pointers, content, cells);
    clear(page, free, content);
    write_cells(page, content, cells);
}

/// The bytes that the cell takes of its page.
fn room_of(cell: &Bytes) -> usize
    ensures { result ≡ room cell.now }
{
    cell.len().max(LEAST_ROOM)
}

/// The bytes that the cells take of their page.
fn total_room(cells: &[Bytes]) -> usize
    requires { rooms cells.now ≤ most_usable }
    ensures { result ≡ rooms cells.now }
{
    cells.iter().map(|cell| room_of(cell)).sum()
}

/// Writes the page's own header at `at`, for cells that begin at `content`.
fn write_header(
    page: &mut [u8],
    at: usize,
    kind: Kind,
    right: Option<u32>,
    count: usize,
    content: usize,
)
    requires right { IsChild kind right }
    requires room { at + page_header_len kind ≤ length page.old }
    requires few { count < most_usable }
    ensures { page.new ≡ overlaid page.old at (header_bytes kind right count content) }
{
    write_fields(page, at, kind, count, content);
    if let Some(child) = right {
        write_u32(page, at + CHILD_AT, child);
    }
}

/// Writes the fields of the page's own header in front of the right-most child.
fn write_fields(page: &mut [u8], at: usize, kind: Kind, count: usize, content: usize)
    requires room { at + 8 ≤ length page.old }
    requires few { count < most_usable }
    ensures { page.new ≡ overlaid page.old at (header_fields kind count content) }
{
    let mut bytes = [kind.byte(), 0, 0, 0, 0, 0, 0, 0];
    write_u16(&mut bytes, COUNT_AT, count as u16);
    write_u16(&mut bytes, 5, (content % MOST_USABLE) as u16);
    write_bytes(page, at, &bytes);
}

/// Writes the pointers at `at`, to cells that stand one after the other from `content` on.
fn write_pointers(page: &mut [u8], at: usize, content: usize, cells: &[Bytes])
    requires room { at + 2 * length cells.now ≤ length page.old }
    requires below { content + rooms cells.now ≤ most_usable }
    ensures { page.new ≡ overlaid page.old at (pointer_bytes content cells.now) }
{
    let mut place = at;
    let mut start = content;
    for cell in cells {
        write_u16(page, place, start as u16);
        place += POINTER_LEN;
        start += room_of(cell);
    }
}

/// Writes the bytes at `at`.
fn write_bytes(page: &mut [u8], at: usize, bytes: &[u8])
    requires { at + length bytes.now ≤ length page.old }
    ensures { page.new ≡ overlaid page.old at bytes.now }
{
    page[at..at + bytes.len()].copy_from_slice(bytes);
}

/// Writes zeros from `start` to `end`.
fn clear(page: &mut [u8], start: usize, end: usize)
    requires order { start ≤ end }
    requires within { end ≤ length page.old }
    ensures { page.new ≡ overlaid page.old start (replicate (end - start) 0) }
{
    page[start..end].fill(0);
}

/// Writes the cells one after the other from `content` on, each filled with zeros to its room.
fn write_cells(page: &mut [u8], content: usize, cells: &[Bytes])
    requires { content + rooms cells.now ≤ length page.old }
    ensures { page.new ≡ overlaid page.old content (cell_bytes cells.now) }
{
    let mut start = content;
    for cell in cells {
        let end = start + room_of(cell);
        write_cell(page, start, end, cell);
        start = end;
    }
}

/// Writes the cell at `start`, filled with zeros to `end`.
fn write_cell(page: &mut [u8], start: usize, end: usize, cell: &Bytes)
    requires order { start + length cell.now ≤ end }
    requires within { end ≤ length page.old }
    ensures { page.new ≡ overlaid page.old start (cell.now ++ replicate (end - (start + length cell.now)) 0) }
{
    write_bytes(page, start, cell.as_slice());
    clear(page, start + cell.len(), end);
}
