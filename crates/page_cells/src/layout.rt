ghost use Rattle.std.specs.Prelude.{◌≡◌, ◌≤◌, ◌<◌, ◌+◌, length, drop};
ghost use Rattle.byteorder.specs.Endian.{big_number};
ghost use Rattle.page_cells.specs.Layout.{header_start, least_usable, local_payload, most_local, most_usable};

use crate::Kind;
use alter_bytes::u16_at;

/// Where the number of cells stands in a page's own header.
pub const COUNT_AT: usize = 3;

/// Where the number of the right-most child stands in an interior page's own header.
pub const CHILD_AT: usize = 8;

/// The length in bytes of a pointer to a cell.
pub const POINTER_LEN: usize = 2;

/// Where the page's own header begins: page 1 has the file's header in front of it.
pub fn header_at(first: bool) -> usize
    ensures { result ≡ header_start first }
{
    if first { 100 } else { 0 }
}

/// The number in the two bytes from `at`.
pub fn number_at(page: &[u8], at: usize) -> usize
    requires { at + 2 ≤ length page.now }
    ensures number { result ≡ big_number 2 (drop at page.now) }
    ensures small { result < most_usable }
{
    usize::from(u16_at(page, at))
}

/// The longest payload in bytes of which all stands in a cell itself.
fn most_len(kind: Kind, usable: u64) -> u64
    requires least { least_usable ≤ usable }
    requires most { usable ≤ most_usable }
    ensures { result ≡ most_local kind usable }
{
    match kind {
        Kind::IndexInner | Kind::IndexLeaf => (usable - 12) * 64 / 255 - 23,
        Kind::TableInner | Kind::TableLeaf => usable - 35,
    }
}

/// How many bytes of a payload stand in a cell itself (fileformat2.html, "B-tree Cell Format"). `usable`
/// is the size of a page less its reserved bytes. The cells of interior pages of table trees have no
/// payload.
pub fn local_len(kind: Kind, usable: u32, payload: u64) -> u64
    requires least { least_usable ≤ usable }
    requires most { usable ≤ most_usable }
    ensures { result ≡ local_payload kind usable payload }
{
    let usable = u64::from(usable);
    let most = most_len(kind, usable);
    let least = (usable - 12) * 32 / 255 - 23;
    if payload <= most {
        return payload;
    }
    let fill = least + (payload - least) % (usable - 4);
    if fill <= most { fill } else { least }
}
