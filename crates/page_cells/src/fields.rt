ghost use Rattle.std.specs.Prelude.{◌≡◌, ◌≤◌, ◌<◌, ℕ, ℤ, ◌+◌, length, drop, nat_lt, if◌then◌else◌, Option, Some, None, IfSome, IfNone};
ghost use Rattle.byteorder.specs.Endian.{big_number};
ghost use Rattle.page_cells.specs.Layout.{IsUsable, child_len, most_usable};
ghost use Rattle.page_cells.specs.Cells.{HasChild, HasLength, HasRowid, IsCellAt, cell_end};
ghost use Rattle.page_cells.specs.declared.cell.Cell.{Cell};

use crate::layout::local_len;
use crate::{Cell, Kind};
use alter_bytes::{read_u32, read_varint, u32_at};

/// The cell at the place of a page of the kind and the place behind it, where that is within the
/// usable bytes.
pub fn cell_at(page: &[u8], kind: Kind, usable: usize, at: usize) -> Option<(Cell, usize)>
    requires usable { IsUsable usable (length page.now) }
    requires place { at < most_usable }
    ensures found { IfSome result (λ found. IsCellAt page.now kind usable at found.0 × (found.1 ≡ cell_end kind usable found.0) × (found.1 ≤ usable)) }
    ensures none { IfNone result ((c : Cell) → IsCellAt page.now kind usable at c → cell_end kind usable c ≤ usable → ⊥) }
{
    let fields = at + kind.child_len();
    if usable < fields {
        return None;
    }
    let left = child_at(page, kind, at);
    let (payload, length_size) = payload_at(page, kind, fields)?;
    let (rowid, rowid_size) = rowid_at(page, kind, fields + length_size)?;
    let start = fields + length_size + rowid_size;
    let local = local_len(kind, usable as u32, payload);
    let end = start + local as usize;
    let behind = end + overflow_len(local, payload);
    if usable < behind {
        return None;
    }
    let cell = Cell {
        left,
        rowid,
        payload,
        start,
        end,
        overflow: overflow_page(page, end, local, payload),
    };
    Some((cell, behind))
}

/// The number of the child's page at the place, on interior pages.
pub fn child_at(page: &[u8], kind: Kind, at: usize) -> Option<u32>
    requires { at + child_len kind ≤ length page.now }
    ensures { HasChild kind page.now at result }
{
    match kind {
        Kind::IndexInner | Kind::TableInner => Some(u32_at(page, at)),
        Kind::IndexLeaf | Kind::TableLeaf => None,
    }
}

/// The length of the payload at the place, and how many bytes say it.
fn payload_at(page: &[u8], kind: Kind, at: usize) -> Option<(u64, usize)>
    ensures found { IfSome result (λ read. HasLength kind page.now at read.1 read.0) }
    ensures most { IfSome result (λ read. read.1 ≤ 9) }
    ensures none { IfNone result ((n v : ℕ) → HasLength kind page.now at n v → ⊥) }
{
    match kind {
        Kind::TableInner => Some((0, 0)),
        Kind::IndexInner | Kind::IndexLeaf | Kind::TableLeaf => read_varint(page, at),
    }
}

/// The rowid at the place, on pages of table trees, and how many bytes say it.
fn rowid_at(page: &[u8], kind: Kind, at: usize) -> Option<(Option<i64>, usize)>
    ensures found { IfSome result (λ read. HasRowid kind page.now at read.1 read.0) }
    ensures most { IfSome result (λ read. read.1 ≤ 9) }
    ensures none { IfNone result ((n : ℕ) (rowid : Option ℤ) → HasRowid kind page.now at n rowid → ⊥) }
{
    match kind {
        Kind::IndexInner | Kind::IndexLeaf => Some((None, 0)),
        Kind::TableInner | Kind::TableLeaf => {
            let (rowid, size) = read_varint(page, at)?;
            Some((Some(rowid.cast_signed()), size))
        }
    }
}

/// The length of the number of the first overflow page, which stands where payload overflows.
fn overflow_len(local: u64, payload: u64) -> usize
    ensures len { result ≡ (if nat_lt local payload then 4 else 0) }
    ensures most { result ≤ 4 }
{
    if local < payload { 4 } else { 0 }
}

/// The number of the first overflow page, where payload overflows.
fn overflow_page(page: &[u8], end: usize, local: u64, payload: u64) -> Option<u32>
    requires { local < payload → end + 4 ≤ length page.now }
    ensures { result ≡ (if nat_lt local payload then Some (big_number 4 (drop end page.now)) else None) }
{
    if local < payload {
        read_u32(page, end)
    } else {
        None
    }
}
