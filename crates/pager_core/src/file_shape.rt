//! The sizes of a database file, from its first bytes and its length.
ghost use Rattle.std.specs.Prelude.{◌≡◌, length, min, IfOk, IfErr, OnOk, Some, None};
ghost use Rattle.pager_core.specs.Refusals.{first_refusal};
ghost use Rattle.pager_core.specs.Shape.{HasShape, IsShape};

use crate::header::{HEADER_LEN, page_count, page_size, schema_format, usable_size};
use crate::refusal::{FileRefusal, first_refusal};

/// The sizes of a file: of a page and of its usable part in bytes, and of the file in pages; and its
/// schema format, from 1 to 4.
#[derive(Clone, Copy, Debug)]
pub struct FileShape {
    pub page: u32,
    pub usable: u32,
    pub count: u32,
    pub format: u8,
}

/// The sizes of a file of `len` bytes that is not refused. `first` is its first 100 bytes, or all of a
/// shorter file.
pub fn shape(first: &[u8], len: u64) -> Result<FileShape, FileRefusal>
    requires { length first.now ≡ min 100 len }
    ensures shape { IfOk result (HasShape first.now len) }
    ensures sound { IfOk result IsShape }
    ensures accepted { OnOk result (first_refusal first.now len ≡ None) }
    ensures refused { IfErr result (λ refusal. first_refusal first.now len ≡ Some refusal) }
{
    match first_refusal(first, len) {
        Some(refusal) => Err(refusal),
        None => Ok(shape_of(first, len)),
    }
}

/// The sizes that the header gives.
fn shape_of(header: &[u8], len: u64) -> FileShape
    requires header { length header.now ≡ HEADER_LEN }
    requires accepted { first_refusal header.now len ≡ None }
    ensures shape { HasShape header.now len result }
    ensures sound { IsShape result }
{
    let (count, _) = page_count(header, len);
    FileShape {
        page: page_size(header),
        usable: usable_size(header),
        count: count as u32,
        format: schema_format(header) as u8,
    }
}
