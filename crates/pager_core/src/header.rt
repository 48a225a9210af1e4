//! The fields of a database file's header (fileformat2.html, "The Database Header").
ghost use Rattle.std.specs.Prelude.{◌≡◌, ◌≤◌, ◌<◌, ◌*◌, ◌^◌, true, length};
ghost use Rattle.pager_core.specs.Header as spec;

use alter_bytes::{u16_at, u32_at};

/// The bytes of the header.
pub const HEADER_LEN: usize = 100;

// The offsets of its fields, in bytes from 0.
/// Two bytes ("Page Size").
const PAGE_SIZE_AT: usize = 16;
/// One byte ("File format version numbers").
const WRITE_VERSION_AT: usize = 18;
/// One byte ("File format version numbers").
const READ_VERSION_AT: usize = 19;
/// One byte ("Reserved bytes per page").
const RESERVED_AT: usize = 20;
/// Three fields of one byte ("Payload Fractions").
const MAX_FRACTION_AT: usize = 21;

const MIN_FRACTION_AT: usize = 22;

const LEAF_FRACTION_AT: usize = 23;
/// Four bytes, as all that follow ("File Change Counter").
const CHANGE_COUNTER_AT: usize = 24;
/// "In-Header Database Size".
const PAGE_COUNT_AT: usize = 28;
/// "Schema Format Number".
const SCHEMA_FORMAT_AT: usize = 44;
/// "Incremental Vacuum Settings".
const LARGEST_ROOT_AT: usize = 52;
/// "Text Encoding".
const TEXT_ENCODING_AT: usize = 56;
/// "Incremental Vacuum Settings".
const INCREMENTAL_VACUUM_AT: usize = 64;
/// "Write library version number and version-valid-for number".
const VERSION_VALID_FOR_AT: usize = 92;

/// The version of a file with a rollback journal ("File format version numbers").
const ROLLBACK_JOURNAL: u8 = 1;

/// The page size in bytes; the field's 1 stands for 65536.
pub(crate) fn page_size(header: &[u8]) -> u32
    requires { length header.now ≡ HEADER_LEN }
    ensures { result ≡ spec.page_size header.now }
{
    match u16_at(header, PAGE_SIZE_AT) {
        1 => 65536,
        size => size as u32,
    }
}

pub(crate) fn is_page_size(size: u32) -> bool
    ensures { result ≡ spec.is_page_size size }
{
    matches!(
        size,
        512 | 1024 | 2048 | 4096 | 8192 | 16384 | 32768 | 65536
    )
}

/// The bytes of a page that are not reserved, and 0 where more are than it has.
pub(crate) fn usable_size(header: &[u8]) -> u32
    requires { length header.now ≡ HEADER_LEN }
    ensures { result ≡ spec.usable_size header.now }
{
    page_size(header).saturating_sub(header[RESERVED_AT] as u32)
}

/// Whether the field of the size in pages is up to date.
fn has_page_count(header: &[u8]) -> bool
    requires { length header.now ≡ HEADER_LEN }
    ensures { result ≡ spec.has_page_count header.now }
{
    u32_at(header, PAGE_COUNT_AT) != 0
        && u32_at(header, CHANGE_COUNTER_AT) == u32_at(header, VERSION_VALID_FOR_AT)
}

/// The size in pages of a file of `len` bytes, and whether it is by the field.
pub(crate) fn page_count(header: &[u8], len: u64) -> (u64, bool)
    requires header { length header.now ≡ HEADER_LEN }
    requires size { spec.is_page_size (spec.page_size header.now) ≡ true }
    ensures count { result.0 ≡ spec.page_count header.now len }
    ensures field { result.1 ≡ spec.has_page_count header.now }
    ensures fits { result.0 * spec.page_size header.now < 2 ^ 64 }
{
    if has_page_count(header) {
        (u32_at(header, PAGE_COUNT_AT) as u64, true)
    } else {
        (len / page_size(header) as u64, false)
    }
}

/// The schema format; the field's 0 stands for 1.
pub(crate) fn schema_format(header: &[u8]) -> u32
    requires { length header.now ≡ HEADER_LEN }
    ensures { result ≡ spec.schema_format header.now }
{
    u32_at(header, SCHEMA_FORMAT_AT).max(1)
}

/// Whether the bytes that are the same in every database are there.
pub(crate) fn has_fixed_bytes(header: &[u8]) -> bool
    requires { length header.now ≡ HEADER_LEN }
    ensures { result ≡ spec.has_fixed_bytes header.now }
{
    header.starts_with(b"SQLite format 3\0".as_slice())
        && header[MAX_FRACTION_AT] == 64
        && header[MIN_FRACTION_AT] == 32
        && header[LEAF_FRACTION_AT] == 32
}

/// Whether both versions are those of a file with a rollback journal.
pub(crate) fn has_rollback_journal(header: &[u8]) -> bool
    requires { length header.now ≡ HEADER_LEN }
    ensures { result ≡ spec.has_rollback_journal header.now }
{
    header[WRITE_VERSION_AT] == ROLLBACK_JOURNAL && header[READ_VERSION_AT] == ROLLBACK_JOURNAL
}

/// Whether both fields of a file without auto-vacuum are 0.
pub(crate) fn has_no_vacuum(header: &[u8]) -> bool
    requires { length header.now ≡ HEADER_LEN }
    ensures { result ≡ spec.has_no_vacuum header.now }
{
    u32_at(header, LARGEST_ROOT_AT) == 0 && u32_at(header, INCREMENTAL_VACUUM_AT) == 0
}

pub(crate) fn text_encoding(header: &[u8]) -> u32
    requires { length header.now ≡ HEADER_LEN }
    ensures { result ≡ spec.text_encoding header.now }
{
    u32_at(header, TEXT_ENCODING_AT)
}
