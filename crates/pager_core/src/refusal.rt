//! Why a database file is refused.
ghost use Rattle.std.specs.Prelude.{◌≡◌, true, length, min};
ghost use Rattle.pager_core.specs.Header as spec;
ghost use Rattle.pager_core.specs.Refusals.{holds, has_other_length, is_too_large};
ghost use Rattle.pager_core.specs.Refusals as refused;

use crate::header::{
    HEADER_LEN, has_fixed_bytes, has_no_vacuum, has_rollback_journal, is_page_size, page_count,
    page_size, schema_format, text_encoding, usable_size,
};

/// The least usable bytes of a page (fileformat2.html, "Reserved bytes per page").
const LEAST_USABLE: u32 = 480;

/// The highest text encoding that is read, UTF-8 ("Text Encoding"). A file without a text may have 0.
const MAX_ENCODING: u32 = 1;

/// The highest schema format ("Schema Format Number").
const MAX_FORMAT: u32 = 4;

/// The most pages of a file that is opened.
const MAX_PAGES: u64 = 65536;

/// The most bytes in the pages of a file that is opened.
const MAX_BYTES: u64 = 1 << 28;

/// Why a file is refused. The first of these that holds, in this order, is the answer.
#[derive(Clone, Copy, Debug, PartialEq, Eq)]
pub enum FileRefusal {
    Empty,
    /// Fewer than 100 bytes, or others than every database has.
    NotDatabase,
    /// No allowed page size, or too few bytes of a page that are not reserved.
    PageSize,
    /// A write-ahead log.
    Wal,
    AutoVacuum,
    /// Another text encoding than UTF-8.
    Encoding,
    SchemaFormat,
    /// No page, fewer bytes than the pages have, or no whole pages.
    Size,
    /// Too many pages, or too many bytes in them.
    TooLarge,
    /// A page at fault, by its number from 1. `shape` looks at no page.
    Corrupt(u32),
}

/// Whether the file is too short, or others' bytes begin it.
fn is_no_database(first: &[u8], len: u64) -> bool
    requires { length first.now ≡ min 100 len }
    ensures { result ≡ holds first.now len FileRefusal.NotDatabase }
{
    len < HEADER_LEN as u64 || !has_fixed_bytes(first)
}

/// Whether the page size is none, or leaves too few bytes.
fn has_bad_page_size(header: &[u8]) -> bool
    requires { length header.now ≡ HEADER_LEN }
    ensures { result ≡ holds header.now 0 FileRefusal.PageSize }
{
    !is_page_size(page_size(header)) || usable_size(header) < LEAST_USABLE
}

/// Whether the pages are none, or the file's length is none for them.
fn has_bad_size(header: &[u8], len: u64) -> bool
    requires header { length header.now ≡ HEADER_LEN }
    requires size { spec.is_page_size (spec.page_size header.now) ≡ true }
    ensures { result ≡ holds header.now len FileRefusal.Size }
{
    let page = page_size(header) as u64;
    let (count, is_by_field) = page_count(header, len);
    count == 0 || len < count * page || !is_by_field && len % page != 0
}

/// Whether there are more pages, or bytes in them, than in a file that is opened.
fn is_too_large(header: &[u8], len: u64) -> bool
    requires header { length header.now ≡ HEADER_LEN }
    requires size { spec.is_page_size (spec.page_size header.now) ≡ true }
    ensures { result ≡ holds header.now len FileRefusal.TooLarge }
{
    let (count, _) = page_count(header, len);
    count > MAX_PAGES || count * page_size(header) as u64 > MAX_BYTES
}

/// The first refusal that holds.
pub(crate) fn first_refusal(first: &[u8], len: u64) -> Option<FileRefusal>
    requires { length first.now ≡ min 100 len }
    ensures { result ≡ refused.first_refusal first.now len }
{
    if len == 0 {
        return Some(FileRefusal::Empty);
    }
    if is_no_database(first, len) {
        return Some(FileRefusal::NotDatabase);
    }
    if has_bad_page_size(first) {
        return Some(FileRefusal::PageSize);
    }
    if !has_rollback_journal(first) {
        return Some(FileRefusal::Wal);
    }
    if !has_no_vacuum(first) {
        return Some(FileRefusal::AutoVacuum);
    }
    if text_encoding(first) > MAX_ENCODING {
        return Some(FileRefusal::Encoding);
    }
    if schema_format(first) > MAX_FORMAT {
        return Some(FileRefusal::SchemaFormat);
    }
    if has_bad_size(first, len) {
        return Some(FileRefusal::Size);
    }
    if is_too_large(first, len) {
        return Some(FileRefusal::TooLarge);
    }
    None
}
