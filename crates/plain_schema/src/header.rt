//! The header of a database file (fileformat2.html, "The Database Header").
ghost use Rattle.std.specs.Prelude.{◌≡◌, length};
ghost use Rattle.plain_schema.specs.Header as spec;

use alter_bytes::{u32_at, write_u32};
use pager_core::HEADER_LEN;

// The offsets of its fields of four bytes.
/// "File Change Counter".
const CHANGE_COUNTER_AT: usize = 24;
/// "In-Header Database Size".
const PAGE_COUNT_AT: usize = 28;
/// "Schema Cookie".
const SCHEMA_COOKIE_AT: usize = 40;
/// "Schema Format Number".
const SCHEMA_FORMAT_AT: usize = 44;
/// "Write library version number and version-valid-for number".
const VERSION_VALID_FOR_AT: usize = 92;

/// The schema format that an added column wants at least ("Schema Format Number").
const ADDED_FORMAT: u32 = 3;

/// Makes of the header that of the file after a committed change: one more change and one more schema,
/// and the file's size in pages.
pub fn commit(header: &mut [u8], count: u32)
    requires { length header.old ≡ HEADER_LEN }
    ensures { header.new ≡ spec.committed count ADDED_FORMAT header.old }
{
    let counter = u32_at(header, CHANGE_COUNTER_AT).wrapping_add(1);
    let cookie = u32_at(header, SCHEMA_COOKIE_AT).wrapping_add(1);
    let format = u32_at(header, SCHEMA_FORMAT_AT).max(ADDED_FORMAT);
    write_u32(header, CHANGE_COUNTER_AT, counter);
    write_u32(header, PAGE_COUNT_AT, count);
    write_u32(header, SCHEMA_COOKIE_AT, cookie);
    write_u32(header, SCHEMA_FORMAT_AT, format);
    write_u32(header, VERSION_VALID_FOR_AT, counter);
}
