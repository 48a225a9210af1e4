//! The header of a journal.
ghost use Rattle.std.specs.Prelude.{◌≡◌, ◌≤◌, ◌+◌, length};
ghost use Rattle.rollback_journal.specs.Header.{magic, no_magic, has_magic, number_at, is_size, is_allowed, fields_of, header_of, bytes_of};

use alter_bytes::{u32_at, write_u32};

/// The bytes of a header (fileformat2.html, "The Rollback Journal"). It is padded to the sector size.
pub const HEADER_LEN: usize = 28;

/// The bytes with which a header begins.
pub const MAGIC: [u8; 8] = [0xd9, 0xd5, 0x05, 0xf9, 0x20, 0xa1, 0x63, 0xd7];

/// The fields of a header: how many records follow (ff ff ff ff: as many as the file holds), the nonce of their
/// checksums, the size of the database in pages at the start, and the sizes of a sector and a page in bytes.
#[derive(Clone, Copy, Debug, PartialEq, Eq)]
pub struct Header {
    pub count: u32,
    pub nonce: u32,
    pub size: u32,
    pub sector: u32,
    pub page: u32,
}

/// The header in these bytes: `None` where the magic is missing, or a size is not allowed.
pub fn read_header(b: &[u8; HEADER_LEN]) -> Option<Header>
    ensures { result ≡ header_of b.now }
{
    let header = fields(b);
    if begins_with_magic(b) && is_allowed(&header) {
        Some(header)
    } else {
        None
    }
}

/// The bytes of a header, with the magic or, before it counts, with zeros.
pub fn header_bytes(h: &Header, opened: bool) -> [u8; HEADER_LEN]
    ensures { result ≡ bytes_of h.now opened }
{
    let mut bytes = [0; HEADER_LEN];
    if opened {
        bytes[..8].copy_from_slice(&MAGIC);
    }
    write_u32(&mut bytes, 8, h.count);
    write_u32(&mut bytes, 12, h.nonce);
    write_u32(&mut bytes, 16, h.size);
    write_u32(&mut bytes, 20, h.sector);
    write_u32(&mut bytes, 24, h.page);
    bytes
}

/// Whether the bytes begin with the magic.
pub(crate) fn begins_with_magic(b: &[u8]) -> bool
    ensures { result ≡ has_magic b.now }
{
    b.starts_with(&MAGIC)
}

fn fields(b: &[u8]) -> Header
    requires { length b.now ≡ HEADER_LEN }
    ensures { result ≡ fields_of b.now }
{
    Header {
        count: u32_at(b, 8),
        nonce: u32_at(b, 12),
        size: u32_at(b, 16),
        sector: u32_at(b, 20),
        page: u32_at(b, 24),
    }
}

fn is_allowed(h: &Header) -> bool
    ensures { result ≡ is_allowed h.now }
{
    is_size(32, h.sector) && is_size(512, h.page)
}

/// Whether a size is a power of two from `least` to 65536.
fn is_size(least: u32, n: u32) -> bool
    ensures { result ≡ is_size least n }
{
    least <= n && n <= 65536 && n.is_power_of_two()
}
