ghost use Rattle.std.specs.Prelude.{◌≡◌, ◌≤◌, ◌+◌, length, drop};
ghost use Rattle.byteorder.specs.Endian.{big_bytes, big_number};
ghost use Rattle.alter_bytes.specs.Field.{field_at, overlaid};

use byteorder::{BigEndian, ByteOrder};

/// The big-endian number in the two bytes from `at`.
pub fn u16_at(b: &[u8], at: usize) -> u16
    requires { at + 2 ≤ length b.now }
    ensures { result ≡ big_number 2 (drop at b.now) }
{
    BigEndian::read_u16(&b[at..])
}

/// The big-endian number in the four bytes from `at`.
pub fn u32_at(b: &[u8], at: usize) -> u32
    requires { at + 4 ≤ length b.now }
    ensures { result ≡ big_number 4 (drop at b.now) }
{
    BigEndian::read_u32(&b[at..])
}

/// The big-endian number in the two bytes from `at`, or `None` where fewer stand there.
pub fn read_u16(b: &[u8], at: usize) -> Option<u16>
    ensures { result ≡ field_at 2 b.now at }
{
    let rest = b.get(at..)?;
    if rest.len() < 2 {
        return None;
    }
    Some(u16_at(b, at))
}

/// The big-endian number in the four bytes from `at`, or `None` where fewer stand there.
pub fn read_u32(b: &[u8], at: usize) -> Option<u32>
    ensures { result ≡ field_at 4 b.now at }
{
    let rest = b.get(at..)?;
    if rest.len() < 4 {
        return None;
    }
    Some(u32_at(b, at))
}

/// Writes `v` big-endian into the two bytes from `at`.
pub fn write_u16(b: &mut [u8], at: usize, v: u16)
    requires { at + 2 ≤ length b.old }
    ensures { b.new ≡ overlaid b.old at (big_bytes 2 v) }
{
    BigEndian::write_u16(&mut b[at..at + 2], v);
}

/// Writes `v` big-endian into the four bytes from `at`.
pub fn write_u32(b: &mut [u8], at: usize, v: u32)
    requires { at + 4 ≤ length b.old }
    ensures { b.new ≡ overlaid b.old at (big_bytes 4 v) }
{
    BigEndian::write_u32(&mut b[at..at + 4], v);
}
