//! The fields of a line, and the bytes that they stand for.

ghost use Rattle.std.specs.Prelude.{◌≤◌, ◌<◌, length, IfSome};

use std::alloc::{AllocError, Global};
use std::fmt;

/// The bytes that a field stands for. A backslash begins `\\`, `\t`, `\n`, `\r` or `\xHH`; there are none
/// where it begins something else.
pub fn unescaped(alloc: Global, field: &[u8]) -> Result<Option<Vec<u8>>, AllocError> {
    let mut bytes = Vec::new(alloc);
    let mut rest = field;
    while !rest.is_empty() {
        let Some((byte, len)) = first_byte(rest) else {
            return Ok(None);
        };
        bytes.push(byte)?;
        rest = &rest[len..];
    }
    Ok(Some(bytes))
}

/// The byte that the front of a field stands for, and how many bytes of the field say so.
fn first_byte(field: &[u8]) -> Option<(u8, usize)>
    ensures { IfSome result (λ found. (1 ≤ found.1) × (found.1 ≤ length field.now)) }
{
    match field {
        [b'\\', b'\\', ..] => Some((b'\\', 2)),
        [b'\\', b't', ..] => Some((b'\t', 2)),
        [b'\\', b'n', ..] => Some((b'\n', 2)),
        [b'\\', b'r', ..] => Some((b'\r', 2)),
        [b'\\', b'x', high, low, ..] => Some((byte_of(*high, *low)?, 4)),
        [b'\\', ..] => None,
        [byte, ..] => Some((*byte, 1)),
        [] => None,
    }
}

/// The byte that two hexadecimal digits write.
pub fn byte_of(high: u8, low: u8) -> Option<u8> {
    Some(hex_digit(high)? * 16 + hex_digit(low)?)
}

/// The number of a hexadecimal digit.
fn hex_digit(digit: u8) -> Option<u8>
    ensures { IfSome result (λ number. number < 16) }
{
    match digit {
        b'0'..=b'9' => Some(digit - b'0'),
        b'a'..=b'f' => Some(digit - b'a' + 10),
        b'A'..=b'F' => Some(digit - b'A' + 10),
        _ => None,
    }
}

/// The number that decimal digits write.
pub fn number(digits: &[u8]) -> Option<usize> {
    std::str::from_utf8(digits).ok()?.parse().ok()
}

/// Bytes, written as a field.
#[derive(Clone, Copy)]
pub struct Escaped<'a>(pub &'a [u8]);

impl fmt::Display for Escaped<'_> {
    fn fmt<W: fmt::Write>(&self, f: &mut fmt::Formatter<W>) -> fmt::Result {
        for byte in self.0 {
            write_escaped(f, *byte)?;
        }
        Ok(())
    }
}

fn write_escaped<W: fmt::Write>(f: &mut fmt::Formatter<W>, byte: u8) -> fmt::Result {
    match byte {
        b'\\' => f.write_str("\\\\"),
        b'\t' => f.write_str("\\t"),
        b'\n' => f.write_str("\\n"),
        b'\r' => f.write_str("\\r"),
        b' '..=b'~' => write!(f, "{}", byte as char),
        other => write!(f, "\\x{other:02x}"),
    }
}

/// Bytes between double quotes, inner ones doubled, the others written as in a field.
#[derive(Clone, Copy)]
pub struct Quoted<'a>(pub &'a [u8]);

impl fmt::Display for Quoted<'_> {
    fn fmt<W: fmt::Write>(&self, f: &mut fmt::Formatter<W>) -> fmt::Result {
        f.write_str("\"")?;
        for byte in self.0 {
            match *byte {
                b'"' => f.write_str("\"\"")?,
                other => write_escaped(f, other)?,
            }
        }
        f.write_str("\"")
    }
}

/// Bytes, written as two hexadecimal digits each.
#[derive(Clone, Copy)]
pub struct Hex<'a>(pub &'a [u8]);

impl fmt::Display for Hex<'_> {
    fn fmt<W: fmt::Write>(&self, f: &mut fmt::Formatter<W>) -> fmt::Result {
        for byte in self.0 {
            write!(f, "{byte:02x}")?;
        }
        Ok(())
    }
}
