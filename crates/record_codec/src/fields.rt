//! The fields in front of a record's parts.
ghost use Rattle.std.specs.Prelude.{◌≡◌, ℕ, ◌≢◌, ◌≤◌, ◌<◌, ◌+◌, List, ◌++◌, length, drop, IfSome, IfNone, IfOk, IfErr};
ghost use Rattle.alter_bytes.specs.Varint.{IsVarint};
ghost use Rattle.record_codec.specs.Serial.{IsSerial, body_size};
ghost use Rattle.record_codec.specs.Record.{AreSerials, HasHeader};
ghost use Rattle.record_codec.specs.Faults.{BeginsNoSerial, HasNoHeader, IsHeaderFault};

use crate::serial::body_len;
use alter_bytes::read_varint;

/// The serial types of the header, and the bytes behind it.
fn header(bytes: &[u8]) -> Option<(&[u8], &[u8])>
    ensures found { IfSome result (λ parts. HasHeader bytes.now parts.0.now parts.1.now) }
    ensures none { IfNone result (HasNoHeader bytes.now) }
{
    let (size, len) = read_varint(bytes, 0)?;
    if size < len as u64 || (bytes.len() as u64) < size {
        return None;
    }
    let (header, bodies) = bytes.split_at(size as usize);
    let (_, types) = header.split_at(len);
    Some((types, bodies))
}

/// The serial type in front, and the bytes behind it.
pub fn serial_front(types: &[u8]) -> Option<(u64, &[u8])>
    ensures found { IfSome result (λ front. (first : List ℕ) × (types.now ≡ first ++ front.1.now) × IsVarint first front.0 × IsSerial front.0) }
    ensures shorter { IfSome result (λ front. length front.1.now < length types.now) }
    ensures none { IfNone result (BeginsNoSerial types.now) }
{
    let (serial, len) = read_varint(types, 0)?;
    if serial == 10 || serial == 11 {
        return None;
    }
    let (_, behind) = types.split_at(len);
    Some((serial, behind))
}

/// The bytes behind the serial types in front.
fn behind_serials(types: &[u8]) -> &[u8]
    ensures { (front : List ℕ) × (serials : List ℕ) × (types.now ≡ front ++ result.now) × AreSerials serials front × BeginsNoSerial result.now }
{
    let mut rest = types;
    while let Some((_, behind)) = serial_front(rest) {
        rest = behind;
    }
    rest
}

/// The serial types of the header, none of which is at fault, and the bytes behind the header; else the place of the
/// header's first fault.
pub fn parts(bytes: &[u8]) -> Result<(&[u8], &[u8]), usize>
    ensures found { IfOk result (λ parts. HasHeader bytes.now parts.0.now parts.1.now × ((serials : List ℕ) × AreSerials serials parts.0.now)) }
    ensures bad { IfErr result (λ at. IsHeaderFault bytes.now at) }
{
    let Some((types, bodies)) = header(bytes) else {
        return Err(0);
    };
    let bad = behind_serials(types);
    if bad.is_empty() {
        Ok((types, bodies))
    } else {
        Err(bytes.len() - bodies.len() - bad.len())
    }
}

/// The body of the serial type in front, and the bytes behind it.
pub fn body_front(serial: u64, bodies: &[u8]) -> Option<(&[u8], &[u8])>
    ensures found { IfSome result (λ front. (bodies.now ≡ front.0.now ++ front.1.now) × (length front.0.now ≡ body_size serial)) }
    ensures none { IfNone result (length bodies.now < body_size serial) }
{
    if body_len(serial) <= bodies.len() as u64 {
        Some(split_body(serial, bodies))
    } else {
        None
    }
}

/// The same of a body that is there.
pub fn split_body(serial: u64, bodies: &[u8]) -> (&[u8], &[u8])
    requires { body_size serial ≤ length bodies.now }
    ensures whole { bodies.now ≡ result.0.now ++ result.1.now }
    ensures size { length result.0.now ≡ body_size serial }
{
    bodies.split_at(body_len(serial) as usize)
}
