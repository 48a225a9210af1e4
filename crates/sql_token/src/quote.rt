//! Quotes and blobs, behind their opening signs.

ghost use Rattle.std.specs.Prelude.{◌≡◌, ◌≤◌, ◌+◌, length, IfSome};
ghost use Rattle.sql_token.specs.Scan as spec;

use crate::class::{begins_with, hex_run, run_without};

/// The length of a quote whose first sign stands before the bytes.
pub fn quote_len(sign: u8, bytes: &[u8]) -> Option<usize>
    ensures value { result ≡ spec.quote_len sign bytes.now }
{
    Some(1 + closing_len(sign, bytes)?)
}

/// The length up to and with the sign that closes a quote. A doubled one does not.
fn closing_len(sign: u8, bytes: &[u8]) -> Option<usize>
    ensures value { result ≡ spec.closing_len sign bytes.now }
    ensures within { IfSome result (λ len. len ≤ length bytes.now) }
{
    let mut at = 0;
    while at < bytes.len() {
        if bytes[at] != sign {
            at += 1;
        } else if begins_with(&bytes[at + 1..], sign) {
            at += 2;
        } else {
            return Some(at + 1);
        }
    }
    None
}

/// The length of a name in brackets whose `[` stands before the bytes.
pub fn bracket_len(bytes: &[u8]) -> Option<usize>
    ensures { result ≡ spec.bracket_len bytes.now }
{
    let name = run_without(bytes, b']');
    if name < bytes.len() {
        Some(2 + name)
    } else {
        None
    }
}

/// The length of a blob whose `x'` stands before the bytes.
pub fn blob_len(bytes: &[u8]) -> Option<usize>
    ensures { result ≡ spec.blob_len bytes.now }
{
    let digits = hex_run(bytes);
    if begins_with(&bytes[digits..], b'\'') && digits % 2 == 0 {
        Some(3 + digits)
    } else {
        None
    }
}
