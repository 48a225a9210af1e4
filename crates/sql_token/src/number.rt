//! Numbers at the front of some bytes.

ghost use Rattle.std.specs.Prelude.{◌≡◌, ◌≤◌, ◌+◌, length};
ghost use Rattle.sql_token.specs.Byte as byte;
ghost use Rattle.sql_token.specs.Form as form;
ghost use Rattle.sql_token.specs.Scan as spec;

use crate::class::{begins_in_word, digit_run, hex_run, is_x};
use crate::token::TokenKind;

/// The kind and the length of the number in front, behind which no byte of a Word stands.
#[tactic(auto, unfolding(crate::specs::Scan::whole_number))]
pub fn whole_number(bytes: &[u8]) -> Option<(TokenKind, usize)>
    ensures { result ≡ spec.whole_number bytes.now }
{
    let (kind, length) = number(bytes);
    if begins_in_word(&bytes[length..]) {
        None
    } else {
        Some((kind, length))
    }
}

fn number(bytes: &[u8]) -> (TokenKind, usize)
    ensures value { result ≡ spec.number bytes.now }
    ensures within { result.1 ≤ length bytes.now }
{
    match hex_len(bytes) {
        0 => decimal(bytes),
        length => (TokenKind::Hex, length),
    }
}

fn decimal(bytes: &[u8]) -> (TokenKind, usize)
    ensures value { result ≡ spec.decimal bytes.now }
    ensures within { result.1 ≤ length bytes.now }
{
    let whole = digit_run(bytes);
    let rest = &bytes[whole..];
    let fraction = fraction_len(rest);
    let tail = fraction + exponent_len(&rest[fraction..]);
    let kind = if tail == 0 {
        TokenKind::Int
    } else {
        TokenKind::Float
    };
    (kind, whole + tail)
}

/// The length of a point in front and the digits behind it.
fn fraction_len(bytes: &[u8]) -> usize
    ensures value { result ≡ spec.fraction_len bytes.now }
    ensures within { result ≤ length bytes.now }
{
    match bytes {
        [b'.', rest @ ..] => 1 + digit_run(rest),
        _ => 0,
    }
}

/// The length of an exponent in front.
fn exponent_len(bytes: &[u8]) -> usize
    ensures value { result ≡ spec.exponent_len bytes.now }
    ensures within { result ≤ length bytes.now }
{
    let [b'e' | b'E', rest @ ..] = bytes else {
        return 0;
    };
    let (sign, digits) = match rest {
        [b'+' | b'-', digits @ ..] => (1, digit_run(digits)),
        _ => (0, digit_run(rest)),
    };
    if digits == 0 { 0 } else { 1 + sign + digits }
}

/// The length of a hexadecimal number in front.
fn hex_len(bytes: &[u8]) -> usize
    ensures value { result ≡ spec.hex_len bytes.now }
    ensures within { result ≤ length bytes.now }
{
    let [b'0', x, rest @ ..] = bytes else {
        return 0;
    };
    if !is_x(*x) {
        return 0;
    }
    match hex_run(rest) {
        0 => 0,
        digits => 2 + digits,
    }
}
