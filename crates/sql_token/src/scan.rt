//! The token at the front of some bytes.

ghost use Rattle.std.specs.Prelude.{◌≡◌, ◌<◌, ◌≤◌, ◌+◌, length, ◌∷◌};
ghost use Rattle.std.specs.Char.{is_ascii_digit, is_ascii_hexdigit};
ghost use Rattle.sql_token.specs.Form as form;
ghost use Rattle.sql_token.specs.Scan as spec;

use crate::class::{Class, begins_digit, begins_with, class_of, is_x, word_run};
use crate::number::whole_number;
use crate::quote::{blob_len, bracket_len, quote_len};
use crate::token::TokenKind;

const OPERATORS: [&[u8]; 26] = [
    b"(", b")", b",", b";", b".", b"+", b"-", b"*", b"/", b"%", b"=", b"==", b"<", b"<=", b"<>",
    b"<<", b">", b">=", b">>", b"!=", b"&", b"~", b"->", b"->>", b"|", b"||",
];

/// The kind and the length of the token in front, where no blank and no comment is.
#[tactic(auto, unfolding(crate::specs::Scan::front))]
pub fn front(bytes: &[u8]) -> Option<(TokenKind, usize)>
    ensures { result ≡ spec.front bytes.now }
{
    let [first, rest @ ..] = bytes else {
        return None;
    };
    match class_of(*first) {
        Class::Letter => word_or_blob(*first, rest),
        Class::Digit => whole_number(bytes),
        Class::Point if begins_digit(rest) => whole_number(bytes),
        Class::Apostrophe => of_kind(TokenKind::Str, quote_len(*first, rest)),
        Class::Sign => of_kind(TokenKind::Quoted, quote_len(*first, rest)),
        Class::Bracket => of_kind(TokenKind::Quoted, bracket_len(rest)),
        Class::Point | Class::Other => of_kind(TokenKind::Op, operator_len(bytes)),
    }
}

fn of_kind(kind: TokenKind, length: Option<usize>) -> Option<(TokenKind, usize)>
    ensures { result ≡ spec.of_kind kind length }
{
    Some((kind, length?))
}

/// A blob, or a Word, whose first byte stands before the bytes.
#[tactic(auto, unfolding(crate::specs::Scan::word_or_blob))]
fn word_or_blob(first: u8, rest: &[u8]) -> Option<(TokenKind, usize)>
    ensures { result ≡ spec.word_or_blob first rest.now }
{
    if is_x(first) && begins_with(rest, b'\'') {
        of_kind(TokenKind::Blob, blob_len(&rest[1..]))
    } else {
        Some((TokenKind::Word, 1 + word_run(rest)))
    }
}

/// The length of the longest operator in front.
fn operator_len(bytes: &[u8]) -> Option<usize>
    ensures { result ≡ spec.operator_len bytes.now }
{
    if has_operator(bytes, 3) {
        Some(3)
    } else if has_operator(bytes, 2) {
        Some(2)
    } else if has_operator(bytes, 1) {
        Some(1)
    } else {
        None
    }
}

/// Whether an operator of so many bytes is in front.
fn has_operator(bytes: &[u8], length: usize) -> bool
    ensures { result ≡ spec.has_operator length bytes.now }
{
    length <= bytes.len() && is_operator(&bytes[..length])
}

fn is_operator(bytes: &[u8]) -> bool
    ensures { result ≡ form.is_operator bytes.now }
{
    OPERATORS.contains(&bytes)
}
