//! Names: how two are compared, and which name a token spells.

ghost use Rattle.std.specs.Prelude.{◌≡◌, ◌↔◌, List, ℕ, IsTrue, IfOk};
ghost use Rattle.sql_token.specs.Names.{fold, folded, IsNameKind, SpellsName};
ghost use Rattle.sql_token.specs.Scan.{undoubled};
ghost use Rattle.sql_token.specs.Token.{IsTokenAt};

use crate::token::{Token, TokenKind};
use std::alloc::{AllocError, Global};

/// The ASCII letter in lower case, and any other byte as it is.
pub fn fold(byte: u8) -> u8
    ensures { result ≡ fold byte }
{
    byte.to_ascii_lowercase()
}

/// Whether two names are equal, where ASCII letters of either case are equal.
pub fn same_name(a: &[u8], b: &[u8]) -> bool
    ensures { IsTrue result ↔ (folded a.now ≡ folded b.now) }
{
    a.eq_ignore_ascii_case(b)
}

/// The name that a token of the text spells, without its quotes.
pub fn name_of(alloc: Global, text: &[u8], token: &Token) -> Result<Vec<u8>, AllocError>
    requires at { IsTokenAt text.now token.now }
    requires named { IsNameKind token.now.kind }
    ensures found { IfOk result (λ name. SpellsName text.now token.now name.items) }
    ensures only { (name : List ℕ) → SpellsName text.now token.now name → IfOk result (λ read. read.items ≡ name) }
{
    let bytes = &text[token.start..token.end];
    if let TokenKind::Word = token.kind {
        return Vec::from_slice(alloc, bytes);
    }
    let inner = &bytes[1..bytes.len() - 1];
    if bytes[0] == b'[' {
        Vec::from_slice(alloc, inner)
    } else {
        undoubled(alloc, bytes[0], inner)
    }
}

/// The bytes with one sign for each two.
fn undoubled(alloc: Global, sign: u8, bytes: &[u8]) -> Result<Vec<u8>, AllocError>
    ensures { IfOk result (λ name. name.items ≡ undoubled sign bytes.now) }
{
    let mut name = Vec::new(alloc);
    let mut rest = bytes;
    while let [byte, tail @ ..] = rest {
        name.push(*byte)?;
        rest = match tail {
            [next, behind @ ..] if *byte == sign && *next == sign => behind,
            _ => tail,
        };
    }
    Ok(name)
}
