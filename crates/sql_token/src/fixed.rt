//! What one token of a text is: its bytes, a fixed word, a sign, a name.

ghost use Rattle.std.specs.Prelude.{◌≡◌, ◌↔◌, IsTrue, IfSome};
ghost use Rattle.sql_token.specs.Fixed.{IsFixed, IsSign, IsName};
ghost use Rattle.sql_token.specs.Token.{span};
ghost use Rattle.sql_token.specs.declared.keyword.Keyword.{Keyword};

use crate::keyword::{Keyword, keyword_of};
use crate::name::same_name;
use crate::token::{Token, TokenKind};

/// The token's bytes, as far as the text has them.
pub fn bytes_of<'a>(text: &'a [u8], token: &Token) -> &'a [u8]
    ensures { result.now ≡ span text.now token.now }
{
    let Some(from) = text.get(token.start..) else {
        return &[];
    };
    let length = token.end.saturating_sub(token.start).min(from.len());
    &from[..length]
}

/// The fixed word that the token is. It is the answer of `is_fixed` for all words at once.
pub fn fixed_word(text: &[u8], token: &Token) -> Option<Keyword>
    ensures found { IfSome result (λ word. IsFixed text.now word token.now) }
    ensures only { (word : Keyword) → IsFixed text.now word token.now → result ≡ Some word }
{
    match token.kind {
        TokenKind::Word => keyword_of(bytes_of(text, token)),
        _ => None,
    }
}

/// Whether the token is this fixed word, in letters of either case.
pub fn is_fixed(text: &[u8], word: Keyword, token: &Token) -> bool
    ensures { IsTrue result ↔ IsFixed text.now word token.now }
{
    token.kind == TokenKind::Word && same_name(bytes_of(text, token), word.spelling())
}

/// Whether the token is this sign.
pub fn is_sign(text: &[u8], sign: &[u8], token: &Token) -> bool
    ensures { IsTrue result ↔ IsSign text.now sign.now token.now }
{
    token.kind == TokenKind::Op && bytes_of(text, token) == sign
}

/// Whether the token is a name: a Word that is not reserved, a Quoted or a Str.
pub fn is_name(text: &[u8], token: &Token) -> bool
    ensures { IsTrue result ↔ IsName text.now token.now }
{
    match fixed_word(text, token) {
        Some(word) => !word.is_reserved(),
        None => matches!(
            token.kind,
            TokenKind::Word | TokenKind::Quoted | TokenKind::Str
        ),
    }
}
