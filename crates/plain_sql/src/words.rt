//! What one token of a text or a script is.
ghost use Rattle.std.specs.Prelude.{◌≡◌, List, ℕ, IfOk, IfSome, IfNone};
ghost use Rattle.std.specs.Option.{IsSomeAnd};
ghost use Rattle.common_laws.specs.Results.{AnyError, Yields};
ghost use Rattle.sql_token.specs.declared.token.Token.{Token};
ghost use Rattle.sql_token.specs.Token.{AreTokens};
ghost use Rattle.plain_sql.specs.Words.{IsPlainName};

use sql_token::{Token, TokenError, TokenKind, bytes_of, keyword_of, tokens};
use std::alloc::{AllocError, Global};

/// The name that the token spells, where it is a word and none of SQL's.
pub fn plain_name<'a>(text: &'a [u8], token: &Token) -> Option<&'a [u8]>
    ensures found { IfSome result (λ name. IsPlainName text.now token.now name.now) }
    ensures none { IfNone result ((name : List ℕ) → IsPlainName text.now token.now name → ⊥) }
{
    let bytes = bytes_of(text, token);
    if token.kind == TokenKind::Word && keyword_of(bytes).is_none() {
        Some(bytes)
    } else {
        None
    }
}

/// The text's tokens, or `None` where it has a bad one.
pub fn read_tokens(alloc: Global, text: &[u8]) -> Result<Option<Vec<Token>>, AllocError>
    ensures found { IfOk result (λ read. IfSome read (λ list. AreTokens text.now list.items)) }
    ensures only { (list : List Token) → AreTokens text.now list → Yields AnyError (λ read. IsSomeAnd read (λ found. found.items ≡ list)) result }
{
    match tokens(alloc, text) {
        Ok(list) => Ok(Some(list)),
        Err(TokenError::Memory(fault)) => Err(fault),
        Err(TokenError::Bad(_)) => Ok(None),
    }
}
