//! Cuts a text into its tokens.

ghost use Rattle.std.specs.Prelude.{◌≡◌, ◌≢◌, ◌<◌, ◌≤◌, ◌+◌, length, drop, List, ℕ, IfOk, IfErr, IfSome, IfNone};
ghost use Rattle.common_laws.specs.Results.{Yields};
ghost use Rattle.sql_token.specs.Filler.{IsFiller, IsGap, IsBlankAt, BeginsComment};
ghost use Rattle.sql_token.specs.Token.{AreTokens, FirstBad, IsMemory, IsTokenAt, OnBad};
ghost use Rattle.sql_token.specs.declared.token.Token.{Token};

use crate::filler::filler_end;
use crate::scan::front;
use crate::token::{Token, TokenError};
use std::alloc::Global;

/// The tokens of the text, each the longest at its place, without blanks and comments. `Bad` has the offset of
/// the first byte that is in no token, blank or comment.
pub fn tokens(alloc: Global, text: &[u8]) -> Result<Vec<Token>, TokenError>
    ensures found { IfOk result (λ list. AreTokens text.now list.items) }
    ensures only { (list : List Token) → AreTokens text.now list → Yields IsMemory (λ read. read.items ≡ list) result }
    ensures bad { IfErr result (OnBad (FirstBad text.now)) }
    ensures first { (at : ℕ) → FirstBad text.now at → Yields (OnBad (λ place. place ≡ at)) (λ read. ⊥) result }
{
    let mut list = Vec::new(alloc);
    let mut at = filler_end(text, 0);
    while at < text.len() {
        let Some(token) = token_at(text, at) else {
            return Err(TokenError::Bad(at));
        };
        list.push(token)?;
        at = filler_end(text, token.end);
    }
    Ok(list)
}

/// The token that begins at the place, where no blank and no comment does.
fn token_at(text: &[u8], at: usize) -> Option<Token>
    requires within { at < length text.now }
    requires free_of_comment { BeginsComment text.now at → ⊥ }
    ensures found { IfSome result (λ token. (token.start ≡ at) × IsTokenAt text.now token) }
    ensures none { IfNone result ((token : Token) → token.start ≡ at → IsTokenAt text.now token → ⊥) }
{
    let (kind, length) = front(&text[at..])?;
    Some(Token {
        kind,
        start: at,
        end: at + length,
    })
}
