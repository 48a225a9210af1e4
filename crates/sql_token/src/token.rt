//! Tokens and the error of reading them.

use std::alloc::{AllocError, AllocFailed};
use thiserror::Error;

/// The kind of a token.
#[derive(Clone, Copy, Debug, PartialEq, Eq)]
pub enum TokenKind {
    /// A keyword or a name without quotes.
    Word,
    /// A name between `"`, between `` ` `` or between brackets.
    Quoted,
    /// A text between `'`.
    Str,
    /// Hexadecimal digits between `x'` and `'`.
    Blob,
    /// Digits.
    Int,
    /// `0x` and hexadecimal digits.
    Hex,
    /// A number with a fraction, an exponent or both.
    Float,
    /// An operator or a sign of punctuation.
    Op,
}

/// A token's kind and the place of its bytes in the text.
#[derive(Clone, Copy, Debug, PartialEq, Eq)]
pub struct Token {
    pub kind: TokenKind,
    /// The offset of the first byte.
    pub start: usize,
    /// The offset behind the last byte.
    pub end: usize,
}

/// Why a text has no list of tokens.
#[derive(Debug, Drop, Error)]
pub enum TokenError {
    #[error("out of memory")]
    Memory(AllocError),
    /// The offset of the first byte that is in no token, blank or comment.
    #[error("no token at {0}")]
    Bad(usize),
}

impl From<AllocError> for TokenError {
    ghost use Rattle.std.specs.Prelude.{◌≡◌};
    ghost use Rattle.sql_token.specs.declared.token.TokenError.TheVariants.{Memory};

    ghost from_gives = { λ fault error. error ≡ Memory fault };

    fn from(fault: AllocError) -> TokenError {
        TokenError::Memory(fault)
    }
}

impl<T: Drop> From<AllocFailed<T>> for TokenError {
    ghost use Rattle.std.specs.Prelude.{◌≡◌, alloc_error};
    ghost use Rattle.sql_token.specs.declared.token.TokenError.TheVariants.{Memory};

    ghost from_gives = { λ _ error. error ≡ Memory alloc_error };

    fn from(failed: AllocFailed<T>) -> TokenError {
        TokenError::Memory(AllocError::from(failed))
    }
}
