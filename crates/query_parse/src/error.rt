//! Why no tree is given.

use sql_reader::ReadError;
use std::alloc::AllocError;
use thiserror::Error;

/// Why no tree is given.
#[derive(Debug, Drop, Error)]
pub enum ParseError {
    #[error("out of memory")]
    Memory(AllocError),
    /// More than 100 levels of parentheses and CASEs are open behind the token that begins at this byte of the text,
    /// which is the first such token.
    #[error("nested too deep at byte {0}")]
    Depth(usize),
    /// No tree of the rule spells all the tokens.
    #[error("syntax")]
    Syntax,
}

impl From<AllocError> for ParseError {
    ghost use Rattle.std.specs.Prelude.{◌≡◌};
    ghost use Rattle.query_parse.specs.declared.error.ParseError.TheVariants.{Memory};

    ghost from_gives = { λ fault error. error ≡ Memory fault };

    fn from(fault: AllocError) -> ParseError {
        ParseError::Memory(fault)
    }
}

impl From<ReadError> for ParseError {
    ghost use Rattle.std.specs.Prelude.{◌≡◌};
    ghost use Rattle.query_parse.specs.Answers.{fault_of};

    ghost from_gives = { λ fault error. error ≡ fault_of fault };

    fn from(fault: ReadError) -> ParseError {
        match fault {
            ReadError::Memory(fault) => ParseError::Memory(fault),
            ReadError::Syntax => ParseError::Syntax,
        }
    }
}
