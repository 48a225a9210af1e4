//! Why a script is refused.

use std::alloc::{AllocError, AllocFailed};
use thiserror::Error;

/// Why a script is no list of commands. The first that holds, in this order, is the answer.
#[derive(Clone, Copy, Debug, PartialEq, Eq)]
pub enum Cause {
    /// It has more than `MAX_BYTES` bytes. The place is `MAX_BYTES`.
    TooLong,
    /// A byte is in no token, blank or comment. The place is the first such byte.
    BadToken,
    /// More than 100 levels of parentheses and CASEs are open, counted over the whole script. The place is the start of
    /// the first token behind which they are.
    Depth,
    /// More than `MAX_COMMANDS` pieces are not empty, and so many of them spell commands. The place is the start of the
    /// first piece behind these.
    TooMany,
    /// A piece is neither empty nor a command. The place is the start of the first such piece.
    Syntax,
}

/// Why no commands are given.
#[derive(Debug, Drop, Error)]
pub enum ScriptError {
    #[error("out of memory")]
    Memory(AllocError),
    /// The offset in the script, and why it is refused there.
    #[error("refused at {0}")]
    At(usize, Cause),
}

impl From<AllocError> for ScriptError {
    ghost use Rattle.std.specs.Prelude.{◌≡◌};
    ghost use Rattle.script_parse.specs.declared.error.ScriptError.TheVariants.{Memory};

    ghost from_gives = { λ fault error. error ≡ Memory fault };

    fn from(fault: AllocError) -> ScriptError {
        ScriptError::Memory(fault)
    }
}

impl<T: Drop> From<AllocFailed<T>> for ScriptError {
    ghost use Rattle.std.specs.Prelude.{◌≡◌, alloc_error};
    ghost use Rattle.script_parse.specs.declared.error.ScriptError.TheVariants.{Memory};

    ghost from_gives = { λ _ error. error ≡ Memory alloc_error };

    fn from(failed: AllocFailed<T>) -> ScriptError {
        ScriptError::Memory(AllocError::from(failed))
    }
}
