//! Why nothing was read.

use std::alloc::{AllocError, AllocFailed};
use thiserror::Error;

/// Why nothing was read.
#[derive(Debug, Drop, Error)]
pub enum ReadError {
    #[error("out of memory")]
    Memory(AllocError),
    /// The tokens that are left do not begin as the rule asks.
    #[error("syntax")]
    Syntax,
}

impl From<AllocError> for ReadError {
    ghost use Rattle.std.specs.Prelude.{◌≡◌};
    ghost use Rattle.sql_reader.specs.declared.error.ReadError.TheVariants.{Memory};

    ghost from_gives = { λ fault error. error ≡ Memory fault };

    fn from(fault: AllocError) -> ReadError {
        ReadError::Memory(fault)
    }
}

impl<T: Drop> From<AllocFailed<T>> for ReadError {
    ghost use Rattle.std.specs.Prelude.{◌≡◌, alloc_error};
    ghost use Rattle.sql_reader.specs.declared.error.ReadError.TheVariants.{Memory};

    ghost from_gives = { λ _ error. error ≡ Memory alloc_error };

    fn from(failed: AllocFailed<T>) -> ReadError {
        ReadError::Memory(AllocError::from(failed))
    }
}
