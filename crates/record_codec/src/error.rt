use std::alloc::{AllocError, AllocFailed};
use thiserror::Error;

/// Why no values were read.
#[derive(Debug, Drop, Error)]
pub enum RecordError {
    #[error("out of memory")]
    Memory(AllocError),
    /// The offset of the first field that does not fit, or of the first byte behind the last body.
    #[error("no record: byte {0}")]
    Bad(usize),
}

impl From<AllocError> for RecordError {
    ghost use Rattle.std.specs.Prelude.{◌≡◌};
    ghost use Rattle.record_codec.specs.declared.error.RecordError.TheVariants.{Memory};

    ghost from_gives = { λ fault error. error ≡ Memory fault };

    fn from(fault: AllocError) -> RecordError {
        RecordError::Memory(fault)
    }
}

impl<T: Drop> From<AllocFailed<T>> for RecordError {
    ghost use Rattle.std.specs.Prelude.{◌≡◌, alloc_error};
    ghost use Rattle.record_codec.specs.declared.error.RecordError.TheVariants.{Memory};

    ghost from_gives = { λ _ error. error ≡ Memory alloc_error };

    fn from(failed: AllocFailed<T>) -> RecordError {
        RecordError::Memory(AllocError::from(failed))
    }
}
