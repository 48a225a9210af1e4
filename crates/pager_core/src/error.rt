use alter_disk::Failed;
use std::alloc::AllocError;
use thiserror::Error;

/// Why a page was not read or changed.
#[derive(Debug, Drop, Error)]
pub enum PageError {
    #[error("out of memory")]
    Memory(AllocError),
    /// The disk counted a fault at reading.
    #[error("a read of the database failed")]
    Failed,
}

impl From<AllocError> for PageError {
    ghost use Rattle.pager_core.specs.declared.error.PageError.TheVariants.{Memory};
    ghost use Rattle.std.specs.Prelude.{◌≡◌};

    ghost from_gives = { λ fault error. error ≡ Memory fault };

    fn from(fault: AllocError) -> PageError {
        PageError::Memory(fault)
    }
}

impl From<Failed> for PageError {
    ghost use Rattle.pager_core.specs.declared.error.PageError.TheVariants.{Failed};
    ghost use Rattle.std.specs.Prelude.{◌≡◌};

    ghost from_gives = { λ _ error. error ≡ Failed };

    fn from(_: Failed) -> PageError {
        PageError::Failed
    }
}
