ghost use Rattle.std.specs.Prelude.{◌≡◌};
ghost use Rattle.tree_read.specs.Answers.{cell_error};

use page_cells::CellError;
use pager_core::PageError;
use std::alloc::{AllocError, AllocFailed};
use thiserror::Error;

/// Why a tree was not read.
#[derive(Debug, Drop, Error)]
pub enum WalkError {
    #[error("out of memory")]
    Memory(AllocError),
    /// The disk counted a fault at reading.
    #[error("a read of the database failed")]
    Failed,
    /// The first page of the walk, depth first in key order, that breaks the format.
    #[error("page {0} is corrupt")]
    Corrupt(u32),
}

impl From<AllocError> for WalkError {
    ghost use Rattle.tree_read.specs.declared.error.WalkError.TheVariants.{Memory};
    ghost use Rattle.std.specs.Prelude.{◌≡◌};

    ghost from_gives = { λ fault error. error ≡ Memory fault };

    fn from(fault: AllocError) -> WalkError {
        WalkError::Memory(fault)
    }
}

impl<T: Drop> From<AllocFailed<T>> for WalkError {
    ghost use Rattle.std.specs.Prelude.{◌≡◌, alloc_error};
    ghost use Rattle.tree_read.specs.declared.error.WalkError.TheVariants.{Memory};

    ghost from_gives = { λ _ error. error ≡ Memory alloc_error };

    fn from(fault: AllocFailed<T>) -> WalkError {
        WalkError::Memory(fault.into())
    }
}

impl From<PageError> for WalkError {
    ghost use Rattle.tree_read.specs.Answers.{walk_error};
    ghost use Rattle.std.specs.Prelude.{◌≡◌};

    ghost from_gives = { λ fault error. error ≡ walk_error fault };

    fn from(fault: PageError) -> WalkError {
        match fault {
            PageError::Memory(fault) => WalkError::Memory(fault),
            PageError::Failed => WalkError::Failed,
        }
    }
}

/// The answer where a page has no cells.
pub(crate) fn no_cells(fault: CellError, page: u32) -> WalkError
    ensures { result ≡ cell_error fault page }
{
    match fault {
        CellError::Memory(fault) => WalkError::Memory(fault),
        CellError::Kind | CellError::Bounds(_) => WalkError::Corrupt(page),
    }
}
