use std::alloc::{AllocError, AllocFailed};

/// Why no cells were read from a page.
#[derive(Debug, Drop)]
pub enum CellError {
    Memory(AllocError),
    /// The first byte of the page's own header is that of no kind.
    Kind,
    /// A field of the page, at this place in it, that no page of the format has: the number of cells
    /// where their pointers do not fit, or the first pointer at which no cell can stand.
    Bounds(usize),
}

impl From<AllocError> for CellError {
    ghost use Rattle.std.specs.Prelude.{◌≡◌};
    ghost use Rattle.page_cells.specs.declared.error.CellError.TheVariants.{Memory};

    ghost from_gives = { λ fault e. e ≡ Memory fault };

    fn from(fault: AllocError) -> CellError {
        CellError::Memory(fault)
    }
}

impl<T: Drop> From<AllocFailed<T>> for CellError {
    ghost use Rattle.std.specs.Prelude.{◌≡◌, alloc_error};
    ghost use Rattle.page_cells.specs.declared.error.CellError.TheVariants.{Memory};

    ghost from_gives = { λ _ e. e ≡ Memory alloc_error };

    fn from(fault: AllocFailed<T>) -> CellError {
        CellError::Memory(fault.into())
    }
}
