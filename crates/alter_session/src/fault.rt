//! Why a change was not committed.
use alter_disk::Way;
use pager_core::PageError;
use std::alloc::AllocError;

/// Why a change was not committed.
#[derive(Drop)]
pub(crate) enum Fault {
    /// Nothing was written.
    Memory(AllocError),
    /// A call of the disk of this kind failed. Where it is a reading one nothing was written.
    Failed(Way),
}

impl From<AllocError> for Fault {
    ghost use Rattle.std.specs.Prelude.{◌≡◌};
    ghost use Rattle.alter_session.specs.declared.fault.Fault.TheVariants.{Memory};

    ghost from_gives = { λ error e. e ≡ Memory error };

    fn from(error: AllocError) -> Fault {
        Fault::Memory(error)
    }
}

impl From<PageError> for Fault {
    ghost use Rattle.std.specs.Prelude.{◌≡◌};
    ghost use Rattle.alter_session.specs.Committing.{fault_of_page};

    ghost from_gives = { λ error e. e ≡ fault_of_page error };

    fn from(error: PageError) -> Fault {
        match error {
            PageError::Memory(fault) => Fault::Memory(fault),
            PageError::Failed => Fault::Failed(Way::Read),
        }
    }
}
