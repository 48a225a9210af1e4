//! What a call of the outside may answer in place of its result.
ghost use Rattle.std.specs.Prelude.{◌≡◌, Ok, is_err, if◌then◌else◌, IfOk};
ghost use Rattle.alter_disk.specs.Calls.{raised};

use std::alloc::AllocError;

/// A call of a disk, a source or a sink failed. The count of such faults of the object rose in that call.
#[derive(Clone, Copy, Debug)]
pub struct Failed;

/// Why a disk was not opened.
#[derive(Clone, Copy, Debug)]
pub enum OpenFault {
    /// The journal's name found no memory.
    Memory(AllocError),
    /// The database is missing, or a file could not be opened.
    Failed,
}

impl From<AllocError> for OpenFault {
    ghost use Rattle.std.specs.Prelude.{◌≡◌};
    ghost use Rattle.alter_disk.specs.declared.fault.OpenFault.TheVariants.{Memory};

    ghost from_gives = { λ fault e. e ≡ Memory fault };

    fn from(fault: AllocError) -> OpenFault {
        OpenFault::Memory(fault)
    }
}

impl From<Failed> for OpenFault {
    ghost use Rattle.std.specs.Prelude.{◌≡◌};
    ghost use Rattle.alter_disk.specs.declared.fault.OpenFault.TheVariants.{Failed};

    ghost from_gives = { λ _ e. e ≡ Failed };

    fn from(_: Failed) -> OpenFault {
        OpenFault::Failed
    }
}

/// Counts a fault.
pub(crate) fn raise(faults: &mut u64) -> Failed
    ensures { faults.new ≡ raised faults.old }
{
    *faults = faults.saturating_add(1);
    Failed
}

/// Counts a call where it failed.
pub(crate) fn counted<T, E: Drop>(outcome: Result<T, E>, faults: &mut u64) -> Result<T, Failed>
    ensures failed { is_err result ≡ is_err outcome }
    ensures value { IfOk result (λ x. outcome ≡ Ok x) }
    ensures count { faults.new ≡ (if is_err result then raised faults.old else faults.old) }
{
    match outcome {
        Ok(x) => Ok(x),
        Err(_) => Err(raise(faults)),
    }
}
