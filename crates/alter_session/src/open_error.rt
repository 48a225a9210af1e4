//! Why a database was not opened.
use alter_disk::{Disk, Way};
use pager_core::{FileRefusal, PageError};
use rollback_journal::RecoverFault;
use std::alloc::AllocError;

/// Why a database was not opened.
#[derive(Drop)]
pub enum OpenError {
    Memory(AllocError),
    /// A call of the disk of this kind failed. The files stand for what they stood for.
    Failed(Way),
    /// The journal names a super-journal.
    Super,
    /// This page, from 1, has no record in the hot journal and does not stand in the database.
    Short(u32),
    /// The hot journal, or the database that it speaks of, is past the limits.
    Journal,
    /// The database's header or its length is refused.
    Refused(FileRefusal),
    /// The database is none that is served so far.
    Unbuilt,
}

/// A database that was not opened: its disk, and why.
#[derive(Drop)]
pub struct Unopened<D: Disk> {
    pub disk: D,
    pub cause: OpenError,
}

impl From<Way> for OpenError {
    ghost use Rattle.std.specs.Prelude.{◌≡◌};
    ghost use Rattle.alter_session.specs.declared.open_error.OpenError.TheVariants.{Failed};

    ghost from_gives = { λ way e. e ≡ Failed way };

    fn from(way: Way) -> OpenError {
        OpenError::Failed(way)
    }
}

impl From<RecoverFault> for OpenError {
    ghost use Rattle.std.specs.Prelude.{◌≡◌};
    ghost use Rattle.alter_session.specs.Opening.{error_of_recovery};

    ghost from_gives = { λ fault e. e ≡ error_of_recovery fault };

    fn from(fault: RecoverFault) -> OpenError {
        match fault {
            RecoverFault::Memory(fault) => OpenError::Memory(fault),
            RecoverFault::Failed(way) => OpenError::Failed(way),
            RecoverFault::Super => OpenError::Super,
            RecoverFault::Short(page) => OpenError::Short(page),
            RecoverFault::TooLarge => OpenError::Journal,
        }
    }
}

impl From<PageError> for OpenError {
    ghost use Rattle.std.specs.Prelude.{◌≡◌};
    ghost use Rattle.alter_session.specs.Opening.{error_of_page};

    ghost from_gives = { λ fault e. e ≡ error_of_page fault };

    fn from(fault: PageError) -> OpenError {
        match fault {
            PageError::Memory(fault) => OpenError::Memory(fault),
            PageError::Failed => OpenError::Failed(Way::Read),
        }
    }
}
