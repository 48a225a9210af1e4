//! Why a database was not recovered.
use alter_disk::Way;
use std::alloc::AllocError;

/// Why a database was not recovered.
#[derive(Clone, Copy, Debug)]
pub enum RecoverFault {
    /// Memory ran out. Neither file was written.
    Memory(AllocError),
    /// A call of the disk of this kind failed. The files stand for what they stood for, and can be recovered again.
    Failed(Way),
    /// The journal names a super-journal. Neither file was written.
    Super,
    /// This page, from 1, has no record in the journal and does not stand in the database. Neither file was written.
    Short(u32),
    /// The journal, or the database that it speaks of, is past the limits. Neither file was written.
    TooLarge,
}

impl From<AllocError> for RecoverFault {
    ghost use Rattle.std.specs.Prelude.{◌≡◌};
    ghost use Rattle.rollback_journal.specs.declared.fault.RecoverFault.TheVariants.{Memory};

    ghost from_gives = { λ fault e. e ≡ Memory fault };

    fn from(fault: AllocError) -> RecoverFault {
        RecoverFault::Memory(fault)
    }
}

impl From<Way> for RecoverFault {
    ghost use Rattle.std.specs.Prelude.{◌≡◌};
    ghost use Rattle.rollback_journal.specs.declared.fault.RecoverFault.TheVariants.{Failed};

    ghost from_gives = { λ way e. e ≡ Failed way };

    fn from(way: Way) -> RecoverFault {
        RecoverFault::Failed(way)
    }
}
