//! A database recovered, and its sizes.
ghost use Rattle.std.specs.Prelude.{◌≡◌, true, Some, IfErr, IfOk, length};
ghost use Rattle.alter_disk.specs.Files.{Files};
ghost use Rattle.alter_disk.specs.Moments.{Leaves, ReadsQuietly, Stays};
ghost use Rattle.rollback_journal.specs.Recovery.{recovered};
ghost use Rattle.rollback_journal.specs.Standing.{standing};
ghost use Rattle.alter_session.specs.Opening.{HasOpenCauses, IsOpenable, IsShaped, IsUnopened, IsUnshaped, KeepsBytes, ShapesBytes};

use crate::durable::make_durable;
use crate::open_error::OpenError;
use crate::reads::{db_len, read_front};
use alter_disk::{Disk, Way};
use pager_core::{FileShape, HEADER_LEN, shape};
use rollback_journal::recover;
use std::alloc::Global;

/// The sizes of the database as it reads now, if it is not refused.
fn read_shape<D: Disk>(disk: &mut D) -> Result<FileShape, OpenError>
    requires { D.called disk.old ≡ true }
    ensures sound { IfOk result IsOpenable }
    ensures shaped { IfOk result (λ shape. (f : Files) → D.files disk.old ≡ Some f → ShapesBytes f.db shape) }
    ensures refused { IfErr result (λ cause. (f : Files) → D.files disk.old ≡ Some f → IsUnshaped f.db cause) }
    ensures reads { ReadsQuietly D.Disk disk.old disk.new }
    ensures cause { HasOpenCauses D.Disk disk.old disk.new result }
{
    let Ok(len) = db_len(disk) else {
        return Err(OpenError::Failed(Way::Read));
    };
    let mut header = [0u8; HEADER_LEN];
    let first = &mut header[..len.min(HEADER_LEN as u64) as usize];
    let Ok(()) = read_front(disk, len, first) else {
        return Err(OpenError::Failed(Way::Read));
    };
    match shape(first, len) {
        Ok(shape) => Ok(shape),
        Err(refusal) => Err(OpenError::Refused(refusal)),
    }
}

/// Makes both files durable and recovers the database. The sizes of what it is then, if it is not refused.
pub(crate) fn open_shape<D: Disk>(alloc: Global, disk: &mut D) -> Result<FileShape, OpenError>
    requires { D.called disk.old ≡ true }
    ensures sound { IfOk result IsOpenable }
    ensures shaped { IfOk result (λ shape. (f : Files) → D.files disk.old ≡ Some f → IsShaped D.Disk f shape disk.new) }
    ensures refused { IfErr result (λ cause. (f : Files) → D.files disk.old ≡ Some f → IsUnopened D.Disk f cause disk.new) }
    ensures stops { (f : Files) → D.files disk.old ≡ Some f → Leaves D.Disk disk.old disk.new (λ c. standing c ≡ standing f) }
    ensures kept { (f : Files) → D.files disk.old ≡ Some f → recovered f ≡ f → KeepsBytes D.Disk f disk.old disk.new }
    ensures stays { Stays D.Disk disk.old disk.new }
    ensures cause { HasOpenCauses D.Disk disk.old disk.new result }
{
    make_durable(disk)?;
    recover(alloc, disk)?;
    read_shape(disk)
}
