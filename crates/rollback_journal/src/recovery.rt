//! Recovering a database from its journal.
ghost use Rattle.std.specs.Prelude.{◌≡◌, true, Some, IfOk, IfErr};
ghost use Rattle.alter_disk.specs.Files.{Files};
ghost use Rattle.alter_disk.specs.Moments.{AtRest, Leaves, ReadsQuietly, Stays};
ghost use Rattle.rollback_journal.specs.Standing.{standing};
ghost use Rattle.rollback_journal.specs.Recovery.{IsRefusal, Recovered, Unwritten, HasCauses, recovered};

use crate::fault::RecoverFault;
use crate::heat::{Heat, hot};
use crate::replay::Replay;
use alter_disk::{Disk, Way};
use std::alloc::Global;

/// Recovers the database of an opened disk on which nothing is pending: `true` where a hot journal was played and its
/// magic zeroed, `false` where the journal was cold. One record of the journal is in memory at a time, and a byte for
/// each page of the database. After `Failed` it can be called again, also after a crash: the files stand for the same.
pub fn recover<D: Disk>(alloc: Global, disk: &mut D) -> Result<bool, RecoverFault>
    requires called { D.called disk.old ≡ true }
    requires settled { (f : Files) → D.files disk.old ≡ Some f → AtRest D.Disk f disk.old }

    // The database has the bytes that the two files stood for, nothing is pending, and the journal is cold.
    ensures recovered { IfOk result (λ played. (f : Files) → D.files disk.old ≡ Some f → Recovered D.Disk f played disk.new) }
    ensures refused { IfErr result (λ fault. (f : Files) → D.files disk.old ≡ Some f → IsRefusal f fault) }
    ensures unwritten { Unwritten D.Disk disk.old disk.new result }
    ensures kept { (f : Files) → D.files disk.old ≡ Some f → recovered f ≡ f → ReadsQuietly D.Disk disk.old disk.new }

    // A crash at any moment of the call leaves files that stand for the same.
    ensures stops { (f : Files) → D.files disk.old ≡ Some f → Leaves D.Disk disk.old disk.new (λ c. standing c ≡ standing f) }

    ensures stays { Stays D.Disk disk.old disk.new }
    ensures cause { HasCauses D.Disk disk.old disk.new result }
{
    let Ok(heat) = hot(disk) else {
        return Err(RecoverFault::Failed(Way::Read));
    };
    match heat {
        Heat::Cold => Ok(false),
        Heat::Super => Err(RecoverFault::Super),
        Heat::Hot(header) => {
            let mut replay = Replay::prepare(alloc, disk, &header)?;
            replay.restore(disk)?;
            Ok(true)
        }
    }
}
