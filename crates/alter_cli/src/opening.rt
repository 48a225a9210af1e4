//! The file of the call, opened.
ghost use Rattle.std.specs.Prelude.{◌≡◌, false, Some, IfErr, IfOk, IfSome};
ghost use Rattle.alter_disk.specs.Changes.{IfTold};
ghost use Rattle.alter_disk.specs.Faults.{HasCauseOf};
ghost use Rattle.alter_disk.specs.Moments.{Leaves};
ghost use Rattle.alter_disk.specs.Uses.{ReadFailed, WriteFailed};
ghost use Rattle.rollback_journal.specs.Recovery.{recovered};
ghost use Rattle.rollback_journal.specs.Standing.{standing};
ghost use Rattle.alter_session.specs.Opening.{KeepsBytes};
ghost use Rattle.alter_session.specs.Session.{Holds, IsReady, disk_of};
ghost use Rattle.alter_cli.specs.Counted.{HasDiskCauses, or_stop};
ghost use Rattle.alter_cli.specs.First.{first_rules};
ghost use Rattle.alter_cli.specs.Left.{Each, left_on};
ghost use Rattle.alter_cli.specs.Opened.{IsOpenStop, OpensQuietly, StaysOpen, disk_open};
ghost use Rattle.alter_cli.specs.StopOf.{stop_of_error, stop_of_way};
ghost use Rattle.alter_cli.specs.Stops.{NoSession, OpensOf};

use crate::file_code::FileCode;
use crate::halted::Halted;
use crate::stop::Stop;
use alter_disk::{Disk, OpenFault, Way};
use alter_session::{OpenError, Session, Unopened};
use std::alloc::Global;

/// The stop of a failure of the disk.
pub fn stop_of_way(way: Way) -> Stop
    ensures { result ≡ stop_of_way way }
{
    match way {
        Way::Read => Stop::Unreadable,
        Way::Write => Stop::Unwritten,
    }
}

/// The stop of a call whose file was not opened for this.
fn stop_of_error(error: OpenError) -> Stop
    ensures { result ≡ stop_of_error error }
{
    match error {
        OpenError::Memory(_) => Stop::Memory,
        OpenError::Failed(way) => stop_of_way(way),
        OpenError::Super => Stop::Unserved(FileCode::SuperJournal),
        OpenError::Short(page) => Stop::Unserved(FileCode::ShortJournal(page)),
        OpenError::Journal => Stop::Unserved(FileCode::JournalTooLarge),
        OpenError::Refused(refusal) => Stop::Unserved(FileCode::Database(refusal)),
        OpenError::Unbuilt => Stop::Unserved(FileCode::Unbuilt),
    }
}

/// Opens the disk.
fn open<D: Disk>(disk: &mut D, name: &str) -> Result<(), Stop>
    requires first { D.called disk.old ≡ false }
    requires name { IfSome (D.label disk.old) (λ known. name.now ≡ known) }
    ensures opens { OpensQuietly D.Disk disk.old disk.new }
    ensures stop { IfErr result (IsOpenStop (ReadFailed D.Disk disk.old disk.new)) }
    ensures cause { HasCauseOf Stop.Unreadable (D.read_faults disk.old) (D.read_faults disk.new) result }
{
    match disk.open(name) {
        Ok(()) => Ok(()),
        Err(OpenFault::Memory(_)) => Err(Stop::Memory),
        Err(OpenFault::Failed) => Err(Stop::Unreadable),
    }
}

/// Opens the file and recovers it. The disk is handed back where that fails.
pub fn open_session<D: Disk>(
    alloc: Global,
    mut disk: D,
    name: &str,
) -> Result<Session<D>, Halted<D>>
    requires first { D.called disk ≡ false }
    requires name { IfSome (D.label disk) (λ known. name.now ≡ known) }
    ensures ready { IfOk result (IsReady D.Disk) }
    ensures opened { IfOk result (λ session. IfTold (D.files disk) (OpensOf first_rules (λ image. Holds D.Disk image session))) }
    ensures rests { IfOk result (λ session. IfTold (D.files disk) (λ files. Each (left_on D.Disk (disk_of session)) (λ c. c ≡ recovered files))) }
    ensures stop { IfErr result (λ halted. NoSession first_rules (ReadFailed D.Disk disk halted.disk) (WriteFailed D.Disk disk halted.disk)
        (left_on D.Disk disk) (left_on D.Disk halted.disk) halted.stop) }
    ensures stops { IfTold (D.files disk) (λ files. Leaves D.Disk disk (disk_open result) (λ c. standing c ≡ standing files)) }
    ensures unwritten { IfTold (D.files disk) (λ files. recovered files ≡ files → KeepsBytes D.Disk files disk (disk_open result)) }
    ensures stays { StaysOpen D.Disk disk (disk_open result) }
    ensures cause { HasDiskCauses D.Disk disk (disk_open result) (or_stop result) }
{
    if let Err(stop) = open(&mut disk, name) {
        return Err(Halted { disk, stop });
    }
    match Session::open(alloc, disk) {
        Ok(session) => Ok(session),
        Err(Unopened { disk, cause }) => Err(Halted {
            disk,
            stop: stop_of_error(cause),
        }),
    }
}
