//! Both files made durable.
ghost use Rattle.std.specs.Prelude.{◌≡◌, true, Some, OnOk};
ghost use Rattle.alter_disk.specs.Files.{Files};
ghost use Rattle.alter_disk.specs.Moments.{AtRest, HasWay, Leaves, Stays};
ghost use Rattle.alter_session.specs.Opening.{Nothing};

use alter_disk::{Disk, Way, Which};

/// Makes both files durable as they read now, so that nothing is pending.
pub(crate) fn make_durable<D: Disk>(disk: &mut D) -> Result<(), Way>
    requires { D.called disk.old ≡ true }
    ensures rests { OnOk result ((f : Files) → D.files disk.old ≡ Some f → AtRest D.Disk f disk.new) }
    ensures files { D.files disk.new ≡ D.files disk.old }
    ensures stops { Leaves D.Disk disk.old disk.new Nothing }
    ensures stays { Stays D.Disk disk.old disk.new }
    ensures cause { HasWay D.Disk disk.old disk.new result }
{
    if disk.sync(Which::Db).is_err() || disk.sync(Which::Journal).is_err() {
        return Err(Way::Write);
    }
    Ok(())
}
