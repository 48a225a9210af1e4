//! Single reads of the database.
ghost use Rattle.std.specs.Prelude.{◌≡◌, ◌≤◌, true, Some, length, min, take, IfOk, OnOk};
ghost use Rattle.alter_disk.specs.Faults.{HasCause};
ghost use Rattle.alter_disk.specs.Files.{Files};
ghost use Rattle.alter_disk.specs.Moments.{ReadsQuietly};

use alter_disk::{Disk, Failed, Which};

/// The database's length in bytes.
pub(crate) fn db_len<D: Disk>(disk: &mut D) -> Result<u64, Failed>
    requires { D.called disk.old ≡ true }
    ensures len { IfOk result (λ n. (f : Files) → D.files disk.old ≡ Some f → n ≡ length f.db) }
    ensures reads { ReadsQuietly D.Disk disk.old disk.new }
    ensures cause { HasCause (D.read_faults disk.old) (D.read_faults disk.new) result }
{
    disk.len(Which::Db)
}

/// Fills the buffer with the first bytes of a database of `len` bytes: its first 100, or all.
pub(crate) fn read_front<D: Disk>(disk: &mut D, len: u64, buf: &mut [u8]) -> Result<(), Failed>
    requires called { D.called disk.old ≡ true }
    requires room { length buf.old ≡ min 100 len }
    ensures extent { length buf.new ≡ min 100 len }
    ensures read { OnOk result ((f : Files) → D.files disk.old ≡ Some f → length buf.new ≤ length f.db → buf.new ≡ take (length buf.new) f.db) }
    ensures reads { ReadsQuietly D.Disk disk.old disk.new }
    ensures cause { HasCause (D.read_faults disk.old) (D.read_faults disk.new) result }
{
    disk.read(Which::Db, 0, buf)?;
    Ok(())
}
