//! Calls that read the journal, with what a crash may leave at their moments.
ghost use Rattle.std.specs.Prelude.{◌≡◌, ◌⊎◌, ◌^◌, ◌≤◌, true, Some, length, IfOk};
ghost use Rattle.alter_disk.specs.Files.{Files};
ghost use Rattle.alter_disk.specs.Changes.{ReadsAt};
ghost use Rattle.alter_disk.specs.Faults.{HasCause};
ghost use Rattle.alter_disk.specs.Moments.{ReadsQuietly};

use alter_disk::{Disk, Failed, Which};

/// The length of the journal.
pub(crate) fn journal_len<D: Disk>(disk: &mut D) -> Result<u64, Failed>
    requires { D.called disk.old ≡ true }
    ensures len { IfOk result (λ n. (f : Files) → D.files disk.old ≡ Some f → n ≡ length f.journal) }
    ensures reads { ReadsQuietly D.Disk disk.old disk.new }
    ensures cause { HasCause (D.read_faults disk.old) (D.read_faults disk.new) result }
{
    disk.len(Which::Journal)
}

/// The length of the database.
pub(crate) fn db_len<D: Disk>(disk: &mut D) -> Result<u64, Failed>
    requires { D.called disk.old ≡ true }
    ensures len { IfOk result (λ n. (f : Files) → D.files disk.old ≡ Some f → n ≡ length f.db) }
    ensures reads { ReadsQuietly D.Disk disk.old disk.new }
    ensures cause { HasCause (D.read_faults disk.old) (D.read_faults disk.new) result }
{
    disk.len(Which::Db)
}

/// Reads bytes of the journal, and answers how many came: fewer than asked only at its end.
pub(crate) fn read_journal<D: Disk>(disk: &mut D, at: u64, buf: &mut [u8]) -> Result<usize, Failed>
    requires called { D.called disk.old ≡ true }
    requires place { at ≤ 2 ^ 30 }
    ensures read { IfOk result (λ n. (f : Files) → D.files disk.old ≡ Some f → ReadsAt f.journal at n buf.old buf.new) }
    ensures reads { ReadsQuietly D.Disk disk.old disk.new }
    ensures cause { HasCause (D.read_faults disk.old) (D.read_faults disk.new) result }
{
    disk.read(Which::Journal, at, buf)
}
