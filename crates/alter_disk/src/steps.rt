//! One change of a file and its sync, with what a crash may leave at each moment of both.
ghost use Rattle.std.specs.Prelude.{◌≡◌, ◌+◌, ◌^◌, ◌≤◌, true, List, ℕ, length, take, IfOk, OnOk, is_some};
ghost use Rattle.alter_disk.specs.Files.{file};
ghost use Rattle.alter_disk.specs.Changes.{IfTold, Torn, CutShort, overwritten};
ghost use Rattle.alter_disk.specs.Faults.{HasCause};
ghost use Rattle.alter_disk.specs.Rest.{KeepsRest};
ghost use Rattle.alter_disk.specs.Moments.{Reads, Rests, ChangesFile, HasWay, Stays};

use crate::{Disk, Failed, Way, Which};

/// Writes a piece and makes it durable: the file rests then with the piece in place.
pub fn write_and_sync<D: Disk>(
    disk: &mut D,
    which: Which,
    at: u64,
    bytes: &[u8],
) -> Result<(), Failed>
    requires called { D.called disk.old ≡ true }
    requires place { at + length bytes.now ≤ 2 ^ 30 }
    ensures written { OnOk result ((b : List ℕ) → Reads D.Disk which b disk.old → Rests D.Disk which (overwritten b at bytes.now) disk.new) }
    ensures changes { ChangesFile D.Disk which (Torn at (length bytes.now)) disk.old disk.new }
    ensures rest { KeepsRest D.label D.called D.opened D.read_faults disk.old disk.new }
    ensures telling { is_some (D.files disk.new) ≡ is_some (D.files disk.old) }
    ensures cause { HasCause (D.write_faults disk.old) (D.write_faults disk.new) result }
{
    disk.write(which, at, bytes)?;
    disk.sync(which)
}

/// Cuts a file and makes that durable: it rests then.
pub fn cut_and_sync<D: Disk>(disk: &mut D, which: Which, len: u64) -> Result<(), Failed>
    requires called { D.called disk.old ≡ true }
    requires shorter { IfTold (D.files disk.old) (λ f. len ≤ length (file which f)) }
    ensures shortened { OnOk result ((b : List ℕ) → Reads D.Disk which b disk.old → Rests D.Disk which (take len b) disk.new) }
    ensures changes { ChangesFile D.Disk which (CutShort len) disk.old disk.new }
    ensures rest { KeepsRest D.label D.called D.opened D.read_faults disk.old disk.new }
    ensures telling { is_some (D.files disk.new) ≡ is_some (D.files disk.old) }
    ensures cause { HasCause (D.write_faults disk.old) (D.write_faults disk.new) result }
{
    disk.cut(which, len)?;
    disk.sync(which)
}

/// Cuts a file where it is longer, and makes that durable. An error says which kind of call failed.
pub fn shorten<D: Disk>(disk: &mut D, which: Which, len: u64) -> Result<(), Way>
    requires { D.called disk.old ≡ true }
    ensures shortened { OnOk result ((b : List ℕ) → Reads D.Disk which b disk.old → Rests D.Disk which (take len b) disk.new) }
    ensures changes { ChangesFile D.Disk which (CutShort len) disk.old disk.new }
    ensures stays { Stays D.Disk disk.old disk.new }
    ensures cause { HasWay D.Disk disk.old disk.new result }
{
    match disk.len(which) {
        Ok(now) if now <= len => disk.sync(which).map_err(|_| Way::Write),
        Ok(_) => cut_and_sync(disk, which, len).map_err(|_| Way::Write),
        Err(_) => Err(Way::Read),
    }
}
