//! The stages of a commit. Each is made durable before the next one begins.
ghost use Rattle.std.specs.Prelude.{◌≡◌, ◌+◌, ◌^◌, ◌≤◌, ◌++◌, true, List, ℕ, length, drop, OnOk, is_some};
ghost use Rattle.alter_disk.specs.Faults.{HasCause};
ghost use Rattle.alter_disk.specs.Moments.{Leaves};
ghost use Rattle.alter_disk.specs.Rest.{KeepsRest};
ghost use Rattle.rollback_journal.specs.Header.{magic, no_magic};
ghost use Rattle.rollback_journal.specs.Heat.{heat_of};
ghost use Rattle.rollback_journal.specs.declared.heat.Heat.TheVariants.{Cold};
ghost use Rattle.pager_commit.specs.Stages.{ColdBeside, ColdOr, RestBoth};

use alter_disk::{Disk, Failed, Which, cut_and_sync, write_and_sync};

/// What stands in place of a journal's magic while it does not count.
pub(crate) const SHUT: [u8; 8] = [0; 8];

/// Cuts the journal to nothing, and puts eight zeros at its start.
pub(crate) fn shut<D: Disk>(disk: &mut D) -> Result<(), Failed>
    requires { D.called disk.old ≡ true }
    ensures done { OnOk result ((db journal : List ℕ) → RestBoth D.Disk db journal disk.old → RestBoth D.Disk db no_magic disk.new) }
    ensures stops { (db journal : List ℕ) → RestBoth D.Disk db journal disk.old → heat_of journal ≡ Cold → Leaves D.Disk disk.old disk.new (ColdBeside db) }
    ensures rest { KeepsRest D.label D.called D.opened D.read_faults disk.old disk.new }
    ensures telling { is_some (D.files disk.new) ≡ is_some (D.files disk.old) }
    ensures cause { HasCause (D.write_faults disk.old) (D.write_faults disk.new) result }
{
    cut_and_sync(disk, Which::Journal, 0)?;
    write_and_sync(disk, Which::Journal, 0, &SHUT)
}

/// Puts the rest of the journal behind the eight zeros.
pub(crate) fn fill<D: Disk>(disk: &mut D, rest: &[u8]) -> Result<(), Failed>
    requires called { D.called disk.old ≡ true }
    requires place { 8 + length rest.now ≤ 2 ^ 30 }
    ensures done { OnOk result ((db : List ℕ) → RestBoth D.Disk db no_magic disk.old → RestBoth D.Disk db (no_magic ++ rest.now) disk.new) }
    ensures stops { (db : List ℕ) → RestBoth D.Disk db no_magic disk.old → Leaves D.Disk disk.old disk.new (ColdBeside db) }
    ensures rest { KeepsRest D.label D.called D.opened D.read_faults disk.old disk.new }
    ensures telling { is_some (D.files disk.new) ≡ is_some (D.files disk.old) }
    ensures cause { HasCause (D.write_faults disk.old) (D.write_faults disk.new) result }
{
    write_and_sync(disk, Which::Journal, 8, rest)
}

/// Puts the magic or zeros at the journal's start, by which it counts or not.
pub(crate) fn gate<D: Disk>(disk: &mut D, key: &[u8]) -> Result<(), Failed>
    requires called { D.called disk.old ≡ true }
    requires eight { length key.now ≡ 8 }
    ensures done { OnOk result ((db journal : List ℕ) → RestBoth D.Disk db journal disk.old → RestBoth D.Disk db (key.now ++ drop 8 journal) disk.new) }
    ensures stops { (db journal : List ℕ) → RestBoth D.Disk db journal disk.old → Leaves D.Disk disk.old disk.new (ColdOr db (magic ++ drop 8 journal)) }
    ensures rest { KeepsRest D.label D.called D.opened D.read_faults disk.old disk.new }
    ensures telling { is_some (D.files disk.new) ≡ is_some (D.files disk.old) }
    ensures cause { HasCause (D.write_faults disk.old) (D.write_faults disk.new) result }
{
    write_and_sync(disk, Which::Journal, 0, key)
}
