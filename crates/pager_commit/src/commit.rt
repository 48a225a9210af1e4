//! The stages in their order.
ghost use Rattle.std.specs.Prelude.{◌≡◌, ◌≤◌, ◌^◌, ◌++◌, true, List, ℕ, length, take, drop, OnOk, is_some};
ghost use Rattle.alter_disk.specs.Faults.{HasCause};
ghost use Rattle.alter_disk.specs.Moments.{Leaves};
ghost use Rattle.alter_disk.specs.Rest.{KeepsRest};
ghost use Rattle.rollback_journal.specs.Header.{magic, no_magic};
ghost use Rattle.rollback_journal.specs.Heat.{heat_of};
ghost use Rattle.rollback_journal.specs.declared.heat.Heat.TheVariants.{Cold};
ghost use Rattle.pager_core.specs.Pages.{disk_of, shape_of, with_disk};
ghost use Rattle.pager_commit.specs.Stages.{ColdOr, GoesThrough, HasExtents, RestBoth, written_whole};

use crate::stages::{SHUT, fill, gate, shut};
use crate::write::write_pages;
use alter_disk::{Disk, Failed};
use pager_core::Pages;

/// Writes the journal, then the changed pages, and ends the journal.
pub(crate) fn write_all<D: Disk>(journal: &[u8], pages: &mut Pages<D>) -> Result<(), Failed>
    requires called { D.called (disk_of pages.old) ≡ true }
    requires begins { take 8 journal.now ≡ magic }
    requires size { (8 ≤ length journal.now) × (length journal.now ≤ 2 ^ 30) }
    ensures done { OnOk result ((base log : List ℕ) → RestBoth D.Disk base log (disk_of pages.old)
        → RestBoth D.Disk (written_whole pages.old base) (no_magic ++ drop 8 journal.now) (disk_of pages.new)) }
    ensures extents { OnOk result (HasExtents (shape_of pages.old).count pages.old) }
    ensures stops { (base log : List ℕ) → RestBoth D.Disk base log (disk_of pages.old) → heat_of log ≡ Cold → GoesThrough D.Disk pages.old base journal.now (disk_of pages.new) }
    ensures kept { pages.new ≡ with_disk pages.old (disk_of pages.new) }
    ensures rest { KeepsRest D.label D.called D.opened D.read_faults (disk_of pages.old) (disk_of pages.new) }
    ensures telling { is_some (D.files (disk_of pages.new)) ≡ is_some (D.files (disk_of pages.old)) }
    ensures cause { HasCause (D.write_faults (disk_of pages.old)) (D.write_faults (disk_of pages.new)) result }
{
    open_journal(pages.disk(), journal)?;
    write_pages(pages)?;
    gate(pages.disk(), &SHUT)
}

/// Writes the journal, and then the magic by which it counts.
fn open_journal<D: Disk>(disk: &mut D, journal: &[u8]) -> Result<(), Failed>
    requires called { D.called disk.old ≡ true }
    requires begins { take 8 journal.now ≡ magic }
    requires size { (8 ≤ length journal.now) × (length journal.now ≤ 2 ^ 30) }
    ensures done { OnOk result ((base log : List ℕ) → RestBoth D.Disk base log disk.old → RestBoth D.Disk base journal.now disk.new) }
    ensures stops { (base log : List ℕ) → RestBoth D.Disk base log disk.old → heat_of log ≡ Cold → Leaves D.Disk disk.old disk.new (ColdOr base journal.now) }
    ensures rest { KeepsRest D.label D.called D.opened D.read_faults disk.old disk.new }
    ensures telling { is_some (D.files disk.new) ≡ is_some (D.files disk.old) }
    ensures cause { HasCause (D.write_faults disk.old) (D.write_faults disk.new) result }
{
    shut(disk)?;
    fill(disk, &journal[8..])?;
    gate(disk, &journal[..8])
}
