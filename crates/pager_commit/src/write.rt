//! The changed pages are written to the database.
ghost use Rattle.std.specs.Prelude.{◌≡◌, ◌≤◌, true, List, ℕ, length, OnOk, is_some};
ghost use Rattle.alter_disk.specs.Faults.{HasCause};
ghost use Rattle.alter_disk.specs.Moments.{ChangesFile, Leaves, Reads, Rests};
ghost use Rattle.alter_disk.specs.Crash.{NoMore};
ghost use Rattle.alter_disk.specs.Rest.{KeepsRest};
ghost use Rattle.pager_core.specs.Pages.{IsPage, bytes_of, disk_of, is_changed, shape_of, with_disk};
ghost use Rattle.pager_commit.specs.Stages.{HasExtents, KeepsUnchanged, LosesNone, RestBoth, WritesPages, written_one, written_whole};

use alter_disk::{Disk, Failed, Which};
use pager_core::Pages;

/// Writes the changed pages, and makes the database durable.
pub(crate) fn write_pages<D: Disk>(pages: &mut Pages<D>) -> Result<(), Failed>
    requires { D.called (disk_of pages.old) ≡ true }
    ensures done { OnOk result ((base log : List ℕ) → RestBoth D.Disk base log (disk_of pages.old)
        → RestBoth D.Disk (written_whole pages.old base) log (disk_of pages.new)) }
    ensures extents { OnOk result (HasExtents (shape_of pages.old).count pages.old) }
    ensures stops { LosesNone D.Disk pages.old (disk_of pages.new) }
    ensures kept { pages.new ≡ with_disk pages.old (disk_of pages.new) }
    ensures rest { KeepsRest D.label D.called D.opened D.read_faults (disk_of pages.old) (disk_of pages.new) }
    ensures telling { is_some (D.files (disk_of pages.new)) ≡ is_some (D.files (disk_of pages.old)) }
    ensures cause { HasCause (D.write_faults (disk_of pages.old)) (D.write_faults (disk_of pages.new)) result }
{
    write_changed(pages)?;
    sync_database(pages.disk())
}

/// Makes the database durable.
fn sync_database<D: Disk>(disk: &mut D) -> Result<(), Failed>
    requires { D.called disk.old ≡ true }
    ensures done { OnOk result ((base log : List ℕ) → Reads D.Disk Which.Db base disk.old → Rests D.Disk Which.Journal log disk.old → RestBoth D.Disk base log disk.new) }
    ensures stops { Leaves D.Disk disk.old disk.new (D.may_leave disk.old) }
    ensures rest { KeepsRest D.label D.called D.opened D.read_faults disk.old disk.new }
    ensures telling { is_some (D.files disk.new) ≡ is_some (D.files disk.old) }
    ensures cause { HasCause (D.write_faults disk.old) (D.write_faults disk.new) result }
{
    disk.sync(Which::Db)
}

/// Writes the changed pages, the first one first.
fn write_changed<D: Disk>(pages: &mut Pages<D>) -> Result<(), Failed>
    requires { D.called (disk_of pages.old) ≡ true }
    ensures written { OnOk result (WritesPages D.Disk pages.old (shape_of pages.old).count (disk_of pages.new)) }
    ensures extents { OnOk result (HasExtents (shape_of pages.old).count pages.old) }
    ensures stops { LosesNone D.Disk pages.old (disk_of pages.new) }
    ensures kept { pages.new ≡ with_disk pages.old (disk_of pages.new) }
    ensures rest { KeepsRest D.label D.called D.opened D.read_faults (disk_of pages.old) (disk_of pages.new) }
    ensures telling { is_some (D.files (disk_of pages.new)) ≡ is_some (D.files (disk_of pages.old)) }
    ensures cause { HasCause (D.write_faults (disk_of pages.old)) (D.write_faults (disk_of pages.new)) result }
{
    for n in 0..pages.count() {
        write_page(pages, n + 1)?;
    }
    Ok(())
}

/// Writes page `n`, if it was changed.
fn write_page<D: Disk>(pages: &mut Pages<D>, n: u32) -> Result<(), Failed>
    requires called { D.called (disk_of pages.old) ≡ true }
    requires number { IsPage pages.old n }
    ensures written { OnOk result ((base : List ℕ) → Reads D.Disk Which.Db base (disk_of pages.old)
        → Reads D.Disk Which.Db (written_one (is_changed pages.old) (bytes_of pages.old) (shape_of pages.old).page n base) (disk_of pages.new)) }
    ensures extent { is_changed pages.old n ≡ true → length (bytes_of pages.old n) ≡ (shape_of pages.old).page }
    ensures changes { ChangesFile D.Disk Which.Db (KeepsUnchanged (is_changed pages.old) (shape_of pages.old).page) (disk_of pages.old) (disk_of pages.new) }
    ensures kept { pages.new ≡ with_disk pages.old (disk_of pages.new) }
    ensures rest { KeepsRest D.label D.called D.opened D.read_faults (disk_of pages.old) (disk_of pages.new) }
    ensures telling { is_some (D.files (disk_of pages.new)) ≡ is_some (D.files (disk_of pages.old)) }
    ensures cause { HasCause (D.write_faults (disk_of pages.old)) (D.write_faults (disk_of pages.new)) result }
{
    if pages.changed(n) {
        pages.write_back(n)
    } else {
        Ok(())
    }
}
