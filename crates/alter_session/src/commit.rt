//! A new page 1 on its way to the disk.
ghost use Rattle.std.specs.Prelude.{◌≡◌, ◌⊎◌, true, List, ℕ, length, IfErr, IfOk, OnErr, OnOk};
ghost use Rattle.alter_disk.specs.Faults.{HasCauseOf};
ghost use Rattle.alter_disk.specs.Moments.{Leaves, ReadsQuietly, Stays};
ghost use Rattle.pager_core.specs.Pages.{IsPage, before_of, disk_of, shape_of};
ghost use Rattle.pager_commit.specs.Opens.{Opens};
ghost use Rattle.alter_session.specs.Committing.{GivesSizes, HasCauses, IsBefore, IsClean, IsStaged, KeepsSizes, with_first};

use crate::fault::Fault;
use alter_disk::{Disk, Way};
use pager_commit::Plan;
use pager_core::{PageError, Pages};
use std::alloc::Global;

/// Puts in a new page 1, and makes the journal of that. Where that fails no page counts as changed.
fn stage<D: Disk>(alloc: Global, pages: &mut Pages<D>, page: &[u8]) -> Result<Plan, PageError>
    requires called { D.called (disk_of pages.old) ≡ true }
    requires first { IsPage pages.old 1 }
    requires extent { length page.now ≡ (shape_of pages.old).page }
    requires count { before_of pages.old ≡ (shape_of pages.old).count }
    ensures staged { IfOk result (λ plan. (image : List (List ℕ)) → IsClean D.Disk image pages.old → GivesSizes (shape_of pages.old) page.now → IsStaged D.Disk image page.now plan pages.new) }
    ensures clean { OnErr result ((image : List (List ℕ)) → IsClean D.Disk image pages.old → IsClean D.Disk image pages.new) }
    ensures sizes { KeepsSizes pages.old pages.new }
    ensures reads { ReadsQuietly D.Disk (disk_of pages.old) (disk_of pages.new) }
    ensures cause { HasCauseOf PageError.Failed (D.read_faults (disk_of pages.old)) (D.read_faults (disk_of pages.new)) result }
{
    pages.change(1, 0, page)?;
    match Plan::prepare(alloc, pages) {
        Ok(plan) => Ok(plan),
        Err(error) => {
            pages.forget();
            Err(error)
        }
    }
}

/// Commits a new page 1. All memory is taken before the first write.
pub(crate) fn commit_page<D: Disk>(
    alloc: Global,
    pages: &mut Pages<D>,
    page: &[u8],
) -> Result<(), Fault>
    requires called { D.called (disk_of pages.old) ≡ true }
    requires first { IsPage pages.old 1 }
    requires extent { length page.now ≡ (shape_of pages.old).page }
    requires count { before_of pages.old ≡ (shape_of pages.old).count }
    ensures done { OnOk result ((image : List (List ℕ)) → IsClean D.Disk image pages.old → GivesSizes (shape_of pages.old) page.now → IsClean D.Disk (with_first page.now image) pages.new) }
    ensures before { IfErr result (IsBefore D.Disk pages.old pages.new) }
    ensures stops { (image : List (List ℕ)) → IsClean D.Disk image pages.old → GivesSizes (shape_of pages.old) page.now
        → Leaves D.Disk (disk_of pages.old) (disk_of pages.new) (λ c. Opens image c ⊎ Opens (with_first page.now image) c) }
    ensures sizes { KeepsSizes pages.old pages.new }
    ensures stays { Stays D.Disk (disk_of pages.old) (disk_of pages.new) }
    ensures cause { HasCauses D.Disk (disk_of pages.old) (disk_of pages.new) result }
{
    let plan = stage(alloc, pages, page)?;
    match plan.commit(pages) {
        Ok(()) => Ok(()),
        Err(_) => Err(Fault::Failed(Way::Write)),
    }
}
