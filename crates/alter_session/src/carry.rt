//! A plan on its way to the disk.
ghost use Rattle.std.specs.Prelude.{◌≡◌, ◌⊎◌, true, IfErr, OnOk};
ghost use Rattle.alter_disk.specs.Moments.{Leaves, Stays};
ghost use Rattle.pager_core.specs.Pages.{IsPage, before_of, disk_of, shape_of};
ghost use Rattle.pager_commit.specs.Opens.{Opens};
ghost use Rattle.plain_schema.specs.declared.verdict.Verdict.TheVariants as verdicts;
ghost use Rattle.plain_schema.specs.Image.{Image};
ghost use Rattle.plain_schema.specs.Plan.{verdict_of};
ghost use Rattle.alter_session.specs.Applying.{PlanFits, PlanGives, ReadsUnlessDone, carried};
ghost use Rattle.alter_session.specs.Committing.{HasCauses, IsBefore, IsClean, KeepsSizes};

use crate::commit::commit_page;
use crate::fault::Fault;
use alter_disk::Disk;
use pager_core::Pages;
use plain_schema::Plan;
use std::alloc::Global;

/// Commits what the plan changes. For a refused command it calls no method of the disk.
pub(crate) fn carry_out<D: Disk>(
    alloc: Global,
    pages: &mut Pages<D>,
    plan: &Plan,
) -> Result<(), Fault>
    requires called { D.called (disk_of pages.old) ≡ true }
    requires first { IsPage pages.old 1 }
    requires extent { PlanFits (shape_of pages.old) plan.now }
    requires count { before_of pages.old ≡ (shape_of pages.old).count }
    ensures done { OnOk result ((image : Image) → IsClean D.Disk image pages.old → PlanGives (shape_of pages.old) plan.now → IsClean D.Disk (carried plan.now image) pages.new) }
    ensures quiet { OnOk result (ReadsUnlessDone D.Disk (verdict_of plan.now) (disk_of pages.old) (disk_of pages.new)) }
    ensures changes { IfErr result (λ _. verdict_of plan.now ≡ verdicts.Done) }
    ensures before { IfErr result (IsBefore D.Disk pages.old pages.new) }
    ensures stops { (image : Image) → IsClean D.Disk image pages.old → PlanGives (shape_of pages.old) plan.now
        → Leaves D.Disk (disk_of pages.old) (disk_of pages.new) (λ c. Opens image c ⊎ Opens (carried plan.now image) c) }
    ensures sizes { KeepsSizes pages.old pages.new }
    ensures stays { Stays D.Disk (disk_of pages.old) (disk_of pages.new) }
    ensures cause { HasCauses D.Disk (disk_of pages.old) (disk_of pages.new) result }
{
    match plan {
        Plan::Refused(_) => Ok(()),
        Plan::Changed(change) => commit_page(alloc, pages, change.page.as_slice()),
    }
}
