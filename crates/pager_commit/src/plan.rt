//! What is to be committed.
ghost use Rattle.std.specs.Prelude.{◌≡◌, true, List, ℕ, Some, IfOk, OnErr, OnOk, is_some};
ghost use Rattle.alter_disk.specs.Faults.{HasCause, HasCauseOf};
ghost use Rattle.alter_disk.specs.Rest.{KeepsRest};
ghost use Rattle.alter_disk.specs.Files.{Files};
ghost use Rattle.alter_disk.specs.Moments.{ReadsQuietly};
ghost use Rattle.pager_core.specs.Pages.{FitsDatabase, SettlesChanges, disk_of, with_disk};
ghost use Rattle.pager_core.specs.Image.{image_of, known_image};
ghost use Rattle.pager_commit.specs.Ready.{EachStands, IsCommitted, IsReady, StopsBetween};
ghost use Rattle.pager_commit.specs.Plan.{IsPlanOf};

use crate::commit::write_all;
use crate::records::{add_records, start_journal};
use alter_disk::{Disk, Failed};
use pager_core::{PageError, Pages};
use std::alloc::Global;
use std::marker::Model;

/// The journal of a commit, as it stands once it counts.
#[derive(Drop)]
pub struct Plan {
    journal: Vec<u8>,
}

impl Model for Plan {
    ghost use Rattle.std.specs.Prelude.{◌≡◌, ℕ, ◌≤◌, ◌^◌, List, length, take};
    ghost use Rattle.rollback_journal.specs.Header.{magic};

    ghost Value = { List ℕ };

    ghost view = { λ p. p.journal.items };

    ghost invariant = { λ p. (take 8 p.journal.items ≡ magic) × (8 ≤ length p.journal.items) × (length p.journal.items ≤ 2 ^ 30) };
}

impl Plan {
    /// Makes the journal: it reads each changed page as the database has it.
    pub fn prepare<D: Disk>(alloc: Global, pages: &mut Pages<D>) -> Result<Plan, PageError>
        requires { D.called (disk_of pages.old) ≡ true }
        ensures plan { IfOk result (λ plan. (f : Files) → D.files (disk_of pages.old) ≡ Some f → IsPlanOf pages.old f.db plan) }
        ensures kept { pages.new ≡ with_disk pages.old (disk_of pages.new) }
        ensures reads { ReadsQuietly D.Disk (disk_of pages.old) (disk_of pages.new) }
        ensures cause { HasCauseOf PageError.Failed (D.read_faults (disk_of pages.old)) (D.read_faults (disk_of pages.new)) result }
    {
        let mut journal = start_journal(alloc, pages)?;
        add_records(pages, &mut journal)?;
        Ok(Plan { journal })
    }

    /// Writes the changed pages to the database, by way of the journal. It takes no memory.
    pub fn commit<D: Disk>(self, pages: &mut Pages<D>) -> Result<(), Failed>
        requires { D.called (disk_of pages.old) ≡ true }
        ensures done { OnOk result ((base log : List ℕ) (after : List (List ℕ)) → IsReady D.Disk pages.old base log self → EachStands D.Disk pages.old base
            → known_image D.Disk pages.old ≡ Some after → IsCommitted D.Disk after (disk_of pages.new)) }
        ensures stops { (base log : List ℕ) (before after : List (List ℕ)) → IsReady D.Disk pages.old base log self → FitsDatabase D.Disk pages.old base
            → image_of base ≡ Some before → known_image D.Disk pages.old ≡ Some after → StopsBetween D.Disk before after base self (disk_of pages.old) (disk_of pages.new) }
        ensures settled { OnOk result (SettlesChanges D.Disk (with_disk pages.old (disk_of pages.new)) pages.new) }
        ensures kept { OnErr result (pages.new ≡ with_disk pages.old (disk_of pages.new)) }
        ensures rest { KeepsRest D.label D.called D.opened D.read_faults (disk_of pages.old) (disk_of pages.new) }
        ensures telling { is_some (D.files (disk_of pages.new)) ≡ is_some (D.files (disk_of pages.old)) }
        ensures cause { HasCause (D.write_faults (disk_of pages.old)) (D.write_faults (disk_of pages.new)) result }
    {
        write_all(self.journal.as_slice(), pages)?;
        pages.settle();
        Ok(())
    }
}
