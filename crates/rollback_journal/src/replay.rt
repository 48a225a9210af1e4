//! Playing a hot journal back into its database.
ghost use Rattle.std.specs.Prelude.{◌≡◌, ◌≤◌, ◌+◌, ◌*◌, ◌^◌, true, vec_len};
ghost use Rattle.rollback_journal.specs.Header.{is_allowed};
ghost use Rattle.rollback_journal.specs.Standing.{is_too_large};

use crate::coverage::missing_page;
use crate::fault::RecoverFault;
use crate::header::Header;
use crate::playback::play;
use crate::reads::journal_len;
use crate::record::record_len;
use alter_disk::{Disk, Way, Which, shorten, write_and_sync};
use std::alloc::Global;

/// A journal that can be played: within the limits, and with its database it has each page.
#[derive(Drop)]
pub(crate) struct Replay {
    header: Header,
    /// The journal's length in bytes.
    len: u64,
    /// Room for one record.
    buf: Vec<u8>,
    ghost allowed: { is_allowed header ≡ true },
    ghost within: { (len ≤ 2 ^ 30) × (header.size ≤ 2 ^ 18) × (header.size * header.page ≤ 2 ^ 29) },
    ghost room: { vec_len buf ≡ header.page + 8 },
}

/// The greatest length of a journal, and of a database in pages and in bytes.
const JOURNAL_MAX: u64 = 1 << 30;

const PAGES_MAX: u32 = 1 << 18;

const BYTES_MAX: u64 = 1 << 29;

impl Replay {
    ghost use Rattle.std.specs.Prelude.{Some, IfOk, IfErr, OnOk};
    ghost use Rattle.alter_disk.specs.Files.{Files};
    ghost use Rattle.alter_disk.specs.Moments.{AtRest, Leaves, ReadsQuietly, HasWay};
    ghost use Rattle.alter_disk.specs.Moments.{Stays};
    ghost use Rattle.rollback_journal.specs.Standing.{standing};
    ghost use Rattle.rollback_journal.specs.declared.heat.Heat.TheVariants.{Hot};
    ghost use Rattle.rollback_journal.specs.Heat.{heat_of};
    ghost use Rattle.rollback_journal.specs.Recovery.{IsRefusal, Recovered, HasCauses};
    ghost use Rattle.rollback_journal.specs.Replay.{IsReady};

    /// Tests that the journal with this header can be played. Nothing is written.
    pub(crate) fn prepare<D: Disk>(
        alloc: Global,
        disk: &mut D,
        header: &Header,
    ) -> Result<Replay, RecoverFault>
        requires called { D.called disk.old ≡ true }
        requires allowed { is_allowed header.now ≡ true }
        ensures header { IfOk result (λ replay. replay.header ≡ header.now) }
        ensures ready { IfOk result (λ replay. (f : Files) → D.files disk.old ≡ Some f → heat_of f.journal ≡ Hot header.now → IsReady f replay.header replay.len) }
        ensures refused { IfErr result (λ e. (f : Files) → D.files disk.old ≡ Some f → heat_of f.journal ≡ Hot header.now → IsRefusal f e) }
        ensures reads { ReadsQuietly D.Disk disk.old disk.new }
        ensures cause { HasCauses D.Disk disk.old disk.new result }
    {
        let Ok(len) = journal_len(disk) else {
            return Err(RecoverFault::Failed(Way::Read));
        };
        if is_too_large(len, header) {
            return Err(RecoverFault::TooLarge);
        }
        let mut buf = Vec::new(alloc);
        buf.resize(record_len(header), 0)?;
        match missing_page(alloc, disk, header, len, &mut buf)? {
            Some(page) => Err(RecoverFault::Short(page)),
            None => Ok(Replay {
                header: *header,
                len,
                buf,
            }),
        }
    }

    /// Plays the journal, cuts the database to its size, and zeroes the journal's magic. Each is durable before the next.
    pub(crate) fn restore<D: Disk>(&mut self, disk: &mut D) -> Result<(), Way>
        requires called { D.called disk.old ≡ true }
        ensures recovered { OnOk result ((f : Files) → D.files disk.old ≡ Some f → IsReady f self.old.header self.old.len → AtRest D.Disk f disk.old → Recovered D.Disk f true disk.new) }
        ensures stops { (f : Files) → D.files disk.old ≡ Some f → IsReady f self.old.header self.old.len → AtRest D.Disk f disk.old → Leaves D.Disk disk.old disk.new (λ c. standing c ≡ standing f) }
        ensures stays { Stays D.Disk disk.old disk.new }
        ensures cause { HasWay D.Disk disk.old disk.new result }
    {
        play(disk, &self.header, self.len, &mut self.buf)?;
        let size = self.header.size as u64 * self.header.page as u64;
        shorten(disk, Which::Db, size)?;
        let Ok(()) = write_and_sync(disk, Which::Journal, 0, &[0; 8]) else {
            return Err(Way::Write);
        };
        Ok(())
    }
}

/// Whether a hot journal of this length is past the limits.
fn is_too_large(len: u64, h: &Header) -> bool
    ensures { result ≡ is_too_large len h.now }
{
    JOURNAL_MAX < len || PAGES_MAX < h.size || BYTES_MAX < h.size as u64 * h.page as u64
}
