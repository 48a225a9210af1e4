//! Playing the records of a journal into its database.
ghost use Rattle.std.specs.Prelude.{◌≡◌, ◌≤◌, ◌*◌, ◌^◌, true, Some, List, ◌∷◌, length, OnOk};
ghost use Rattle.alter_disk.specs.Files.{Files};
ghost use Rattle.alter_disk.specs.Moments.{AtRest, Leaves, HasWay};
ghost use Rattle.alter_disk.specs.Moments.{Stays};
ghost use Rattle.rollback_journal.specs.Header.{is_allowed};
ghost use Rattle.alter_disk.specs.Faults.{HasCause};
ghost use Rattle.rollback_journal.specs.Records.{Entry, record_len, page_in};
ghost use Rattle.rollback_journal.specs.Recovery.{IsPlayable};
ghost use Rattle.rollback_journal.specs.Standing.{standing};
ghost use Rattle.rollback_journal.specs.Replay.{IsReady, Playing, WasPlayed};

use crate::cursor::Cursor;
use crate::header::Header;
use crate::record::page_in;
use alter_disk::{Disk, Failed, Way, Which};

/// Plays each entry of the journal into its page of the database, in order. Nothing is synced, and nothing is cut.
pub(crate) fn play<D: Disk>(
    disk: &mut D,
    header: &Header,
    len: u64,
    buf: &mut [u8],
) -> Result<(), Way>
    requires called { D.called disk.old ≡ true }
    requires allowed { is_allowed header.now ≡ true }
    requires within { (len ≤ 2 ^ 30) × (header.now.size * header.now.page ≤ 2 ^ 29) }
    requires room { length buf.old ≡ record_len header.now }
    ensures played { OnOk result ((f : Files) → D.files disk.old ≡ Some f → IsReady f header.now len → AtRest D.Disk f disk.old → WasPlayed D.Disk f header.now disk.new) }
    ensures stops { (f : Files) → D.files disk.old ≡ Some f → IsReady f header.now len → AtRest D.Disk f disk.old → Leaves D.Disk disk.old disk.new (λ c. standing c ≡ standing f) }
    ensures stays { Stays D.Disk disk.old disk.new }
    ensures cause { HasWay D.Disk disk.old disk.new result }
{
    let mut cursor = Cursor::new(header, len);
    loop {
        let Ok(next) = cursor.next(disk, buf) else {
            return Err(Way::Read);
        };
        let Some(number) = next else {
            return Ok(());
        };
        let Ok(()) = write_page(disk, header, number, buf) else {
            return Err(Way::Write);
        };
    }
}

/// Writes the page of a record at its place in the database.
fn write_page<D: Disk>(
    disk: &mut D,
    header: &Header,
    number: u32,
    bytes: &[u8],
) -> Result<(), Failed>
    requires called { D.called disk.old ≡ true }
    requires page { (1 ≤ number) × (number ≤ header.now.size) }
    requires within { (header.now.page ≤ 65536) × (header.now.size * header.now.page ≤ 2 ^ 29) }
    requires room { length bytes.now ≡ record_len header.now }
    ensures played { OnOk result ((f : Files) (later : List Entry) → Playing D.Disk f header.now (record { page = number; bytes = page_in header.now bytes.now } ∷ later) disk.old → Playing D.Disk f header.now later disk.new) }
    ensures stops { (f : Files) (later : List Entry) → IsPlayable f header.now → Playing D.Disk f header.now (record { page = number; bytes = page_in header.now bytes.now } ∷ later) disk.old → Leaves D.Disk disk.old disk.new (λ c. standing c ≡ standing f) }
    ensures stays { Stays D.Disk disk.old disk.new }
    ensures other { D.read_faults disk.new ≡ D.read_faults disk.old }
    ensures cause { HasCause (D.write_faults disk.old) (D.write_faults disk.new) result }
{
    let at = (number as u64 - 1) * header.page as u64;
    disk.write(Which::Db, at, page_in(header, bytes))
}
