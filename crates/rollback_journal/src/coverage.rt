//! Whether a hot journal and the database have each page between them.
ghost use Rattle.std.specs.Prelude.{◌≡◌, ◌≤◌, ◌^◌, true, Some, List, ℕ, length, IfOk, IfErr, OnOk};
ghost use Rattle.alter_disk.specs.Files.{Files};
ghost use Rattle.alter_disk.specs.Faults.{HasCause};
ghost use Rattle.alter_disk.specs.Moments.{ReadsQuietly};
ghost use Rattle.rollback_journal.specs.Header.{is_allowed};
ghost use Rattle.rollback_journal.specs.Records.{Entry, record_len, entries_of};
ghost use Rattle.rollback_journal.specs.Playback.{first_missing};
ghost use Rattle.rollback_journal.specs.Cursor.{entries_left};
ghost use Rattle.rollback_journal.specs.Recovery.{Marks, IsMarked, IsFree, HasCauses};

use crate::cursor::Cursor;
use crate::fault::RecoverFault;
use crate::header::Header;
use crate::reads::db_len;
use alter_disk::{Disk, Failed, Way};
use std::alloc::Global;

/// The first page up to the header's size that has no entry and does not stand wholly in the database.
pub(crate) fn missing_page<D: Disk>(
    alloc: Global,
    disk: &mut D,
    header: &Header,
    len: u64,
    buf: &mut [u8],
) -> Result<Option<u32>, RecoverFault>
    requires called { D.called disk.old ≡ true }
    requires allowed { is_allowed header.now ≡ true }
    requires within { (len ≤ 2 ^ 30) × (header.now.size ≤ 2 ^ 18) }
    requires room { length buf.old ≡ record_len header.now }
    ensures missing { IfOk result (λ page. (f : Files) → D.files disk.old ≡ Some f → len ≡ length f.journal → page ≡ first_missing header.now.page header.now.size (entries_of f.journal header.now) f.db) }
    ensures free { IfErr result IsFree }
    ensures reads { ReadsQuietly D.Disk disk.old disk.new }
    ensures cause { HasCauses D.Disk disk.old disk.new result }
{
    let mut marks = Vec::new(alloc);
    marks.resize(header.size as usize, false)?;
    let mut cursor = Cursor::new(header, len);
    let Ok(()) = mark_pages(&mut cursor, disk, buf, &mut marks) else {
        return Err(RecoverFault::Failed(Way::Read));
    };
    let Ok(db) = db_len(disk) else {
        return Err(RecoverFault::Failed(Way::Read));
    };
    Ok(first_missing(&marks, header.page, db))
}

/// Marks each page that has an entry from the cursor on, page n at index n - 1.
fn mark_pages<D: Disk>(
    cursor: &mut Cursor,
    disk: &mut D,
    buf: &mut [u8],
    marks: &mut [bool],
) -> Result<(), Failed>
    requires called { D.called disk.old ≡ true }
    requires room { length buf.old ≡ record_len cursor.old.header }
    requires pages { length marks.old ≡ cursor.old.header.size }
    ensures marked { OnOk result ((f : Files) → D.files disk.old ≡ Some f → cursor.old.len ≡ length f.journal → Marks (entries_left f.journal cursor.old) marks.old marks.new) }
    ensures reads { ReadsQuietly D.Disk disk.old disk.new }
    ensures cause { HasCause (D.read_faults disk.old) (D.read_faults disk.new) result }
{
    while let Some(number) = cursor.next(disk, buf)? {
        marks[number as usize - 1] = true;
    }
    Ok(())
}

/// The first page without a mark that does not stand wholly in a file of this length.
fn first_missing(marks: &[bool], page: u32, len: u64) -> Option<u32>
    requires { length marks.now ≤ 2 ^ 18 }
    ensures { (entries : List Entry) (db : List ℕ) → IsMarked entries marks.now → len ≡ length db → result ≡ first_missing page (length marks.now) entries db }
{
    for (index, marked) in marks.iter().enumerate() {
        let number = index as u32 + 1;
        if !*marked && len < number as u64 * page as u64 {
            return Some(number);
        }
    }
    None
}
