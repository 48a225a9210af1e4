//! Whether a journal has to be played.
ghost use Rattle.std.specs.Prelude.{◌≡◌, ◌≤◌, true, Some, length, take, drop, ◌-◌, IfOk, IfSome};
ghost use Rattle.alter_disk.specs.Files.{Files};
ghost use Rattle.alter_disk.specs.Faults.{HasCause};
ghost use Rattle.alter_disk.specs.Moments.{ReadsQuietly};
ghost use Rattle.rollback_journal.specs.Header.{is_allowed};
ghost use Rattle.rollback_journal.specs.Heat.{has_records, live_header, names_super, heat_of, IsAllowedHeat};

use crate::header::{HEADER_LEN, Header, begins_with_magic, read_header};
use crate::reads::{journal_len, read_journal};
use alter_disk::{Disk, Failed};

/// What a journal says at opening.
#[derive(Clone, Copy, Debug, PartialEq, Eq)]
pub enum Heat {
    /// The database stands as it is.
    Cold,
    /// Its records have to be played back into the database.
    Hot(Header),
    /// It names a super-journal, which is not served.
    Super,
}

/// A journal's length up to which its last bytes are looked at.
const LEN_MAX: u64 = 1 << 30;

/// Whether the journal of an opened disk is hot, as it reads now. It changes nothing.
pub fn hot<D: Disk>(disk: &mut D) -> Result<Heat, Failed>
    requires { D.called disk.old ≡ true }
    ensures heat { IfOk result (λ heat. (f : Files) → D.files disk.old ≡ Some f → heat ≡ heat_of f.journal) }
    ensures sizes { IfOk result IsAllowedHeat }
    ensures reads { ReadsQuietly D.Disk disk.old disk.new }
    ensures cause { HasCause (D.read_faults disk.old) (D.read_faults disk.new) result }
{
    let len = journal_len(disk)?;
    let Some(header) = live(disk, len)? else {
        return Ok(Heat::Cold);
    };
    let named = is_super(disk, len)?;
    Ok(if named {
        Heat::Super
    } else {
        Heat::Hot(header)
    })
}

/// The header of a journal of this length, where it is not cold.
fn live<D: Disk>(disk: &mut D, len: u64) -> Result<Option<Header>, Failed>
    requires { D.called disk.old ≡ true }
    ensures long { IfOk result (λ header. IfSome header (λ h. (28 ≤ len) × (is_allowed h ≡ true))) }
    ensures header { IfOk result (λ header. (f : Files) → D.files disk.old ≡ Some f → len ≡ length f.journal → header ≡ live_header len (take 28 f.journal)) }
    ensures reads { ReadsQuietly D.Disk disk.old disk.new }
    ensures cause { HasCause (D.read_faults disk.old) (D.read_faults disk.new) result }
{
    if len < HEADER_LEN as u64 {
        return Ok(None);
    }
    let mut bytes = [0; HEADER_LEN];
    read_journal(disk, 0, &mut bytes)?;
    Ok(live_in(len, &bytes))
}

/// The header in these bytes, where a journal of this length is not cold.
fn live_in(len: u64, bytes: &[u8; HEADER_LEN]) -> Option<Header>
    requires { 28 ≤ len }
    ensures header { result ≡ live_header len bytes.now }
    ensures allowed { IfSome result (λ h. is_allowed h ≡ true) }
{
    let header = read_header(bytes)?;
    if has_records(len, &header) {
        Some(header)
    } else {
        None
    }
}

fn has_records(len: u64, h: &Header) -> bool
    ensures { result ≡ has_records len h.now }
{
    h.count != 0 && h.sector as u64 + h.page as u64 + 8 <= len
}

/// Whether the last bytes of a journal of this length name a super-journal.
fn is_super<D: Disk>(disk: &mut D, len: u64) -> Result<bool, Failed>
    requires called { D.called disk.old ≡ true }
    requires long { 8 ≤ len }
    ensures named { IfOk result (λ named. (f : Files) → D.files disk.old ≡ Some f → len ≡ length f.journal → named ≡ names_super len (drop (len - 8) f.journal)) }
    ensures reads { ReadsQuietly D.Disk disk.old disk.new }
    ensures cause { HasCause (D.read_faults disk.old) (D.read_faults disk.new) result }
{
    if LEN_MAX < len {
        return Ok(false);
    }
    let mut bytes = [0; 8];
    read_journal(disk, len - 8, &mut bytes)?;
    Ok(begins_with_magic(&bytes))
}
