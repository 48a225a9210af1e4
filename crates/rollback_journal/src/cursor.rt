//! Reading the records of a journal one after the other.

ghost use Rattle.std.specs.Prelude.{◌+◌, ◌^◌, ◌≤◌};

use crate::header::{HEADER_LEN, Header, begins_with_magic};
use crate::reads::read_journal;
use crate::record::{Verdict, judge, record_len, records_in};
use alter_bytes::u32_at;
use alter_disk::{Disk, Failed};

/// A place in a journal up to which it was played. One record is in memory at a time.
#[derive(Drop)]
pub(crate) struct Cursor {
    header: Header,
    /// The journal's length in bytes.
    len: u64,
    /// Where the next record begins.
    at: u64,
    /// How many records are left in this segment.
    left: u64,
    nonce: u32,
    ghost sector: { (1 ≤ header.sector) × (header.sector ≤ 65536) },
    ghost page: { header.page ≤ 65536 },
    ghost within: { (len ≤ 2 ^ 30) × (at ≤ len + 65536) },
}

impl Cursor {
    ghost use Rattle.std.specs.Prelude.{◌≡◌, ◌⊎◌, ◌<◌, true, Some, List, [], ℕ, length, IfOk, if◌then◌else◌};
    ghost use Rattle.alter_disk.specs.Files.{Files};
    ghost use Rattle.alter_disk.specs.Faults.{HasCause};
    ghost use Rattle.alter_disk.specs.Moments.{ReadsQuietly};
    ghost use Rattle.rollback_journal.specs.declared.record.Verdict.TheVariants.{End, Skip};
    ghost use Rattle.rollback_journal.specs.Header.{is_allowed};
    ghost use Rattle.rollback_journal.specs.Records.{record_len, page_in, entries_of};
    ghost use Rattle.rollback_journal.specs.Cursor.{entries_left, Passes, Gives, IsPage, page_of, Advances, AdvancesFor, GoesOn};

    /// The first record of a journal of this length that has this header.
    pub(crate) fn new(header: &Header, len: u64) -> Cursor
        requires allowed { is_allowed header.now ≡ true }
        requires within { len ≤ 2 ^ 30 }
        ensures entries { (journal : List ℕ) → len ≡ length journal → entries_left journal result ≡ entries_of journal header.now }
        ensures header { result.header ≡ header.now }
        ensures len { result.len ≡ len }
    {
        Cursor {
            header: *header,
            len,
            at: header.sector as u64,
            left: records_in(len, header.count),
            nonce: header.nonce,
        }
    }

    /// Goes on to the first record of the next segment, where none of this one is left. `false` where there is no other.
    fn segment<D: Disk>(&mut self, disk: &mut D) -> Result<bool, Failed>
        requires called { D.called disk.old ≡ true }
        requires none { self.old.left ≡ 0 }
        ensures passes { IfOk result (λ more. (f : Files) → D.files disk.old ≡ Some f → self.old.len ≡ length f.journal → Passes (entries_left f.journal self.old) (entries_left f.journal self.new) [] (if more then Skip else End)) }
        ensures on { GoesOn self.old self.new }
        ensures advances { IfOk result (λ more. more ≡ true → self.old.at < self.new.at) }
        ensures reads { ReadsQuietly D.Disk disk.old disk.new }
        ensures cause { HasCause (D.read_faults disk.old) (D.read_faults disk.new) result }
    {
        let sector = self.header.sector as u64;
        let head = (self.at + (sector - 1)) / sector * sector;
        if self.len < head + HEADER_LEN as u64 {
            return Ok(false);
        }
        let mut bytes = [0; HEADER_LEN];
        read_journal(disk, head, &mut bytes)?;
        if !begins_with_magic(&bytes) {
            return Ok(false);
        }
        self.nonce = u32_at(&bytes, 12);
        self.left = records_in(self.len, u32_at(&bytes, 8));
        self.at = head + sector;
        Ok(true)
    }

    /// Reads one record of this segment into a buffer of its length.
    fn record<D: Disk>(&mut self, disk: &mut D, buf: &mut [u8]) -> Result<Verdict, Failed>
        requires called { D.called disk.old ≡ true }
        requires some { 1 ≤ self.old.left }
        requires room { length buf.old ≡ record_len self.old.header }
        ensures passes { IfOk result (λ v. (f : Files) → D.files disk.old ≡ Some f → self.old.len ≡ length f.journal → Passes (entries_left f.journal self.old) (entries_left f.journal self.new) (page_in self.old.header buf.new) v) }
        ensures page { IfOk result (λ v. IsPage self.old.header (page_of v)) }
        ensures on { GoesOn self.old self.new }
        ensures advances { IfOk result (λ v. Advances self.old self.new v) }
        ensures reads { ReadsQuietly D.Disk disk.old disk.new }
        ensures cause { HasCause (D.read_faults disk.old) (D.read_faults disk.new) result }
    {
        let end = self.at + record_len(&self.header) as u64;
        if self.len < end {
            return Ok(Verdict::End);
        }
        read_journal(disk, self.at, buf)?;
        let verdict = judge(&self.header, self.nonce, buf);
        self.at = end;
        self.left -= 1;
        Ok(verdict)
    }

    fn step<D: Disk>(&mut self, disk: &mut D, buf: &mut [u8]) -> Result<Verdict, Failed>
        requires called { D.called disk.old ≡ true }
        requires room { length buf.old ≡ record_len self.old.header }
        ensures passes { IfOk result (λ v. (f : Files) → D.files disk.old ≡ Some f → self.old.len ≡ length f.journal → Passes (entries_left f.journal self.old) (entries_left f.journal self.new) (page_in self.old.header buf.new) v) }
        ensures page { IfOk result (λ v. IsPage self.old.header (page_of v)) }
        ensures on { GoesOn self.old self.new }
        ensures advances { IfOk result (λ v. Advances self.old self.new v) }
        ensures reads { ReadsQuietly D.Disk disk.old disk.new }
        ensures cause { HasCause (D.read_faults disk.old) (D.read_faults disk.new) result }
    {
        if self.left == 0 {
            let more = self.segment(disk)?;
            Ok(if more { Verdict::Skip } else { Verdict::End })
        } else {
            self.record(disk, buf)
        }
    }

    /// The next page that is played: its number, and its record in a buffer of that length. `None` where playback ends.
    pub(crate) fn next<D: Disk>(
        &mut self,
        disk: &mut D,
        buf: &mut [u8],
    ) -> Result<Option<u32>, Failed>
        requires called { D.called disk.old ≡ true }
        requires room { length buf.old ≡ record_len self.old.header }
        ensures gives { IfOk result (λ page. (f : Files) → D.files disk.old ≡ Some f → self.old.len ≡ length f.journal → Gives (entries_left f.journal self.old) (entries_left f.journal self.new) (page_in self.old.header buf.new) page) }
        ensures page { IfOk result (λ page. IsPage self.old.header page) }
        ensures on { GoesOn self.old self.new }
        ensures advances { IfOk result (λ page. AdvancesFor self.old self.new page) }
        ensures reads { ReadsQuietly D.Disk disk.old disk.new }
        ensures cause { HasCause (D.read_faults disk.old) (D.read_faults disk.new) result }
    {
        loop {
            match self.step(disk, buf)? {
                Verdict::End => return Ok(None),
                Verdict::Skip => {}
                Verdict::Take(number) => return Ok(Some(number)),
            }
        }
    }
}
