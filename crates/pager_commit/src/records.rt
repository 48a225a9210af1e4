//! The bytes of the journal.
ghost use Rattle.std.specs.Prelude.{◌≡◌, ◌≤◌, ◌<◌, ◌+◌, ◌^◌, ◌++◌, true, length, replicate, IfOk, OnOk};
ghost use Rattle.byteorder.specs.Endian.{big_bytes};
ghost use Rattle.alter_disk.specs.Faults.{HasCauseOf};
ghost use Rattle.alter_disk.specs.Moments.{ReadsQuietly};
ghost use Rattle.rollback_journal.specs.Header.{bytes_of};
ghost use Rattle.rollback_journal.specs.Checksum.{checksum_of};
ghost use Rattle.pager_core.specs.Shape.{IsShape};
ghost use Rattle.pager_core.specs.Pages.{CountsAdded, IsPage, before_of, disk_of, is_changed, shape_of, with_disk};
ghost use Rattle.pager_commit.specs.Plan.{AddsRecord, header_for, journaled};
ghost use Rattle.pager_commit.specs.Records.{HasRecords, MayAdd};

use alter_bytes::write_u32;
use alter_disk::Disk;
use pager_core::{PageError, Pages};
use rollback_journal::{Header, checksum, header_bytes};
use std::alloc::{AllocError, Global};

/// The size of a sector in bytes: the header is padded to it.
const SECTOR: u32 = 512;

/// The journal's header with its padding, and room for its records.
pub(crate) fn start_journal<D: Disk>(alloc: Global, pages: &Pages<D>) -> Result<Vec<u8>, AllocError>
    ensures journal { IfOk result (λ journal. journal.items ≡ bytes_of (header_for pages.now) true ++ replicate 484 0) }
    ensures sound { IsShape (shape_of pages.now) }
    ensures within { (1 ≤ before_of pages.now) × (before_of pages.now ≤ (shape_of pages.now).count) }
    ensures added { CountsAdded pages.now }
{
    let header = Header {
        count: count_records(pages),
        nonce: 0,
        size: pages.before(),
        sector: SECTOR,
        page: pages.shape().page,
    };
    let record = header.page as usize + 8;
    let mut journal = Vec::with_capacity(alloc, SECTOR as usize + header.count as usize * record)?;
    journal.extend_from_slice(&header_bytes(&header, true))?;
    journal.resize(SECTOR as usize, 0)?;
    Ok(journal)
}

/// How many records the journal gets.
fn count_records<D: Disk>(pages: &Pages<D>) -> u32
    ensures count { result ≡ length (journaled pages.now) }
    ensures few { result ≤ before_of pages.now }
{
    let mut count = 0;
    for n in 0..pages.before() {
        if pages.changed(n + 1) {
            count += 1;
        }
    }
    count
}

/// Adds the records of the changed pages that were there before.
pub(crate) fn add_records<D: Disk>(
    pages: &mut Pages<D>,
    journal: &mut Vec<u8>,
) -> Result<(), PageError>
    requires { D.called (disk_of pages.old) ≡ true }
    ensures added { OnOk result (HasRecords (is_changed pages.old) (shape_of pages.old).page (before_of pages.old) (D.files (disk_of pages.old)) journal.old.items journal.new.items) }
    ensures kept { pages.new ≡ with_disk pages.old (disk_of pages.new) }
    ensures reads { ReadsQuietly D.Disk (disk_of pages.old) (disk_of pages.new) }
    ensures cause { HasCauseOf PageError.Failed (D.read_faults (disk_of pages.old)) (D.read_faults (disk_of pages.new)) result }
{
    for n in 0..pages.before() {
        add_changed(pages, n + 1, journal)?;
    }
    Ok(())
}

/// Adds the record of page `n`, if it was changed.
fn add_changed<D: Disk>(
    pages: &mut Pages<D>,
    n: u32,
    journal: &mut Vec<u8>,
) -> Result<(), PageError>
    requires called { D.called (disk_of pages.old) ≡ true }
    requires number { IsPage pages.old n }
    ensures added { OnOk result (MayAdd (is_changed pages.old n) (shape_of pages.old).page n (D.files (disk_of pages.old)) journal.old.items journal.new.items) }
    ensures kept { pages.new ≡ with_disk pages.old (disk_of pages.new) }
    ensures reads { ReadsQuietly D.Disk (disk_of pages.old) (disk_of pages.new) }
    ensures cause { HasCauseOf PageError.Failed (D.read_faults (disk_of pages.old)) (D.read_faults (disk_of pages.new)) result }
{
    if pages.changed(n) {
        add_record(pages, n, journal)
    } else {
        Ok(())
    }
}

/// Adds the record of page `n` as the database has it.
fn add_record<D: Disk>(pages: &mut Pages<D>, n: u32, journal: &mut Vec<u8>) -> Result<(), PageError>
    requires called { D.called (disk_of pages.old) ≡ true }
    requires number { IsPage pages.old n }
    ensures added { OnOk result (AddsRecord (shape_of pages.old).page n (D.files (disk_of pages.old)) journal.old.items journal.new.items) }
    ensures kept { pages.new ≡ with_disk pages.old (disk_of pages.new) }
    ensures reads { ReadsQuietly D.Disk (disk_of pages.old) (disk_of pages.new) }
    ensures cause { HasCauseOf PageError.Failed (D.read_faults (disk_of pages.old)) (D.read_faults (disk_of pages.new)) result }
{
    let page = pages.stored(n)?;
    push_record(journal, n, page.as_slice())?;
    Ok(())
}

/// Adds a record of these bytes.
fn push_record(journal: &mut Vec<u8>, n: u32, page: &[u8]) -> Result<(), AllocError>
    requires { length page.now ≤ 65536 }
    ensures added { OnOk result (journal.new.items ≡ journal.old.items ++ (big_bytes 4 n ++ page.now ++ big_bytes 4 (checksum_of 0 page.now))) }
    ensures sum { checksum_of 0 page.now < 2 ^ 24 }
{
    let sum = checksum(0, page);
    journal.extend_from_slice(&number(n))?;
    journal.extend_from_slice(page)?;
    journal.extend_from_slice(&number(sum))
}

/// The four bytes of a number.
fn number(n: u32) -> [u8; 4]
    ensures { result ≡ big_bytes 4 n }
{
    let mut bytes = [0; 4];
    write_u32(&mut bytes, 0, n);
    bytes
}
