ghost use Rattle.std.specs.Prelude.{◌≡◌, false, IfSome};

use crate::{Header, RecoverFault, header_bytes, recover};
use alter_disk::{Disk, FuseDisk, MemoryDisk, Way, Which};
use std::alloc::{AllocError, Global};
use std::test::Fail;

/// A piece of a journal.
#[derive(Clone, Copy)]
enum Part {
    /// A header of this count and nonce, for a database of this size in pages of this size, at the next sector of 512
    /// bytes, and padded to one.
    Head(u32, u32, u32, u32),
    /// A record: the page's number, the byte that fills it, its size, and its checksum.
    Record(u32, u8, usize, u32),
    /// Eight bytes with which a header begins.
    Magic,
}

fn journal(alloc: Global, parts: &[Part]) -> Result<Vec<u8>, AllocError> {
    let mut bytes = Vec::new(alloc);
    for part in parts {
        match *part {
            Part::Head(count, nonce, size, page) => {
                let start = bytes.len().div_ceil(512).saturating_mul(512);
                bytes.resize(start, 0x55)?;
                let header = Header {
                    count,
                    nonce,
                    size,
                    sector: 512,
                    page,
                };
                bytes.extend_from_slice(&header_bytes(&header, true))?;
                bytes.resize(start.saturating_add(512), 0x55)?;
            }
            Part::Record(number, fill, size, sum) => {
                bytes.extend_from_slice(&number.to_be_bytes())?;
                bytes.resize(bytes.len().saturating_add(size), fill)?;
                bytes.extend_from_slice(&sum.to_be_bytes())?;
            }
            Part::Magic => {
                bytes.extend_from_slice(&[0xd9, 0xd5, 0x05, 0xf9, 0x20, 0xa1, 0x63, 0xd7])?;
            }
        }
    }
    Ok(bytes)
}

/// Blocks of 512 bytes, each of one byte.
fn blocks(alloc: Global, fills: &[u8]) -> Result<Vec<u8>, AllocError> {
    let mut bytes = Vec::new(alloc);
    for fill in fills {
        bytes.resize(bytes.len().saturating_add(512), *fill)?;
    }
    Ok(bytes)
}

/// Opens a disk, syncs both files, so that nothing is pending, and recovers.
fn open_and_recover<D: Disk>(alloc: Global, disk: &mut D, name: &str) -> Result<bool, RecoverFault>
    requires first { D.called disk.old ≡ false }
    requires name { IfSome (D.label disk.old) (λ known. name.now ≡ known) }
{
    if disk.open(name).is_err() {
        return Err(RecoverFault::Failed(Way::Read));
    }
    if disk.sync(Which::Db).is_err() || disk.sync(Which::Journal).is_err() {
        return Err(RecoverFault::Failed(Way::Write));
    }
    recover(alloc, disk)
}

/// What a recovery answered.
#[derive(Clone, Copy, Debug, PartialEq, Eq)]
enum Answer {
    Played,
    Cold,
    Super,
    Short(u32),
    TooLarge,
    Fault,
}

fn answer_of(recovered: Result<bool, RecoverFault>) -> Answer {
    match recovered {
        Ok(true) => Answer::Played,
        Ok(false) => Answer::Cold,
        Err(RecoverFault::Super) => Answer::Super,
        Err(RecoverFault::Short(page)) => Answer::Short(page),
        Err(RecoverFault::TooLarge) => Answer::TooLarge,
        Err(_) => Answer::Fault,
    }
}

/// A sound page 1, a damaged page 2, and a page too many.
const DAMAGED: [u8; 3] = [1, 2, 3];

/// The record of page 2 is right, and the one of page 1 has a wrong checksum.
const HALF_RIGHT: [Part; 3] = [
    Part::Head(2, 0, 2, 512),
    Part::Record(2, 9, 512, 18),
    Part::Record(1, 8, 512, 17),
];

/// The parts of a journal beside `DAMAGED`, the answer, and the blocks of the database afterwards.
const CASES: [(&str, &[Part], Answer, &[u8]); 17] = [
    ("wrong checksum", &HALF_RIGHT, Answer::Played, &[1, 9]),
    (
        "no record",
        &[Part::Head(2, 0, 2, 512)],
        Answer::Cold,
        &DAMAGED,
    ),
    (
        "no count",
        &[Part::Head(0, 0, 2, 512), Part::Record(1, 8, 512, 16)],
        Answer::Cold,
        &DAMAGED,
    ),
    (
        "page 4 is missing",
        &[Part::Head(1, 0, 4, 512), Part::Record(1, 8, 512, 16)],
        Answer::Short(4),
        &DAMAGED,
    ),
    (
        "super-journal",
        &[
            Part::Head(1, 0, 2, 512),
            Part::Record(1, 8, 512, 16),
            Part::Magic,
        ],
        Answer::Super,
        &DAMAGED,
    ),
    (
        "too many pages",
        &[Part::Head(1, 0, 262145, 512), Part::Record(1, 8, 512, 16)],
        Answer::TooLarge,
        &DAMAGED,
    ),
    (
        "too many bytes",
        &[Part::Head(1, 0, 8193, 65536), Part::Record(1, 8, 65536, 16)],
        Answer::TooLarge,
        &DAMAGED,
    ),
    (
        "the last of two",
        &[
            Part::Head(2, 0, 1, 512),
            Part::Record(1, 7, 512, 14),
            Part::Record(1, 8, 512, 16),
        ],
        Answer::Played,
        &[8],
    ),
    (
        "past the size",
        &[
            Part::Head(2, 0, 1, 512),
            Part::Record(2, 7, 512, 0),
            Part::Record(1, 8, 512, 16),
        ],
        Answer::Played,
        &[8],
    ),
    (
        "number 0",
        &[
            Part::Head(2, 0, 2, 512),
            Part::Record(0, 7, 512, 14),
            Part::Record(1, 8, 512, 16),
        ],
        Answer::Played,
        &[1, 2],
    ),
    (
        "behind the count",
        &[
            Part::Head(1, 0, 2, 512),
            Part::Record(1, 7, 512, 14),
            Part::Record(2, 8, 512, 16),
        ],
        Answer::Played,
        &[7, 2],
    ),
    (
        "as many as there are",
        &[
            Part::Head(u32::MAX, 0, 4, 512),
            Part::Record(4, 7, 512, 14),
            Part::Record(2, 8, 512, 16),
            Part::Magic,
            Part::Record(1, 9, 200, 18),
        ],
        Answer::Played,
        &[1, 8, 3, 7],
    ),
    (
        "two segments",
        &[
            Part::Head(1, 0, 2, 512),
            Part::Record(1, 7, 512, 14),
            Part::Head(1, 5, 9, 4096),
            Part::Record(2, 8, 512, 21),
        ],
        Answer::Played,
        &[7, 8],
    ),
    (
        "a later header without its last byte",
        &[
            Part::Head(1, 0, 2, 512),
            Part::Record(1, 7, 512, 14),
            Part::Record(0, 0x55, 496, 0),
            Part::Magic,
            Part::Record(1, 0, 11, 0),
        ],
        Answer::Played,
        &[7, 2],
    ),
    (
        "an empty one between",
        &[
            Part::Head(1, 0, 2, 512),
            Part::Record(1, 7, 512, 14),
            Part::Head(0, 5, 2, 512),
            Part::Head(1, 6, 2, 512),
            Part::Record(2, 8, 512, 22),
        ],
        Answer::Played,
        &[7, 8],
    ),
    (
        "another page size",
        &[Part::Head(1, 0, 2, 1024), Part::Record(2, 8, 1024, 40)],
        Answer::Played,
        &[1, 2, 8, 8],
    ),
    (
        "size 0",
        &[Part::Head(1, 0, 0, 512), Part::Record(1, 8, 512, 16)],
        Answer::Played,
        &[],
    ),
];

#[test]
fn a_journal_is_played_as_far_as_it_goes(rt: HostRuntime) -> Result<(), Fail> {
    let alloc = rt.alloc();
    for (name, parts, wanted, left) in CASES {
        let journal = journal(alloc, parts)?;
        let mut disk = MemoryDisk::growing(alloc, "a.db", &blocks(alloc, &DAMAGED)?, &journal)?;
        let told = answer_of(open_and_recover(alloc, &mut disk, "a.db"));
        assert_eq!(rt; told, wanted, "{name}");
        assert_eq!(rt;
            disk.bytes(Which::Db),
            blocks(alloc, left)?.as_slice(),
            "{name}"
        );
        let mut shut = journal;
        if wanted == Answer::Played {
            for byte in shut.iter_mut().take(8) {
                *byte = 0;
            }
        }
        assert_eq!(rt; disk.bytes(Which::Journal), shut.as_slice(), "{name}");
    }
    Ok(())
}

#[test]
fn after_a_stop_the_next_recovery_finds_the_same(rt: HostRuntime) -> Result<(), Fail> {
    let alloc = rt.alloc();
    let journal = journal(alloc, &HALF_RIGHT)?;
    let restored = blocks(alloc, &[1, 9])?;
    let mut ended = false;
    for k in 0..30 {
        let disk = MemoryDisk::growing(alloc, "a.db", &blocks(alloc, &DAMAGED)?, &journal)?;
        let mut fuse = FuseDisk::new(disk, k);
        ended = open_and_recover(alloc, &mut fuse, "a.db").is_ok();
        for choice in 0..4 {
            let (db, journal) = fuse.inner().stopped(choice)?;
            let mut again = MemoryDisk::growing(alloc, "a.db", &db, &journal)?;
            let _ = open_and_recover(alloc, &mut again, "a.db")?;
            assert_eq!(rt; again.bytes(Which::Db), restored.as_slice(), "{k} {choice}");
        }
    }
    assert!(rt; ended);
    Ok(())
}
