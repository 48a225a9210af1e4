ghost use Rattle.std.specs.Prelude.{◌≡◌, ◌+◌, ◌^◌, ◌≤◌, true, length, IfOk};

use crate::{
    Disk, FailSource, Failed, FileDisk, FuseDisk, ListSink, ListSource, MemoryDisk, Sink, Source,
    StdSink, StdSource, Which,
};
use std::alloc::{AllocError, Global};
use std::fs;
use std::test::Fail;

/// A disk that was opened, with these files and this room.
fn opened(
    alloc: Global,
    db: &[u8],
    journal: &[u8],
    room: usize,
    fails: &[u64],
) -> Result<MemoryDisk, Fail>
    requires db { length db.now ≤ room }
    requires journal { length journal.now ≤ room }
    ensures { IfOk result (λ disk. disk.called ≡ true) }
{
    let mut disk = MemoryDisk::new(alloc, "a.db", db, journal, room, 9, fails)?;
    disk.open("a.db")?;
    Ok(disk)
}

/// Whether the database takes a piece.
fn takes<D: Disk>(disk: &mut D, at: u64, piece: &[u8]) -> bool
    requires called { D.called disk.old ≡ true }
    requires place { at + length piece.now ≤ 2 ^ 30 }
    ensures { D.called disk.new ≡ true }
{
    disk.write(Which::Db, at, piece).is_ok()
}

/// Whether a read of the database's end, which begins at byte 3, puts these bytes over sevens.
fn ends_in<D: Disk>(disk: &mut D, bytes: [u8; 4]) -> bool
    requires { D.called disk.old ≡ true }
    ensures { D.called disk.new ≡ true }
{
    let mut buf = [7; 4];
    disk.read(Which::Db, 3, &mut buf).is_ok() && buf == bytes
}

/// Writes and cuts, and syncs the journal alone: where "abcd" was durable, "aBCd\0" is read.
fn leave_pending<D: Disk>(disk: &mut D) -> Result<(), Failed>
    requires { D.called disk.old ≡ true }
    ensures { D.called disk.new ≡ true }
{
    disk.write(Which::Db, 1, b"BC")?;
    disk.write(Which::Db, 6, b"xy")?;
    if disk.len(Which::Db)? >= 5 {
        disk.cut(Which::Db, 5)?;
    }
    disk.sync(Which::Journal)
}

/// Whether a crash leaves this of the database with this choice, and "j" of the journal.
fn leaves(disk: &MemoryDisk, choice: u8, bytes: &[u8]) -> Result<bool, AllocError> {
    let (db, journal) = disk.stopped(choice)?;
    Ok(db.as_slice() == bytes && journal.as_slice() == b"j".as_slice())
}

#[test]
fn a_crash_leaves_what_is_pending_in_any_form(rt: HostRuntime) -> Result<(), Fail> {
    let mut disk = opened(rt.alloc(), b"abcd", b"j", 8, &[])?;
    leave_pending(&mut disk)?;
    assert!(rt; ends_in(&mut disk, *b"d\0\x07\x07"));
    assert!(rt; leaves(&disk, 0, b"abcd")?);
    assert!(rt; leaves(&disk, 1, b"aBCd\0")?);
    assert!(rt; leaves(&disk, 2, b"a\0\0d\0\0\0\0")?);
    assert!(rt; leaves(&disk, 3, b"a\xd9\xd9d\xd9\xd9\xd9\xd9")?);
    Ok(())
}

/// Makes the database durable.
fn settle<D: Disk>(disk: &mut D) -> Result<(), Failed>
    requires { D.called disk.old ≡ true }
{
    leave_pending(disk)?;
    disk.sync(Which::Db)
}

#[test]
fn a_crash_after_a_sync_leaves_what_a_read_gives(rt: HostRuntime) -> Result<(), Fail> {
    let mut disk = opened(rt.alloc(), b"abcd", b"j", 8, &[])?;
    settle(&mut disk)?;
    for choice in [0, 1, 2, 3, 255] {
        assert!(rt; leaves(&disk, choice, b"aBCd\0")?, "{choice}");
    }
    Ok(())
}

#[test]
fn a_memory_disk_fails_where_it_is_told(rt: HostRuntime) -> Result<(), Fail> {
    let mut disk = opened(rt.alloc(), b"abcd", b"", 8, &[1])?;
    assert!(rt; !takes(&mut disk, 0, b"x"), "it is listed");
    assert!(rt; !takes(&mut disk, 6, b"xyz"), "it ends past the room");
    assert!(rt; takes(&mut disk, 6, b"xy"));
    assert_eq!(rt; disk.bytes(Which::Db), b"abcd\0\0xy".as_slice());
    let mut disk = MemoryDisk::new(rt.alloc(), "a.db", b"abcd", b"", 6, 2, &[])?;
    disk.open("a.db")?;
    assert!(rt; takes(&mut disk, 0, b"x"));
    assert!(rt; !takes(&mut disk, 1, b"y"), "the record is full");
    assert_eq!(rt; disk.bytes(Which::Db), b"xbcd".as_slice());
    Ok(())
}

#[test]
fn a_growing_disk_takes_what_comes(rt: HostRuntime) -> Result<(), Fail> {
    let mut disk = MemoryDisk::growing(rt.alloc(), "a.db", b"abcd", b"j")?;
    disk.open("a.db")?;
    settle(&mut disk)?;
    assert!(rt; leaves(&disk, 0, b"aBCd\0")?);
    Ok(())
}

#[test]
fn a_fuse_passes_some_calls(rt: HostRuntime) -> Result<(), Fail> {
    let disk = opened(rt.alloc(), b"abcd", b"", 8, &[])?;
    let mut fuse = FuseDisk::new(disk, 1);
    assert!(rt; takes(&mut fuse, 0, b"x"));
    assert!(rt; !takes(&mut fuse, 1, b"y"), "one call was passed");
    assert!(rt; !ends_in(&mut fuse, *b"d\x07\x07\x07"));
    assert_eq!(rt; fuse.inner().bytes(Which::Db), b"xbcd".as_slice());
    Ok(())
}

/// The buffer after reads that each give so many bytes, or fail.
fn read_so<S: Source>(source: &mut S, counts: &[Option<usize>]) -> Option<[u8; 2]> {
    let mut buf = [0; 2];
    for count in counts {
        if source.read(&mut buf).ok() != *count {
            return None;
        }
    }
    Some(buf)
}

/// Whether the sink takes each piece that it is to take, whole, and no other.
fn takes_pieces<S: Sink>(sink: &mut S, pieces: &[(&[u8], bool)]) -> bool {
    for (piece, whole) in pieces {
        match sink.write(piece) {
            Ok(count) if *whole && count == piece.len() => (),
            Err(_) if !*whole => (),
            _ => return false,
        }
    }
    true
}

#[test]
fn lists_give_and_keep_bytes(rt: HostRuntime) -> Result<(), Fail> {
    let mut source = ListSource::new(rt.alloc(), b"abc")?;
    let read = read_so(&mut source, &[Some(2), Some(1), Some(0)]);
    assert_eq!(rt; read, Some(*b"cb"));
    let mut source = FailSource::new(ListSource::new(rt.alloc(), b"abc")?, 1);
    let read = read_so(&mut source, &[Some(2), None, Some(1)]);
    assert_eq!(rt; read, Some(*b"cb"));
    let mut sink = ListSink::new(rt.alloc(), 3, &[1])?;
    let pieces = [
        (b"ab".as_slice(), true),
        (b"c".as_slice(), false),
        (b"cd".as_slice(), false),
        (b"c".as_slice(), true),
    ];
    assert!(rt; takes_pieces(&mut sink, &pieces));
    assert_eq!(rt; sink.written(), b"abc".as_slice());
    Ok(())
}

/// Grows the database by a write of no bytes to its length, and makes the journal one byte long.
fn grow<D: Disk>(disk: &mut D) -> Result<(u64, u64), Failed>
    requires { D.called disk.old ≡ true }
{
    disk.write(Which::Db, 9, b"")?;
    disk.write(Which::Journal, 0, b"j")?;
    Ok((disk.len(Which::Db)?, disk.len(Which::Journal)?))
}

#[test]
fn a_file_disk_writes_cuts_and_reads(rt: HostRuntime) -> Result<(), Fail> {
    fs::write(&rt, "alter_disk_test.db", "abcd")?;
    let mut disk = FileDisk::new(rt.clone()?);
    disk.open("alter_disk_test.db")?;
    leave_pending(&mut disk)?;
    assert!(rt; ends_in(&mut disk, *b"d\0\x07\x07"));
    assert_eq!(rt; grow(&mut disk)?, (9, 1));
    assert_eq!(rt;
        fs::read(&rt, "alter_disk_test.db")?.as_slice(),
        b"aBCd\0\0\0\0\0".as_slice()
    );
    fs::remove_file(&rt, "alter_disk_test.db")?;
    fs::remove_file(&rt, "alter_disk_test.db-journal")?;
    Ok(())
}

#[test]
fn a_journal_is_made_in_the_folder_of_its_database(rt: HostRuntime) -> Result<(), Fail> {
    fs::create_dir(&rt, "alter_disk_folder")?;
    fs::write(&rt, "alter_disk_folder/a.db", "")?;
    let mut disk = FileDisk::new(rt.clone()?);
    disk.open("alter_disk_folder/a.db")?;
    fs::remove_file(&rt, "alter_disk_folder/a.db-journal")?;
    fs::remove_file(&rt, "alter_disk_folder/a.db")?;
    fs::remove_dir(&rt, "alter_disk_folder")?;
    Ok(())
}

#[test]
fn a_missing_file_is_not_opened(rt: HostRuntime) -> Result<(), Fail> {
    let mut disk = FileDisk::new(rt.clone()?);
    assert!(rt; disk.open("alter_disk_missing.db").is_err());
    assert!(rt; disk.len(Which::Db).is_err());
    Ok(())
}

#[test]
fn the_standard_streams_read_and_write(rt: HostRuntime) -> Result<(), Fail> {
    let mut source = StdSource::new(rt.clone()?);
    assert_eq!(rt; source.read(&mut [])?, 0);
    let mut sink = StdSink::new(rt.clone()?);
    assert_eq!(rt; sink.write(b"\n")?, 1);
    Ok(())
}
