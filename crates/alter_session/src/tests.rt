ghost use Rattle.std.specs.Prelude.{◌≡◌, ◌<◌, ◌^◌, true, length, IfOk};
ghost use Rattle.alter_session.specs.Applying.{StaysReady};
ghost use Rattle.alter_session.specs.Session.{IsReady};

use crate::{OpenError, Outcome, Session, Unopened};
use alter_disk::{Disk, MemoryDisk, Way, Which};
use pager_core::FileRefusal;
use plain_sql::read_script;
use std::alloc::{AllocError, Global};
use std::test::Fail;

/// The cell of the schema's row of a table (fileformat2.html, "B-tree Cell Format", "Record Format"): a payload of
/// 31 bytes, the rowid 1, and a record whose header has 6 bytes and the types of three texts, of a number and of
/// a text of 17 bytes.
const CELL: &[u8] = b"\x1f\x01\x06\x17\x0f\x0f\x01\x2ftablett\x02CREATE TABLE t(a)";

/// The same of the table with a column more: three bytes more of text and of payload.
const NEW_CELL: &[u8] = b"\x22\x01\x06\x17\x0f\x0f\x01\x35tablett\x02CREATE TABLE t(a, x)";

/// The header of a database of two pages of 512 bytes (fileformat2.html, "The Database Header").
fn header(counter: u8) -> [u8; 100] {
    let mut header = [0; 100];
    header[..16].copy_from_slice(b"SQLite format 3\0");
    header[16..24].copy_from_slice(&[2, 0, 1, 1, 0, 64, 32, 32]);
    header[27] = counter;
    header[31] = 2;
    header[43] = counter;
    header[47] = 4;
    header[59] = 1;
    header[95] = counter;
    header
}

/// A database whose schema has this cell, and an empty page of a table.
fn database(alloc: Global, counter: u8, cell: &[u8]) -> Result<Vec<u8>, AllocError> {
    let content = 512usize.saturating_sub(cell.len());
    let start = u16::try_from(content).unwrap_or(0).to_be_bytes();
    let mut bytes = Vec::from_slice(alloc, &header(counter))?;
    bytes.extend_from_slice(&[13, 0, 0, 0, 1])?;
    bytes.extend_from_slice(&start)?;
    bytes.push(0)?;
    bytes.extend_from_slice(&start)?;
    bytes.resize(content, 0)?;
    bytes.extend_from_slice(cell)?;
    bytes.extend_from_slice(&[13, 0, 0, 0, 0, 2, 0, 0])?;
    bytes.resize(1024, 0)?;
    Ok(bytes)
}

/// The bytes with which a journal that counts begins.
const MAGIC: [u8; 8] = [0xd9, 0xd5, 0x05, 0xf9, 0x20, 0xa1, 0x63, 0xd7];

/// A journal with page 1 of a database, of so many pages (fileformat2.html, "The Rollback Journal"). The nonce is 7,
/// and so is the checksum of a page whose bytes 312 and 112 are 0.
fn journal(alloc: Global, db: &[u8], pages: [u8; 4], sum: u8) -> Result<Vec<u8>, AllocError> {
    let mut bytes = Vec::from_slice(alloc, &MAGIC)?;
    bytes.extend_from_slice(&[0, 0, 0, 1, 0, 0, 0, 7])?;
    bytes.extend_from_slice(&pages)?;
    bytes.extend_from_slice(&[0, 0, 2, 0, 0, 0, 2, 0])?;
    bytes.resize(512, 0)?;
    bytes.extend_from_slice(&[0, 0, 0, 1])?;
    bytes.extend_from_slice(db.get(..512).unwrap_or(&[]))?;
    bytes.extend_from_slice(&[0, 0, 0, sum])?;
    Ok(bytes)
}

/// What opening two files gives.
#[derive(Clone, Copy, Debug, PartialEq, Eq)]
enum Found {
    Opened,
    Memory,
    Failed(Way),
    Super,
    Short(u32),
    Journal,
    Refused(FileRefusal),
    Unbuilt,
}

impl From<OpenError> for Found {
    fn from(error: OpenError) -> Found {
        match error {
            OpenError::Memory(_) => Found::Memory,
            OpenError::Failed(way) => Found::Failed(way),
            OpenError::Super => Found::Super,
            OpenError::Short(page) => Found::Short(page),
            OpenError::Journal => Found::Journal,
            OpenError::Refused(refusal) => Found::Refused(refusal),
            OpenError::Unbuilt => Found::Unbuilt,
        }
    }
}

/// A disk of these files that was opened, whose calls of these numbers fail. The first call behind the opening is 1.
fn disk_of(alloc: Global, db: &[u8], journal: &[u8], fails: &[u64]) -> Result<MemoryDisk, Fail>
    ensures { IfOk result (λ disk. disk.called ≡ true) }
{
    let room = db.len().max(journal.len()).saturating_add(2048);
    let mut disk = MemoryDisk::new(alloc, "a.db", db, journal, room, 99, fails)?;
    disk.open("a.db")?;
    Ok(disk)
}

/// What opening the files gives, and the disk behind it.
fn open(alloc: Global, disk: MemoryDisk) -> (MemoryDisk, Found)
    requires { disk.called ≡ true }
{
    match Session::open(alloc, disk) {
        Ok(session) => (session.close(), Found::Opened),
        Err(Unopened { disk, cause }) => (disk, Found::from(cause)),
    }
}

/// Whether the disk has these files.
fn has(disk: &MemoryDisk, db: &[u8], journal: &[u8]) -> bool {
    disk.bytes(Which::Db) == db && disk.bytes(Which::Journal) == journal
}

#[test]
fn a_file_is_opened_or_refused_for_a_cause(rt: HostRuntime) -> Result<(), Fail> {
    let alloc = rt.alloc();
    for (len, place, byte, wanted) in [
        (1024, 68, 1, Found::Opened),
        (1025, 68, 1, Found::Opened),
        (1024, 27, 9, Found::Opened),
        (0, 0, 0, Found::Refused(FileRefusal::Empty)),
        (99, 68, 0, Found::Refused(FileRefusal::NotDatabase)),
        (1024, 0, b'T', Found::Refused(FileRefusal::NotDatabase)),
        (1024, 22, 31, Found::Refused(FileRefusal::NotDatabase)),
        (1024, 17, 1, Found::Refused(FileRefusal::PageSize)),
        (1024, 20, 33, Found::Refused(FileRefusal::PageSize)),
        (1024, 18, 2, Found::Refused(FileRefusal::Wal)),
        (1024, 55, 2, Found::Refused(FileRefusal::AutoVacuum)),
        (1024, 59, 2, Found::Refused(FileRefusal::Encoding)),
        (1024, 47, 5, Found::Refused(FileRefusal::SchemaFormat)),
        (1024, 31, 3, Found::Refused(FileRefusal::Size)),
        (1023, 68, 0, Found::Refused(FileRefusal::Size)),
        (1025, 27, 9, Found::Refused(FileRefusal::Size)),
        (1024, 35, 2, Found::Unbuilt),
        (1024, 39, 1, Found::Unbuilt),
        (1024, 100, 5, Found::Unbuilt),
        (1024, 494, 3, Found::Unbuilt),
        (1024, 512, 10, Found::Unbuilt),
        (1024, 516, 1, Found::Unbuilt),
    ] {
        let mut db = database(alloc, 1, CELL)?;
        db.resize(len, 0)?;
        if let Some(old) = db.get_mut(place) {
            *old = byte;
        }
        let (disk, found) = open(alloc, disk_of(alloc, &db, b"j", &[])?);
        assert_eq!(rt; found, wanted, "{len} {place} {byte}");
        assert!(rt; has(&disk, &db, b"j"), "{len} {place} {byte}");
    }
    Ok(())
}

/// The journal with zeros in place of its first eight bytes.
fn shut(alloc: Global, journal: &[u8]) -> Result<Vec<u8>, AllocError> {
    let mut bytes = Vec::from_slice(alloc, &[0; 8])?;
    bytes.extend_from_slice(journal.get(8..).unwrap_or(&[]))?;
    Ok(bytes)
}

#[test]
fn a_hot_journal_is_played_up_to_a_wrong_sum(rt: HostRuntime) -> Result<(), Fail> {
    let alloc = rt.alloc();
    let before = database(alloc, 1, CELL)?;
    let torn = database(alloc, 9, NEW_CELL)?;
    let mut grown = torn.clone()?;
    grown.resize(1536, 0)?;
    for (sum, left) in [(7, before.as_slice()), (8, torn.as_slice())] {
        let log = journal(alloc, &before, [0, 0, 0, 2], sum)?;
        let (disk, found) = open(alloc, disk_of(alloc, &grown, &log, &[])?);
        assert_eq!(rt; found, Found::Opened, "{sum}");
        assert!(rt; has(&disk, left, &shut(alloc, &log)?), "{sum}");
    }
    Ok(())
}

#[test]
fn a_journal_that_is_not_played_stays(rt: HostRuntime) -> Result<(), Fail> {
    let alloc = rt.alloc();
    let db = database(alloc, 9, CELL)?;
    let hot = journal(alloc, &db, [0, 0, 0, 2], 7)?;
    let mut named = hot.clone()?;
    named.extend_from_slice(&MAGIC)?;
    for (log, wanted) in [
        (Vec::new(alloc), Found::Opened),
        (shut(alloc, &hot)?, Found::Opened),
        (named, Found::Super),
        (journal(alloc, &db, [0, 0, 0, 3], 7)?, Found::Short(3)),
        (journal(alloc, &db, [0, 4, 0, 1], 7)?, Found::Journal),
    ] {
        let (disk, found) = open(alloc, disk_of(alloc, &db, &log, &[])?);
        assert_eq!(rt; found, wanted);
        assert!(rt; has(&disk, &db, &log), "{wanted:?}");
    }
    Ok(())
}

#[test]
fn a_failed_call_of_an_opening_is_told(rt: HostRuntime) -> Result<(), Fail> {
    let alloc = rt.alloc();
    let db = database(alloc, 1, CELL)?;
    for (call, way) in [
        (1, Way::Write),
        (2, Way::Write),
        (3, Way::Read),
        (7, Way::Read),
    ] {
        let (disk, found) = open(alloc, disk_of(alloc, &db, b"j", &[call])?);
        assert_eq!(rt; found, Found::Failed(way), "{call}");
        assert!(rt; has(&disk, &db, b"j"), "{call}");
    }
    Ok(())
}

/// The session of a disk.
fn session_of<D: Disk>(alloc: Global, disk: D) -> Result<Session<D>, Fail>
    requires { D.called disk ≡ true }
    ensures { IfOk result (IsReady D.Disk) }
{
    match Session::open(alloc, disk) {
        Ok(session) => Ok(session),
        Err(_) => Err(Fail::from("not opened")),
    }
}

/// Runs a script of one command.
fn apply<D: Disk>(
    alloc: Global,
    session: Session<D>,
    number: u64,
    script: &[u8],
) -> Result<Outcome<D>, Fail>
    requires ready { IsReady D.Disk session }
    requires short { length script.now < 2 ^ 30 }
    ensures ready { IfOk result (StaysReady D.Disk) }
{
    let commands = read_script(alloc, script)?.ok_or("no script")?;
    match commands.as_slice() {
        [command] => Ok(session.apply(alloc, number, command)),
        _ => Err(Fail::from("not one command")),
    }
}

/// What a command gave.
#[derive(Drop)]
enum Gave {
    Line(String),
    Failed(Way),
    Memory,
}

/// The line that a command gave, or why it gave none, and the disk behind it.
fn run(alloc: Global, disk: MemoryDisk, script: &[u8]) -> Result<(MemoryDisk, Gave), Fail>
    requires called { disk.called ≡ true }
    requires short { length script.now < 2 ^ 30 }
{
    let session = session_of(alloc, disk)?;
    Ok(match apply(alloc, session, 7, script)? {
        Outcome::Done(session, answer) => (session.close(), Gave::Line(answer.line)),
        Outcome::Memory(session) => (session.close(), Gave::Memory),
        Outcome::Failed(disk, way) => (disk, Gave::Failed(way)),
    })
}

/// Whether each crash now leaves files that open, to a database that the test takes.
fn leaves(alloc: Global, disk: &MemoryDisk, dbs: &[&[u8]]) -> Result<bool, Fail> {
    for choice in 0..4 {
        let (db, log) = disk.stopped(choice)?;
        let (disk, found) = open(alloc, disk_of(alloc, &db, &log, &[])?);
        if found != Found::Opened || !dbs.contains(&disk.bytes(Which::Db)) {
            return Ok(false);
        }
    }
    Ok(true)
}

#[test]
fn a_command_is_done_or_leaves_every_byte(rt: HostRuntime) -> Result<(), Fail> {
    let alloc = rt.alloc();
    let before = database(alloc, 1, CELL)?;
    let after = database(alloc, 2, NEW_CELL)?;
    let table: [(&[u8], &str, bool); 4] = [
        (b"ALTER TABLE T ADD COLUMN x", "7 ok\n", true),
        (b"alter table t add x;", "7 ok\n", true),
        (b"ALTER TABLE t ADD A", "7 refused column-taken\n", false),
        (b"ALTER TABLE a ADD x", "7 refused no-such-table\n", false),
    ];
    for (script, wanted, done) in table {
        let (disk, gave) = run(alloc, disk_of(alloc, &before, b"j", &[])?, script)?;
        let Gave::Line(line) = gave else {
            return Err(Fail::from("no line"));
        };
        assert_eq!(rt; line.as_str(), wanted);
        if done {
            assert_eq!(rt; disk.bytes(Which::Db), after.as_slice());
            assert!(rt; leaves(alloc, &disk, &[after.as_slice()])?);
        } else {
            assert!(rt; has(&disk, &before, b"j"));
        }
    }
    Ok(())
}

#[test]
fn a_failed_call_of_a_command_leaves_the_file_before_or_after(rt: HostRuntime) -> Result<(), Fail> {
    let alloc = rt.alloc();
    let before = database(alloc, 1, CELL)?;
    let after = database(alloc, 2, NEW_CELL)?;
    for call in 8..30 {
        let disk = disk_of(alloc, &before, b"", &[call])?;
        let (disk, gave) = run(alloc, disk, b"ALTER TABLE t ADD x")?;
        let way = match gave {
            Gave::Failed(way) => way,
            _ => {
                assert!(rt; call > 20);
                return Ok(());
            }
        };
        assert_eq!(rt; way == Way::Read, call == 8, "{call}");
        assert!(rt;
            leaves(alloc, &disk, &[before.as_slice(), after.as_slice()])?,
            "{call}"
        );
    }
    Err(Fail::from("each call fails"))
}

#[test]
fn a_command_sees_what_the_one_before_it_made(rt: HostRuntime) -> Result<(), Fail> {
    let alloc = rt.alloc();
    let before = database(alloc, 1, CELL)?;
    let session = session_of(alloc, disk_of(alloc, &before, b"", &[])?)?;
    let Outcome::Done(session, first) = apply(alloc, session, 1, b"ALTER TABLE t ADD x")? else {
        return Err(Fail::from("the first"));
    };
    let Outcome::Done(session, second) = apply(alloc, session, 2, b"ALTER TABLE t ADD X")? else {
        return Err(Fail::from("the second"));
    };
    assert_eq!(rt; first.line.as_str(), "1 ok\n");
    assert_eq!(rt; second.line.as_str(), "2 refused column-taken\n");
    let after = database(alloc, 2, NEW_CELL)?;
    assert_eq!(rt; session.close().bytes(Which::Db), after.as_slice());
    Ok(())
}
