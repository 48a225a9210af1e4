//! Calls of the program.
ghost use Rattle.std.specs.Prelude.{◌≡◌, ◌≤◌, length, map, string_bytes, Some, None, IfOk};
ghost use Rattle.alter_cli.specs.Outcome.{file_of};

use crate::case::Case;
use alter_cli::{Ended, Status, sqlalter};
use alter_disk::{FileDisk, FuseDisk, ListSink, ListSource, MemoryDisk, Which};
use std::alloc::{AllocError, Global};
use std::{fs, io};

/// The words of a call with the name of a file.
fn words_of(alloc: Global, file: &str) -> Result<Vec<String>, AllocError>
    ensures { IfOk result (λ words. file_of (map string_bytes words.items) ≡ Some file.now) }
{
    let program = String::from_str(alloc, "sqlalter")?;
    let file = String::from_str(alloc, file)?;
    Ok(vec![in alloc; program, file]?)
}

/// The room of a file in memory: for these, or for the journal of a command.
fn room_of(db: &[u8], journal: &[u8]) -> usize
    ensures { (length db.now ≤ result) × (length journal.now ≤ result) }
{
    db.len().max(journal.len()).saturating_add(1024)
}

/// Runs `sqlalter a.db` on files in memory, of which the disk's calls of these numbers fail.
fn run(
    alloc: Global,
    db: &[u8],
    journal: &[u8],
    script: &[u8],
    fails: &[u64],
    out: &mut ListSink,
) -> Result<Ended<MemoryDisk>, AllocError> {
    let room = room_of(db, journal);
    let disk = MemoryDisk::new(alloc, "a.db", db, journal, room, 999, fails)?;
    let mut script = ListSource::new(alloc, script)?;
    let words = words_of(alloc, "a.db")?;
    Ok(sqlalter(alloc, words.as_slice(), disk, &mut script, out))
}

/// Whether the lines say of each command, up to this number, that its column is taken.
fn are_taken(alloc: Global, lines: &[u8], count: usize) -> Result<bool, AllocError> {
    let mut wanted = Vec::new(alloc);
    for number in 0..count {
        let line = format!(in alloc; "{} refused column-taken\n", number.saturating_add(1))?;
        wanted.extend_from_slice(line.as_bytes())?;
    }
    Ok(count > 0 && lines == wanted.as_slice())
}

/// What became of the database.
fn change(
    alloc: Global,
    case: &Case<'_>,
    before: &[u8],
    after: &[u8],
) -> Result<&'static str, AllocError> {
    let wanted = case.wanted(alloc)?;
    Ok(if after == before {
        "the same"
    } else if after == wanted.as_slice() {
        "as wanted"
    } else {
        "another"
    })
}

/// What became of the journal: one that is shut has zeros in place of its first eight bytes.
fn journal_change(before: &[u8], after: &[u8]) -> &'static str {
    if before == after {
        "the same"
    } else if after.get(..8) == Some([0u8; 8].as_slice()) && before.get(8..) == after.get(8..) {
        "shut"
    } else {
        "another"
    }
}

/// Runs the case in memory, and tells its lines, its exit code and what became of both files. With
/// `each`, lines of so many commands are told in one.
pub fn answer(alloc: Global, case: &Case<'_>) -> Result<String, AllocError> {
    let db = case.database(alloc)?;
    let script = case.script(alloc)?;
    let journal = case.journal(alloc)?;
    let fails = [case.option("fails").unwrap_or(999) as u64];
    let unprinted = [case.option("unprinted").unwrap_or(999_999) as u64];
    let mut out = ListSink::new(alloc, case.option("room").unwrap_or(400_000), &unprinted)?;
    let ended = run(
        alloc,
        db.as_slice(),
        journal.as_slice(),
        script.as_slice(),
        &fails,
        &mut out,
    )?;
    let change = change(alloc, case, db.as_slice(), ended.disk.bytes(Which::Db))?;
    let code = ended.status.code();
    let journal_change = journal_change(journal.as_slice(), ended.disk.bytes(Which::Journal));
    let each = case.option("each").unwrap_or(0);
    let lines = if are_taken(alloc, out.written(), each)? {
        String::from_str(alloc, "each refused column-taken\n")?
    } else {
        String::from_utf8_lossy(alloc, out.written())?
    };
    format!(in alloc; "{lines}{code}, database {change}, journal {journal_change}\n")
}

/// Which databases were found: the one before a call, the one that is wanted behind it, and any other.
#[derive(Clone, Copy)]
struct Found {
    before: bool,
    after: bool,
    other: bool,
}

/// Opens two files with an empty script, and tells which database is found.
fn reopened(
    alloc: Global,
    db: &[u8],
    journal: &[u8],
    before: &[u8],
    after: &[u8],
) -> Result<Found, AllocError> {
    let mut out = ListSink::new(alloc, 99, &[])?;
    let ended = run(alloc, db, journal, b"", &[], &mut out)?;
    let is_done = ended.status == Status::Done;
    let is_before = is_done && ended.disk.bytes(Which::Db) == before;
    let is_after = is_done && ended.disk.bytes(Which::Db) == after;
    Ok(Found {
        before: is_before,
        after: is_after,
        other: !is_before && !is_after,
    })
}

/// Tells what is found on each of the pairs of files that the disk may leave.
fn found_on(
    alloc: Global,
    disk: &MemoryDisk,
    before: &[u8],
    after: &[u8],
    mut found: Found,
) -> Result<Found, AllocError> {
    for choice in 0..4u8 {
        let (db, journal) = disk.stopped(choice)?;
        let new = reopened(alloc, db.as_slice(), journal.as_slice(), before, after)?;
        found = Found {
            before: found.before || new.before,
            after: found.after || new.after,
            other: found.other || new.other,
        };
    }
    Ok(found)
}

/// Runs the case on a disk that stops after so many calls.
fn run_stopped(
    alloc: Global,
    db: &[u8],
    script: &[u8],
    calls: u64,
) -> Result<Ended<FuseDisk<MemoryDisk>>, AllocError> {
    let room = room_of(db, b"");
    let disk = MemoryDisk::new(alloc, "a.db", db, b"", room, 999, &[])?;
    let mut script = ListSource::new(alloc, script)?;
    let mut out = ListSink::new(alloc, 99, &[])?;
    let words = words_of(alloc, "a.db")?;
    Ok(sqlalter(
        alloc,
        words.as_slice(),
        FuseDisk::new(disk, calls),
        &mut script,
        &mut out,
    ))
}

/// Stops the case behind each call of the disk, and tells what an empty script finds behind the stops.
pub fn answer_stopped(alloc: Global, case: &Case<'_>) -> Result<String, AllocError> {
    let db = case.database(alloc)?;
    let script = case.script(alloc)?;
    let wanted = case.wanted(alloc)?;
    let mut found = Found {
        before: false,
        after: false,
        other: false,
    };
    for calls in 0..99u64 {
        let ended = run_stopped(alloc, db.as_slice(), script.as_slice(), calls)?;
        if ended.status == Status::Done {
            break;
        }
        let disk = ended.disk.inner();
        found = found_on(alloc, disk, db.as_slice(), wanted.as_slice(), found)?;
    }
    let Found {
        before,
        after,
        other,
    } = found;
    format!(in alloc; "stopped: before {before}, after {after}, other {other}\n")
}

/// Runs a call whose words name no file, and tells its lines and its exit code.
fn misuse(alloc: Global, words: &[String]) -> Result<String, AllocError>
    requires { file_of (map string_bytes words.now) ≡ None }
{
    let disk = MemoryDisk::new(alloc, "a.db", &[], &[], 0, 0, &[])?;
    let mut script = ListSource::new(alloc, b"ALTER TABLE t ADD c")?;
    let mut out = ListSink::new(alloc, 99, &[])?;
    let ended = sqlalter(alloc, words, disk, &mut script, &mut out);
    let lines = String::from_utf8_lossy(alloc, out.written())?;
    format!(in alloc; "{lines}{}\n", ended.status.code())
}

/// Runs a call without a file's name and one with two.
pub fn misuses(alloc: Global) -> Result<String, AllocError> {
    let program = String::from_str(alloc, "sqlalter")?;
    let mut lines = misuse(alloc, &[program])?;
    let program = String::from_str(alloc, "sqlalter")?;
    let file = String::from_str(alloc, "a.db")?;
    let other = String::from_str(alloc, "b.db")?;
    lines.push_str(misuse(alloc, &[program, file, other])?.as_str())?;
    Ok(lines)
}

/// Runs the case on real files, in the folder where the program runs, and tells the same of it.
pub fn answer_in_files(rt: &HostRuntime, case: &Case<'_>) -> io::Result<String> {
    let alloc = rt.alloc();
    let db = case.database(alloc)?;
    let text = case.script(alloc)?;
    fs::write(rt, "a.db", db.as_slice())?;
    let words = words_of(alloc, "a.db")?;
    let mut script = ListSource::new(alloc, text.as_slice())?;
    let mut out = ListSink::new(alloc, 99, &[])?;
    let disk = FileDisk::new(rt.clone()?);
    let ended = sqlalter(alloc, words.as_slice(), disk, &mut script, &mut out);
    let after = fs::read(rt, "a.db")?;
    let journal = fs::read(rt, "a.db-journal")?;
    fs::remove_file(rt, "a.db")?;
    fs::remove_file(rt, "a.db-journal")?;
    let change = change(alloc, case, db.as_slice(), after.as_slice())?;
    let lines = String::from_utf8_lossy(alloc, out.written())?;
    let code = ended.status.code();
    let length = journal.len();
    Ok(format!(in alloc;
        "{lines}{code}, database {change}, a journal of {length} bytes, in files\n"
    )?)
}
