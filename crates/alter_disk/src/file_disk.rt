//! A disk over two files of the operating system.
ghost use Rattle.std.specs.Prelude.{◌≡◌, ◌++◌, ◌≤◌, None, length, codes, string_bytes, IfOk};
ghost use Rattle.alter_disk.specs.Untold.{Untold, uncalled};

use crate::fault::counted;
use crate::{Disk, Failed, OpenFault, Which};
use std::alloc::{AllocError, Global};
use std::fs::{File, OpenOptions};
use std::io;
use std::marker::Model;
use std::os::unix::fs::FileExt;
use std::rt::Files;

/// The files NAME and NAME-journal. It tells nothing of their bytes, and takes any name.
#[derive(Drop)]
pub struct FileDisk<R: Files<File = File> + AllocGlobal + Drop> {
    rt: R,
    db: Option<File>,
    journal: Option<File>,
    was_called: bool,
    is_open: bool,
    read_faults: u64,
    write_faults: u64,
}

impl<R: Files<File = File> + AllocGlobal + Drop> Model for FileDisk<R> {
    ghost Value = { Untold };

    ghost view = { λ d. record {
      called = d.was_called;
      opened = d.is_open;
      read_faults = d.read_faults;
      write_faults = d.write_faults;
    } };
}

impl<R: Files<File = File> + AllocGlobal + Drop> FileDisk<R> {
    pub fn new(rt: R) -> FileDisk<R>
        ensures { result ≡ uncalled }
    {
        FileDisk {
            rt,
            db: None,
            journal: None,
            was_called: false,
            is_open: false,
            read_faults: 0,
            write_faults: 0,
        }
    }

    fn file(&self, which: Which) -> Option<&File> {
        match which {
            Which::Db => self.db.as_ref(),
            Which::Journal => self.journal.as_ref(),
        }
    }
}

impl<R: Files<File = File> + AllocGlobal + Drop> Disk for FileDisk<R> {
    ghost label = { λ _. None };

    ghost called = { λ d. d.called };

    ghost opened = { λ d. d.opened };

    ghost files = { λ _. None };

    ghost may_leave = { λ _ _. ⊥ };

    ghost moment = { λ _. 0 };

    ghost left_since = { λ _ _ _. ⊥ };

    ghost read_faults = { λ d. d.read_faults };

    ghost write_faults = { λ d. d.write_faults };

    ghost counts_now = { λ _ _ _ _ left. left };

    ghost only_now = { λ _ _ left. left };

    ghost tells = { λ _ _ left. absurd left };

    fn open(&mut self, name: &str) -> Result<(), OpenFault> {
        self.was_called = true;
        self.is_open = false;
        let journal_name = journal_name(self.rt.alloc(), name)?;
        let db = counted(open_file(&self.rt, name, false), &mut self.read_faults)?;
        let journal = open_journal(&self.rt, journal_name.as_str());
        self.journal = Some(counted(journal, &mut self.read_faults)?);
        self.db = Some(db);
        self.is_open = true;
        Ok(())
    }

    fn len(&mut self, which: Which) -> Result<u64, Failed> {
        let outcome = length_of(self.file(which));
        counted(outcome, &mut self.read_faults)
    }

    fn read(&mut self, which: Which, at: u64, buf: &mut [u8]) -> Result<usize, Failed> {
        let outcome = read_from(self.file(which), at, buf);
        counted(outcome, &mut self.read_faults)
    }

    fn write(&mut self, which: Which, at: u64, bytes: &[u8]) -> Result<(), Failed> {
        let outcome = write_to(self.file(which), at, bytes);
        counted(outcome, &mut self.write_faults)
    }

    fn cut(&mut self, which: Which, len: u64) -> Result<(), Failed> {
        let outcome = cut(self.file(which), len);
        counted(outcome, &mut self.write_faults)
    }

    fn sync(&mut self, which: Which) -> Result<(), Failed> {
        let outcome = sync(self.file(which));
        counted(outcome, &mut self.write_faults)
    }
}

fn journal_name(alloc: Global, name: &str) -> Result<String, AllocError>
    ensures { IfOk result (λ text. string_bytes text ≡ name.now ++ codes "-journal") }
{
    let mut text = String::from_str(alloc, name)?;
    text.push_str("-journal")?;
    Ok(text)
}

/// Opens a file to read and write, with its bytes as they are. One that is missing is an error, unless
/// it is to be made.
fn open_file<R: Files<File = File>>(rt: &R, name: &str, makes: bool) -> io::Result<File> {
    OpenOptions::new()
        .read(true)
        .write(true)
        .create(makes)
        .open(rt, name)
}

/// Opens the journal, which is made where it is missing, and makes its name durable: its folder is synced
/// (atomiccommit.html), also where an earlier run that was stopped made the file.
fn open_journal<R: Files<File = File>>(rt: &R, name: &str) -> io::Result<File> {
    let file = open_file(rt, name, true)?;
    File::open(rt, folder_of(name))?.sync_all()?;
    Ok(file)
}

/// The folder of a file of this name.
fn folder_of(name: &str) -> &str {
    match name.rsplit_once('/') {
        Some((folder, _)) if folder.is_empty() => "/",
        Some((folder, _)) => folder,
        None => ".",
    }
}

/// The file, or an error where none was opened.
fn present(file: Option<&File>) -> io::Result<&File> {
    file.ok_or(io::ErrorKind::NotFound.into())
}

fn length_of(file: Option<&File>) -> io::Result<u64> {
    Ok(present(file)?.metadata()?.len())
}

/// Reads on until the buffer is full or the file ends.
fn read_from(file: Option<&File>, at: u64, buf: &mut [u8]) -> io::Result<usize>
    ensures { IfOk result (λ n. n ≤ length buf.old) }
{
    let file = present(file)?;
    let mut count = 0;
    while count < buf.len() {
        let more = file.read_at(&mut buf[count..], at.saturating_add(count as u64))?;
        if more == 0 {
            break;
        }
        count += more;
    }
    Ok(count)
}

/// Writes on until all bytes are written. A write that takes none is an error. No bytes past the end make
/// the file as long as their place.
fn write_to(file: Option<&File>, at: u64, bytes: &[u8]) -> io::Result<()> {
    let file = present(file)?;
    if bytes.is_empty() && file.metadata()?.len() < at {
        return file.set_len(at);
    }
    file.write_all_at(bytes, at)
}

fn cut(file: Option<&File>, len: u64) -> io::Result<()> {
    present(file)?.set_len(len)
}

fn sync(file: Option<&File>) -> io::Result<()> {
    present(file)?.sync_all()
}
