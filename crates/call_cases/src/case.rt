//! A line of the input: a call, what it is given, and the tables that are wanted behind it.
use crate::database::database;
use crate::journal::journal;
use std::alloc::{AllocError, Global};

/// A case: `done|tables|script|after|options`. No field has a bar in it.
#[derive(Clone, Copy)]
pub struct Case<'a> {
    /// How many commands are done.
    done: &'a str,
    /// The texts of the tables, with semicolons between them.
    tables: &'a str,
    /// The script; a backslash stands for the end of a line.
    script: &'a str,
    /// The texts of the tables that are wanted behind the call; none where it changes nothing.
    after: &'a str,
    /// `key=number`, with spaces between them.
    options: &'a str,
}

impl<'a> Case<'a> {
    /// Reads a line.
    pub fn read(line: &'a str) -> Option<Case<'a>> {
        let (done, line) = line.split_once('|')?;
        let (tables, line) = line.split_once('|')?;
        let (script, line) = line.split_once('|')?;
        let (after, options) = line.split_once('|')?;
        Some(Case {
            done,
            tables,
            script,
            after,
            options,
        })
    }

    /// What stands behind this key.
    fn word(&self, key: &str) -> Option<&'a str> {
        for option in self.options.split(' ') {
            if let Some((name, word)) = option.split_once('=') {
                if name == key {
                    return Some(word);
                }
            }
        }
        None
    }

    /// The number that stands behind this key.
    pub fn option(&self, key: &str) -> Option<usize> {
        self.word(key)?.parse::<usize>().ok()
    }

    /// The script, so often as `times` says.
    pub fn script(&self, alloc: Global) -> Result<Vec<u8>, AllocError> {
        let mut script = Vec::new(alloc);
        for _ in 0..self.option("times").unwrap_or(1) {
            for byte in self.script.as_bytes() {
                script.push(if *byte == b'\\' { b'\n' } else { *byte })?;
            }
        }
        Ok(script)
    }

    /// The tables; with `columns`, one table `t` with the columns c1, c2 and so on up to this number.
    fn tables(&self, alloc: Global) -> Result<String, AllocError> {
        let Some(columns) = self.option("columns") else {
            return String::from_str(alloc, self.tables);
        };
        let mut text = String::from_str(alloc, "CREATE TABLE t(c1")?;
        for number in 1..columns {
            let column = format!(in alloc; ",c{}", number.saturating_add(1))?;
            text.push_str(column.as_str())?;
        }
        text.push_str(")")?;
        Ok(text)
    }

    /// The bytes of a page.
    fn page(&self) -> usize {
        self.option("page").unwrap_or(4096)
    }

    /// The journal before the call: with `journal`, one byte, and with `log`, the one of this kind beside the tables.
    pub fn journal(&self, alloc: Global) -> Result<Vec<u8>, AllocError> {
        if self.option("journal") == Some(1) {
            return Vec::from_slice(alloc, b"j");
        }
        let tables = self.tables(alloc)?;
        let db = database(alloc, self.page(), 0, tables.as_str())?;
        journal(
            alloc,
            self.word("log").unwrap_or(""),
            db.as_slice(),
            self.page(),
        )
    }

    /// The database before the call: with `more`, so many zeros behind it, with `cut`, so many bytes of it, and with
    /// `at`, the byte `put` there.
    pub fn database(&self, alloc: Global) -> Result<Vec<u8>, AllocError> {
        let tables = self.tables(alloc)?;
        let mut bytes = database(alloc, self.page(), 0, tables.as_str())?;
        let length = bytes.len().saturating_add(self.option("more").unwrap_or(0));
        bytes.resize(length, 0)?;
        if let Some(length) = self.option("cut") {
            bytes.truncate(length);
        }
        if let Some(byte) = bytes.get_mut(self.option("at").unwrap_or(usize::MAX)) {
            *byte = (self.option("put").unwrap_or(0) % 256) as u8;
        }
        Ok(bytes)
    }

    /// The database that is wanted behind a call that changes it.
    pub fn wanted(&self, alloc: Global) -> Result<Vec<u8>, AllocError> {
        database(
            alloc,
            self.page(),
            self.done.parse::<u8>().unwrap_or(0),
            self.after,
        )
    }
}
