//! Why a file is refused, and the lines that say so.
ghost use Rattle.std.specs.Prelude.{◌≡◌};
ghost use Rattle.alter_cli.specs.Codes.{code_text, code_page, refusal_text, refusal_page};

use pager_core::FileRefusal;

/// Why a file is refused.
#[derive(Clone, Copy, Debug)]
pub enum FileCode {
    /// The journal names a super-journal.
    SuperJournal,
    /// The journal, or the database that it speaks of, is past the limits.
    JournalTooLarge,
    /// This page, from 1, has no record in the journal and does not stand in the database.
    ShortJournal(u32),
    /// The database's bytes, after a recovery, are none that is opened.
    Database(FileRefusal),
    /// The database is none that is served so far.
    Unbuilt,
}

/// What the line of a refusal begins with.
fn text_of(refusal: FileRefusal) -> &'static str
    ensures { result.now ≡ refusal_text refusal }
{
    match refusal {
        FileRefusal::Empty => "file empty",
        FileRefusal::NotDatabase => "file not-database",
        FileRefusal::PageSize => "file page-size",
        FileRefusal::Wal => "file wal",
        FileRefusal::AutoVacuum => "file auto-vacuum",
        FileRefusal::Encoding => "file encoding",
        FileRefusal::SchemaFormat => "file schema-format",
        FileRefusal::Size => "file size",
        FileRefusal::TooLarge => "file too-large",
        FileRefusal::Corrupt(_) => "file corrupt",
    }
}

/// The page that a refusal is about, from 1.
fn page_of(refusal: FileRefusal) -> Option<u32>
    ensures { result ≡ refusal_page refusal }
{
    match refusal {
        FileRefusal::Corrupt(page) => Some(page),
        _ => None,
    }
}

impl FileCode {
    /// What its line begins with.
    pub fn text(self) -> &'static str
        ensures { result.now ≡ code_text self }
    {
        match self {
            FileCode::SuperJournal => "file super-journal",
            FileCode::JournalTooLarge => "file journal-too-large",
            FileCode::ShortJournal(_) => "file short-journal",
            FileCode::Database(refusal) => text_of(refusal),
            FileCode::Unbuilt => "file unbuilt",
        }
    }

    /// The page that it is about, from 1.
    pub fn page(self) -> Option<u32>
        ensures { result ≡ code_page self }
    {
        match self {
            FileCode::ShortJournal(page) => Some(page),
            FileCode::Database(refusal) => page_of(refusal),
            _ => None,
        }
    }
}
