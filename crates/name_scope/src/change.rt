//! What a command changes.
use crate::Row;
use alter_bytes::Bytes;
use sqlite_items::Items;

/// What the program's words ask for.
#[derive(Clone, Copy, Debug, PartialEq, Eq)]
pub struct Options {
    /// Whether foreign keys are enforced.
    pub foreign_keys: bool,
}

/// What a command must know of the rows of its table.
#[derive(Clone, Copy, Debug, PartialEq, Eq)]
pub struct Facts {
    /// Whether the table has a row.
    pub any_row: bool,
    /// The rowid of the first row whose record has more values than the table has columns.
    pub wide: Option<i64>,
    /// Whether the table's tree is that of an index.
    pub keyed: bool,
    /// The schema format of the file, from 1 to 4.
    pub format: u8,
}

/// Bytes in place of those of the text of a row's object from `start` up to `end`.
#[derive(Debug, Drop)]
pub struct Edit {
    pub row: u32,
    pub start: usize,
    pub end: usize,
    pub bytes: Bytes,
}

/// For each column of a new definition, from 0, the column of the old one whose values it takes, if there is one.
#[derive(Debug, Drop)]
pub struct ColumnMap {
    pub from: Items<Option<u32>>,
}

/// What becomes of the rows of a table.
#[derive(Debug, Drop)]
pub enum Data {
    /// They stay.
    Same,
    /// They lose the value of this column.
    Without(u32),
    /// They are made anew.
    Carried(ColumnMap),
}

/// What a command makes of a schema.
#[derive(Debug, Drop)]
pub struct Change {
    /// The edits of the texts.
    pub edits: Items<Edit>,
    /// The rows of the new schema.
    pub rows: Items<Row>,
    /// What becomes of the table's rows.
    pub stored: Data,
}
