//! Rows of the schema table.
ghost use Rattle.std.specs.Prelude.{◌≡◌, IfOk};

use alter_bytes::Bytes;
use std::alloc::{AllocError, Global};

/// The type of an object.
#[derive(Clone, Copy, Debug, PartialEq, Eq)]
pub enum RowKind {
    Table,
    Index,
    View,
    Trigger,
}

/// A row of the schema table (fileformat2.html, "Storage Of The SQL Database Schema").
#[derive(Debug, Drop)]
pub struct Row {
    /// The row's rowid, which is the number of the object.
    pub rowid: u32,
    pub kind: RowKind,
    pub name: Bytes,
    /// `tbl_name`.
    pub table: Bytes,
    /// The page number of the root page, where the object has a tree.
    pub root: Option<u32>,
    /// The statement that made the object; an automatic index has none.
    pub sql: Option<Bytes>,
}

impl Row {
    /// A copy in the same allocators.
    pub fn try_clone(&self) -> Result<Row, AllocError>
        ensures { IfOk result (λ copy. copy ≡ self.now) }
    {
        let name = self.name.try_clone()?;
        let table = self.table.try_clone()?;
        let sql = clone_option(&self.sql)?;
        Ok(Row {
            rowid: self.rowid,
            kind: self.kind,
            name,
            table,
            root: self.root,
            sql,
        })
    }
}

/// A copy of the bytes, if there are any.
pub fn clone_option(bytes: &Option<Bytes>) -> Result<Option<Bytes>, AllocError>
    ensures { IfOk result (λ copy. copy ≡ bytes.now) }
{
    match bytes {
        Some(bytes) => Ok(Some(bytes.try_clone()?)),
        None => Ok(None),
    }
}
