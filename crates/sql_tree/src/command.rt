//! The commands of a script.

use crate::table::{Column, CreateTable};
use alter_bytes::Bytes;

/// A command. Names are what their tokens spell, without quotes.
#[derive(Drop)]
pub enum Command {
    /// `ALTER TABLE table RENAME TO new`
    RenameTable {
        table: Bytes,
        new: Bytes,
    },
    /// `ALTER TABLE table RENAME [COLUMN] column TO new`; whether the new name was written without quotes.
    RenameColumn {
        table: Bytes,
        column: Bytes,
        new: Bytes,
        bare: bool,
    },
    /// `ALTER TABLE table ADD [COLUMN] column`, with the definition's text, in which its spans count.
    Add {
        table: Bytes,
        text: Bytes,
        column: Column,
    },
    /// `ALTER TABLE table DROP [COLUMN] column`
    Drop {
        table: Bytes,
        column: Bytes,
    },
    /// `REBUILD [TABLE] table AS definition`, with the definition's text, in which its spans count. The
    /// definition has no IF NOT EXISTS.
    Rebuild {
        table: Bytes,
        text: Bytes,
        definition: CreateTable,
    },
}
