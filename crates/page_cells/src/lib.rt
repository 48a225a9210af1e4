//! The cells of one page of a tree of SQLite's file format, read and written.
#![tactic(auto)]

mod cell;
mod error;
mod fields;
mod kind;
mod layout;
mod reader;
mod taken;
#[cfg(test)]
mod tests;
mod writer;

pub use cell::{Cell, CellList, PageCells};
pub use error::CellError;
pub use kind::Kind;
pub use layout::local_len;
pub use reader::cells;
pub use writer::{fits, write_page};
