//! Reads a whole text as a table, a column, an index or a view: the one tree that spells it, or why none is given.
#![tactic(auto)]

mod columns;
mod constraints;
mod indexes;
mod keys;
mod tables;
mod views;

pub use columns::{parse_column, read_column};
pub use indexes::parse_index;
pub use tables::{parse_table, read_table};
pub use views::parse_view;
