//! Databases that hold nothing but tables without rows, whose schema stands on one page, and what ADD COLUMN makes of them.
#![tactic(auto)]

mod form;
mod header;
mod pages;
mod plan;
mod rows;
mod table;
mod verdict;

pub use form::Form;
pub use pages::{is_empty_table, read_rows};
pub use plan::{Change, Plan};
pub use rows::are_apart;
pub use table::{Table, tables_of};
pub use verdict::{Refusal, Verdict};
