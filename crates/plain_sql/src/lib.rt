//! The texts of tables and the commands that are served so far, whose names are words and none of SQL's.
#![tactic(auto)]

mod names;
mod script;
mod table;
#[cfg(test)]
mod tests;
mod words;

pub use names::Names;
pub use script::{Command, read_script};
pub use table::{TableText, read_table};
