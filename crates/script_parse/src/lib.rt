//! Reads a script as a list of commands: the one list that it spells, or the first cause why it spells none, at its place.
#![tactic(auto)]

mod command;
mod error;
mod fields;
mod pieces;
mod script;
#[cfg(test)]
mod tests;

pub use error::{Cause, ScriptError};
pub use script::{MAX_BYTES, MAX_COMMANDS, parse_script};
