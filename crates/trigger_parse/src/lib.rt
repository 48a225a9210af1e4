//! Reads a whole text as a trigger: the one tree that spells it, or why none is given.
#![tactic(auto)]

mod assignments;
mod inserts;
mod statements;
mod triggers;
mod upserts;

pub use triggers::parse_trigger;
