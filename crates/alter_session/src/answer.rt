//! What became of a command.
use crate::session::Session;
use alter_disk::{Disk, Way};
use plain_schema::Verdict;

/// What is said of a command that was applied.
#[derive(Drop)]
pub struct Answer {
    pub verdict: Verdict,
    /// The verdict's line in the output, with its line feed.
    pub line: String,
}

/// What became of a command.
#[derive(Drop)]
pub enum Outcome<D: Disk> {
    /// It is committed, or refused.
    Done(Session<D>, Answer),
    /// Memory ran out before anything was written.
    Memory(Session<D>),
    /// A call of the disk of this kind failed. The database is before or after the command at the next opening.
    Failed(D, Way),
}
