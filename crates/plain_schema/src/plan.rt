//! What a command makes of a file.
ghost use Rattle.std.specs.Prelude.{◌≡◌};
ghost use Rattle.plain_schema.specs.Plan.{verdict_of};

use crate::table::Table;
use crate::verdict::{Refusal, Verdict};
use alter_bytes::Bytes;

/// What a command that is done changes.
#[derive(Drop)]
pub struct Change {
    /// Page 1 becomes this, and every other page stays.
    pub page: Bytes,
    /// The place of the table among the file's tables.
    pub place: usize,
    /// The table with the column added.
    pub table: Table,
}

/// What a command makes of a file.
#[derive(Drop)]
pub enum Plan {
    Refused(Refusal),
    Changed(Change),
}

impl Plan {
    /// The verdict on its command.
    pub fn verdict(&self) -> Verdict
        ensures { result ≡ verdict_of self.now }
    {
        match self {
            Plan::Refused(refusal) => Verdict::Refused(*refusal),
            Plan::Changed(_) => Verdict::Done,
        }
    }
}
