//! The rollback journal: its header, whether it is hot, and the checksum of its records.
#![tactic(auto)]

mod coverage;
mod cursor;
mod fault;
mod header;
mod heat;
#[cfg(test)]
mod long_tests;
mod playback;
mod reads;
mod record;
mod recovery;
#[cfg(test)]
mod recovery_tests;
mod replay;
mod sum;
#[cfg(test)]
mod tests;

pub use fault::RecoverFault;
pub use header::{Header, header_bytes, read_header};
pub use heat::{Heat, hot};
pub use recovery::recover;
pub use sum::checksum;
