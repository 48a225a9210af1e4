//! The program's work: a script of ALTER TABLE commands on a database file, and its verdicts.
#![tactic(auto)]

mod file_code;
mod halted;
mod last_line;
mod opening;
mod perform;
mod run;
mod script_text;
mod sink;
mod status;
mod stop;

pub use perform::{Ended, sqlalter};
pub use status::Status;
