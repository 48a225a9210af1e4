//! A database that is opened for ALTER TABLE commands: recovered from its journal, read, and changed by one commit a command.
#![tactic(auto)]

mod answer;
mod carry;
mod commit;
mod durable;
mod fault;
mod open_error;
mod opening;
mod reading;
mod reads;
mod session;
#[cfg(test)]
mod tests;

pub use answer::{Answer, Outcome};
pub use open_error::{OpenError, Unopened};
pub use session::Session;
