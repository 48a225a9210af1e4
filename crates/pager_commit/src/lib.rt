//! How the changed pages of a database reach the disk: a crash at any moment leaves the pages before or the pages after.
#![tactic(auto)]

mod commit;
mod plan;
mod records;
mod stages;
#[cfg(test)]
mod tests;
mod write;

pub use plan::Plan;
