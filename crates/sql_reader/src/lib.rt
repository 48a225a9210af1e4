//! Readers of SQL's tokens: the sort of each token, and a cursor over the tokens that are left.
#![tactic(auto)]

mod cursor;
mod error;
mod sort;
#[cfg(test)]
mod tests;

pub use cursor::Cursor;
pub use error::ReadError;
pub use sort::{Mark, Sort, sort_of};
