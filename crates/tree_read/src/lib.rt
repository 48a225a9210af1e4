//! A whole tree of SQLite's file format, read off the pages of a file: its pages, its rows, its entries.
#![tactic(auto)]

mod chain;
mod error;
mod node;
mod pages;
mod place;
#[cfg(test)]
mod tests;
mod visit;
mod walk;

pub use error::WalkError;
pub use pages::tree_pages;
pub use place::Place;
pub use walk::Walk;
