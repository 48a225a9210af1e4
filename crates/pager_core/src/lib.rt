//! A database file as its pages: its sizes and why it is refused, and the pages that were read or changed.
#![tactic(auto)]

mod error;
mod file_shape;
mod header;
mod kept;
mod pages;
mod refusal;
mod slot;
#[cfg(test)]
mod tests;

pub use error::PageError;
pub use file_shape::{FileShape, shape};
pub use header::HEADER_LEN;
pub use pages::Pages;
pub use refusal::FileRefusal;
