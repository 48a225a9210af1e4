//! SQLite's record format: a row of values as bytes, both ways.
#![tactic(auto)]

mod error;
mod fields;
mod in_place;
mod reading;
mod serial;
#[cfg(test)]
mod tests;
mod value;
mod writing;

pub use error::RecordError;
pub use in_place::{int_front, text_front};
pub use reading::{decode, first_bad, record_parts};
pub use value::Value;
pub use writing::{encode, push_varint};
