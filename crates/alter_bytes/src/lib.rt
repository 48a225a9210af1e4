//! Lists of bytes, the big-endian fields of SQLite's file format, and its variable-length integers.
#![tactic(auto)]

mod bytes;
mod cell;
mod field;
#[cfg(test)]
mod tests;
mod varint;

pub use bytes::Bytes;
pub use cell::{NewCell, RowCell};
pub use field::{read_u16, read_u32, u16_at, u32_at, write_u16, write_u32};
pub use varint::{one_varint, read_varint, shortest_varint, varint_len, write_varint};
