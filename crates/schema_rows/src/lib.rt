//! The rows of the schema table that stand for tables, and their records.
#![tactic(auto)]

mod schema;
#[cfg(test)]
mod tests;

pub use schema::{SchemaRow, read_schema_row};
