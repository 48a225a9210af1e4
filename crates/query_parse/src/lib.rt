//! Reads a whole text as an expression or as a select: the one tree that spells it, or why none is given.
#![tactic(auto)]

mod error;
mod nested;
#[cfg(test)]
mod tests;
mod whole;

pub use error::ParseError;
pub use nested::{nested_expr, nested_select, nested_sources};
pub use whole::{check_nesting, parse_expr, parse_select};
