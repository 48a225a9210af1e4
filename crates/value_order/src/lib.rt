//! The affinities of columns, the collations of texts, and the conversion and the order of values.
#![tactic(auto)]

mod affinity;
mod collation;
mod conversion;
mod number;
mod order;
#[cfg(test)]
mod tests;

pub use affinity::{Affinity, affinity_of};
pub use collation::{Collation, collation_of};
pub use conversion::{ApplyError, apply};
pub use order::{NeedsReal, compare};
