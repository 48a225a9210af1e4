//! The names of a schema: what stands where a use stands, what the use sees, and which of it is the nearest.
#![tactic(auto)]

mod catalogue;
mod change;
mod columns;
mod identity;
mod level;
mod literal;
mod object;
mod path;
mod rank;
mod refusal;
mod row;
mod scope;
mod seeing;
mod seen;
#[cfg(test)]
mod tests;
mod usage;

pub use catalogue::Catalogue;
pub use change::{Change, ColumnMap, Data, Edit, Facts, Options};
pub use columns::Columns;
pub use identity::Identity;
pub use level::{Binder, Level, Resolved, Sight};
pub use literal::may_be_literal;
pub use path::Path;
pub use rank::{Denoted, is_in_reach, is_nearer, nearest_of, one_denoted};
pub use refusal::{PlanError, Refusal};
pub use row::{Row, RowKind};
pub use scope::Scope;
pub use seeing::sees;
pub use usage::{Target, Use, UseKind};
