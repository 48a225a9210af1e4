//! The functions of the rules of sources and selects, over functions that read the trees inside a tree.
#![tactic(auto)]

mod items;
mod joins;
mod selects;
mod sources;
mod with_clause;

pub use selects::select_level;
pub use sources::sources_level;
