//! What is read as each rule of tables, and the functions of the rules that hold no inner tree.
#![tactic(auto)]

mod columns;
mod conflicts;
mod tables;
mod words;

pub use columns::{opt_generated, opt_storage, plain_cons, plain_default, starts_column_cons};
pub use conflicts::{opt_conflict, references};
pub use tables::{
    foreign_cons, new_name, opt_if_not_exists, opt_options, starts_constraints, starts_next_cons,
};
