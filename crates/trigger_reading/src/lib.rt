//! What is read as each rule of triggers and their statements, and the functions of the rules that hold no inner tree.
#![tactic(auto)]

mod heads;
mod statements;

pub use heads::{event, opt_for_each_row, opt_time};
pub use statements::{insert_verb, opt_or, starts_statement, target};
