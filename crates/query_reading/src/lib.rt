//! What is read as each rule of queries and expressions, and the functions of the rules that hold no inner tree.
#![tactic(auto)]

mod frames;
mod leaves;
mod objects;
mod operators;
#[cfg(test)]
mod tests;
mod types;

pub use frames::{nulls, opt_base, opt_exclude, plain_bound};
pub use leaves::{
    bare_alias, begins_expr, begins_select, column_name, is_bare_alias, is_column_name,
    is_dot_or_opening, is_infix_sign, is_join_word, is_lone_column, is_operand_name, lone_string,
    maybe_not, maybe_not_word, operand_name, optional_of, optional_word, starts_expr, whole_name,
};
pub use objects::{column_use, names, object, opt_alias, opt_names};
pub use operators::{action, literal, operator};
pub use types::{column_type, opt_type};
