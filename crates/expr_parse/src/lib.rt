//! The functions of the rules of expressions, over functions that read the trees inside a tree.
#![tactic(auto)]

mod functions;
mod lists;
mod operands;
mod parts;
mod trees;
mod windows;

pub use functions::{call, case, cast, raise};
pub use lists::{exprs, next_expr};
pub use operands::{arguments, query, row_parens};
pub use parts::expr_level;
pub use trees::{Handed, Trees};
pub use windows::{named_window, opt_after, opt_by, opt_order, window};
