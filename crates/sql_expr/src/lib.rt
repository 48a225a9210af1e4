//! The trees of expressions and selects, and the tokens that they spell.
#![tactic(auto)]

mod call;
mod expr;
mod leaf;
mod lists;
mod names;
mod operators;
mod select;
mod source;
mod spelled;
mod window;

pub use call::{Call, CallArguments, Case, Cast, Over, Raise, RaiseAction, When};
pub use expr::{Expr, InSet, InfixPart, Operand, Part, Postfix};
pub use leaf::{
    is_bare_alias, is_column_name, is_no_join_word, is_none_of, is_number_kind, is_one_of,
    is_operand_name, is_operator_sign, is_type_name,
};
pub use lists::{After, By, Commas, InParens, NextItem, TokenPair};
pub use names::{Alias, ColumnType, ColumnUse, Object, Signed, TypeSize};
pub use operators::{Action, Infix, Literal};
pub use select::{
    Arm, Compound, CompoundArm, Cte, Limit, Materialized, ResultItem, Select, SelectArm, ValuesRow,
    With,
};
pub use source::{Indexing, Join, JoinConstraint, JoinKind, JoinedSource, Sources, TableSource};
pub use spelled::{Both, Spelled, Three, tokens_of};
pub use window::{Bound, Excluded, Frame, FrameExtent, NamedWindow, Term, Window};
