//! The trees of the texts of a schema, the tokens that they spell, and commands.
#![tactic(auto)]

mod command;
mod conflict;
mod index;
mod nesting;
mod statement;
mod table;
mod tree;
mod trigger;

pub use command::Command;
pub use conflict::{
    Conflict, Deferral, OrAction, ReferenceAction, ReferenceClause, References, Resolution,
};
pub use index::{CreateIndex, CreateView};
pub use nesting::{MAX_DEPTH, first_too_deep};
pub use sql_expr::{
    Action, After, Alias, Arm, Bound, By, Call, CallArguments, Case, Cast, ColumnType, ColumnUse,
    Commas, Compound, CompoundArm, Cte, Excluded, Expr, Frame, FrameExtent, InParens, InSet,
    Indexing, Infix, InfixPart, Join, JoinConstraint, JoinKind, JoinedSource, Limit, Literal,
    Materialized, NamedWindow, NextItem, Object, Operand, Over, Part, Postfix, Raise, RaiseAction,
    ResultItem, Select, SelectArm, Signed, Sources, Spelled, TableSource, Term, TokenPair,
    TypeSize, ValuesRow, When, Window, With, tokens_of,
};
pub use statement::{
    Assignment, Delete, Insert, InsertVerb, Sets, Statement, Target, Update, Upsert, UpsertAction,
    UpsertTarget,
};
pub use table::{
    Column, ColumnCons, CreateTable, DefaultValue, IfNotExists, Indexed, NextTableCons, TableBody,
    TableCons, TableConstraints, TableOption,
};
pub use tree::Tree;
pub use trigger::{
    CreateTrigger, EndedStatement, ForEachRow, TriggerEvent, TriggerHead, TriggerTime,
};
