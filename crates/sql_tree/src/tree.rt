//! The texts of a schema.

use crate::index::{CreateIndex, CreateView};
use crate::table::CreateTable;
use crate::trigger::CreateTrigger;
use sql_expr::Spelled;
use sql_token::Token;
use std::alloc::AllocError;

/// The text of an object of the schema.
#[derive(Drop)]
pub enum Tree {
    /// `create-table`
    Table(CreateTable),
    /// `create-index`
    Index(CreateIndex),
    /// `create-view`
    View(CreateView),
    /// `create-trigger`
    Trigger(CreateTrigger),
}

impl Spelled for Tree {
    ghost use Rattle.sql_tree.specs.Tokens.{tree_tokens};

    ghost spelled = { tree_tokens };

    fn spell(&self, tokens: &mut Vec<Token>) -> Result<(), AllocError> {
        match self {
            Tree::Table(part) => part.spell(tokens),
            Tree::Index(part) => part.spell(tokens),
            Tree::View(part) => part.spell(tokens),
            Tree::Trigger(part) => part.spell(tokens),
        }
    }
}
