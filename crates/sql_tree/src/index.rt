//! Indexes and views.

use crate::table::{IfNotExists, Indexed};
use sql_expr::{After, Commas, Expr, InParens, Select, Spelled, spell_all, tokens_of};
use sql_token::Token;
use std::alloc::{AllocError, Global};

/// `CREATE [UNIQUE] INDEX [IF NOT EXISTS] name ON name "(" indexeds ")" [WHERE expr]`
#[derive(Drop)]
pub struct CreateIndex {
    pub create: Token,
    pub unique: Option<Token>,
    pub index: Token,
    pub if_not_exists: Option<IfNotExists>,
    pub name: Token,
    pub on: Token,
    pub table: Token,
    pub indexeds: InParens<Commas<Indexed>>,
    pub filter: Option<After<Expr>>,
}

impl Spelled for CreateIndex {
    ghost use Rattle.sql_tree.specs.Tokens.{create_index_tokens};

    ghost spelled = { create_index_tokens };

    fn spell(&self, tokens: &mut Vec<Token>) -> Result<(), AllocError> {
        spell_all!(
            tokens; self.create, self.unique, self.index, self.if_not_exists, self.name, self.on,
            self.table, self.indexeds, self.filter
        )
    }
}

impl CreateIndex {
    ghost use Rattle.std.specs.Prelude.{◌≡◌, IfOk};
    ghost use Rattle.sql_tree.specs.Tokens.{create_index_tokens};

    /// The tokens of the tree, in order.
    pub fn flatten(&self, alloc: Global) -> Result<Vec<Token>, AllocError>
        ensures { IfOk result (λ list. list.items ≡ create_index_tokens self.now) }
    {
        tokens_of(alloc, self)
    }
}

/// `CREATE VIEW [IF NOT EXISTS] name ["(" names ")"] AS select`
#[derive(Drop)]
pub struct CreateView {
    pub create: Token,
    pub view: Token,
    pub if_not_exists: Option<IfNotExists>,
    pub name: Token,
    pub columns: Option<InParens<Commas<Token>>>,
    pub as_word: Token,
    pub select: Select,
}

impl Spelled for CreateView {
    ghost use Rattle.sql_tree.specs.Tokens.{create_view_tokens};

    ghost spelled = { create_view_tokens };

    fn spell(&self, tokens: &mut Vec<Token>) -> Result<(), AllocError> {
        spell_all!(
            tokens; self.create, self.view, self.if_not_exists, self.name, self.columns,
            self.as_word, self.select
        )
    }
}

impl CreateView {
    ghost use Rattle.std.specs.Prelude.{◌≡◌, IfOk};
    ghost use Rattle.sql_tree.specs.Tokens.{create_view_tokens};

    /// The tokens of the tree, in order.
    pub fn flatten(&self, alloc: Global) -> Result<Vec<Token>, AllocError>
        ensures { IfOk result (λ list. list.items ≡ create_view_tokens self.now) }
    {
        tokens_of(alloc, self)
    }
}
