//! What stands behind FROM.

use crate::expr::Expr;
use crate::lists::{After, Commas, InParens};
use crate::names::{Alias, Object};
use crate::select::Select;
use crate::spell_all;
use crate::spelled::Spelled;
use sql_token::Token;
use sqlite_items::{Boxed, Items};
use std::alloc::AllocError;

/// `(LEFT|RIGHT|FULL) [OUTER] | INNER | CROSS`
#[derive(Drop)]
pub enum JoinKind {
    /// `(LEFT|RIGHT|FULL) [OUTER]`
    Outer { side: Token, outer: Option<Token> },
    /// `INNER`
    Inner(Token),
    /// `CROSS`
    Cross(Token),
}

impl Spelled for JoinKind {
    ghost use Rattle.sql_expr.specs.Tokens.{join_kind_tokens};

    ghost spelled = { join_kind_tokens };

    fn spell(&self, tokens: &mut Vec<Token>) -> Result<(), AllocError> {
        match self {
            JoinKind::Outer { side, outer } => spell_all!(tokens; side, outer),
            JoinKind::Inner(part) => part.spell(tokens),
            JoinKind::Cross(part) => part.spell(tokens),
        }
    }
}

/// `"," | [NATURAL] [(LEFT|RIGHT|FULL) [OUTER] | INNER | CROSS] JOIN`
#[derive(Drop)]
pub enum Join {
    /// `","`
    Comma(Token),
    /// `[NATURAL] [kind] JOIN`
    Join {
        natural: Option<Token>,
        kind: Option<JoinKind>,
        join: Token,
    },
}

impl Spelled for Join {
    ghost use Rattle.sql_expr.specs.Tokens.{join_tokens};

    ghost spelled = { join_tokens };

    fn spell(&self, tokens: &mut Vec<Token>) -> Result<(), AllocError> {
        match self {
            Join::Comma(part) => part.spell(tokens),
            Join::Join {
                natural,
                kind,
                join,
            } => spell_all!(tokens; natural, kind, join),
        }
    }
}

/// `ON expr | USING "(" names ")"`
#[derive(Drop)]
pub enum JoinConstraint<E> {
    /// `ON expr`
    On(After<E>),
    /// `USING "(" names ")"`
    Using {
        using: Token,
        names: InParens<Commas<Token>>,
    },
}

impl<E: Spelled> Spelled for JoinConstraint<E> {
    ghost use Rattle.sql_expr.specs.Tokens.{join_constraint_tokens};

    ghost spelled = { join_constraint_tokens E.spelled };

    fn spell(&self, tokens: &mut Vec<Token>) -> Result<(), AllocError> {
        match self {
            JoinConstraint::On(part) => part.spell(tokens),
            JoinConstraint::Using { using, names } => spell_all!(tokens; using, names),
        }
    }
}

/// `INDEXED BY name | NOT INDEXED`
#[derive(Drop)]
pub enum Indexing {
    /// `INDEXED BY name`
    By {
        indexed: Token,
        by: Token,
        name: Token,
    },
    /// `NOT INDEXED`
    Not {
        not: Token,
        indexed: Token,
    },
}

impl Spelled for Indexing {
    ghost use Rattle.sql_expr.specs.Tokens.{indexing_tokens};

    ghost spelled = { indexing_tokens };

    fn spell(&self, tokens: &mut Vec<Token>) -> Result<(), AllocError> {
        match self {
            Indexing::By { indexed, by, name } => spell_all!(tokens; indexed, by, name),
            Indexing::Not { not, indexed } => spell_all!(tokens; not, indexed),
        }
    }
}

/// `source {join source [ON expr | USING "(" names ")"]}`
#[cycle(tree)]
#[derive(Drop)]
pub struct Sources {
    pub first: TableSource,
    pub more: Items<JoinedSource>,
}

impl Spelled for Sources {
    ghost use Rattle.sql_expr.specs.Tree.{sources_tokens};

    ghost spelled = { sources_tokens };

    #[cycle(flatten)]
    fn spell(&self, tokens: &mut Vec<Token>) -> Result<(), AllocError> {
        self.first.spell(tokens)?;
        self.more.spell(tokens)
    }
}

/// `join source [ON expr | USING "(" names ")"]`
#[cycle(tree)]
#[derive(Drop)]
pub struct JoinedSource {
    pub join: Join,
    pub source: TableSource,
    pub constraint: Option<JoinConstraint<Expr>>,
}

impl Spelled for JoinedSource {
    ghost use Rattle.sql_expr.specs.Tree.{joined_source_tokens};

    ghost spelled = { joined_source_tokens };

    #[cycle(flatten)]
    fn spell(&self, tokens: &mut Vec<Token>) -> Result<(), AllocError> {
        self.join.spell(tokens)?;
        self.source.spell(tokens)?;
        self.constraint.spell(tokens)
    }
}

/// `object [[AS] alias] [INDEXED BY name | NOT INDEXED] | name "(" [exprs] ")" [[AS] alias] | "(" select ")" [[AS] alias] | "(" sources ")"`
#[cycle(tree)]
#[derive(Drop)]
pub enum TableSource {
    /// `object [[AS] alias] [INDEXED BY name | NOT INDEXED]`
    Table {
        object: Object,
        alias: Option<Alias>,
        indexing: Option<Indexing>,
    },
    /// `name "(" [exprs] ")" [[AS] alias]`
    TableFunction {
        name: Token,
        arguments: InParens<Option<Commas<Expr>>>,
        alias: Option<Alias>,
    },
    /// `"(" select ")" [[AS] alias]`
    Derived {
        select: InParens<Boxed<Select>>,
        alias: Option<Alias>,
    },
    /// `"(" sources ")"`
    Sources(InParens<Boxed<Sources>>),
}

impl Spelled for TableSource {
    ghost use Rattle.sql_expr.specs.Tree.{table_source_tokens};

    ghost spelled = { table_source_tokens };

    #[cycle(flatten)]
    fn spell(&self, tokens: &mut Vec<Token>) -> Result<(), AllocError> {
        match self {
            TableSource::Table {
                object,
                alias,
                indexing,
            } => {
                object.spell(tokens)?;
                alias.spell(tokens)?;
                indexing.spell(tokens)
            }
            TableSource::TableFunction {
                name,
                arguments,
                alias,
            } => {
                name.spell(tokens)?;
                arguments.spell(tokens)?;
                alias.spell(tokens)
            }
            TableSource::Derived { select, alias } => {
                select.spell(tokens)?;
                alias.spell(tokens)
            }
            TableSource::Sources(part) => part.spell(tokens),
        }
    }
}
