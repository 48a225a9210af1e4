//! Selects, their arms and WITH.

use crate::expr::Expr;
use crate::lists::{After, By, Commas, InParens};
use crate::names::Alias;
use crate::source::Sources;
use crate::spell_all;
use crate::spelled::{Spelled, tokens_of};
use crate::window::{NamedWindow, Term};
use sql_token::Token;
use sqlite_items::{Boxed, Items};
use std::alloc::{AllocError, Global};

/// `[NOT] MATERIALIZED`
#[derive(Drop)]
pub struct Materialized {
    pub not: Option<Token>,
    pub materialized: Token,
}

impl Spelled for Materialized {
    ghost use Rattle.sql_expr.specs.Tokens.{materialized_tokens};

    ghost spelled = { materialized_tokens };

    fn spell(&self, tokens: &mut Vec<Token>) -> Result<(), AllocError> {
        spell_all!(tokens; self.not, self.materialized)
    }
}

/// `name ["(" names ")"] AS [[NOT] MATERIALIZED] "(" select ")"`
#[derive(Drop)]
pub struct Cte<S> {
    pub name: Token,
    pub columns: Option<InParens<Commas<Token>>>,
    pub as_word: Token,
    pub materialized: Option<Materialized>,
    pub select: InParens<Boxed<S>>,
}

impl<S: Spelled> Spelled for Cte<S> {
    ghost use Rattle.sql_expr.specs.Tokens.{cte_tokens};

    ghost spelled = { cte_tokens S.spelled };

    fn spell(&self, tokens: &mut Vec<Token>) -> Result<(), AllocError> {
        spell_all!(tokens; self.name, self.columns, self.as_word, self.materialized, self.select)
    }
}

/// `WITH [RECURSIVE] ctes`
#[derive(Drop)]
pub struct With<S> {
    pub with_word: Token,
    pub recursive: Option<Token>,
    pub ctes: Commas<Cte<S>>,
}

impl<S: Spelled> Spelled for With<S> {
    ghost use Rattle.sql_expr.specs.Tokens.{with_tokens};

    ghost spelled = { with_tokens S.spelled };

    fn spell(&self, tokens: &mut Vec<Token>) -> Result<(), AllocError> {
        spell_all!(tokens; self.with_word, self.recursive, self.ctes)
    }
}

/// `UNION [ALL] | EXCEPT | INTERSECT`
#[derive(Drop)]
pub enum Compound {
    /// `UNION [ALL]`
    Union { union: Token, all: Option<Token> },
    /// `EXCEPT`
    Except(Token),
    /// `INTERSECT`
    Intersect(Token),
}

impl Spelled for Compound {
    ghost use Rattle.sql_expr.specs.Tokens.{compound_tokens};

    ghost spelled = { compound_tokens };

    fn spell(&self, tokens: &mut Vec<Token>) -> Result<(), AllocError> {
        match self {
            Compound::Union { union, all } => spell_all!(tokens; union, all),
            Compound::Except(part) => part.spell(tokens),
            Compound::Intersect(part) => part.spell(tokens),
        }
    }
}

/// `LIMIT expr [(OFFSET | ",") expr]`
#[derive(Drop)]
pub struct Limit<E> {
    pub limit: Token,
    pub count: E,
    pub second: Option<After<E>>,
}

impl<E: Spelled> Spelled for Limit<E> {
    ghost use Rattle.sql_expr.specs.Tokens.{limit_tokens};

    ghost spelled = { limit_tokens E.spelled };

    fn spell(&self, tokens: &mut Vec<Token>) -> Result<(), AllocError> {
        spell_all!(tokens; self.limit, self.count, self.second)
    }
}

/// `"*" | name "." "*" | expr [[AS] alias]`
#[derive(Drop)]
pub enum ResultItem<E> {
    /// `"*"`
    Star(Token),
    /// `name "." "*"`
    AllOf {
        name: Token,
        dot: Token,
        star: Token,
    },
    /// `expr [[AS] alias]`
    Expr {
        expr: E,
        alias: Option<Alias>,
    },
}

impl<E: Spelled> Spelled for ResultItem<E> {
    ghost use Rattle.sql_expr.specs.Tokens.{result_item_tokens};

    ghost spelled = { result_item_tokens E.spelled };

    fn spell(&self, tokens: &mut Vec<Token>) -> Result<(), AllocError> {
        match self {
            ResultItem::Star(part) => part.spell(tokens),
            ResultItem::AllOf { name, dot, star } => spell_all!(tokens; name, dot, star),
            ResultItem::Expr { expr, alias } => spell_all!(tokens; expr, alias),
        }
    }
}

/// `"(" exprs ")"`
#[derive(Drop)]
pub struct ValuesRow<E> {
    pub exprs: InParens<Commas<E>>,
}

impl<E: Spelled> Spelled for ValuesRow<E> {
    ghost use Rattle.sql_expr.specs.Tokens.{values_row_tokens};

    ghost spelled = { values_row_tokens E.spelled };

    fn spell(&self, tokens: &mut Vec<Token>) -> Result<(), AllocError> {
        self.exprs.spell(tokens)
    }
}

/// `SELECT [DISTINCT|ALL] items [FROM sources] [WHERE expr] [GROUP BY exprs] [HAVING expr] [WINDOW named-windows]`
#[cycle(tree)]
#[derive(Drop)]
pub struct SelectArm {
    pub select: Token,
    pub quantifier: Option<Token>,
    pub items: Commas<ResultItem<Expr>>,
    pub from: Option<After<Boxed<Sources>>>,
    pub filter: Option<After<Expr>>,
    pub group: Option<By<Expr>>,
    pub having: Option<After<Expr>>,
    pub windows: Option<After<Commas<NamedWindow<Expr>>>>,
}

impl Spelled for SelectArm {
    ghost use Rattle.sql_expr.specs.Tree.{select_arm_tokens};

    ghost spelled = { select_arm_tokens };

    #[cycle(flatten)]
    fn spell(&self, tokens: &mut Vec<Token>) -> Result<(), AllocError> {
        self.select.spell(tokens)?;
        self.quantifier.spell(tokens)?;
        self.items.spell(tokens)?;
        self.from.spell(tokens)?;
        self.filter.spell(tokens)?;
        self.group.spell(tokens)?;
        self.having.spell(tokens)?;
        self.windows.spell(tokens)
    }
}

/// `SELECT .. | VALUES rows`
#[cycle(tree)]
#[derive(Drop)]
pub enum Arm {
    /// `SELECT ..`
    Select(Boxed<SelectArm>),
    /// `VALUES rows`
    Values {
        values: Token,
        rows: Commas<ValuesRow<Expr>>,
    },
}

impl Spelled for Arm {
    ghost use Rattle.sql_expr.specs.Tree.{arm_tokens};

    ghost spelled = { arm_tokens };

    #[cycle(flatten)]
    fn spell(&self, tokens: &mut Vec<Token>) -> Result<(), AllocError> {
        match self {
            Arm::Select(part) => part.spell(tokens),
            Arm::Values { values, rows } => {
                values.spell(tokens)?;
                rows.spell(tokens)
            }
        }
    }
}

/// `compound arm`
#[cycle(tree)]
#[derive(Drop)]
pub struct CompoundArm {
    pub compound: Compound,
    pub arm: Arm,
}

impl Spelled for CompoundArm {
    ghost use Rattle.sql_expr.specs.Tree.{compound_arm_tokens};

    ghost spelled = { compound_arm_tokens };

    #[cycle(flatten)]
    fn spell(&self, tokens: &mut Vec<Token>) -> Result<(), AllocError> {
        self.compound.spell(tokens)?;
        self.arm.spell(tokens)
    }
}

/// `[WITH [RECURSIVE] ctes] arm {compound arm} [ORDER BY terms] [LIMIT expr [(OFFSET | ",") expr]]`
#[cycle(tree)]
#[derive(Drop)]
pub struct Select {
    pub with_clause: Option<Boxed<With<Select>>>,
    pub arm: Arm,
    pub compounds: Items<CompoundArm>,
    pub order: Option<By<Term<Expr>>>,
    pub limit: Option<Limit<Expr>>,
}

impl Spelled for Select {
    ghost use Rattle.sql_expr.specs.Tree.{select_tokens};

    ghost spelled = { select_tokens };

    #[cycle(flatten)]
    fn spell(&self, tokens: &mut Vec<Token>) -> Result<(), AllocError> {
        self.with_clause.spell(tokens)?;
        self.arm.spell(tokens)?;
        self.compounds.spell(tokens)?;
        self.order.spell(tokens)?;
        self.limit.spell(tokens)
    }
}

impl Select {
    ghost use Rattle.std.specs.Prelude.{◌≡◌, IfOk};
    ghost use Rattle.sql_expr.specs.Tree.{select_tokens};

    /// The tokens of the tree, in order.
    pub fn flatten(&self, alloc: Global) -> Result<Vec<Token>, AllocError>
        ensures { IfOk result (λ list. list.items ≡ select_tokens self.now) }
    {
        tokens_of(alloc, self)
    }
}
