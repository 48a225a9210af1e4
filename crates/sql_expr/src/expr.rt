//! Expressions.

use crate::call::{Call, Case, Cast, Raise};
use crate::lists::{Commas, InParens};
use crate::names::{ColumnUse, Object};
use crate::operators::{Infix, Literal};
use crate::select::Select;
use crate::spelled::{Spelled, tokens_of};
use sql_token::Token;
use sqlite_items::{Boxed, Items};
use std::alloc::{AllocError, Global};

/// `part {infix part}`
#[cycle(tree)]
#[derive(Drop)]
pub struct Expr {
    pub first: Boxed<Part>,
    pub more: Items<InfixPart>,
}

impl Spelled for Expr {
    ghost use Rattle.sql_expr.specs.Tree.{expr_tokens};

    ghost spelled = { expr_tokens };

    #[cycle(flatten)]
    fn spell(&self, tokens: &mut Vec<Token>) -> Result<(), AllocError> {
        self.first.spell(tokens)?;
        self.more.spell(tokens)
    }
}

impl Expr {
    ghost use Rattle.std.specs.Prelude.{◌≡◌, IfOk};
    ghost use Rattle.sql_expr.specs.Tree.{expr_tokens};

    /// The tokens of the tree, in order.
    pub fn flatten(&self, alloc: Global) -> Result<Vec<Token>, AllocError>
        ensures { IfOk result (λ list. list.items ≡ expr_tokens self.now) }
    {
        tokens_of(alloc, self)
    }
}

/// `infix part`
#[cycle(tree)]
#[derive(Drop)]
pub struct InfixPart {
    pub operator: Infix,
    pub part: Part,
}

impl Spelled for InfixPart {
    ghost use Rattle.sql_expr.specs.Tree.{infix_part_tokens};

    ghost spelled = { infix_part_tokens };

    #[cycle(flatten)]
    fn spell(&self, tokens: &mut Vec<Token>) -> Result<(), AllocError> {
        self.operator.spell(tokens)?;
        self.part.spell(tokens)
    }
}

/// `{"-" | "+" | "~" | NOT} operand {postfix}`
#[cycle(tree)]
#[derive(Drop)]
pub struct Part {
    pub prefixes: Items<Token>,
    pub operand: Operand,
    pub postfixes: Items<Postfix>,
}

impl Spelled for Part {
    ghost use Rattle.sql_expr.specs.Tree.{part_tokens};

    ghost spelled = { part_tokens };

    #[cycle(flatten)]
    fn spell(&self, tokens: &mut Vec<Token>) -> Result<(), AllocError> {
        self.prefixes.spell(tokens)?;
        self.operand.spell(tokens)?;
        self.postfixes.spell(tokens)
    }
}

/// `COLLATE name | ISNULL | NOTNULL | NOT NULL | [NOT] IN set`
#[cycle(tree)]
#[derive(Drop)]
pub enum Postfix {
    /// `COLLATE name`
    Collate {
        collate: Token,
        name: Token,
    },
    /// `ISNULL`
    IsNull(Token),
    /// `NOTNULL`
    NotNull(Token),
    /// `NOT NULL`
    NotNullWords {
        not: Token,
        null: Token,
    },
    /// `[NOT] IN set`
    In {
        not: Option<Token>,
        in_word: Token,
        set: InSet,
    },
}

impl Spelled for Postfix {
    ghost use Rattle.sql_expr.specs.Tree.{postfix_tokens};

    ghost spelled = { postfix_tokens };

    #[cycle(flatten)]
    fn spell(&self, tokens: &mut Vec<Token>) -> Result<(), AllocError> {
        match self {
            Postfix::Collate { collate, name } => {
                collate.spell(tokens)?;
                name.spell(tokens)
            }
            Postfix::IsNull(part) => part.spell(tokens),
            Postfix::NotNull(part) => part.spell(tokens),
            Postfix::NotNullWords { not, null } => {
                not.spell(tokens)?;
                null.spell(tokens)
            }
            Postfix::In { not, in_word, set } => {
                not.spell(tokens)?;
                in_word.spell(tokens)?;
                set.spell(tokens)
            }
        }
    }
}

/// `"(" [exprs] ")" | "(" select ")" | object | name "(" [exprs] ")"`
#[cycle(tree)]
#[derive(Drop)]
pub enum InSet {
    /// `"(" [exprs] ")"`
    List(InParens<Option<Commas<Expr>>>),
    /// `"(" select ")"`
    Query(InParens<Boxed<Select>>),
    /// `object`
    Object(Object),
    /// `name "(" [exprs] ")"`
    Function {
        name: Token,
        arguments: InParens<Option<Commas<Expr>>>,
    },
}

impl Spelled for InSet {
    ghost use Rattle.sql_expr.specs.Tree.{in_set_tokens};

    ghost spelled = { in_set_tokens };

    #[cycle(flatten)]
    fn spell(&self, tokens: &mut Vec<Token>) -> Result<(), AllocError> {
        match self {
            InSet::List(part) => part.spell(tokens),
            InSet::Query(part) => part.spell(tokens),
            InSet::Object(part) => part.spell(tokens),
            InSet::Function { name, arguments } => {
                name.spell(tokens)?;
                arguments.spell(tokens)
            }
        }
    }
}

/// `literal | column-use | call | "(" exprs ")" | [EXISTS] "(" select ")" | CASE .. | CAST .. | RAISE ..`
#[cycle(tree)]
#[derive(Drop)]
pub enum Operand {
    /// `literal`
    Literal(Literal),
    /// `column-use`
    Column(ColumnUse),
    /// `call`
    Call(Boxed<Call<Expr>>),
    /// `"(" exprs ")"`
    Exprs(InParens<Commas<Expr>>),
    /// `[EXISTS] "(" select ")"`
    Subquery {
        exists: Option<Token>,
        select: InParens<Boxed<Select>>,
    },
    /// `CASE [expr] when {when} [ELSE expr] END`
    Case(Boxed<Case<Expr>>),
    /// `CAST "(" expr AS [type] ")"`
    Cast(Boxed<Cast<Expr>>),
    /// `RAISE "(" (IGNORE | action "," expr) ")"`
    Raise(Boxed<Raise<Expr>>),
}

impl Spelled for Operand {
    ghost use Rattle.sql_expr.specs.Tree.{operand_tokens};

    ghost spelled = { operand_tokens };

    #[cycle(flatten)]
    fn spell(&self, tokens: &mut Vec<Token>) -> Result<(), AllocError> {
        match self {
            Operand::Literal(part) => part.spell(tokens),
            Operand::Column(part) => part.spell(tokens),
            Operand::Call(part) => part.spell(tokens),
            Operand::Exprs(part) => part.spell(tokens),
            Operand::Subquery { exists, select } => {
                exists.spell(tokens)?;
                select.spell(tokens)
            }
            Operand::Case(part) => part.spell(tokens),
            Operand::Cast(part) => part.spell(tokens),
            Operand::Raise(part) => part.spell(tokens),
        }
    }
}
