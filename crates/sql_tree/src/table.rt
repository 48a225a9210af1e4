//! Tables: columns, constraints and options.

use crate::conflict::{Conflict, References};
use sql_expr::{
    ColumnType, Commas, Expr, InParens, Literal, Spelled, TokenPair, spell_all, tokens_of,
};
use sql_token::Token;
use sqlite_items::Items;
use std::alloc::{AllocError, Global};

/// `WITHOUT ROWID | STRICT`
#[derive(Drop)]
pub enum TableOption {
    /// `WITHOUT ROWID`
    WithoutRowid { without: Token, rowid: Token },
    /// `STRICT`
    Strict(Token),
}

impl Spelled for TableOption {
    ghost use Rattle.sql_tree.specs.Tokens.{table_option_tokens};

    ghost spelled = { table_option_tokens };

    fn spell(&self, tokens: &mut Vec<Token>) -> Result<(), AllocError> {
        match self {
            TableOption::WithoutRowid { without, rowid } => spell_all!(tokens; without, rowid),
            TableOption::Strict(part) => part.spell(tokens),
        }
    }
}

/// `["+"|"-"] literal | name | "(" expr ")"`
#[derive(Drop)]
pub enum DefaultValue {
    /// `["+"|"-"] literal`
    Literal {
        sign: Option<Token>,
        literal: Literal,
    },
    /// `name`
    Name(Token),
    /// `"(" expr ")"`
    Expr(InParens<Expr>),
}

impl Spelled for DefaultValue {
    ghost use Rattle.sql_tree.specs.Tokens.{default_value_tokens};

    ghost spelled = { default_value_tokens };

    fn spell(&self, tokens: &mut Vec<Token>) -> Result<(), AllocError> {
        match self {
            DefaultValue::Literal { sign, literal } => spell_all!(tokens; sign, literal),
            DefaultValue::Name(part) => part.spell(tokens),
            DefaultValue::Expr(part) => part.spell(tokens),
        }
    }
}

/// `expr [ASC|DESC]`
#[derive(Drop)]
pub struct Indexed {
    pub expr: Expr,
    pub direction: Option<Token>,
}

impl Spelled for Indexed {
    ghost use Rattle.sql_tree.specs.Tokens.{indexed_tokens};

    ghost spelled = { indexed_tokens };

    fn spell(&self, tokens: &mut Vec<Token>) -> Result<(), AllocError> {
        spell_all!(tokens; self.expr, self.direction)
    }
}

/// A constraint of a column.
#[derive(Drop)]
pub enum ColumnCons {
    /// `CONSTRAINT name`
    Constraint {
        constraint: Token,
        name: Token,
    },
    /// `PRIMARY KEY [ASC|DESC] [conflict] [AUTOINCREMENT]`
    PrimaryKey {
        primary: Token,
        key: Token,
        direction: Option<Token>,
        conflict: Option<Conflict>,
        autoincrement: Option<Token>,
    },
    /// `[NOT] NULL [conflict]`
    Null {
        not: Option<Token>,
        null: Token,
        conflict: Option<Conflict>,
    },
    /// `UNIQUE [conflict]`
    Unique {
        unique: Token,
        conflict: Option<Conflict>,
    },
    /// `CHECK "(" expr ")"`
    Check {
        check: Token,
        expr: InParens<Expr>,
    },
    /// `DEFAULT default`
    Default {
        default: Token,
        value: DefaultValue,
    },
    /// `COLLATE name`
    Collate {
        collate: Token,
        name: Token,
    },
    /// `references`
    References(References),
    /// `[GENERATED ALWAYS] AS "(" expr ")" [STORED|VIRTUAL]`
    Generated {
        generated: Option<TokenPair>,
        as_word: Token,
        expr: InParens<Expr>,
        storage: Option<Token>,
    },
}

impl Spelled for ColumnCons {
    ghost use Rattle.sql_tree.specs.Tokens.{column_cons_tokens};

    ghost spelled = { column_cons_tokens };

    fn spell(&self, tokens: &mut Vec<Token>) -> Result<(), AllocError> {
        match self {
            ColumnCons::Constraint { constraint, name } => spell_all!(tokens; constraint, name),
            ColumnCons::PrimaryKey {
                primary,
                key,
                direction,
                conflict,
                autoincrement,
            } => spell_all!(tokens; primary, key, direction, conflict, autoincrement),
            ColumnCons::Null {
                not,
                null,
                conflict,
            } => spell_all!(tokens; not, null, conflict),
            ColumnCons::Unique { unique, conflict } => spell_all!(tokens; unique, conflict),
            ColumnCons::Check { check, expr } => spell_all!(tokens; check, expr),
            ColumnCons::Default { default, value } => spell_all!(tokens; default, value),
            ColumnCons::Collate { collate, name } => spell_all!(tokens; collate, name),
            ColumnCons::References(part) => part.spell(tokens),
            ColumnCons::Generated {
                generated,
                as_word,
                expr,
                storage,
            } => spell_all!(tokens; generated, as_word, expr, storage),
        }
    }
}

/// `name [type] {column-cons}`
#[derive(Drop)]
pub struct Column {
    pub name: Token,
    pub column_type: Option<ColumnType>,
    pub constraints: Items<ColumnCons>,
}

impl Spelled for Column {
    ghost use Rattle.sql_tree.specs.Tokens.{column_tokens};

    ghost spelled = { column_tokens };

    fn spell(&self, tokens: &mut Vec<Token>) -> Result<(), AllocError> {
        spell_all!(tokens; self.name, self.column_type, self.constraints)
    }
}

impl Column {
    ghost use Rattle.std.specs.Prelude.{◌≡◌, IfOk};
    ghost use Rattle.sql_tree.specs.Tokens.{column_tokens};

    /// The tokens of the tree, in order.
    pub fn flatten(&self, alloc: Global) -> Result<Vec<Token>, AllocError>
        ensures { IfOk result (λ list. list.items ≡ column_tokens self.now) }
    {
        tokens_of(alloc, self)
    }
}

/// A constraint of a table.
#[derive(Drop)]
pub enum TableCons {
    /// `CONSTRAINT name`
    Constraint {
        constraint: Token,
        name: Token,
    },
    /// `PRIMARY KEY "(" indexeds [AUTOINCREMENT] ")" [conflict]`
    PrimaryKey {
        primary: Token,
        key: Token,
        opening: Token,
        indexeds: Commas<Indexed>,
        autoincrement: Option<Token>,
        closing: Token,
        conflict: Option<Conflict>,
    },
    /// `UNIQUE "(" indexeds ")" [conflict]`
    Unique {
        unique: Token,
        indexeds: InParens<Commas<Indexed>>,
        conflict: Option<Conflict>,
    },
    /// `CHECK "(" expr ")" [conflict]`
    Check {
        check: Token,
        expr: InParens<Expr>,
        conflict: Option<Conflict>,
    },
    /// `FOREIGN KEY "(" names ")" references`
    ForeignKey {
        foreign: Token,
        key: Token,
        names: InParens<Commas<Token>>,
        references: References,
    },
}

impl Spelled for TableCons {
    ghost use Rattle.sql_tree.specs.Tokens.{table_cons_tokens};

    ghost spelled = { table_cons_tokens };

    fn spell(&self, tokens: &mut Vec<Token>) -> Result<(), AllocError> {
        match self {
            TableCons::Constraint { constraint, name } => spell_all!(tokens; constraint, name),
            TableCons::PrimaryKey {
                primary,
                key,
                opening,
                indexeds,
                autoincrement,
                closing,
                conflict,
            } => spell_all!(
                tokens; primary, key, opening, indexeds, autoincrement, closing, conflict
            ),
            TableCons::Unique {
                unique,
                indexeds,
                conflict,
            } => spell_all!(tokens; unique, indexeds, conflict),
            TableCons::Check {
                check,
                expr,
                conflict,
            } => spell_all!(tokens; check, expr, conflict),
            TableCons::ForeignKey {
                foreign,
                key,
                names,
                references,
            } => spell_all!(tokens; foreign, key, names, references),
        }
    }
}

/// `[","] table-cons`
#[derive(Drop)]
pub struct NextTableCons {
    pub comma: Option<Token>,
    pub constraint: TableCons,
}

impl Spelled for NextTableCons {
    ghost use Rattle.sql_tree.specs.Tokens.{next_table_cons_tokens};

    ghost spelled = { next_table_cons_tokens };

    fn spell(&self, tokens: &mut Vec<Token>) -> Result<(), AllocError> {
        spell_all!(tokens; self.comma, self.constraint)
    }
}

/// `"," table-cons {[","] table-cons}`
#[derive(Drop)]
pub struct TableConstraints {
    pub comma: Token,
    pub first: TableCons,
    pub more: Items<NextTableCons>,
}

impl Spelled for TableConstraints {
    ghost use Rattle.sql_tree.specs.Tokens.{table_constraints_tokens};

    ghost spelled = { table_constraints_tokens };

    fn spell(&self, tokens: &mut Vec<Token>) -> Result<(), AllocError> {
        spell_all!(tokens; self.comma, self.first, self.more)
    }
}

/// `columns ["," table-cons {[","] table-cons}]`
#[derive(Drop)]
pub struct TableBody {
    pub columns: Commas<Column>,
    pub constraints: Option<TableConstraints>,
}

impl Spelled for TableBody {
    ghost use Rattle.sql_tree.specs.Tokens.{table_body_tokens};

    ghost spelled = { table_body_tokens };

    fn spell(&self, tokens: &mut Vec<Token>) -> Result<(), AllocError> {
        spell_all!(tokens; self.columns, self.constraints)
    }
}

/// `IF NOT EXISTS`
#[derive(Drop)]
pub struct IfNotExists {
    pub if_word: Token,
    pub not: Token,
    pub exists: Token,
}

impl Spelled for IfNotExists {
    ghost use Rattle.sql_tree.specs.Tokens.{if_not_exists_tokens};

    ghost spelled = { if_not_exists_tokens };

    fn spell(&self, tokens: &mut Vec<Token>) -> Result<(), AllocError> {
        spell_all!(tokens; self.if_word, self.not, self.exists)
    }
}

/// `CREATE TABLE [IF NOT EXISTS] name "(" columns ["," table-cons {[","] table-cons}] ")" [options]`
#[derive(Drop)]
pub struct CreateTable {
    pub create: Token,
    pub table: Token,
    pub if_not_exists: Option<IfNotExists>,
    pub name: Token,
    pub body: InParens<TableBody>,
    pub options: Option<Commas<TableOption>>,
}

impl Spelled for CreateTable {
    ghost use Rattle.sql_tree.specs.Tokens.{create_table_tokens};

    ghost spelled = { create_table_tokens };

    fn spell(&self, tokens: &mut Vec<Token>) -> Result<(), AllocError> {
        spell_all!(
            tokens; self.create, self.table, self.if_not_exists, self.name, self.body, self.options
        )
    }
}

impl CreateTable {
    ghost use Rattle.std.specs.Prelude.{◌≡◌, IfOk};
    ghost use Rattle.sql_tree.specs.Tokens.{create_table_tokens};

    /// The tokens of the tree, in order.
    pub fn flatten(&self, alloc: Global) -> Result<Vec<Token>, AllocError>
        ensures { IfOk result (λ list. list.items ≡ create_table_tokens self.now) }
    {
        tokens_of(alloc, self)
    }
}
