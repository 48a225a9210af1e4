//! Names of objects, aliases and types.

use crate::lists::{InParens, NextItem, TokenPair};
use crate::spell_all;
use crate::spelled::Spelled;
use sql_token::Token;
use sqlite_items::Items;
use std::alloc::AllocError;

/// `[name "."] name`
#[derive(Drop)]
pub struct Object {
    pub qualifier: Option<TokenPair>,
    pub name: Token,
}

impl Spelled for Object {
    ghost use Rattle.sql_expr.specs.Tokens.{object_tokens};

    ghost spelled = { object_tokens };

    fn spell(&self, tokens: &mut Vec<Token>) -> Result<(), AllocError> {
        spell_all!(tokens; self.qualifier, self.name)
    }
}

/// `[AS] alias`
#[derive(Drop)]
pub struct Alias {
    pub as_word: Option<Token>,
    pub name: Token,
}

impl Spelled for Alias {
    ghost use Rattle.sql_expr.specs.Tokens.{alias_tokens};

    ghost spelled = { alias_tokens };

    fn spell(&self, tokens: &mut Vec<Token>) -> Result<(), AllocError> {
        spell_all!(tokens; self.as_word, self.name)
    }
}

/// `name | name "." name | name "." name "." name`
#[derive(Drop)]
pub enum ColumnUse {
    /// `name`
    One(Token),
    /// `name "." name`
    Two {
        table: Token,
        dot: Token,
        column: Token,
    },
    /// `name "." name "." name`
    Three {
        schema: Token,
        first_dot: Token,
        table: Token,
        second_dot: Token,
        column: Token,
    },
}

impl Spelled for ColumnUse {
    ghost use Rattle.sql_expr.specs.Tokens.{column_use_tokens};

    ghost spelled = { column_use_tokens };

    fn spell(&self, tokens: &mut Vec<Token>) -> Result<(), AllocError> {
        match self {
            ColumnUse::One(part) => part.spell(tokens),
            ColumnUse::Two { table, dot, column } => spell_all!(tokens; table, dot, column),
            ColumnUse::Three {
                schema,
                first_dot,
                table,
                second_dot,
                column,
            } => spell_all!(tokens; schema, first_dot, table, second_dot, column),
        }
    }
}

/// `["+"|"-"] number`
#[derive(Drop)]
pub struct Signed {
    pub sign: Option<Token>,
    pub number: Token,
}

impl Spelled for Signed {
    ghost use Rattle.sql_expr.specs.Tokens.{signed_tokens};

    ghost spelled = { signed_tokens };

    fn spell(&self, tokens: &mut Vec<Token>) -> Result<(), AllocError> {
        spell_all!(tokens; self.sign, self.number)
    }
}

/// What stands in a type's parentheses: `signed ["," signed]`.
#[derive(Drop)]
pub struct TypeSize {
    pub first: Signed,
    pub second: Option<NextItem<Signed>>,
}

impl Spelled for TypeSize {
    ghost use Rattle.sql_expr.specs.Tokens.{type_size_tokens};

    ghost spelled = { type_size_tokens };

    fn spell(&self, tokens: &mut Vec<Token>) -> Result<(), AllocError> {
        spell_all!(tokens; self.first, self.second)
    }
}

/// `type-name {type-name} ["(" signed ["," signed] ")"]`
#[derive(Drop)]
pub struct ColumnType {
    pub first: Token,
    pub more: Items<Token>,
    pub size: Option<InParens<TypeSize>>,
}

impl Spelled for ColumnType {
    ghost use Rattle.sql_expr.specs.Tokens.{column_type_tokens};

    ghost spelled = { column_type_tokens };

    fn spell(&self, tokens: &mut Vec<Token>) -> Result<(), AllocError> {
        spell_all!(tokens; self.first, self.more, self.size)
    }
}
