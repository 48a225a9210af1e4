//! Literals, the operators between parts, and the words of actions.

use crate::lists::TokenPair;
use crate::spell_all;
use crate::spelled::Spelled;
use sql_token::Token;
use std::alloc::AllocError;

/// `number | string | blob | NULL | CURRENT_DATE | CURRENT_TIME | CURRENT_TIMESTAMP`
#[derive(Drop)]
pub enum Literal {
    /// `number`
    Number(Token),
    /// `string`
    Str(Token),
    /// `blob`
    Blob(Token),
    /// `NULL`
    Null(Token),
    /// `CURRENT_DATE`
    CurrentDate(Token),
    /// `CURRENT_TIME`
    CurrentTime(Token),
    /// `CURRENT_TIMESTAMP`
    CurrentTimestamp(Token),
}

impl Spelled for Literal {
    ghost use Rattle.sql_expr.specs.Tokens.{literal_tokens};

    ghost spelled = { literal_tokens };

    fn spell(&self, tokens: &mut Vec<Token>) -> Result<(), AllocError> {
        match self {
            Literal::Number(part) => part.spell(tokens),
            Literal::Str(part) => part.spell(tokens),
            Literal::Blob(part) => part.spell(tokens),
            Literal::Null(part) => part.spell(tokens),
            Literal::CurrentDate(part) => part.spell(tokens),
            Literal::CurrentTime(part) => part.spell(tokens),
            Literal::CurrentTimestamp(part) => part.spell(tokens),
        }
    }
}

/// `ROLLBACK | ABORT | FAIL`
#[derive(Drop)]
pub enum Action {
    /// `ROLLBACK`
    Rollback(Token),
    /// `ABORT`
    Abort(Token),
    /// `FAIL`
    Fail(Token),
}

impl Spelled for Action {
    ghost use Rattle.sql_expr.specs.Tokens.{action_tokens};

    ghost spelled = { action_tokens };

    fn spell(&self, tokens: &mut Vec<Token>) -> Result<(), AllocError> {
        match self {
            Action::Rollback(part) => part.spell(tokens),
            Action::Abort(part) => part.spell(tokens),
            Action::Fail(part) => part.spell(tokens),
        }
    }
}

/// An operator sign other than `~`, or `AND | OR | IS [NOT] [DISTINCT FROM] | ESCAPE | [NOT] (BETWEEN | LIKE | GLOB | REGEXP | MATCH)`.
#[derive(Drop)]
pub enum Infix {
    /// An operator sign other than `~`.
    Sign(Token),
    /// `AND`
    And(Token),
    /// `OR`
    Or(Token),
    /// `IS [NOT] [DISTINCT FROM]`
    Is {
        is: Token,
        not: Option<Token>,
        distinct_from: Option<TokenPair>,
    },
    /// `ESCAPE`
    Escape(Token),
    /// `[NOT] (BETWEEN | LIKE | GLOB | REGEXP | MATCH)`
    Compares {
        not: Option<Token>,
        word: Token,
    },
}

impl Spelled for Infix {
    ghost use Rattle.sql_expr.specs.Tokens.{infix_tokens};

    ghost spelled = { infix_tokens };

    fn spell(&self, tokens: &mut Vec<Token>) -> Result<(), AllocError> {
        match self {
            Infix::Sign(part) => part.spell(tokens),
            Infix::And(part) => part.spell(tokens),
            Infix::Or(part) => part.spell(tokens),
            Infix::Is {
                is,
                not,
                distinct_from,
            } => spell_all!(tokens; is, not, distinct_from),
            Infix::Escape(part) => part.spell(tokens),
            Infix::Compares { not, word } => spell_all!(tokens; not, word),
        }
    }
}
