//! Calls of functions, CASE, CAST and RAISE.

use crate::lists::{After, By, Commas, InParens, NextItem};
use crate::names::ColumnType;
use crate::operators::Action;
use crate::spell_all;
use crate::spelled::Spelled;
use crate::window::{Term, Window};
use sql_token::Token;
use sqlite_items::{Boxed, Items};
use std::alloc::AllocError;

/// `"*" | [DISTINCT] exprs [ORDER BY terms]`
#[derive(Drop)]
pub enum CallArguments<E> {
    /// `"*"`
    Star(Token),
    /// `[DISTINCT] exprs [ORDER BY terms]`
    Exprs {
        distinct: Option<Token>,
        exprs: Commas<E>,
        order: Option<By<Term<E>>>,
    },
}

impl<E: Spelled> Spelled for CallArguments<E> {
    ghost use Rattle.sql_expr.specs.Tokens.{call_arguments_tokens};

    ghost spelled = { call_arguments_tokens E.spelled };

    fn spell(&self, tokens: &mut Vec<Token>) -> Result<(), AllocError> {
        match self {
            CallArguments::Star(part) => part.spell(tokens),
            CallArguments::Exprs {
                distinct,
                exprs,
                order,
            } => spell_all!(tokens; distinct, exprs, order),
        }
    }
}

/// `OVER (name | window)`
#[derive(Drop)]
pub enum Over<E> {
    /// `OVER name`
    Name {
        over: Token,
        name: Token,
    },
    /// `OVER window`
    Window {
        over: Token,
        window: Boxed<Window<E>>,
    },
}

impl<E: Spelled> Spelled for Over<E> {
    ghost use Rattle.sql_expr.specs.Tokens.{over_tokens};

    ghost spelled = { over_tokens E.spelled };

    fn spell(&self, tokens: &mut Vec<Token>) -> Result<(), AllocError> {
        match self {
            Over::Name { over, name } => spell_all!(tokens; over, name),
            Over::Window { over, window } => spell_all!(tokens; over, window),
        }
    }
}

/// `name "(" [arguments] ")" [FILTER "(" WHERE expr ")"] [OVER (name | window)]`
#[derive(Drop)]
pub struct Call<E> {
    pub name: Token,
    pub arguments: InParens<Option<CallArguments<E>>>,
    pub filter: Option<After<InParens<After<E>>>>,
    pub over: Option<Over<E>>,
}

impl<E: Spelled> Spelled for Call<E> {
    ghost use Rattle.sql_expr.specs.Tokens.{call_tokens};

    ghost spelled = { call_tokens E.spelled };

    fn spell(&self, tokens: &mut Vec<Token>) -> Result<(), AllocError> {
        spell_all!(tokens; self.name, self.arguments, self.filter, self.over)
    }
}

/// `WHEN expr THEN expr`
#[derive(Drop)]
pub struct When<E> {
    pub when: Token,
    pub condition: E,
    pub then_word: Token,
    pub result: E,
}

impl<E: Spelled> Spelled for When<E> {
    ghost use Rattle.sql_expr.specs.Tokens.{when_tokens};

    ghost spelled = { when_tokens E.spelled };

    fn spell(&self, tokens: &mut Vec<Token>) -> Result<(), AllocError> {
        spell_all!(tokens; self.when, self.condition, self.then_word, self.result)
    }
}

/// `CASE [expr] when {when} [ELSE expr] END`
#[derive(Drop)]
pub struct Case<E> {
    pub case: Token,
    pub subject: Option<E>,
    pub first: When<E>,
    pub more: Items<When<E>>,
    pub otherwise: Option<After<E>>,
    pub end: Token,
}

impl<E: Spelled> Spelled for Case<E> {
    ghost use Rattle.sql_expr.specs.Tokens.{case_tokens};

    ghost spelled = { case_tokens E.spelled };

    fn spell(&self, tokens: &mut Vec<Token>) -> Result<(), AllocError> {
        spell_all!(tokens; self.case, self.subject, self.first, self.more, self.otherwise, self.end)
    }
}

/// `CAST "(" expr AS [type] ")"`
#[derive(Drop)]
pub struct Cast<E> {
    pub cast: Token,
    pub opening: Token,
    pub expr: E,
    pub as_word: Token,
    pub column_type: Option<ColumnType>,
    pub closing: Token,
}

impl<E: Spelled> Spelled for Cast<E> {
    ghost use Rattle.sql_expr.specs.Tokens.{cast_tokens};

    ghost spelled = { cast_tokens E.spelled };

    fn spell(&self, tokens: &mut Vec<Token>) -> Result<(), AllocError> {
        spell_all!(
            tokens; self.cast, self.opening, self.expr, self.as_word, self.column_type,
            self.closing
        )
    }
}

/// `IGNORE | action "," expr`
#[derive(Drop)]
pub enum RaiseAction<E> {
    /// `IGNORE`
    Ignore(Token),
    /// `action "," expr`
    Action {
        action: Action,
        message: NextItem<E>,
    },
}

impl<E: Spelled> Spelled for RaiseAction<E> {
    ghost use Rattle.sql_expr.specs.Tokens.{raise_action_tokens};

    ghost spelled = { raise_action_tokens E.spelled };

    fn spell(&self, tokens: &mut Vec<Token>) -> Result<(), AllocError> {
        match self {
            RaiseAction::Ignore(part) => part.spell(tokens),
            RaiseAction::Action { action, message } => spell_all!(tokens; action, message),
        }
    }
}

/// `RAISE "(" (IGNORE | action "," expr) ")"`
#[derive(Drop)]
pub struct Raise<E> {
    pub raise: Token,
    pub action: InParens<RaiseAction<E>>,
}

impl<E: Spelled> Spelled for Raise<E> {
    ghost use Rattle.sql_expr.specs.Tokens.{raise_tokens};

    ghost spelled = { raise_tokens E.spelled };

    fn spell(&self, tokens: &mut Vec<Token>) -> Result<(), AllocError> {
        spell_all!(tokens; self.raise, self.action)
    }
}
