//! Parts that many rules have: words in a row, parentheses, lists with commas.

use crate::spell_all;
use crate::spelled::Spelled;
use sql_token::Token;
use sqlite_items::Items;
use std::alloc::AllocError;

/// Two fixed words, or a name and a dot.
#[derive(Drop)]
pub struct TokenPair {
    pub first: Token,
    pub second: Token,
}

impl Spelled for TokenPair {
    ghost use Rattle.sql_expr.specs.Tokens.{token_pair_tokens};

    ghost spelled = { token_pair_tokens };

    fn spell(&self, tokens: &mut Vec<Token>) -> Result<(), AllocError> {
        spell_all!(tokens; self.first, self.second)
    }
}

/// A fixed word, or a sign, and what stands behind it: `WORD part`.
#[derive(Drop)]
pub struct After<T> {
    pub word: Token,
    pub part: T,
}

impl<T: Spelled> Spelled for After<T> {
    ghost use Rattle.sql_expr.specs.Tokens.{after_tokens};

    ghost spelled = { after_tokens T.spelled };

    fn spell(&self, tokens: &mut Vec<Token>) -> Result<(), AllocError> {
        spell_all!(tokens; self.word, self.part)
    }
}

/// `"(" inner ")"`
#[derive(Drop)]
pub struct InParens<T> {
    pub opening: Token,
    pub inner: T,
    pub closing: Token,
}

impl<T: Spelled> Spelled for InParens<T> {
    ghost use Rattle.sql_expr.specs.Tokens.{in_parens_tokens};

    ghost spelled = { in_parens_tokens T.spelled };

    fn spell(&self, tokens: &mut Vec<Token>) -> Result<(), AllocError> {
        spell_all!(tokens; self.opening, self.inner, self.closing)
    }
}

/// `"," item`
#[derive(Drop)]
pub struct NextItem<T> {
    pub comma: Token,
    pub item: T,
}

impl<T: Spelled> Spelled for NextItem<T> {
    ghost use Rattle.sql_expr.specs.Tokens.{next_item_tokens};

    ghost spelled = { next_item_tokens T.spelled };

    fn spell(&self, tokens: &mut Vec<Token>) -> Result<(), AllocError> {
        spell_all!(tokens; self.comma, self.item)
    }
}

/// A list with commas: `item {"," item}`.
#[derive(Drop)]
pub struct Commas<T> {
    pub first: T,
    pub more: Items<NextItem<T>>,
}

impl<T: Spelled> Spelled for Commas<T> {
    ghost use Rattle.sql_expr.specs.Tokens.{commas_tokens};

    ghost spelled = { commas_tokens T.spelled };

    fn spell(&self, tokens: &mut Vec<Token>) -> Result<(), AllocError> {
        spell_all!(tokens; self.first, self.more)
    }
}

/// A word, BY and a list: `(ORDER | GROUP | PARTITION) BY items`.
#[derive(Drop)]
pub struct By<T> {
    pub word: Token,
    pub by: Token,
    pub items: Commas<T>,
}

impl<T: Spelled> Spelled for By<T> {
    ghost use Rattle.sql_expr.specs.Tokens.{by_tokens};

    ghost spelled = { by_tokens T.spelled };

    fn spell(&self, tokens: &mut Vec<Token>) -> Result<(), AllocError> {
        spell_all!(tokens; self.word, self.by, self.items)
    }
}
