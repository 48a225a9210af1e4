//! Windows, and the terms of ORDER BY.

use crate::lists::{After, By, TokenPair};
use crate::spell_all;
use crate::spelled::Spelled;
use sql_token::Token;
use sqlite_items::Boxed;
use std::alloc::AllocError;

/// `expr [ASC|DESC] [NULLS (FIRST|LAST)]`
#[derive(Drop)]
pub struct Term<E> {
    pub expr: E,
    pub direction: Option<Token>,
    pub nulls: Option<TokenPair>,
}

impl<E: Spelled> Spelled for Term<E> {
    ghost use Rattle.sql_expr.specs.Tokens.{term_tokens};

    ghost spelled = { term_tokens E.spelled };

    fn spell(&self, tokens: &mut Vec<Token>) -> Result<(), AllocError> {
        spell_all!(tokens; self.expr, self.direction, self.nulls)
    }
}

/// `UNBOUNDED (PRECEDING|FOLLOWING) | CURRENT ROW | expr (PRECEDING|FOLLOWING)`
#[derive(Drop)]
pub enum Bound<E> {
    /// `UNBOUNDED (PRECEDING|FOLLOWING)`
    Unbounded { unbounded: Token, way: Token },
    /// `CURRENT ROW`
    CurrentRow { current: Token, row: Token },
    /// `expr (PRECEDING|FOLLOWING)`
    Expr { expr: E, way: Token },
}

impl<E: Spelled> Spelled for Bound<E> {
    ghost use Rattle.sql_expr.specs.Tokens.{bound_tokens};

    ghost spelled = { bound_tokens E.spelled };

    fn spell(&self, tokens: &mut Vec<Token>) -> Result<(), AllocError> {
        match self {
            Bound::Unbounded { unbounded, way } => spell_all!(tokens; unbounded, way),
            Bound::CurrentRow { current, row } => spell_all!(tokens; current, row),
            Bound::Expr { expr, way } => spell_all!(tokens; expr, way),
        }
    }
}

/// `bound | BETWEEN bound AND bound`
#[derive(Drop)]
pub enum FrameExtent<E> {
    /// `bound`
    From(Bound<E>),
    /// `BETWEEN bound AND bound`
    Between {
        between: Token,
        start: Bound<E>,
        and: Token,
        end: Bound<E>,
    },
}

impl<E: Spelled> Spelled for FrameExtent<E> {
    ghost use Rattle.sql_expr.specs.Tokens.{frame_extent_tokens};

    ghost spelled = { frame_extent_tokens E.spelled };

    fn spell(&self, tokens: &mut Vec<Token>) -> Result<(), AllocError> {
        match self {
            FrameExtent::From(part) => part.spell(tokens),
            FrameExtent::Between {
                between,
                start,
                and,
                end,
            } => spell_all!(tokens; between, start, and, end),
        }
    }
}

/// `NO OTHERS | CURRENT ROW | GROUP | TIES`
#[derive(Drop)]
pub enum Excluded {
    /// `NO OTHERS`
    NoOthers { no: Token, others: Token },
    /// `CURRENT ROW`
    CurrentRow { current: Token, row: Token },
    /// `GROUP`
    Group(Token),
    /// `TIES`
    Ties(Token),
}

impl Spelled for Excluded {
    ghost use Rattle.sql_expr.specs.Tokens.{excluded_tokens};

    ghost spelled = { excluded_tokens };

    fn spell(&self, tokens: &mut Vec<Token>) -> Result<(), AllocError> {
        match self {
            Excluded::NoOthers { no, others } => spell_all!(tokens; no, others),
            Excluded::CurrentRow { current, row } => spell_all!(tokens; current, row),
            Excluded::Group(part) => part.spell(tokens),
            Excluded::Ties(part) => part.spell(tokens),
        }
    }
}

/// `(RANGE|ROWS|GROUPS) extent [EXCLUDE excluded]`
#[derive(Drop)]
pub struct Frame<E> {
    pub unit: Token,
    pub extent: FrameExtent<E>,
    pub exclude: Option<After<Excluded>>,
}

impl<E: Spelled> Spelled for Frame<E> {
    ghost use Rattle.sql_expr.specs.Tokens.{frame_tokens};

    ghost spelled = { frame_tokens E.spelled };

    fn spell(&self, tokens: &mut Vec<Token>) -> Result<(), AllocError> {
        spell_all!(tokens; self.unit, self.extent, self.exclude)
    }
}

/// `"(" [name] [PARTITION BY exprs] [ORDER BY terms] [frame] ")"`
#[derive(Drop)]
pub struct Window<E> {
    pub opening: Token,
    pub base: Option<Token>,
    pub partition: Option<By<E>>,
    pub order: Option<By<Term<E>>>,
    pub frame: Option<Frame<E>>,
    pub closing: Token,
}

impl<E: Spelled> Spelled for Window<E> {
    ghost use Rattle.sql_expr.specs.Tokens.{window_tokens};

    ghost spelled = { window_tokens E.spelled };

    fn spell(&self, tokens: &mut Vec<Token>) -> Result<(), AllocError> {
        spell_all!(
            tokens; self.opening, self.base, self.partition, self.order, self.frame, self.closing
        )
    }
}

/// `name AS window`
#[derive(Drop)]
pub struct NamedWindow<E> {
    pub name: Token,
    pub as_word: Token,
    pub window: Boxed<Window<E>>,
}

impl<E: Spelled> Spelled for NamedWindow<E> {
    ghost use Rattle.sql_expr.specs.Tokens.{named_window_tokens};

    ghost spelled = { named_window_tokens E.spelled };

    fn spell(&self, tokens: &mut Vec<Token>) -> Result<(), AllocError> {
        spell_all!(tokens; self.name, self.as_word, self.window)
    }
}
