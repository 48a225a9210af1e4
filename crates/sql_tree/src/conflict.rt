//! Conflict clauses, and the foreign keys of REFERENCES.

use sql_expr::{Action, Commas, InParens, Spelled, TokenPair, spell_all};
use sql_token::Token;
use sqlite_items::Items;
use std::alloc::AllocError;

/// `action | IGNORE | REPLACE`
#[derive(Drop)]
pub enum Resolution {
    /// `action`
    Action(Action),
    /// `IGNORE`
    Ignore(Token),
    /// `REPLACE`
    Replace(Token),
}

impl Spelled for Resolution {
    ghost use Rattle.sql_tree.specs.Tokens.{resolution_tokens};

    ghost spelled = { resolution_tokens };

    fn spell(&self, tokens: &mut Vec<Token>) -> Result<(), AllocError> {
        match self {
            Resolution::Action(part) => part.spell(tokens),
            Resolution::Ignore(part) => part.spell(tokens),
            Resolution::Replace(part) => part.spell(tokens),
        }
    }
}

/// `ON CONFLICT (action | IGNORE | REPLACE)`
#[derive(Drop)]
pub struct Conflict {
    pub on: Token,
    pub conflict: Token,
    pub resolution: Resolution,
}

impl Spelled for Conflict {
    ghost use Rattle.sql_tree.specs.Tokens.{conflict_tokens};

    ghost spelled = { conflict_tokens };

    fn spell(&self, tokens: &mut Vec<Token>) -> Result<(), AllocError> {
        spell_all!(tokens; self.on, self.conflict, self.resolution)
    }
}

/// `OR (action | IGNORE | REPLACE)`
#[derive(Drop)]
pub struct OrAction {
    pub or: Token,
    pub resolution: Resolution,
}

impl Spelled for OrAction {
    ghost use Rattle.sql_tree.specs.Tokens.{or_action_tokens};

    ghost spelled = { or_action_tokens };

    fn spell(&self, tokens: &mut Vec<Token>) -> Result<(), AllocError> {
        spell_all!(tokens; self.or, self.resolution)
    }
}

/// `SET NULL | SET DEFAULT | CASCADE | RESTRICT | NO ACTION`
#[derive(Drop)]
pub enum ReferenceAction {
    /// `SET NULL`
    SetNull(TokenPair),
    /// `SET DEFAULT`
    SetDefault(TokenPair),
    /// `CASCADE`
    Cascade(Token),
    /// `RESTRICT`
    Restrict(Token),
    /// `NO ACTION`
    NoAction(TokenPair),
}

impl Spelled for ReferenceAction {
    ghost use Rattle.sql_tree.specs.Tokens.{reference_action_tokens};

    ghost spelled = { reference_action_tokens };

    fn spell(&self, tokens: &mut Vec<Token>) -> Result<(), AllocError> {
        match self {
            ReferenceAction::SetNull(part) => part.spell(tokens),
            ReferenceAction::SetDefault(part) => part.spell(tokens),
            ReferenceAction::Cascade(part) => part.spell(tokens),
            ReferenceAction::Restrict(part) => part.spell(tokens),
            ReferenceAction::NoAction(part) => part.spell(tokens),
        }
    }
}

/// `ON (DELETE|UPDATE) reference-action | MATCH name`
#[derive(Drop)]
pub enum ReferenceClause {
    /// `ON (DELETE|UPDATE) reference-action`
    On {
        on: Token,
        event: Token,
        action: ReferenceAction,
    },
    /// `MATCH name`
    Match {
        matches: Token,
        name: Token,
    },
}

impl Spelled for ReferenceClause {
    ghost use Rattle.sql_tree.specs.Tokens.{reference_clause_tokens};

    ghost spelled = { reference_clause_tokens };

    fn spell(&self, tokens: &mut Vec<Token>) -> Result<(), AllocError> {
        match self {
            ReferenceClause::On { on, event, action } => spell_all!(tokens; on, event, action),
            ReferenceClause::Match { matches, name } => spell_all!(tokens; matches, name),
        }
    }
}

/// `[NOT] DEFERRABLE [INITIALLY (DEFERRED|IMMEDIATE)]`
#[derive(Drop)]
pub struct Deferral {
    pub not: Option<Token>,
    pub deferrable: Token,
    pub initially: Option<TokenPair>,
}

impl Spelled for Deferral {
    ghost use Rattle.sql_tree.specs.Tokens.{deferral_tokens};

    ghost spelled = { deferral_tokens };

    fn spell(&self, tokens: &mut Vec<Token>) -> Result<(), AllocError> {
        spell_all!(tokens; self.not, self.deferrable, self.initially)
    }
}

/// `REFERENCES name ["(" names ")"] {reference-clause} [deferral]`
#[derive(Drop)]
pub struct References {
    pub references: Token,
    pub table: Token,
    pub columns: Option<InParens<Commas<Token>>>,
    pub clauses: Items<ReferenceClause>,
    pub deferral: Option<Deferral>,
}

impl Spelled for References {
    ghost use Rattle.sql_tree.specs.Tokens.{references_tokens};

    ghost spelled = { references_tokens };

    fn spell(&self, tokens: &mut Vec<Token>) -> Result<(), AllocError> {
        spell_all!(tokens; self.references, self.table, self.columns, self.clauses, self.deferral)
    }
}
