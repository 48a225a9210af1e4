//! Triggers.

use crate::statement::Statement;
use crate::table::IfNotExists;
use sql_expr::{After, Commas, Expr, Object, Spelled, TokenPair, spell_all, tokens_of};
use sql_token::Token;
use sqlite_items::Items;
use std::alloc::{AllocError, Global};

/// `BEFORE | AFTER | INSTEAD OF`
#[derive(Drop)]
pub enum TriggerTime {
    /// `BEFORE`
    Before(Token),
    /// `AFTER`
    After(Token),
    /// `INSTEAD OF`
    InsteadOf(TokenPair),
}

impl Spelled for TriggerTime {
    ghost use Rattle.sql_tree.specs.Tokens.{trigger_time_tokens};

    ghost spelled = { trigger_time_tokens };

    fn spell(&self, tokens: &mut Vec<Token>) -> Result<(), AllocError> {
        match self {
            TriggerTime::Before(part) => part.spell(tokens),
            TriggerTime::After(part) => part.spell(tokens),
            TriggerTime::InsteadOf(part) => part.spell(tokens),
        }
    }
}

/// `DELETE | INSERT | UPDATE [OF names]`
#[derive(Drop)]
pub enum TriggerEvent {
    /// `DELETE`
    Delete(Token),
    /// `INSERT`
    Insert(Token),
    /// `UPDATE [OF names]`
    Update {
        update: Token,
        columns: Option<After<Commas<Token>>>,
    },
}

impl Spelled for TriggerEvent {
    ghost use Rattle.sql_tree.specs.Tokens.{trigger_event_tokens};

    ghost spelled = { trigger_event_tokens };

    fn spell(&self, tokens: &mut Vec<Token>) -> Result<(), AllocError> {
        match self {
            TriggerEvent::Delete(part) => part.spell(tokens),
            TriggerEvent::Insert(part) => part.spell(tokens),
            TriggerEvent::Update { update, columns } => spell_all!(tokens; update, columns),
        }
    }
}

/// `FOR EACH ROW`
#[derive(Drop)]
pub struct ForEachRow {
    pub for_word: Token,
    pub each: Token,
    pub row: Token,
}

impl Spelled for ForEachRow {
    ghost use Rattle.sql_tree.specs.Tokens.{for_each_row_tokens};

    ghost spelled = { for_each_row_tokens };

    fn spell(&self, tokens: &mut Vec<Token>) -> Result<(), AllocError> {
        spell_all!(tokens; self.for_word, self.each, self.row)
    }
}

/// `[BEFORE|AFTER|INSTEAD OF] event ON object [FOR EACH ROW] [WHEN expr]`
#[derive(Drop)]
pub struct TriggerHead {
    pub time: Option<TriggerTime>,
    pub event: TriggerEvent,
    pub on: Token,
    pub object: Object,
    pub for_each_row: Option<ForEachRow>,
    pub condition: Option<After<Expr>>,
}

impl Spelled for TriggerHead {
    ghost use Rattle.sql_tree.specs.Tokens.{trigger_head_tokens};

    ghost spelled = { trigger_head_tokens };

    fn spell(&self, tokens: &mut Vec<Token>) -> Result<(), AllocError> {
        spell_all!(
            tokens; self.time, self.event, self.on, self.object, self.for_each_row, self.condition
        )
    }
}

/// `statement ";"`
#[derive(Drop)]
pub struct EndedStatement {
    pub statement: Statement,
    pub semicolon: Token,
}

impl Spelled for EndedStatement {
    ghost use Rattle.sql_tree.specs.Tokens.{ended_statement_tokens};

    ghost spelled = { ended_statement_tokens };

    fn spell(&self, tokens: &mut Vec<Token>) -> Result<(), AllocError> {
        spell_all!(tokens; self.statement, self.semicolon)
    }
}

/// `CREATE TRIGGER [IF NOT EXISTS] name [BEFORE|AFTER|INSTEAD OF] event ON object [FOR EACH ROW] [WHEN expr]`,
/// `BEGIN statement ";" {statement ";"} END`
#[derive(Drop)]
pub struct CreateTrigger {
    pub create: Token,
    pub trigger: Token,
    pub if_not_exists: Option<IfNotExists>,
    pub name: Token,
    pub head: TriggerHead,
    pub begin: Token,
    pub first: EndedStatement,
    pub more: Items<EndedStatement>,
    pub end: Token,
}

impl Spelled for CreateTrigger {
    ghost use Rattle.sql_tree.specs.Tokens.{create_trigger_tokens};

    ghost spelled = { create_trigger_tokens };

    fn spell(&self, tokens: &mut Vec<Token>) -> Result<(), AllocError> {
        spell_all!(
            tokens; self.create, self.trigger, self.if_not_exists, self.name, self.head, self.begin,
            self.first, self.more, self.end
        )
    }
}

impl CreateTrigger {
    ghost use Rattle.std.specs.Prelude.{◌≡◌, IfOk};
    ghost use Rattle.sql_tree.specs.Tokens.{create_trigger_tokens};

    /// The tokens of the tree, in order.
    pub fn flatten(&self, alloc: Global) -> Result<Vec<Token>, AllocError>
        ensures { IfOk result (λ list. list.items ≡ create_trigger_tokens self.now) }
    {
        tokens_of(alloc, self)
    }
}
