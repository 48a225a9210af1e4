//! The statements of a trigger.

use crate::conflict::OrAction;
use crate::table::Indexed;
use sql_expr::{After, Commas, Expr, InParens, Select, Sources, Spelled, spell_all};
use sql_token::Token;
use sqlite_items::Items;
use std::alloc::AllocError;

/// `name | "(" names ")"`
#[derive(Drop)]
pub enum Target {
    /// `name`
    Name(Token),
    /// `"(" names ")"`
    Names(InParens<Commas<Token>>),
}

impl Spelled for Target {
    ghost use Rattle.sql_tree.specs.Tokens.{target_tokens};

    ghost spelled = { target_tokens };

    fn spell(&self, tokens: &mut Vec<Token>) -> Result<(), AllocError> {
        match self {
            Target::Name(part) => part.spell(tokens),
            Target::Names(part) => part.spell(tokens),
        }
    }
}

/// `(name | "(" names ")") "=" expr`
#[derive(Drop)]
pub struct Assignment {
    pub target: Target,
    pub equals: Token,
    pub value: Expr,
}

impl Spelled for Assignment {
    ghost use Rattle.sql_tree.specs.Tokens.{assignment_tokens};

    ghost spelled = { assignment_tokens };

    fn spell(&self, tokens: &mut Vec<Token>) -> Result<(), AllocError> {
        spell_all!(tokens; self.target, self.equals, self.value)
    }
}

/// `SET sets`
#[derive(Drop)]
pub struct Sets {
    pub set: Token,
    pub assignments: Commas<Assignment>,
}

impl Spelled for Sets {
    ghost use Rattle.sql_tree.specs.Tokens.{sets_tokens};

    ghost spelled = { sets_tokens };

    fn spell(&self, tokens: &mut Vec<Token>) -> Result<(), AllocError> {
        spell_all!(tokens; self.set, self.assignments)
    }
}

/// `"(" indexeds ")" [WHERE expr]`
#[derive(Drop)]
pub struct UpsertTarget {
    pub indexeds: InParens<Commas<Indexed>>,
    pub filter: Option<After<Expr>>,
}

impl Spelled for UpsertTarget {
    ghost use Rattle.sql_tree.specs.Tokens.{upsert_target_tokens};

    ghost spelled = { upsert_target_tokens };

    fn spell(&self, tokens: &mut Vec<Token>) -> Result<(), AllocError> {
        spell_all!(tokens; self.indexeds, self.filter)
    }
}

/// `NOTHING | UPDATE SET sets [WHERE expr]`
#[derive(Drop)]
pub enum UpsertAction {
    /// `NOTHING`
    Nothing(Token),
    /// `UPDATE SET sets [WHERE expr]`
    Update {
        update: Token,
        sets: Sets,
        filter: Option<After<Expr>>,
    },
}

impl Spelled for UpsertAction {
    ghost use Rattle.sql_tree.specs.Tokens.{upsert_action_tokens};

    ghost spelled = { upsert_action_tokens };

    fn spell(&self, tokens: &mut Vec<Token>) -> Result<(), AllocError> {
        match self {
            UpsertAction::Nothing(part) => part.spell(tokens),
            UpsertAction::Update {
                update,
                sets,
                filter,
            } => spell_all!(tokens; update, sets, filter),
        }
    }
}

/// `ON CONFLICT ["(" indexeds ")" [WHERE expr]] DO (NOTHING | UPDATE SET sets [WHERE expr])`
#[derive(Drop)]
pub struct Upsert {
    pub on: Token,
    pub conflict: Token,
    pub target: Option<UpsertTarget>,
    pub do_word: Token,
    pub action: UpsertAction,
}

impl Spelled for Upsert {
    ghost use Rattle.sql_tree.specs.Tokens.{upsert_tokens};

    ghost spelled = { upsert_tokens };

    fn spell(&self, tokens: &mut Vec<Token>) -> Result<(), AllocError> {
        spell_all!(tokens; self.on, self.conflict, self.target, self.do_word, self.action)
    }
}

/// `INSERT [or] | REPLACE`
#[derive(Drop)]
pub enum InsertVerb {
    /// `INSERT [or]`
    Insert { insert: Token, or: Option<OrAction> },
    /// `REPLACE`
    Replace(Token),
}

impl Spelled for InsertVerb {
    ghost use Rattle.sql_tree.specs.Tokens.{insert_verb_tokens};

    ghost spelled = { insert_verb_tokens };

    fn spell(&self, tokens: &mut Vec<Token>) -> Result<(), AllocError> {
        match self {
            InsertVerb::Insert { insert, or } => spell_all!(tokens; insert, or),
            InsertVerb::Replace(part) => part.spell(tokens),
        }
    }
}

/// `UPDATE [or] name SET sets [FROM sources] [WHERE expr]`
#[derive(Drop)]
pub struct Update {
    pub update: Token,
    pub or: Option<OrAction>,
    pub name: Token,
    pub sets: Sets,
    pub from: Option<After<Sources>>,
    pub filter: Option<After<Expr>>,
}

impl Spelled for Update {
    ghost use Rattle.sql_tree.specs.Tokens.{update_tokens};

    ghost spelled = { update_tokens };

    fn spell(&self, tokens: &mut Vec<Token>) -> Result<(), AllocError> {
        spell_all!(tokens; self.update, self.or, self.name, self.sets, self.from, self.filter)
    }
}

/// `(INSERT [or] | REPLACE) INTO name ["(" names ")"] select {upsert}`
#[derive(Drop)]
pub struct Insert {
    pub verb: InsertVerb,
    pub into: Token,
    pub name: Token,
    pub columns: Option<InParens<Commas<Token>>>,
    pub select: Select,
    pub upserts: Items<Upsert>,
}

impl Spelled for Insert {
    ghost use Rattle.sql_tree.specs.Tokens.{insert_tokens};

    ghost spelled = { insert_tokens };

    fn spell(&self, tokens: &mut Vec<Token>) -> Result<(), AllocError> {
        spell_all!(tokens; self.verb, self.into, self.name, self.columns, self.select, self.upserts)
    }
}

/// `DELETE FROM name [WHERE expr]`
#[derive(Drop)]
pub struct Delete {
    pub delete: Token,
    pub from: Token,
    pub name: Token,
    pub filter: Option<After<Expr>>,
}

impl Spelled for Delete {
    ghost use Rattle.sql_tree.specs.Tokens.{delete_tokens};

    ghost spelled = { delete_tokens };

    fn spell(&self, tokens: &mut Vec<Token>) -> Result<(), AllocError> {
        spell_all!(tokens; self.delete, self.from, self.name, self.filter)
    }
}

/// `select | UPDATE .. | INSERT .. | DELETE ..`
#[derive(Drop)]
pub enum Statement {
    /// `select`
    Select(Select),
    /// `UPDATE ..`
    Update(Update),
    /// `INSERT ..` or `REPLACE ..`
    Insert(Insert),
    /// `DELETE ..`
    Delete(Delete),
}

impl Spelled for Statement {
    ghost use Rattle.sql_tree.specs.Tokens.{statement_tokens};

    ghost spelled = { statement_tokens };

    fn spell(&self, tokens: &mut Vec<Token>) -> Result<(), AllocError> {
        match self {
            Statement::Select(part) => part.spell(tokens),
            Statement::Update(part) => part.spell(tokens),
            Statement::Insert(part) => part.spell(tokens),
            Statement::Delete(part) => part.spell(tokens),
        }
    }
}
