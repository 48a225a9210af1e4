//! Parts of the statements of a trigger in which no expression and no select stands.

ghost use Rattle.std.specs.Prelude.{◌≡◌};
ghost use Rattle.sql_reader.specs.Cursor.{Finds, Gives};
ghost use Rattle.sql_reader.specs.Looks.{looks};
ghost use Rattle.sql_reader.specs.Sorts.{sort_of};
ghost use Rattle.table_reading.specs.Conflicts.{read_resolution};
ghost use Rattle.trigger_reading.specs.Statements.{read_insert_verb, read_opt_or, read_or_action, read_target, statement_starts};

use query_reading::{action, names};
use sql_reader::{Cursor, ReadError};
use sql_token::Keyword;
use sql_tree::{InsertVerb, OrAction, Resolution, Target};
use std::alloc::Global;

/// `action | IGNORE | REPLACE`
#[tactic(auto, unfolding(table_reading::specs::Conflicts::read_resolution))]
fn resolution(cursor: &mut Cursor<'_>) -> Result<Resolution, ReadError>
    ensures { Finds read_resolution result cursor.old cursor.new }
{
    if cursor.first().is_word(Keyword::Ignore) {
        return Ok(Resolution::Ignore(cursor.word(Keyword::Ignore)?));
    }
    if cursor.first().is_word(Keyword::Replace) {
        return Ok(Resolution::Replace(cursor.word(Keyword::Replace)?));
    }
    Ok(Resolution::Action(action(cursor)?))
}

/// `OR (action | IGNORE | REPLACE)`
#[tactic(auto, unfolding(crate::specs::Statements::read_or_action))]
fn or_action(cursor: &mut Cursor<'_>) -> Result<OrAction, ReadError>
    ensures { Finds read_or_action result cursor.old cursor.new }
{
    let or = cursor.word(Keyword::Or)?;
    let resolution = resolution(cursor)?;
    Ok(OrAction { or, resolution })
}

/// `[OR (action | IGNORE | REPLACE)]`
#[tactic(auto, unfolding(crate::specs::Statements::read_opt_or))]
pub fn opt_or(cursor: &mut Cursor<'_>) -> Result<Option<OrAction>, ReadError>
    ensures { Finds read_opt_or result cursor.old cursor.new }
{
    if cursor.first().is_word(Keyword::Or) {
        return Ok(Some(or_action(cursor)?));
    }
    Ok(None)
}

/// `INSERT [or] | REPLACE`
#[tactic(auto, unfolding(crate::specs::Statements::read_insert_verb))]
pub fn insert_verb(cursor: &mut Cursor<'_>) -> Result<InsertVerb, ReadError>
    ensures { Finds read_insert_verb result cursor.old cursor.new }
{
    if cursor.first().is_word(Keyword::Insert) {
        let insert = cursor.word(Keyword::Insert)?;
        let or = opt_or(cursor)?;
        return Ok(InsertVerb::Insert { insert, or });
    }
    Ok(InsertVerb::Replace(cursor.word(Keyword::Replace)?))
}

/// `name | "(" names ")"`, what SET sets.
#[tactic(auto, unfolding(crate::specs::Statements::read_target))]
pub fn target(alloc: Global, cursor: &mut Cursor<'_>) -> Result<Target, ReadError>
    ensures { Gives read_target result cursor.old cursor.new }
{
    if cursor.first().is_name() {
        return Ok(Target::Name(cursor.name()?));
    }
    Ok(Target::Names(names(alloc, cursor)?))
}

/// Whether the tokens that are left begin as a statement does.
pub fn starts_statement(cursor: &Cursor<'_>) -> bool
    ensures { result ≡ looks (sort_of cursor.now.text) statement_starts cursor.now.left }
{
    cursor.first().is_one_of(&[
        Keyword::With,
        Keyword::Select,
        Keyword::Values,
        Keyword::Update,
        Keyword::Insert,
        Keyword::Replace,
        Keyword::Delete,
    ])
}
