//! The statements of a trigger.

ghost use Rattle.query_reading.specs.Selects.{read_opt_from};
ghost use Rattle.expr_parse.specs.Given.{GivesAt};
ghost use Rattle.trigger_reading.specs.Statements.{read_delete, read_statement, read_update};

use crate::assignments::{opt_after, sets};
use crate::inserts::insert;
use query_parse::{nested_select, nested_sources};
use query_reading::begins_select;
use sql_reader::{Cursor, ReadError};
use sql_token::Keyword;
use sql_tree::{After, Delete, Sources, Statement, Update};
use std::alloc::Global;
use trigger_reading::opt_or;

/// `[FROM sources]`
#[tactic(auto, unfolding(query_reading::specs::Selects::read_opt_from))]
fn opt_from(
    alloc: Global,
    cursor: &mut Cursor<'_>,
    levels: usize,
) -> Result<Option<After<Sources>>, ReadError>
    ensures { GivesAt levels read_opt_from result cursor.old cursor.new }
{
    if cursor.first().is_word(Keyword::From) {
        let word = cursor.word(Keyword::From)?;
        let part = nested_sources(alloc, cursor, levels)?.into_inner();
        return Ok(Some(After { word, part }));
    }
    Ok(None)
}

/// `UPDATE [or] name SET sets [FROM sources] [WHERE expr]` (SQLite's page lang_update.html)
#[tactic(auto, unfolding(trigger_reading::specs::Statements::read_update))]
fn update(alloc: Global, cursor: &mut Cursor<'_>, levels: usize) -> Result<Update, ReadError>
    ensures { GivesAt levels read_update result cursor.old cursor.new }
{
    let update = cursor.word(Keyword::Update)?;
    let or = opt_or(cursor)?;
    let name = cursor.name()?;
    let sets = sets(alloc, cursor, levels)?;
    let from = opt_from(alloc, cursor, levels)?;
    let filter = opt_after(alloc, cursor, levels, Keyword::Where)?;
    Ok(Update {
        update,
        or,
        name,
        sets,
        from,
        filter,
    })
}

/// `DELETE FROM name [WHERE expr]` (SQLite's page lang_delete.html)
#[tactic(auto, unfolding(trigger_reading::specs::Statements::read_delete))]
fn delete(alloc: Global, cursor: &mut Cursor<'_>, levels: usize) -> Result<Delete, ReadError>
    ensures { GivesAt levels read_delete result cursor.old cursor.new }
{
    let delete = cursor.word(Keyword::Delete)?;
    let from = cursor.word(Keyword::From)?;
    let name = cursor.name()?;
    let filter = opt_after(alloc, cursor, levels, Keyword::Where)?;
    Ok(Delete {
        delete,
        from,
        name,
        filter,
    })
}

/// `select | UPDATE .. | INSERT .. | DELETE ..`
#[tactic(auto, unfolding(trigger_reading::specs::Statements::read_statement))]
pub fn statement(
    alloc: Global,
    cursor: &mut Cursor<'_>,
    levels: usize,
) -> Result<Statement, ReadError>
    ensures { GivesAt levels read_statement result cursor.old cursor.new }
{
    let first = cursor.first();
    if begins_select(first) {
        return Ok(Statement::Select(nested_select(alloc, cursor, levels)?.into_inner()));
    }
    if first.is_word(Keyword::Update) {
        return Ok(Statement::Update(update(alloc, cursor, levels)?));
    }
    if first.is_word(Keyword::Insert) || first.is_word(Keyword::Replace) {
        return Ok(Statement::Insert(insert(alloc, cursor, levels)?));
    }
    Ok(Statement::Delete(delete(alloc, cursor, levels)?))
}
