//! INSERT and REPLACE.

ghost use Rattle.expr_parse.specs.Given.{GivesAt};
ghost use Rattle.trigger_reading.specs.Statements.{read_insert, read_insert_source};

use crate::upserts::upserts;
use query_parse::nested_select;
use query_reading::opt_names;
use sql_reader::{Cursor, ReadError};
use sql_token::Keyword;
use sql_tree::{Insert, Select, Upsert};
use sqlite_items::Items;
use std::alloc::Global;
use trigger_reading::insert_verb;

/// `select {upsert}`, where ON directly behind a joined source begins its constraint.
#[tactic(auto, unfolding(trigger_reading::specs::Statements::read_insert_source))]
fn insert_source(
    alloc: Global,
    cursor: &mut Cursor<'_>,
    levels: usize,
) -> Result<(Select, Items<Upsert>), ReadError>
    ensures { GivesAt levels read_insert_source result cursor.old cursor.new }
{
    let select = nested_select(alloc, cursor, levels)?.into_inner();
    let upserts = upserts(alloc, cursor, levels)?;
    Ok((select, upserts))
}

/// `(INSERT [or] | REPLACE) INTO name ["(" names ")"] select {upsert}` (SQLite's page lang_insert.html)
#[tactic(auto, unfolding(trigger_reading::specs::Statements::read_insert))]
pub fn insert(alloc: Global, cursor: &mut Cursor<'_>, levels: usize) -> Result<Insert, ReadError>
    ensures { GivesAt levels read_insert result cursor.old cursor.new }
{
    let verb = insert_verb(cursor)?;
    let into = cursor.word(Keyword::Into)?;
    let name = cursor.name()?;
    let columns = opt_names(alloc, cursor)?;
    let (select, upserts) = insert_source(alloc, cursor, levels)?;
    Ok(Insert {
        verb,
        into,
        name,
        columns,
        select,
        upserts,
    })
}
