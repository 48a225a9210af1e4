//! Parts of the head of a trigger: when it runs, on which event, and for which rows.

ghost use Rattle.std.specs.Prelude.{◌≡◌};
ghost use Rattle.query_reading.specs.Names.{read_more_names, read_name_list, read_next_name};
ghost use Rattle.sql_reader.specs.Cursor.{Finds, Gives};
ghost use Rattle.trigger_reading.specs.Triggers.{read_event, read_for_each_row, read_opt_for_each_row, read_opt_of_names, read_opt_time, read_time};

use sql_expr::{After, Commas, NextItem, TokenPair};
use sql_reader::{Cursor, Mark, ReadError};
use sql_token::{Keyword, Token};
use sql_tree::{ForEachRow, TriggerEvent, TriggerTime};
use sqlite_items::Items;
use std::alloc::Global;

/// `BEFORE | AFTER | INSTEAD OF`
#[tactic(auto, unfolding(crate::specs::Triggers::read_time))]
fn time(cursor: &mut Cursor<'_>) -> Result<TriggerTime, ReadError>
    ensures { Finds read_time result cursor.old cursor.new }
{
    if cursor.first().is_word(Keyword::Before) {
        return Ok(TriggerTime::Before(cursor.word(Keyword::Before)?));
    }
    if cursor.first().is_word(Keyword::After) {
        return Ok(TriggerTime::After(cursor.word(Keyword::After)?));
    }
    let first = cursor.word(Keyword::Instead)?;
    let second = cursor.word(Keyword::Of)?;
    Ok(TriggerTime::InsteadOf(TokenPair { first, second }))
}

/// `[BEFORE|AFTER|INSTEAD OF]`
#[tactic(auto, unfolding(crate::specs::Triggers::read_opt_time))]
pub fn opt_time(cursor: &mut Cursor<'_>) -> Result<Option<TriggerTime>, ReadError>
    ensures { Finds read_opt_time result cursor.old cursor.new }
{
    let first = cursor.first();
    if first.is_word(Keyword::Before)
        || first.is_word(Keyword::After)
        || first.is_word(Keyword::Instead) && cursor.second().is_word(Keyword::Of)
    {
        return Ok(Some(time(cursor)?));
    }
    Ok(None)
}

/// `"," name`
#[tactic(auto, unfolding(query_reading::specs::Names::read_next_name))]
fn next_name(cursor: &mut Cursor<'_>) -> Result<NextItem<Token>, ReadError>
    ensures { Finds read_next_name result cursor.old cursor.new }
{
    let comma = cursor.sign(Mark::Comma)?;
    let item = cursor.name()?;
    Ok(NextItem { comma, item })
}

/// `{"," name}`
#[tactic(auto, unfolding(query_reading::specs::Names::read_more_names))]
fn more_names(alloc: Global, cursor: &mut Cursor<'_>) -> Result<Items<NextItem<Token>>, ReadError>
    ensures { Gives read_more_names result cursor.old cursor.new }
{
    let mut more = Items::new(alloc);
    while cursor.first().is_sign(Mark::Comma) {
        let next = next_name(cursor)?;
        more.push(next)?;
    }
    Ok(more)
}

/// `name {"," name}`
#[tactic(auto, unfolding(query_reading::specs::Names::read_name_list))]
fn name_list(alloc: Global, cursor: &mut Cursor<'_>) -> Result<Commas<Token>, ReadError>
    ensures { Gives read_name_list result cursor.old cursor.new }
{
    let first = cursor.name()?;
    let more = more_names(alloc, cursor)?;
    Ok(Commas { first, more })
}

/// `[OF names]`
#[tactic(auto, unfolding(crate::specs::Triggers::read_opt_of_names))]
fn opt_of_names(
    alloc: Global,
    cursor: &mut Cursor<'_>,
) -> Result<Option<After<Commas<Token>>>, ReadError>
    ensures { Gives read_opt_of_names result cursor.old cursor.new }
{
    if cursor.first().is_word(Keyword::Of) {
        let word = cursor.word(Keyword::Of)?;
        let part = name_list(alloc, cursor)?;
        return Ok(Some(After { word, part }));
    }
    Ok(None)
}

/// `DELETE | INSERT | UPDATE [OF names]`
#[tactic(auto, unfolding(crate::specs::Triggers::read_event))]
pub fn event(alloc: Global, cursor: &mut Cursor<'_>) -> Result<TriggerEvent, ReadError>
    ensures { Gives read_event result cursor.old cursor.new }
{
    if cursor.first().is_word(Keyword::Delete) {
        return Ok(TriggerEvent::Delete(cursor.word(Keyword::Delete)?));
    }
    if cursor.first().is_word(Keyword::Insert) {
        return Ok(TriggerEvent::Insert(cursor.word(Keyword::Insert)?));
    }
    let update = cursor.word(Keyword::Update)?;
    let columns = opt_of_names(alloc, cursor)?;
    Ok(TriggerEvent::Update { update, columns })
}

/// `FOR EACH ROW`
#[tactic(auto, unfolding(crate::specs::Triggers::read_for_each_row))]
fn for_each_row(cursor: &mut Cursor<'_>) -> Result<ForEachRow, ReadError>
    ensures { Finds read_for_each_row result cursor.old cursor.new }
{
    let for_word = cursor.word(Keyword::For)?;
    let each = cursor.word(Keyword::Each)?;
    let row = cursor.word(Keyword::Row)?;
    Ok(ForEachRow {
        for_word,
        each,
        row,
    })
}

/// `[FOR EACH ROW]`
#[tactic(auto, unfolding(crate::specs::Triggers::read_opt_for_each_row))]
pub fn opt_for_each_row(cursor: &mut Cursor<'_>) -> Result<Option<ForEachRow>, ReadError>
    ensures { Finds read_opt_for_each_row result cursor.old cursor.new }
{
    if cursor.first().is_word(Keyword::For) {
        return Ok(Some(for_each_row(cursor)?));
    }
    Ok(None)
}
