//! Upserts.

ghost use Rattle.expr_parse.specs.Given.{GivesAt};
ghost use Rattle.trigger_reading.specs.Statements.{read_more_plain_indexeds, read_next_plain_indexed, read_opt_upsert_target, read_plain_indexed, read_plain_indexeds, read_plain_parens, read_upsert, read_upsert_action, read_upsert_target, read_upsert_update, read_upserts};

use crate::assignments::{opt_after, sets};
use query_parse::nested_expr;
use query_reading::optional_of;
use sql_reader::{Cursor, Mark, ReadError};
use sql_token::Keyword;
use sql_tree::{Commas, InParens, Indexed, NextItem, Upsert, UpsertAction, UpsertTarget};
use sqlite_items::Items;
use std::alloc::Global;

/// `expr [ASC|DESC]`, where one Str alone is a text.
#[tactic(auto, unfolding(trigger_reading::specs::Statements::read_plain_indexed))]
fn plain_indexed(
    alloc: Global,
    cursor: &mut Cursor<'_>,
    levels: usize,
) -> Result<Indexed, ReadError>
    ensures { GivesAt levels read_plain_indexed result cursor.old cursor.new }
{
    let expr = nested_expr(alloc, cursor, levels)?;
    let direction = optional_of(cursor, &[Keyword::Asc, Keyword::Desc])?;
    Ok(Indexed { expr, direction })
}

/// `"," indexed`
#[tactic(auto, unfolding(trigger_reading::specs::Statements::read_next_plain_indexed))]
fn next_plain_indexed(
    alloc: Global,
    cursor: &mut Cursor<'_>,
    levels: usize,
) -> Result<NextItem<Indexed>, ReadError>
    ensures { GivesAt levels read_next_plain_indexed result cursor.old cursor.new }
{
    let comma = cursor.sign(Mark::Comma)?;
    let item = plain_indexed(alloc, cursor, levels)?;
    Ok(NextItem { comma, item })
}

/// `{"," indexed}`
#[tactic(auto, unfolding(trigger_reading::specs::Statements::read_more_plain_indexeds))]
fn more_plain_indexeds(
    alloc: Global,
    cursor: &mut Cursor<'_>,
    levels: usize,
) -> Result<Items<NextItem<Indexed>>, ReadError>
    ensures { GivesAt levels read_more_plain_indexeds result cursor.old cursor.new }
{
    let mut more = Items::new(alloc);
    while cursor.first().is_sign(Mark::Comma) {
        let next = next_plain_indexed(alloc, cursor, levels)?;
        more.push(next)?;
    }
    Ok(more)
}

/// `indexed {"," indexed}`
#[tactic(auto, unfolding(trigger_reading::specs::Statements::read_plain_indexeds))]
fn plain_indexeds(
    alloc: Global,
    cursor: &mut Cursor<'_>,
    levels: usize,
) -> Result<Commas<Indexed>, ReadError>
    ensures { GivesAt levels read_plain_indexeds result cursor.old cursor.new }
{
    let first = plain_indexed(alloc, cursor, levels)?;
    let more = more_plain_indexeds(alloc, cursor, levels)?;
    Ok(Commas { first, more })
}

/// `"(" indexeds ")"`
#[tactic(auto, unfolding(trigger_reading::specs::Statements::read_plain_parens))]
fn plain_parens(
    alloc: Global,
    cursor: &mut Cursor<'_>,
    levels: usize,
) -> Result<InParens<Commas<Indexed>>, ReadError>
    ensures { GivesAt levels read_plain_parens result cursor.old cursor.new }
{
    let opening = cursor.sign(Mark::Opening)?;
    let inner = plain_indexeds(alloc, cursor, levels)?;
    let closing = cursor.sign(Mark::Closing)?;
    Ok(InParens {
        opening,
        inner,
        closing,
    })
}

/// `"(" indexeds ")" [WHERE expr]`
#[tactic(auto, unfolding(trigger_reading::specs::Statements::read_upsert_target))]
fn upsert_target(
    alloc: Global,
    cursor: &mut Cursor<'_>,
    levels: usize,
) -> Result<UpsertTarget, ReadError>
    ensures { GivesAt levels read_upsert_target result cursor.old cursor.new }
{
    let indexeds = plain_parens(alloc, cursor, levels)?;
    let filter = opt_after(alloc, cursor, levels, Keyword::Where)?;
    Ok(UpsertTarget { indexeds, filter })
}

/// `["(" indexeds ")" [WHERE expr]]`
#[tactic(auto, unfolding(trigger_reading::specs::Statements::read_opt_upsert_target))]
fn opt_upsert_target(
    alloc: Global,
    cursor: &mut Cursor<'_>,
    levels: usize,
) -> Result<Option<UpsertTarget>, ReadError>
    ensures { GivesAt levels read_opt_upsert_target result cursor.old cursor.new }
{
    if cursor.first().is_sign(Mark::Opening) {
        return Ok(Some(upsert_target(alloc, cursor, levels)?));
    }
    Ok(None)
}

/// `UPDATE SET sets [WHERE expr]`
#[tactic(auto, unfolding(trigger_reading::specs::Statements::read_upsert_update))]
fn upsert_update(
    alloc: Global,
    cursor: &mut Cursor<'_>,
    levels: usize,
) -> Result<UpsertAction, ReadError>
    ensures { GivesAt levels read_upsert_update result cursor.old cursor.new }
{
    let update = cursor.word(Keyword::Update)?;
    let sets = sets(alloc, cursor, levels)?;
    let filter = opt_after(alloc, cursor, levels, Keyword::Where)?;
    Ok(UpsertAction::Update {
        update,
        sets,
        filter,
    })
}

/// `NOTHING | UPDATE SET sets [WHERE expr]`
#[tactic(auto, unfolding(trigger_reading::specs::Statements::read_upsert_action))]
fn upsert_action(
    alloc: Global,
    cursor: &mut Cursor<'_>,
    levels: usize,
) -> Result<UpsertAction, ReadError>
    ensures { GivesAt levels read_upsert_action result cursor.old cursor.new }
{
    if cursor.first().is_word(Keyword::Nothing) {
        return Ok(UpsertAction::Nothing(cursor.word(Keyword::Nothing)?));
    }
    upsert_update(alloc, cursor, levels)
}

/// `ON CONFLICT ["(" indexeds ")" [WHERE expr]] DO (NOTHING | UPDATE SET sets [WHERE expr])` (SQLite's page
/// lang_upsert.html).
#[tactic(auto, unfolding(trigger_reading::specs::Statements::read_upsert))]
fn upsert(alloc: Global, cursor: &mut Cursor<'_>, levels: usize) -> Result<Upsert, ReadError>
    ensures { GivesAt levels read_upsert result cursor.old cursor.new }
{
    let on = cursor.word(Keyword::On)?;
    let conflict = cursor.word(Keyword::Conflict)?;
    let target = opt_upsert_target(alloc, cursor, levels)?;
    let do_word = cursor.word(Keyword::Do)?;
    let action = upsert_action(alloc, cursor, levels)?;
    Ok(Upsert {
        on,
        conflict,
        target,
        do_word,
        action,
    })
}

/// `{upsert}`
#[tactic(auto, unfolding(trigger_reading::specs::Statements::read_upserts))]
pub fn upserts(
    alloc: Global,
    cursor: &mut Cursor<'_>,
    levels: usize,
) -> Result<Items<Upsert>, ReadError>
    ensures { GivesAt levels read_upserts result cursor.old cursor.new }
{
    let mut upserts = Items::new(alloc);
    while cursor.first().is_word(Keyword::On) {
        let next = upsert(alloc, cursor, levels)?;
        upserts.push(next)?;
    }
    Ok(upserts)
}
