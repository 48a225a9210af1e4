//! Names of objects, and lists of names.

ghost use Rattle.std.specs.Prelude.{◌≡◌};
ghost use Rattle.sql_reader.specs.Cursor.{Gives, Finds};
ghost use Rattle.query_reading.specs.Names.{read_alias, read_column_use, read_long_use, read_more_names, read_name_list, read_names, read_next_name, read_object, read_opt_alias, read_opt_names, read_qualifier, read_third_name};

use crate::leaves::{
    bare_alias, column_name, is_bare_alias, is_lone_column, operand_name, whole_name,
};
use sql_expr::{Alias, ColumnUse, Commas, InParens, NextItem, Object, TokenPair};
use sql_reader::{Cursor, Mark, ReadError};
use sql_token::{Keyword, Token};
use sqlite_items::Items;
use std::alloc::Global;

/// `[name "."] name`
#[tactic(auto, unfolding(crate::specs::Names::read_object))]
pub fn object(cursor: &mut Cursor<'_>) -> Result<Object, ReadError>
    ensures { Finds read_object result cursor.old cursor.new }
{
    let qualifier = qualifier(cursor)?;
    let name = whole_name(cursor)?;
    Ok(Object { qualifier, name })
}

/// `[name "."]`
#[tactic(auto, unfolding(crate::specs::Names::read_qualifier))]
fn qualifier(cursor: &mut Cursor<'_>) -> Result<Option<TokenPair>, ReadError>
    ensures { Finds read_qualifier result cursor.old cursor.new }
{
    if cursor.first().is_name() && cursor.second().is_sign(Mark::Dot) {
        let first = cursor.name()?;
        let second = cursor.sign(Mark::Dot)?;
        return Ok(Some(TokenPair { first, second }));
    }
    Ok(None)
}

/// `"(" names ")"`
#[tactic(auto, unfolding(crate::specs::Names::read_names))]
pub fn names(alloc: Global, cursor: &mut Cursor<'_>) -> Result<InParens<Commas<Token>>, ReadError>
    ensures { Gives read_names result cursor.old cursor.new }
{
    let opening = cursor.sign(Mark::Opening)?;
    let inner = name_list(alloc, cursor)?;
    let closing = cursor.sign(Mark::Closing)?;
    Ok(InParens {
        opening,
        inner,
        closing,
    })
}

/// `name {"," name}`
#[tactic(auto, unfolding(crate::specs::Names::read_name_list))]
fn name_list(alloc: Global, cursor: &mut Cursor<'_>) -> Result<Commas<Token>, ReadError>
    ensures { Gives read_name_list result cursor.old cursor.new }
{
    let first = cursor.name()?;
    let more = more_names(alloc, cursor)?;
    Ok(Commas { first, more })
}

/// `"," name`
#[tactic(auto, unfolding(crate::specs::Names::read_next_name))]
fn next_name(cursor: &mut Cursor<'_>) -> Result<NextItem<Token>, ReadError>
    ensures { Finds read_next_name result cursor.old cursor.new }
{
    let comma = cursor.sign(Mark::Comma)?;
    let item = cursor.name()?;
    Ok(NextItem { comma, item })
}

/// `{"," name}`
#[tactic(auto, unfolding(crate::specs::Names::read_more_names))]
fn more_names(alloc: Global, cursor: &mut Cursor<'_>) -> Result<Items<NextItem<Token>>, ReadError>
    ensures { Gives read_more_names result cursor.old cursor.new }
{
    let mut more = Items::new(alloc);
    while cursor.first().is_sign(Mark::Comma) {
        let next = next_name(cursor)?;
        more.push(next)?;
    }
    Ok(more)
}

/// `["(" names ")"]`
#[tactic(auto, unfolding(crate::specs::Names::read_opt_names))]
pub fn opt_names(
    alloc: Global,
    cursor: &mut Cursor<'_>,
) -> Result<Option<InParens<Commas<Token>>>, ReadError>
    ensures { Gives read_opt_names result cursor.old cursor.new }
{
    if cursor.first().is_sign(Mark::Opening) && cursor.second().is_name() {
        return Ok(Some(names(alloc, cursor)?));
    }
    Ok(None)
}

/// `[AS] alias`
#[tactic(auto, unfolding(crate::specs::Names::read_alias))]
fn alias(cursor: &mut Cursor<'_>) -> Result<Alias, ReadError>
    ensures { Finds read_alias result cursor.old cursor.new }
{
    if cursor.first().is_word(Keyword::As) {
        let as_word = cursor.word(Keyword::As)?;
        let name = cursor.name()?;
        return Ok(Alias {
            as_word: Some(as_word),
            name,
        });
    }
    let name = bare_alias(cursor)?;
    Ok(Alias {
        as_word: None,
        name,
    })
}

/// `[[AS] alias]`
#[tactic(auto, unfolding(crate::specs::Names::read_opt_alias))]
pub fn opt_alias(cursor: &mut Cursor<'_>) -> Result<Option<Alias>, ReadError>
    ensures { Finds read_opt_alias result cursor.old cursor.new }
{
    let first = cursor.first();
    if first.is_word(Keyword::As) || is_bare_alias(first) {
        return Ok(Some(alias(cursor)?));
    }
    Ok(None)
}

/// `["." name]`
#[tactic(auto, unfolding(crate::specs::Names::read_third_name))]
fn third_name(cursor: &mut Cursor<'_>) -> Result<Option<TokenPair>, ReadError>
    ensures { Finds read_third_name result cursor.old cursor.new }
{
    if cursor.first().is_sign(Mark::Dot) && cursor.second().is_name() {
        let first = cursor.sign(Mark::Dot)?;
        let second = cursor.name()?;
        return Ok(Some(TokenPair { first, second }));
    }
    Ok(None)
}

/// `name | name "." name | name "." name "." name`
#[tactic(auto, unfolding(crate::specs::Names::read_column_use))]
pub fn column_use(cursor: &mut Cursor<'_>) -> Result<ColumnUse, ReadError>
    ensures { Finds read_column_use result cursor.old cursor.new }
{
    if is_lone_column(cursor.first(), cursor.second()) {
        return Ok(ColumnUse::One(column_name(cursor)?));
    }
    long_use(cursor)
}

/// `name "." name | name "." name "." name`
#[tactic(auto, unfolding(crate::specs::Names::read_long_use))]
fn long_use(cursor: &mut Cursor<'_>) -> Result<ColumnUse, ReadError>
    ensures { Finds read_long_use result cursor.old cursor.new }
{
    let table = operand_name(cursor)?;
    let dot = cursor.sign(Mark::Dot)?;
    let column = cursor.name()?;
    match third_name(cursor)? {
        Some(third) => Ok(ColumnUse::Three {
            schema: table,
            first_dot: dot,
            table: column,
            second_dot: third.first,
            column: third.second,
        }),
        None => Ok(ColumnUse::Two { table, dot, column }),
    }
}
