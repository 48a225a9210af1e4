//! WITH and the selects that it names.

ghost use Rattle.expr_parse.specs.Given.{GivesAt};
ghost use Rattle.query_reading.specs.Selects.{read_cte, read_ctes, read_more_ctes, read_next_cte, read_opt_with, read_plain_ctes, read_with, read_with_recursive};

use crate::joins::opt_materialized;
use expr_parse::{Trees, query};
use query_reading::opt_names;
use sql_expr::{Commas, Cte, NextItem, Select, With};
use sql_reader::{Cursor, Mark, ReadError};
use sql_token::Keyword;
use sqlite_items::{Boxed, Items};
use std::alloc::Global;

/// `[WITH [RECURSIVE] ctes]`
#[tactic(auto, unfolding(query_reading::specs::Selects::read_opt_with))]
pub fn opt_with<T: Trees>(
    trees: &T,
    alloc: Global,
    cursor: &mut Cursor<'_>,
) -> Result<Option<Boxed<With<Select>>>, ReadError>
    requires ready { T.ready trees.now }
    ensures { GivesAt (T.left trees.now) read_opt_with result cursor.old cursor.new }
{
    if cursor.first().is_word(Keyword::With) {
        return Ok(Some(with(trees, alloc, cursor)?));
    }
    Ok(None)
}

/// `WITH RECURSIVE ctes | WITH ctes`
#[tactic(auto, unfolding(query_reading::specs::Selects::read_with))]
fn with<T: Trees>(
    trees: &T,
    alloc: Global,
    cursor: &mut Cursor<'_>,
) -> Result<Boxed<With<Select>>, ReadError>
    requires ready { T.ready trees.now }
    ensures { GivesAt (T.left trees.now) read_with result cursor.old cursor.new }
{
    if cursor.first().is_word(Keyword::With) && cursor.second().is_word(Keyword::Recursive) {
        return with_recursive(trees, alloc, cursor);
    }
    let with_word = cursor.word(Keyword::With)?;
    let ctes = plain_ctes(trees, alloc, cursor)?;
    let with = With {
        with_word,
        recursive: None,
        ctes,
    };
    Ok(Boxed::new(alloc, with)?)
}

/// `WITH RECURSIVE ctes`
#[tactic(auto, unfolding(query_reading::specs::Selects::read_with_recursive))]
fn with_recursive<T: Trees>(
    trees: &T,
    alloc: Global,
    cursor: &mut Cursor<'_>,
) -> Result<Boxed<With<Select>>, ReadError>
    requires ready { T.ready trees.now }
    ensures { GivesAt (T.left trees.now) read_with_recursive result cursor.old cursor.new }
{
    let with_word = cursor.word(Keyword::With)?;
    let recursive = cursor.word(Keyword::Recursive)?;
    let ctes = ctes(trees, alloc, cursor)?;
    let with = With {
        with_word,
        recursive: Some(recursive),
        ctes,
    };
    Ok(Boxed::new(alloc, with)?)
}

/// `ctes`, of which the first name is no RECURSIVE.
#[tactic(auto, unfolding(query_reading::specs::Selects::read_plain_ctes))]
fn plain_ctes<T: Trees>(
    trees: &T,
    alloc: Global,
    cursor: &mut Cursor<'_>,
) -> Result<Commas<Cte<Select>>, ReadError>
    requires ready { T.ready trees.now }
    ensures { GivesAt (T.left trees.now) read_plain_ctes result cursor.old cursor.new }
{
    if cursor.first().is_one_of(&[Keyword::Recursive]) {
        return Err(ReadError::Syntax);
    }
    ctes(trees, alloc, cursor)
}

/// `cte {"," cte}`
#[tactic(auto, unfolding(query_reading::specs::Selects::read_ctes))]
fn ctes<T: Trees>(
    trees: &T,
    alloc: Global,
    cursor: &mut Cursor<'_>,
) -> Result<Commas<Cte<Select>>, ReadError>
    requires ready { T.ready trees.now }
    ensures { GivesAt (T.left trees.now) read_ctes result cursor.old cursor.new }
{
    let first = cte(trees, alloc, cursor)?;
    let more = more_ctes(trees, alloc, cursor)?;
    Ok(Commas { first, more })
}

/// `{"," cte}`
#[tactic(auto, unfolding(query_reading::specs::Selects::read_more_ctes))]
fn more_ctes<T: Trees>(
    trees: &T,
    alloc: Global,
    cursor: &mut Cursor<'_>,
) -> Result<Items<NextItem<Cte<Select>>>, ReadError>
    requires ready { T.ready trees.now }
    ensures { GivesAt (T.left trees.now) read_more_ctes result cursor.old cursor.new }
{
    let mut more = Items::new(alloc);
    while cursor.first().is_sign(Mark::Comma) {
        let next = next_cte(trees, alloc, cursor)?;
        more.push(next)?;
    }
    Ok(more)
}

/// `"," cte`
#[tactic(auto, unfolding(query_reading::specs::Selects::read_next_cte))]
fn next_cte<T: Trees>(
    trees: &T,
    alloc: Global,
    cursor: &mut Cursor<'_>,
) -> Result<NextItem<Cte<Select>>, ReadError>
    requires ready { T.ready trees.now }
    ensures { GivesAt (T.left trees.now) read_next_cte result cursor.old cursor.new }
{
    let comma = cursor.sign(Mark::Comma)?;
    let item = cte(trees, alloc, cursor)?;
    Ok(NextItem { comma, item })
}

/// `name ["(" names ")"] AS [[NOT] MATERIALIZED] "(" select ")"`
#[tactic(auto, unfolding(query_reading::specs::Selects::read_cte))]
fn cte<T: Trees>(
    trees: &T,
    alloc: Global,
    cursor: &mut Cursor<'_>,
) -> Result<Cte<Select>, ReadError>
    requires ready { T.ready trees.now }
    ensures { GivesAt (T.left trees.now) read_cte result cursor.old cursor.new }
{
    let name = cursor.name()?;
    let columns = opt_names(alloc, cursor)?;
    let as_word = cursor.word(Keyword::As)?;
    let materialized = opt_materialized(cursor)?;
    let select = query(trees, alloc, cursor)?;
    Ok(Cte {
        name,
        columns,
        as_word,
        materialized,
        select,
    })
}
