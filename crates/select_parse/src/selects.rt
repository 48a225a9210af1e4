//! Selects and their arms.

ghost use Rattle.expr_parse.specs.Given.{GivesAt};
ghost use Rattle.query_reading.specs.Selects.{read_arm, read_compound_arm, read_compound_arms, read_limit, read_more_named_windows, read_named_windows, read_next_named_window, read_opt_from, read_opt_limit, read_opt_windows, read_second_limit, read_select_arm, read_select_level};
ghost use Rattle.std.specs.Prelude.{◌≡◌};
ghost use Rattle.query_reading.specs.Selects.{compound_starts};
ghost use Rattle.sql_reader.specs.Looks.{looks};
ghost use Rattle.sql_reader.specs.Sorts.{sort_of};

use crate::items::{result_items, values_rows};
use crate::joins::compound;
use crate::with_clause::opt_with;
use expr_parse::{Trees, named_window, opt_after, opt_by, opt_order};
use query_reading::optional_of;
use sql_expr::{
    After, Arm, Commas, CompoundArm, Expr, Limit, NamedWindow, NextItem, Select, SelectArm, Sources,
};
use sql_reader::{Cursor, Mark, ReadError};
use sql_token::Keyword;
use sqlite_items::{Boxed, Items};
use std::alloc::Global;

/// `[WITH [RECURSIVE] ctes] arm {compound arm} [ORDER BY terms] [LIMIT expr [(OFFSET | ",") expr]]`
#[tactic(auto, unfolding(query_reading::specs::Selects::read_select_level))]
pub fn select_level<T: Trees>(
    trees: &T,
    alloc: Global,
    cursor: &mut Cursor<'_>,
) -> Result<Boxed<Select>, ReadError>
    requires ready { T.ready trees.now }
    ensures { GivesAt (T.left trees.now) read_select_level result cursor.old cursor.new }
{
    let with_clause = opt_with(trees, alloc, cursor)?;
    let arm = arm(trees, alloc, cursor)?;
    let compounds = match compound_arms(trees, alloc, cursor) {
        Ok(compounds) => compounds,
        Err(error) => return Err(letting_go(error, (with_clause, arm))),
    };
    let order = match opt_order(trees, alloc, cursor) {
        Ok(order) => order,
        Err(error) => return Err(letting_go(error, (with_clause, arm, compounds))),
    };
    let limit = match opt_limit(trees, alloc, cursor) {
        Ok(limit) => limit,
        Err(error) => return Err(letting_go(error, (with_clause, arm, compounds, order))),
    };
    let select = Select {
        with_clause,
        arm,
        compounds,
        order,
        limit,
    };
    Ok(Boxed::new(alloc, select)?)
}

/// The error. What was read before it is let go here, so that the proof of the caller need not follow how it is dropped.
fn letting_go<T: Drop>(error: ReadError, _parts: T) -> ReadError
    ensures { result ≡ error }
{
    error
}

/// `{compound arm}`
#[tactic(auto, unfolding(query_reading::specs::Selects::read_compound_arms))]
fn compound_arms<T: Trees>(
    trees: &T,
    alloc: Global,
    cursor: &mut Cursor<'_>,
) -> Result<Items<CompoundArm>, ReadError>
    requires ready { T.ready trees.now }
    ensures { GivesAt (T.left trees.now) read_compound_arms result cursor.old cursor.new }
{
    let mut more = Items::new(alloc);
    while starts_compound(cursor) {
        let next = compound_arm(trees, alloc, cursor)?;
        more.push(next)?;
    }
    Ok(more)
}

/// Whether the tokens that are left look as a further arm begins.
fn starts_compound(cursor: &Cursor<'_>) -> bool
    ensures { result ≡ looks (sort_of cursor.now.text) compound_starts cursor.now.left }
{
    let first = cursor.first();
    first.is_word(Keyword::Union)
        || first.is_word(Keyword::Except)
        || first.is_word(Keyword::Intersect)
}

/// `compound arm`
#[tactic(auto, unfolding(query_reading::specs::Selects::read_compound_arm))]
fn compound_arm<T: Trees>(
    trees: &T,
    alloc: Global,
    cursor: &mut Cursor<'_>,
) -> Result<CompoundArm, ReadError>
    requires ready { T.ready trees.now }
    ensures { GivesAt (T.left trees.now) read_compound_arm result cursor.old cursor.new }
{
    let compound = compound(cursor)?;
    let arm = arm(trees, alloc, cursor)?;
    Ok(CompoundArm { compound, arm })
}

/// `SELECT .. | VALUES rows`
#[tactic(auto, unfolding(query_reading::specs::Selects::read_arm))]
fn arm<T: Trees>(trees: &T, alloc: Global, cursor: &mut Cursor<'_>) -> Result<Arm, ReadError>
    requires ready { T.ready trees.now }
    ensures { GivesAt (T.left trees.now) read_arm result cursor.old cursor.new }
{
    if cursor.first().is_word(Keyword::Select) {
        return Ok(Arm::Select(select_arm(trees, alloc, cursor)?));
    }
    let values = cursor.word(Keyword::Values)?;
    let rows = values_rows(trees, alloc, cursor)?;
    Ok(Arm::Values { values, rows })
}

/// `SELECT [DISTINCT|ALL] items [FROM sources] [WHERE expr] [GROUP BY exprs] [HAVING expr] [WINDOW named-windows]`
#[tactic(auto, unfolding(query_reading::specs::Selects::read_select_arm))]
fn select_arm<T: Trees>(
    trees: &T,
    alloc: Global,
    cursor: &mut Cursor<'_>,
) -> Result<Boxed<SelectArm>, ReadError>
    requires ready { T.ready trees.now }
    ensures { GivesAt (T.left trees.now) read_select_arm result cursor.old cursor.new }
{
    let select = cursor.word(Keyword::Select)?;
    let quantifier = optional_of(cursor, &[Keyword::Distinct, Keyword::All])?;
    let items = result_items(trees, alloc, cursor)?;
    let from = opt_from(trees, alloc, cursor)?;
    let filter = opt_after(trees, alloc, cursor, Keyword::Where)?;
    let group = opt_by(trees, alloc, cursor, Keyword::Group)?;
    let having = opt_after(trees, alloc, cursor, Keyword::Having)?;
    let windows = opt_windows(trees, alloc, cursor)?;
    let arm = SelectArm {
        select,
        quantifier,
        items,
        from,
        filter,
        group,
        having,
        windows,
    };
    Ok(Boxed::new(alloc, arm)?)
}

/// `[FROM sources]`
#[tactic(auto, unfolding(query_reading::specs::Selects::read_opt_from))]
fn opt_from<T: Trees>(
    trees: &T,
    alloc: Global,
    cursor: &mut Cursor<'_>,
) -> Result<Option<After<Boxed<Sources>>>, ReadError>
    requires ready { T.ready trees.now }
    ensures { GivesAt (T.left trees.now) read_opt_from result cursor.old cursor.new }
{
    if cursor.first().is_word(Keyword::From) {
        let word = cursor.word(Keyword::From)?;
        let part = trees.sources(alloc, cursor)?;
        return Ok(Some(After { word, part }));
    }
    Ok(None)
}

/// `[WINDOW named-windows]`
#[tactic(auto, unfolding(query_reading::specs::Selects::read_opt_windows))]
fn opt_windows<T: Trees>(
    trees: &T,
    alloc: Global,
    cursor: &mut Cursor<'_>,
) -> Result<Option<After<Commas<NamedWindow<Expr>>>>, ReadError>
    requires ready { T.ready trees.now }
    ensures { GivesAt (T.left trees.now) read_opt_windows result cursor.old cursor.new }
{
    if cursor.first().is_word(Keyword::Window) {
        let word = cursor.word(Keyword::Window)?;
        let part = named_windows(trees, alloc, cursor)?;
        return Ok(Some(After { word, part }));
    }
    Ok(None)
}

/// `named-window {"," named-window}`
#[tactic(auto, unfolding(query_reading::specs::Selects::read_named_windows))]
fn named_windows<T: Trees>(
    trees: &T,
    alloc: Global,
    cursor: &mut Cursor<'_>,
) -> Result<Commas<NamedWindow<Expr>>, ReadError>
    requires ready { T.ready trees.now }
    ensures { GivesAt (T.left trees.now) read_named_windows result cursor.old cursor.new }
{
    let first = named_window(trees, alloc, cursor)?;
    let more = more_named_windows(trees, alloc, cursor)?;
    Ok(Commas { first, more })
}

/// `{"," named-window}`
#[tactic(auto, unfolding(query_reading::specs::Selects::read_more_named_windows))]
fn more_named_windows<T: Trees>(
    trees: &T,
    alloc: Global,
    cursor: &mut Cursor<'_>,
) -> Result<Items<NextItem<NamedWindow<Expr>>>, ReadError>
    requires ready { T.ready trees.now }
    ensures { GivesAt (T.left trees.now) read_more_named_windows result cursor.old cursor.new }
{
    let mut more = Items::new(alloc);
    while cursor.first().is_sign(Mark::Comma) {
        let next = next_named_window(trees, alloc, cursor)?;
        more.push(next)?;
    }
    Ok(more)
}

/// `"," named-window`
#[tactic(auto, unfolding(query_reading::specs::Selects::read_next_named_window))]
fn next_named_window<T: Trees>(
    trees: &T,
    alloc: Global,
    cursor: &mut Cursor<'_>,
) -> Result<NextItem<NamedWindow<Expr>>, ReadError>
    requires ready { T.ready trees.now }
    ensures { GivesAt (T.left trees.now) read_next_named_window result cursor.old cursor.new }
{
    let comma = cursor.sign(Mark::Comma)?;
    let item = named_window(trees, alloc, cursor)?;
    Ok(NextItem { comma, item })
}

/// `[LIMIT expr [(OFFSET | ",") expr]]`
#[tactic(auto, unfolding(query_reading::specs::Selects::read_opt_limit))]
fn opt_limit<T: Trees>(
    trees: &T,
    alloc: Global,
    cursor: &mut Cursor<'_>,
) -> Result<Option<Limit<Expr>>, ReadError>
    requires ready { T.ready trees.now }
    ensures { GivesAt (T.left trees.now) read_opt_limit result cursor.old cursor.new }
{
    if cursor.first().is_word(Keyword::Limit) {
        return Ok(Some(limit(trees, alloc, cursor)?));
    }
    Ok(None)
}

/// `LIMIT expr [(OFFSET | ",") expr]`
#[tactic(auto, unfolding(query_reading::specs::Selects::read_limit))]
fn limit<T: Trees>(
    trees: &T,
    alloc: Global,
    cursor: &mut Cursor<'_>,
) -> Result<Limit<Expr>, ReadError>
    requires ready { T.ready trees.now }
    ensures { GivesAt (T.left trees.now) read_limit result cursor.old cursor.new }
{
    let limit = cursor.word(Keyword::Limit)?;
    let count = trees.expr(alloc, cursor)?;
    let second = second_limit(trees, alloc, cursor)?;
    Ok(Limit {
        limit,
        count,
        second,
    })
}

/// `[(OFFSET | ",") expr]`
#[tactic(auto, unfolding(query_reading::specs::Selects::read_second_limit))]
fn second_limit<T: Trees>(
    trees: &T,
    alloc: Global,
    cursor: &mut Cursor<'_>,
) -> Result<Option<After<Expr>>, ReadError>
    requires ready { T.ready trees.now }
    ensures { GivesAt (T.left trees.now) read_second_limit result cursor.old cursor.new }
{
    let first = cursor.first();
    let begins = first.is_word(Keyword::Offset) || first.is_sign(Mark::Comma);
    if begins {
        let word = cursor.take_if(begins)?;
        let part = trees.expr(alloc, cursor)?;
        return Ok(Some(After { word, part }));
    }
    Ok(None)
}
