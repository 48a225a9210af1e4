//! Result items and rows of VALUES.

ghost use Rattle.expr_parse.specs.Given.{GivesAt};
ghost use Rattle.query_reading.specs.Selects.{read_more_result_items, read_more_values_rows, read_next_result_item, read_next_values_row, read_result_item, read_result_items, read_values_row, read_values_rows};
ghost use Rattle.std.specs.Prelude.{◌≡◌};
ghost use Rattle.query_reading.specs.Selects.{all_of_starts};
ghost use Rattle.sql_reader.specs.Looks.{looks};
ghost use Rattle.sql_reader.specs.Sorts.{sort_of};

use expr_parse::{Trees, exprs};
use query_reading::{is_operand_name, operand_name, opt_alias};
use sql_expr::{Commas, Expr, InParens, NextItem, ResultItem, ValuesRow};
use sql_reader::{Cursor, Mark, ReadError};
use sqlite_items::Items;
use std::alloc::Global;

/// `item {"," item}`
#[tactic(auto, unfolding(query_reading::specs::Selects::read_result_items))]
pub fn result_items<T: Trees>(
    trees: &T,
    alloc: Global,
    cursor: &mut Cursor<'_>,
) -> Result<Commas<ResultItem<Expr>>, ReadError>
    requires ready { T.ready trees.now }
    ensures { GivesAt (T.left trees.now) read_result_items result cursor.old cursor.new }
{
    let first = result_item(trees, alloc, cursor)?;
    let more = more_result_items(trees, alloc, cursor)?;
    Ok(Commas { first, more })
}

/// `{"," item}`
#[tactic(auto, unfolding(query_reading::specs::Selects::read_more_result_items))]
fn more_result_items<T: Trees>(
    trees: &T,
    alloc: Global,
    cursor: &mut Cursor<'_>,
) -> Result<Items<NextItem<ResultItem<Expr>>>, ReadError>
    requires ready { T.ready trees.now }
    ensures { GivesAt (T.left trees.now) read_more_result_items result cursor.old cursor.new }
{
    let mut more = Items::new(alloc);
    while cursor.first().is_sign(Mark::Comma) {
        let next = next_result_item(trees, alloc, cursor)?;
        more.push(next)?;
    }
    Ok(more)
}

/// `"," item`
#[tactic(auto, unfolding(query_reading::specs::Selects::read_next_result_item))]
fn next_result_item<T: Trees>(
    trees: &T,
    alloc: Global,
    cursor: &mut Cursor<'_>,
) -> Result<NextItem<ResultItem<Expr>>, ReadError>
    requires ready { T.ready trees.now }
    ensures { GivesAt (T.left trees.now) read_next_result_item result cursor.old cursor.new }
{
    let comma = cursor.sign(Mark::Comma)?;
    let item = result_item(trees, alloc, cursor)?;
    Ok(NextItem { comma, item })
}

/// `"*" | name "." "*" | expr [[AS] alias]`
#[tactic(auto, unfolding(query_reading::specs::Selects::read_result_item))]
fn result_item<T: Trees>(
    trees: &T,
    alloc: Global,
    cursor: &mut Cursor<'_>,
) -> Result<ResultItem<Expr>, ReadError>
    requires ready { T.ready trees.now }
    ensures { GivesAt (T.left trees.now) read_result_item result cursor.old cursor.new }
{
    if cursor.first().is_sign(Mark::Star) {
        return Ok(ResultItem::Star(cursor.sign(Mark::Star)?));
    }
    if starts_all_of(cursor) {
        let name = operand_name(cursor)?;
        let dot = cursor.sign(Mark::Dot)?;
        let star = cursor.sign(Mark::Star)?;
        return Ok(ResultItem::AllOf { name, dot, star });
    }
    let expr = trees.expr(alloc, cursor)?;
    let alias = opt_alias(cursor)?;
    Ok(ResultItem::Expr { expr, alias })
}

/// Whether the tokens that are left look as all columns of one source are named.
fn starts_all_of(cursor: &Cursor<'_>) -> bool
    ensures { result ≡ looks (sort_of cursor.now.text) all_of_starts cursor.now.left }
{
    is_operand_name(cursor.first())
        && cursor.second().is_sign(Mark::Dot)
        && cursor.third().is_sign(Mark::Star)
}

/// `row {"," row}`
#[tactic(auto, unfolding(query_reading::specs::Selects::read_values_rows))]
pub fn values_rows<T: Trees>(
    trees: &T,
    alloc: Global,
    cursor: &mut Cursor<'_>,
) -> Result<Commas<ValuesRow<Expr>>, ReadError>
    requires ready { T.ready trees.now }
    ensures { GivesAt (T.left trees.now) read_values_rows result cursor.old cursor.new }
{
    let first = values_row(trees, alloc, cursor)?;
    let more = more_values_rows(trees, alloc, cursor)?;
    Ok(Commas { first, more })
}

/// `{"," row}`
#[tactic(auto, unfolding(query_reading::specs::Selects::read_more_values_rows))]
fn more_values_rows<T: Trees>(
    trees: &T,
    alloc: Global,
    cursor: &mut Cursor<'_>,
) -> Result<Items<NextItem<ValuesRow<Expr>>>, ReadError>
    requires ready { T.ready trees.now }
    ensures { GivesAt (T.left trees.now) read_more_values_rows result cursor.old cursor.new }
{
    let mut more = Items::new(alloc);
    while cursor.first().is_sign(Mark::Comma) {
        let next = next_values_row(trees, alloc, cursor)?;
        more.push(next)?;
    }
    Ok(more)
}

/// `"," row`
#[tactic(auto, unfolding(query_reading::specs::Selects::read_next_values_row))]
fn next_values_row<T: Trees>(
    trees: &T,
    alloc: Global,
    cursor: &mut Cursor<'_>,
) -> Result<NextItem<ValuesRow<Expr>>, ReadError>
    requires ready { T.ready trees.now }
    ensures { GivesAt (T.left trees.now) read_next_values_row result cursor.old cursor.new }
{
    let comma = cursor.sign(Mark::Comma)?;
    let item = values_row(trees, alloc, cursor)?;
    Ok(NextItem { comma, item })
}

/// `"(" exprs ")"`
#[tactic(auto, unfolding(query_reading::specs::Selects::read_values_row))]
fn values_row<T: Trees>(
    trees: &T,
    alloc: Global,
    cursor: &mut Cursor<'_>,
) -> Result<ValuesRow<Expr>, ReadError>
    requires ready { T.ready trees.now }
    ensures { GivesAt (T.left trees.now) read_values_row result cursor.old cursor.new }
{
    let opening = cursor.sign(Mark::Opening)?;
    let inner = exprs(trees, alloc, cursor)?;
    let closing = cursor.sign(Mark::Closing)?;
    Ok(ValuesRow {
        exprs: InParens {
            opening,
            inner,
            closing,
        },
    })
}
