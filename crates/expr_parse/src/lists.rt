//! Lists of expressions.

ghost use Rattle.expr_parse.specs.Given.{GivesAt};
ghost use Rattle.query_reading.specs.Windows.{read_exprs, read_more_exprs, read_next_expr};

use crate::trees::Trees;
use sql_expr::{Commas, Expr, NextItem};
use sql_reader::{Cursor, Mark, ReadError};
use sqlite_items::Items;
use std::alloc::Global;

/// `expr {"," expr}`
#[tactic(auto, unfolding(query_reading::specs::Windows::read_exprs))]
pub fn exprs<T: Trees>(
    trees: &T,
    alloc: Global,
    cursor: &mut Cursor<'_>,
) -> Result<Commas<Expr>, ReadError>
    requires ready { T.ready trees.now }
    ensures { GivesAt (T.left trees.now) read_exprs result cursor.old cursor.new }
{
    let first = trees.expr(alloc, cursor)?;
    let more = more_exprs(trees, alloc, cursor)?;
    Ok(Commas { first, more })
}

/// `{"," expr}`
#[tactic(auto, unfolding(query_reading::specs::Windows::read_more_exprs))]
fn more_exprs<T: Trees>(
    trees: &T,
    alloc: Global,
    cursor: &mut Cursor<'_>,
) -> Result<Items<NextItem<Expr>>, ReadError>
    requires ready { T.ready trees.now }
    ensures { GivesAt (T.left trees.now) read_more_exprs result cursor.old cursor.new }
{
    let mut more = Items::new(alloc);
    while cursor.first().is_sign(Mark::Comma) {
        let next = next_expr(trees, alloc, cursor)?;
        more.push(next)?;
    }
    Ok(more)
}

/// `"," expr`
#[tactic(auto, unfolding(query_reading::specs::Windows::read_next_expr))]
pub fn next_expr<T: Trees>(
    trees: &T,
    alloc: Global,
    cursor: &mut Cursor<'_>,
) -> Result<NextItem<Expr>, ReadError>
    requires ready { T.ready trees.now }
    ensures { GivesAt (T.left trees.now) read_next_expr result cursor.old cursor.new }
{
    let comma = cursor.sign(Mark::Comma)?;
    let item = trees.expr(alloc, cursor)?;
    Ok(NextItem { comma, item })
}
