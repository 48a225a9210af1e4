//! Lists of keys, in which a Str that stands alone is a column.

ghost use Rattle.std.specs.Prelude.{◌≡◌, IfOk};
ghost use Rattle.sql_expr.specs.declared.expr.Operand.{out-Operand};
ghost use Rattle.sql_expr.specs.declared.expr.Postfix.{out-Postfix};
ghost use Rattle.sql_tree.specs.Keys.{after_postfix, after_postfixes, as_key, as_key_with, key_operand, left_inside, with_first};
ghost use Rattle.table_reading.specs.Tables.{read_indexed, read_indexeds, read_key, read_key_parens, read_more_indexeds, read_next_indexed};
ghost use Rattle.ddl_parse.specs.Given.{GivesKeys};

use query_parse::nested_expr;
use query_reading::optional_of;
use sql_reader::{Cursor, Mark, ReadError};
use sql_token::Keyword;
use sql_tree::{
    ColumnUse, Commas, Expr, InParens, Indexed, Literal, NextItem, Operand, Part, Postfix,
};
use sqlite_items::{Boxed, Items};
use std::alloc::{AllocError, Global};

/// How many COLLATEs may still stand where this postfix stands, or none where it is no COLLATE that may.
fn after_postfix(postfix: &Postfix, left: usize) -> Option<usize>
    ensures { result ≡ after_postfix (out-Postfix postfix.now) left }
{
    match postfix {
        Postfix::Collate { .. } => left.checked_sub(1),
        _ => None,
    }
}

/// How many COLLATEs may still stand behind these postfixes, or none where they are no COLLATEs or too many.
fn after_postfixes(postfixes: &[Postfix], left: usize) -> Option<usize>
    ensures { result ≡ after_postfixes postfixes.now left }
{
    let mut left = left;
    for postfix in postfixes {
        left = after_postfix(postfix, left)?;
    }
    Some(left)
}

/// How many COLLATEs may still stand inside the expression, where it is one operand with at most `left` of them and
/// no more.
fn left_inside(x: &Expr, left: usize) -> Option<usize>
    ensures { result ≡ left_inside x.now left }
{
    let part = x.first.get();
    if x.more.is_empty() && part.prefixes.is_empty() {
        return after_postfixes(part.postfixes.as_slice(), left);
    }
    None
}

/// The expression as a key with at most `left` COLLATEs, in fewer parentheses than `height`.
#[cycle(keys)]
fn as_key_with(alloc: Global, x: Expr, height: usize, left: usize) -> Result<Expr, AllocError>
    ensures { IfOk result (λ key. key ≡ as_key_with height left x) }
{
    let Some(height) = height.checked_sub(1) else {
        return Ok(x);
    };
    let Some(left) = left_inside(&x, left) else {
        return Ok(x);
    };
    let Expr { first, more } = x;
    let Part {
        prefixes,
        operand,
        postfixes,
    } = first.into_inner();
    let operand = key_operand(alloc, operand, height, left)?;
    let part = Part {
        prefixes,
        operand,
        postfixes,
    };
    let first = Boxed::new(alloc, part)?;
    Ok(Expr { first, more })
}

/// A Str as a column, and one expression in parentheses as a key.
#[cycle(keys)]
fn key_operand(
    alloc: Global,
    operand: Operand,
    height: usize,
    left: usize,
) -> Result<Operand, AllocError>
    ensures { IfOk result (λ key. out-Operand key ≡ key_operand (as_key_with height left) (out-Operand operand)) }
{
    match operand {
        Operand::Literal(Literal::Str(token)) => Ok(Operand::Column(ColumnUse::One(token))),
        Operand::Exprs(exprs) => {
            let exprs = lone_key(alloc, exprs, height, left)?;
            Ok(Operand::Exprs(exprs))
        }
        other => Ok(other),
    }
}

/// One expression in parentheses as a key; a longer list stays as it is.
#[cycle(keys)]
fn lone_key(
    alloc: Global,
    exprs: InParens<Commas<Expr>>,
    height: usize,
    left: usize,
) -> Result<InParens<Commas<Expr>>, AllocError>
    ensures { IfOk result (λ keys. keys ≡ record exprs { inner = with_first (as_key_with height left) exprs.inner exprs.inner.more }) }
{
    let InParens {
        opening,
        inner,
        closing,
    } = exprs;
    let Commas { mut first, more } = inner;
    if more.is_empty() {
        first = as_key_with(alloc, first, height, left)?;
    }
    let inner = Commas { first, more };
    Ok(InParens {
        opening,
        inner,
        closing,
    })
}

/// The expression as a key of this height: its one Str, where it stands alone, with a COLLATE or not, is a column.
fn as_key(alloc: Global, x: Expr, height: usize) -> Result<Expr, AllocError>
    ensures { IfOk result (λ key. key ≡ as_key height x) }
{
    as_key_with(alloc, x, height, 1)
}

/// `expr` as a key.
#[tactic(auto, unfolding(table_reading::specs::Tables::read_key))]
fn key(alloc: Global, cursor: &mut Cursor<'_>, levels: usize) -> Result<Expr, ReadError>
    ensures { GivesKeys levels read_key result cursor.old cursor.new }
{
    let expr = nested_expr(alloc, cursor, levels)?;
    Ok(as_key(alloc, expr, levels)?)
}

/// `key [ASC|DESC]`
#[tactic(auto, unfolding(table_reading::specs::Tables::read_indexed))]
fn indexed(alloc: Global, cursor: &mut Cursor<'_>, levels: usize) -> Result<Indexed, ReadError>
    ensures { GivesKeys levels read_indexed result cursor.old cursor.new }
{
    let expr = key(alloc, cursor, levels)?;
    let direction = optional_of(cursor, &[Keyword::Asc, Keyword::Desc])?;
    Ok(Indexed { expr, direction })
}

/// `"," indexed`
#[tactic(auto, unfolding(table_reading::specs::Tables::read_next_indexed))]
fn next_indexed(
    alloc: Global,
    cursor: &mut Cursor<'_>,
    levels: usize,
) -> Result<NextItem<Indexed>, ReadError>
    ensures { GivesKeys levels read_next_indexed result cursor.old cursor.new }
{
    let comma = cursor.sign(Mark::Comma)?;
    let item = indexed(alloc, cursor, levels)?;
    Ok(NextItem { comma, item })
}

/// `{"," indexed}`
#[tactic(auto, unfolding(table_reading::specs::Tables::read_more_indexeds))]
fn more_indexeds(
    alloc: Global,
    cursor: &mut Cursor<'_>,
    levels: usize,
) -> Result<Items<NextItem<Indexed>>, ReadError>
    ensures { GivesKeys levels read_more_indexeds result cursor.old cursor.new }
{
    let mut more = Items::new(alloc);
    while cursor.first().is_sign(Mark::Comma) {
        let next = next_indexed(alloc, cursor, levels)?;
        more.push(next)?;
    }
    Ok(more)
}

/// `indexed {"," indexed}`
#[tactic(auto, unfolding(table_reading::specs::Tables::read_indexeds))]
pub fn indexeds(
    alloc: Global,
    cursor: &mut Cursor<'_>,
    levels: usize,
) -> Result<Commas<Indexed>, ReadError>
    ensures { GivesKeys levels read_indexeds result cursor.old cursor.new }
{
    let first = indexed(alloc, cursor, levels)?;
    let more = more_indexeds(alloc, cursor, levels)?;
    Ok(Commas { first, more })
}

/// `"(" indexeds ")"`
#[tactic(auto, unfolding(table_reading::specs::Tables::read_key_parens))]
pub fn key_parens(
    alloc: Global,
    cursor: &mut Cursor<'_>,
    levels: usize,
) -> Result<InParens<Commas<Indexed>>, ReadError>
    ensures { GivesKeys levels read_key_parens result cursor.old cursor.new }
{
    let opening = cursor.sign(Mark::Opening)?;
    let inner = indexeds(alloc, cursor, levels)?;
    let closing = cursor.sign(Mark::Closing)?;
    Ok(InParens {
        opening,
        inner,
        closing,
    })
}
