//! The trees inside trees: each reads those inside it by these functions again, to a bound of one level less.

ghost use Rattle.sql_reader.specs.Cursor.{Gives};
ghost use Rattle.query_reading.specs.Levels.{read_at};

use expr_parse::{Handed, expr_level};
use select_parse::{select_level, sources_level};
use sql_expr::{Expr, Select, Sources};
use sql_reader::{Cursor, ReadError};
use sqlite_items::Boxed;
use std::alloc::Global;

/// An expression that nests less deep than `left`.
#[cycle(nested)]
pub fn nested_expr(alloc: Global, cursor: &mut Cursor<'_>, left: usize) -> Result<Expr, ReadError>
    ensures { Gives (λ sort. (read_at sort left).expr) result cursor.old cursor.new }
{
    let Some(left) = left.checked_sub(1) else {
        return Err(ReadError::Syntax);
    };
    let trees = Handed {
        left,
        expr: nested_expr,
        select: nested_select,
        sources: nested_sources,
    };
    expr_level(&trees, alloc, cursor)
}

/// A select that nests less deep than `left`.
#[cycle(nested)]
pub fn nested_select(
    alloc: Global,
    cursor: &mut Cursor<'_>,
    left: usize,
) -> Result<Boxed<Select>, ReadError>
    ensures { Gives (λ sort. (read_at sort left).select) result cursor.old cursor.new }
{
    let Some(left) = left.checked_sub(1) else {
        return Err(ReadError::Syntax);
    };
    let trees = Handed {
        left,
        expr: nested_expr,
        select: nested_select,
        sources: nested_sources,
    };
    select_level(&trees, alloc, cursor)
}

/// Sources that nest less deep than `left`.
#[cycle(nested)]
pub fn nested_sources(
    alloc: Global,
    cursor: &mut Cursor<'_>,
    left: usize,
) -> Result<Boxed<Sources>, ReadError>
    ensures { Gives (λ sort. (read_at sort left).sources) result cursor.old cursor.new }
{
    let Some(left) = left.checked_sub(1) else {
        return Err(ReadError::Syntax);
    };
    let trees = Handed {
        left,
        expr: nested_expr,
        select: nested_select,
        sources: nested_sources,
    };
    sources_level(&trees, alloc, cursor)
}
