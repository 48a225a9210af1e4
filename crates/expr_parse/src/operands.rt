//! Operands of expressions, and sets behind IN.

ghost use Rattle.std.specs.Prelude.{◌≡◌};
ghost use Rattle.sql_reader.specs.Looks.{looks};
ghost use Rattle.sql_reader.specs.Sorts.{sort_of};
ghost use Rattle.expr_parse.specs.Begins.{row_starts};
ghost use Rattle.expr_parse.specs.Given.{GivesAt};
ghost use Rattle.query_reading.specs.Operands.{column_starts, literal_starts, parens_starts, read_arguments, read_in_set, read_list_parens, read_operand, read_opt_exprs, read_opt_row, read_other_operand, read_query, read_row, read_row_parens, read_subquery, subquery_starts};

use crate::functions::{call, case, cast, raise};
use crate::lists::exprs;
use crate::trees::Trees;
use query_reading::{
    begins_select, column_use, is_dot_or_opening, is_lone_column, is_operand_name, literal, object,
    optional_word, starts_expr,
};
use sql_expr::{Commas, Expr, InParens, InSet, Operand, Select};
use sql_reader::{Cursor, Mark, ReadError, Sort};
use sql_token::{Keyword, Token};
use sqlite_items::Boxed;
use std::alloc::Global;

/// `[EXISTS] "(" select ")" | call | literal | column-use | "(" exprs ")" | CASE .. | CAST .. | RAISE ..`
#[tactic(auto, unfolding(query_reading::specs::Operands::read_operand))]
pub fn operand<T: Trees>(
    trees: &T,
    alloc: Global,
    cursor: &mut Cursor<'_>,
) -> Result<Operand, ReadError>
    requires ready { T.ready trees.now }
    ensures { GivesAt (T.left trees.now) read_operand result cursor.old cursor.new }
{
    if starts_subquery(cursor) {
        let (exists, select) = subquery(trees, alloc, cursor)?;
        return Ok(Operand::Subquery { exists, select });
    }
    if is_operand_name(cursor.first()) && cursor.second().is_sign(Mark::Opening) {
        return Ok(Operand::Call(call(trees, alloc, cursor)?));
    }
    if starts_literal(cursor) {
        return Ok(Operand::Literal(literal(cursor)?));
    }
    if starts_column(cursor) {
        return Ok(Operand::Column(column_use(cursor)?));
    }
    other_operand(trees, alloc, cursor)
}

/// Whether the tokens that are left look as a subquery begins.
fn starts_subquery(cursor: &Cursor<'_>) -> bool
    ensures { result ≡ looks (sort_of cursor.now.text) subquery_starts cursor.now.left }
{
    let first = cursor.first();
    first.is_word(Keyword::Exists) || first.is_sign(Mark::Opening) && begins_select(cursor.second())
}

/// Whether the tokens that are left look as a literal begins.
fn starts_literal(cursor: &Cursor<'_>) -> bool
    ensures { result ≡ looks (sort_of cursor.now.text) literal_starts cursor.now.left }
{
    let first = cursor.first();
    first.is_number()
        || first == Sort::Str && !is_dot_or_opening(cursor.second())
        || first == Sort::Blob
        || first.is_word(Keyword::Null)
        || first.is_word(Keyword::CurrentDate)
        || first.is_word(Keyword::CurrentTime)
        || first.is_word(Keyword::CurrentTimestamp)
}

/// Whether the tokens that are left look as a use of a column begins.
fn starts_column(cursor: &Cursor<'_>) -> bool
    ensures { result ≡ looks (sort_of cursor.now.text) column_starts cursor.now.left }
{
    let first = cursor.first();
    let second = cursor.second();
    is_lone_column(first, second)
        || is_operand_name(first) && second.is_sign(Mark::Dot) && cursor.third().is_name()
}

/// `"(" exprs ")" | CASE .. | CAST .. | RAISE ..`
#[tactic(auto, unfolding(query_reading::specs::Operands::read_other_operand))]
fn other_operand<T: Trees>(
    trees: &T,
    alloc: Global,
    cursor: &mut Cursor<'_>,
) -> Result<Operand, ReadError>
    requires ready { T.ready trees.now }
    ensures { GivesAt (T.left trees.now) read_other_operand result cursor.old cursor.new }
{
    if starts_parens(cursor) {
        return Ok(Operand::Exprs(row_parens(trees, alloc, cursor)?));
    }
    if cursor.first().is_word(Keyword::Case) {
        return Ok(Operand::Case(case(trees, alloc, cursor)?));
    }
    if cursor.first().is_word(Keyword::Cast) {
        return Ok(Operand::Cast(cast(trees, alloc, cursor)?));
    }
    Ok(Operand::Raise(raise(trees, alloc, cursor)?))
}

/// Whether the tokens that are left look as parentheses begin in which no select stands.
fn starts_parens(cursor: &Cursor<'_>) -> bool
    ensures { result ≡ looks (sort_of cursor.now.text) parens_starts cursor.now.left }
{
    cursor.first().is_sign(Mark::Opening) && !begins_select(cursor.second())
}

/// `[EXISTS] "(" select ")"`
#[tactic(auto, unfolding(query_reading::specs::Operands::read_subquery))]
fn subquery<T: Trees>(
    trees: &T,
    alloc: Global,
    cursor: &mut Cursor<'_>,
) -> Result<(Option<Token>, InParens<Boxed<Select>>), ReadError>
    requires ready { T.ready trees.now }
    ensures { GivesAt (T.left trees.now) read_subquery result cursor.old cursor.new }
{
    let exists = optional_word(cursor, Keyword::Exists)?;
    let select = query(trees, alloc, cursor)?;
    Ok((exists, select))
}

/// `"(" select ")"`
#[tactic(auto, unfolding(query_reading::specs::Operands::read_query))]
pub fn query<T: Trees>(
    trees: &T,
    alloc: Global,
    cursor: &mut Cursor<'_>,
) -> Result<InParens<Boxed<Select>>, ReadError>
    requires ready { T.ready trees.now }
    ensures { GivesAt (T.left trees.now) read_query result cursor.old cursor.new }
{
    let opening = cursor.sign(Mark::Opening)?;
    let inner = trees.select(alloc, cursor)?;
    let closing = cursor.sign(Mark::Closing)?;
    Ok(InParens {
        opening,
        inner,
        closing,
    })
}

/// `exprs`, where a select would begin with WITH.
#[tactic(auto, unfolding(query_reading::specs::Operands::read_row))]
fn row<T: Trees>(
    trees: &T,
    alloc: Global,
    cursor: &mut Cursor<'_>,
) -> Result<Commas<Expr>, ReadError>
    requires ready { T.ready trees.now }
    ensures { GivesAt (T.left trees.now) read_row result cursor.old cursor.new }
{
    if cursor.first().is_one_of(&[Keyword::With]) {
        return Err(ReadError::Syntax);
    }
    exprs(trees, alloc, cursor)
}

/// `"(" exprs ")"`
#[tactic(auto, unfolding(query_reading::specs::Operands::read_row_parens))]
pub fn row_parens<T: Trees>(
    trees: &T,
    alloc: Global,
    cursor: &mut Cursor<'_>,
) -> Result<InParens<Commas<Expr>>, ReadError>
    requires ready { T.ready trees.now }
    ensures { GivesAt (T.left trees.now) read_row_parens result cursor.old cursor.new }
{
    let opening = cursor.sign(Mark::Opening)?;
    let inner = row(trees, alloc, cursor)?;
    let closing = cursor.sign(Mark::Closing)?;
    Ok(InParens {
        opening,
        inner,
        closing,
    })
}

/// `[exprs]` of a set.
#[tactic(auto, unfolding(query_reading::specs::Operands::read_opt_row))]
fn opt_row<T: Trees>(
    trees: &T,
    alloc: Global,
    cursor: &mut Cursor<'_>,
) -> Result<Option<Commas<Expr>>, ReadError>
    requires ready { T.ready trees.now }
    ensures { GivesAt (T.left trees.now) read_opt_row result cursor.old cursor.new }
{
    if starts_row(cursor) {
        return Ok(Some(row(trees, alloc, cursor)?));
    }
    Ok(None)
}

/// Whether the tokens that are left look as an expression begins, and not with WITH.
fn starts_row(cursor: &Cursor<'_>) -> bool
    ensures { result ≡ looks (sort_of cursor.now.text) row_starts cursor.now.left }
{
    if cursor.first().is_one_of(&[Keyword::With]) {
        return false;
    }
    starts_expr(cursor)
}

/// `"(" [exprs] ")"` of a set.
#[tactic(auto, unfolding(query_reading::specs::Operands::read_list_parens))]
fn list_parens<T: Trees>(
    trees: &T,
    alloc: Global,
    cursor: &mut Cursor<'_>,
) -> Result<InParens<Option<Commas<Expr>>>, ReadError>
    requires ready { T.ready trees.now }
    ensures { GivesAt (T.left trees.now) read_list_parens result cursor.old cursor.new }
{
    let opening = cursor.sign(Mark::Opening)?;
    let inner = opt_row(trees, alloc, cursor)?;
    let closing = cursor.sign(Mark::Closing)?;
    Ok(InParens {
        opening,
        inner,
        closing,
    })
}

/// `[exprs]` of a function.
#[tactic(auto, unfolding(query_reading::specs::Operands::read_opt_exprs))]
fn opt_exprs<T: Trees>(
    trees: &T,
    alloc: Global,
    cursor: &mut Cursor<'_>,
) -> Result<Option<Commas<Expr>>, ReadError>
    requires ready { T.ready trees.now }
    ensures { GivesAt (T.left trees.now) read_opt_exprs result cursor.old cursor.new }
{
    if starts_expr(cursor) {
        return Ok(Some(exprs(trees, alloc, cursor)?));
    }
    Ok(None)
}

/// `"(" [exprs] ")"` of a function.
#[tactic(auto, unfolding(query_reading::specs::Operands::read_arguments))]
pub fn arguments<T: Trees>(
    trees: &T,
    alloc: Global,
    cursor: &mut Cursor<'_>,
) -> Result<InParens<Option<Commas<Expr>>>, ReadError>
    requires ready { T.ready trees.now }
    ensures { GivesAt (T.left trees.now) read_arguments result cursor.old cursor.new }
{
    let opening = cursor.sign(Mark::Opening)?;
    let inner = opt_exprs(trees, alloc, cursor)?;
    let closing = cursor.sign(Mark::Closing)?;
    Ok(InParens {
        opening,
        inner,
        closing,
    })
}

/// `"(" select ")" | "(" [exprs] ")" | name "(" [exprs] ")" | object`
#[tactic(auto, unfolding(query_reading::specs::Operands::read_in_set))]
pub fn in_set<T: Trees>(
    trees: &T,
    alloc: Global,
    cursor: &mut Cursor<'_>,
) -> Result<InSet, ReadError>
    requires ready { T.ready trees.now }
    ensures { GivesAt (T.left trees.now) read_in_set result cursor.old cursor.new }
{
    if cursor.first().is_sign(Mark::Opening) && begins_select(cursor.second()) {
        return Ok(InSet::Query(query(trees, alloc, cursor)?));
    }
    if starts_parens(cursor) {
        return Ok(InSet::List(list_parens(trees, alloc, cursor)?));
    }
    if cursor.first().is_name() && cursor.second().is_sign(Mark::Opening) {
        let name = cursor.name()?;
        let arguments = arguments(trees, alloc, cursor)?;
        return Ok(InSet::Function { name, arguments });
    }
    Ok(InSet::Object(object(cursor)?))
}
