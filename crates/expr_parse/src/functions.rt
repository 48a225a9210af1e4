//! Calls of functions, CASE, CAST and RAISE.

ghost use Rattle.std.specs.Prelude.{◌≡◌};
ghost use Rattle.sql_reader.specs.Looks.{looks};
ghost use Rattle.sql_reader.specs.Sorts.{sort_of};
ghost use Rattle.expr_parse.specs.Given.{GivesAt};
ghost use Rattle.query_reading.specs.Calls.{arguments_starts, read_call, read_call_arguments, read_call_parens, read_case, read_cast, read_filter_parens, read_more_whens, read_opt_arguments, read_opt_expr, read_opt_filter, read_opt_over, read_over, read_raise, read_raise_action, read_raise_parens, read_when, read_where_expr};

use crate::lists::{exprs, next_expr};
use crate::trees::Trees;
use crate::windows::{opt_after, opt_order, window};
use query_reading::{action, operand_name, opt_type, optional_word, starts_expr};
use sql_expr::{
    After, Call, CallArguments, Case, Cast, Expr, InParens, Over, Raise, RaiseAction, When,
};
use sql_reader::{Cursor, Mark, ReadError};
use sql_token::Keyword;
use sqlite_items::{Boxed, Items};
use std::alloc::Global;

/// `name "(" [arguments] ")" [FILTER "(" WHERE expr ")"] [OVER (name | window)]`
#[tactic(auto, unfolding(query_reading::specs::Calls::read_call))]
pub fn call<T: Trees>(
    trees: &T,
    alloc: Global,
    cursor: &mut Cursor<'_>,
) -> Result<Boxed<Call<Expr>>, ReadError>
    requires ready { T.ready trees.now }
    ensures { GivesAt (T.left trees.now) read_call result cursor.old cursor.new }
{
    let name = operand_name(cursor)?;
    let arguments = call_parens(trees, alloc, cursor)?;
    let filter = opt_filter(trees, alloc, cursor)?;
    let over = opt_over(trees, alloc, cursor)?;
    let call = Call {
        name,
        arguments,
        filter,
        over,
    };
    Ok(Boxed::new(alloc, call)?)
}

/// `"(" [arguments] ")"`
#[tactic(auto, unfolding(query_reading::specs::Calls::read_call_parens))]
fn call_parens<T: Trees>(
    trees: &T,
    alloc: Global,
    cursor: &mut Cursor<'_>,
) -> Result<InParens<Option<CallArguments<Expr>>>, ReadError>
    requires ready { T.ready trees.now }
    ensures { GivesAt (T.left trees.now) read_call_parens result cursor.old cursor.new }
{
    let opening = cursor.sign(Mark::Opening)?;
    let inner = opt_arguments(trees, alloc, cursor)?;
    let closing = cursor.sign(Mark::Closing)?;
    Ok(InParens {
        opening,
        inner,
        closing,
    })
}

/// `[arguments]`
#[tactic(auto, unfolding(query_reading::specs::Calls::read_opt_arguments))]
fn opt_arguments<T: Trees>(
    trees: &T,
    alloc: Global,
    cursor: &mut Cursor<'_>,
) -> Result<Option<CallArguments<Expr>>, ReadError>
    requires ready { T.ready trees.now }
    ensures { GivesAt (T.left trees.now) read_opt_arguments result cursor.old cursor.new }
{
    if starts_arguments(cursor) {
        return Ok(Some(call_arguments(trees, alloc, cursor)?));
    }
    Ok(None)
}

/// Whether the tokens that are left look as the arguments of a call begin.
fn starts_arguments(cursor: &Cursor<'_>) -> bool
    ensures { result ≡ looks (sort_of cursor.now.text) arguments_starts cursor.now.left }
{
    let first = cursor.first();
    first.is_sign(Mark::Star) || first.is_word(Keyword::Distinct) || starts_expr(cursor)
}

/// `"*" | [DISTINCT] exprs [ORDER BY terms]`
#[tactic(auto, unfolding(query_reading::specs::Calls::read_call_arguments))]
fn call_arguments<T: Trees>(
    trees: &T,
    alloc: Global,
    cursor: &mut Cursor<'_>,
) -> Result<CallArguments<Expr>, ReadError>
    requires ready { T.ready trees.now }
    ensures { GivesAt (T.left trees.now) read_call_arguments result cursor.old cursor.new }
{
    if cursor.first().is_sign(Mark::Star) {
        return Ok(CallArguments::Star(cursor.sign(Mark::Star)?));
    }
    let distinct = optional_word(cursor, Keyword::Distinct)?;
    let exprs = exprs(trees, alloc, cursor)?;
    let order = opt_order(trees, alloc, cursor)?;
    Ok(CallArguments::Exprs {
        distinct,
        exprs,
        order,
    })
}

/// `WHERE expr`
#[tactic(auto, unfolding(query_reading::specs::Calls::read_where_expr))]
fn where_expr<T: Trees>(
    trees: &T,
    alloc: Global,
    cursor: &mut Cursor<'_>,
) -> Result<After<Expr>, ReadError>
    requires ready { T.ready trees.now }
    ensures { GivesAt (T.left trees.now) read_where_expr result cursor.old cursor.new }
{
    let word = cursor.word(Keyword::Where)?;
    let part = trees.expr(alloc, cursor)?;
    Ok(After { word, part })
}

/// `"(" WHERE expr ")"`
#[tactic(auto, unfolding(query_reading::specs::Calls::read_filter_parens))]
fn filter_parens<T: Trees>(
    trees: &T,
    alloc: Global,
    cursor: &mut Cursor<'_>,
) -> Result<InParens<After<Expr>>, ReadError>
    requires ready { T.ready trees.now }
    ensures { GivesAt (T.left trees.now) read_filter_parens result cursor.old cursor.new }
{
    let opening = cursor.sign(Mark::Opening)?;
    let inner = where_expr(trees, alloc, cursor)?;
    let closing = cursor.sign(Mark::Closing)?;
    Ok(InParens {
        opening,
        inner,
        closing,
    })
}

/// `[FILTER "(" WHERE expr ")"]`
#[tactic(auto, unfolding(query_reading::specs::Calls::read_opt_filter))]
fn opt_filter<T: Trees>(
    trees: &T,
    alloc: Global,
    cursor: &mut Cursor<'_>,
) -> Result<Option<After<InParens<After<Expr>>>>, ReadError>
    requires ready { T.ready trees.now }
    ensures { GivesAt (T.left trees.now) read_opt_filter result cursor.old cursor.new }
{
    if cursor.first().is_word(Keyword::Filter) {
        let word = cursor.word(Keyword::Filter)?;
        let part = filter_parens(trees, alloc, cursor)?;
        return Ok(Some(After { word, part }));
    }
    Ok(None)
}

/// `OVER (name | window)`
#[tactic(auto, unfolding(query_reading::specs::Calls::read_over))]
fn over<T: Trees>(
    trees: &T,
    alloc: Global,
    cursor: &mut Cursor<'_>,
) -> Result<Over<Expr>, ReadError>
    requires ready { T.ready trees.now }
    ensures { GivesAt (T.left trees.now) read_over result cursor.old cursor.new }
{
    if cursor.first().is_word(Keyword::Over) && cursor.second().is_name() {
        let over = cursor.word(Keyword::Over)?;
        let name = cursor.name()?;
        return Ok(Over::Name { over, name });
    }
    let over = cursor.word(Keyword::Over)?;
    let window = window(trees, alloc, cursor)?;
    Ok(Over::Window { over, window })
}

/// `[OVER (name | window)]`
#[tactic(auto, unfolding(query_reading::specs::Calls::read_opt_over))]
fn opt_over<T: Trees>(
    trees: &T,
    alloc: Global,
    cursor: &mut Cursor<'_>,
) -> Result<Option<Over<Expr>>, ReadError>
    requires ready { T.ready trees.now }
    ensures { GivesAt (T.left trees.now) read_opt_over result cursor.old cursor.new }
{
    let second = cursor.second();
    if cursor.first().is_word(Keyword::Over)
        && (second.is_name() || second.is_sign(Mark::Opening))
    {
        return Ok(Some(over(trees, alloc, cursor)?));
    }
    Ok(None)
}

/// `CASE [expr] when {when} [ELSE expr] END`
#[tactic(auto, unfolding(query_reading::specs::Calls::read_case))]
pub fn case<T: Trees>(
    trees: &T,
    alloc: Global,
    cursor: &mut Cursor<'_>,
) -> Result<Boxed<Case<Expr>>, ReadError>
    requires ready { T.ready trees.now }
    ensures { GivesAt (T.left trees.now) read_case result cursor.old cursor.new }
{
    let case = cursor.word(Keyword::Case)?;
    let subject = opt_expr(trees, alloc, cursor)?;
    let first = when(trees, alloc, cursor)?;
    let more = more_whens(trees, alloc, cursor)?;
    let otherwise = opt_after(trees, alloc, cursor, Keyword::Else)?;
    let end = cursor.word(Keyword::End)?;
    let case = Case {
        case,
        subject,
        first,
        more,
        otherwise,
        end,
    };
    Ok(Boxed::new(alloc, case)?)
}

/// `[expr]`
#[tactic(auto, unfolding(query_reading::specs::Calls::read_opt_expr))]
fn opt_expr<T: Trees>(
    trees: &T,
    alloc: Global,
    cursor: &mut Cursor<'_>,
) -> Result<Option<Expr>, ReadError>
    requires ready { T.ready trees.now }
    ensures { GivesAt (T.left trees.now) read_opt_expr result cursor.old cursor.new }
{
    if starts_expr(cursor) {
        return Ok(Some(trees.expr(alloc, cursor)?));
    }
    Ok(None)
}

/// `WHEN expr THEN expr`
#[tactic(auto, unfolding(query_reading::specs::Calls::read_when))]
fn when<T: Trees>(
    trees: &T,
    alloc: Global,
    cursor: &mut Cursor<'_>,
) -> Result<When<Expr>, ReadError>
    requires ready { T.ready trees.now }
    ensures { GivesAt (T.left trees.now) read_when result cursor.old cursor.new }
{
    let when = cursor.word(Keyword::When)?;
    let condition = trees.expr(alloc, cursor)?;
    let then_word = cursor.word(Keyword::Then)?;
    let result = trees.expr(alloc, cursor)?;
    Ok(When {
        when,
        condition,
        then_word,
        result,
    })
}

/// `{when}`
#[tactic(auto, unfolding(query_reading::specs::Calls::read_more_whens))]
fn more_whens<T: Trees>(
    trees: &T,
    alloc: Global,
    cursor: &mut Cursor<'_>,
) -> Result<Items<When<Expr>>, ReadError>
    requires ready { T.ready trees.now }
    ensures { GivesAt (T.left trees.now) read_more_whens result cursor.old cursor.new }
{
    let mut more = Items::new(alloc);
    while cursor.first().is_word(Keyword::When) {
        let next = when(trees, alloc, cursor)?;
        more.push(next)?;
    }
    Ok(more)
}

/// `CAST "(" expr AS [type] ")"`
#[tactic(auto, unfolding(query_reading::specs::Calls::read_cast))]
pub fn cast<T: Trees>(
    trees: &T,
    alloc: Global,
    cursor: &mut Cursor<'_>,
) -> Result<Boxed<Cast<Expr>>, ReadError>
    requires ready { T.ready trees.now }
    ensures { GivesAt (T.left trees.now) read_cast result cursor.old cursor.new }
{
    let cast = cursor.word(Keyword::Cast)?;
    let opening = cursor.sign(Mark::Opening)?;
    let expr = trees.expr(alloc, cursor)?;
    let as_word = cursor.word(Keyword::As)?;
    let column_type = opt_type(alloc, cursor)?;
    let closing = cursor.sign(Mark::Closing)?;
    let cast = Cast {
        cast,
        opening,
        expr,
        as_word,
        column_type,
        closing,
    };
    Ok(Boxed::new(alloc, cast)?)
}

/// `IGNORE | action "," expr`
#[tactic(auto, unfolding(query_reading::specs::Calls::read_raise_action))]
fn raise_action<T: Trees>(
    trees: &T,
    alloc: Global,
    cursor: &mut Cursor<'_>,
) -> Result<RaiseAction<Expr>, ReadError>
    requires ready { T.ready trees.now }
    ensures { GivesAt (T.left trees.now) read_raise_action result cursor.old cursor.new }
{
    if cursor.first().is_word(Keyword::Ignore) {
        return Ok(RaiseAction::Ignore(cursor.word(Keyword::Ignore)?));
    }
    let action = action(cursor)?;
    let message = next_expr(trees, alloc, cursor)?;
    Ok(RaiseAction::Action { action, message })
}

/// `"(" raise-action ")"`
#[tactic(auto, unfolding(query_reading::specs::Calls::read_raise_parens))]
fn raise_parens<T: Trees>(
    trees: &T,
    alloc: Global,
    cursor: &mut Cursor<'_>,
) -> Result<InParens<RaiseAction<Expr>>, ReadError>
    requires ready { T.ready trees.now }
    ensures { GivesAt (T.left trees.now) read_raise_parens result cursor.old cursor.new }
{
    let opening = cursor.sign(Mark::Opening)?;
    let inner = raise_action(trees, alloc, cursor)?;
    let closing = cursor.sign(Mark::Closing)?;
    Ok(InParens {
        opening,
        inner,
        closing,
    })
}

/// `RAISE "(" (IGNORE | action "," expr) ")"`
#[tactic(auto, unfolding(query_reading::specs::Calls::read_raise))]
pub fn raise<T: Trees>(
    trees: &T,
    alloc: Global,
    cursor: &mut Cursor<'_>,
) -> Result<Boxed<Raise<Expr>>, ReadError>
    requires ready { T.ready trees.now }
    ensures { GivesAt (T.left trees.now) read_raise result cursor.old cursor.new }
{
    let raise = cursor.word(Keyword::Raise)?;
    let action = raise_parens(trees, alloc, cursor)?;
    Ok(Boxed::new(alloc, Raise { raise, action })?)
}
