//! Literals, actions and the operators between parts.

ghost use Rattle.std.specs.Prelude.{◌≡◌};
ghost use Rattle.sql_reader.specs.Cursor.{Finds};
ghost use Rattle.query_reading.specs.Operators.{read_action, read_distinct_from, read_is_distinct, read_is_not, read_literal, read_operator, read_word_literal};

use crate::leaves::{is_dot_or_opening, is_infix_sign, lone_string, maybe_not};
use sql_expr::{Action, Infix, Literal, TokenPair};
use sql_reader::{Cursor, ReadError, Sort};
use sql_token::Keyword;

/// `number | string | blob | NULL | CURRENT_DATE | CURRENT_TIME | CURRENT_TIMESTAMP`
#[tactic(auto, unfolding(crate::specs::Operators::read_literal))]
pub fn literal(cursor: &mut Cursor<'_>) -> Result<Literal, ReadError>
    ensures { Finds read_literal result cursor.old cursor.new }
{
    let first = cursor.first();
    if first.is_number() {
        return Ok(Literal::Number(cursor.take_if(true)?));
    }
    if first == Sort::Str && !is_dot_or_opening(cursor.second()) {
        return Ok(Literal::Str(lone_string(cursor)?));
    }
    if first == Sort::Blob {
        return Ok(Literal::Blob(cursor.take_if(true)?));
    }
    word_literal(cursor)
}

/// `ROLLBACK | ABORT | FAIL`
#[tactic(auto, unfolding(crate::specs::Operators::read_action))]
pub fn action(cursor: &mut Cursor<'_>) -> Result<Action, ReadError>
    ensures { Finds read_action result cursor.old cursor.new }
{
    if cursor.first().is_word(Keyword::Rollback) {
        return Ok(Action::Rollback(cursor.word(Keyword::Rollback)?));
    }
    if cursor.first().is_word(Keyword::Abort) {
        return Ok(Action::Abort(cursor.word(Keyword::Abort)?));
    }
    Ok(Action::Fail(cursor.word(Keyword::Fail)?))
}

/// `[DISTINCT FROM]`
#[tactic(auto, unfolding(crate::specs::Operators::read_distinct_from))]
fn distinct_from(cursor: &mut Cursor<'_>) -> Result<Option<TokenPair>, ReadError>
    ensures { Finds read_distinct_from result cursor.old cursor.new }
{
    if cursor.first().is_word(Keyword::Distinct) && cursor.second().is_word(Keyword::From) {
        let first = cursor.word(Keyword::Distinct)?;
        let second = cursor.word(Keyword::From)?;
        return Ok(Some(TokenPair { first, second }));
    }
    Ok(None)
}

/// `NULL | CURRENT_DATE | CURRENT_TIME | CURRENT_TIMESTAMP`
#[tactic(auto, unfolding(crate::specs::Operators::read_word_literal))]
fn word_literal(cursor: &mut Cursor<'_>) -> Result<Literal, ReadError>
    ensures { Finds read_word_literal result cursor.old cursor.new }
{
    if cursor.first().is_word(Keyword::Null) {
        return Ok(Literal::Null(cursor.word(Keyword::Null)?));
    }
    if cursor.first().is_word(Keyword::CurrentDate) {
        return Ok(Literal::CurrentDate(cursor.word(Keyword::CurrentDate)?));
    }
    if cursor.first().is_word(Keyword::CurrentTime) {
        return Ok(Literal::CurrentTime(cursor.word(Keyword::CurrentTime)?));
    }
    Ok(Literal::CurrentTimestamp(cursor.word(Keyword::CurrentTimestamp)?))
}

/// `IS NOT [DISTINCT FROM]`
#[tactic(auto, unfolding(crate::specs::Operators::read_is_not))]
fn is_not(cursor: &mut Cursor<'_>) -> Result<Infix, ReadError>
    ensures { Finds read_is_not result cursor.old cursor.new }
{
    let is = cursor.word(Keyword::Is)?;
    let not = cursor.word(Keyword::Not)?;
    let distinct_from = distinct_from(cursor)?;
    Ok(Infix::Is {
        is,
        not: Some(not),
        distinct_from,
    })
}

/// `IS DISTINCT FROM`
#[tactic(auto, unfolding(crate::specs::Operators::read_is_distinct))]
fn is_distinct(cursor: &mut Cursor<'_>) -> Result<Infix, ReadError>
    ensures { Finds read_is_distinct result cursor.old cursor.new }
{
    let is = cursor.word(Keyword::Is)?;
    let first = cursor.word(Keyword::Distinct)?;
    let second = cursor.word(Keyword::From)?;
    Ok(Infix::Is {
        is,
        not: None,
        distinct_from: Some(TokenPair { first, second }),
    })
}

/// Any operator but a bare IS.
#[tactic(auto, unfolding(crate::specs::Operators::read_operator))]
pub fn operator(cursor: &mut Cursor<'_>) -> Result<Infix, ReadError>
    ensures { Finds read_operator result cursor.old cursor.new }
{
    let first = cursor.first();
    if first.is_word(Keyword::Is) && cursor.second().is_word(Keyword::Not) {
        return is_not(cursor);
    }
    if first.is_word(Keyword::Is) && cursor.second().is_word(Keyword::Distinct) {
        return is_distinct(cursor);
    }
    if first.is_word(Keyword::And) {
        return Ok(Infix::And(cursor.word(Keyword::And)?));
    }
    if first.is_word(Keyword::Or) {
        return Ok(Infix::Or(cursor.word(Keyword::Or)?));
    }
    if first.is_word(Keyword::Escape) {
        return Ok(Infix::Escape(cursor.word(Keyword::Escape)?));
    }
    if is_infix_sign(first) {
        return Ok(Infix::Sign(cursor.take_if(true)?));
    }
    let words = [
        Keyword::Between,
        Keyword::Like,
        Keyword::Glob,
        Keyword::Regexp,
        Keyword::Match,
    ];
    let (not, word) = maybe_not(cursor, &words)?;
    Ok(Infix::Compares { not, word })
}
