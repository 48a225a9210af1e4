//! The calls that a case may name.

ghost use Rattle.std.specs.Prelude.{IsTrue};
ghost use Rattle.sql_token.specs.Names.{IsNameKind};
ghost use Rattle.sql_token.specs.Token.{AreTokens};

use crate::answer::Answer;
use crate::field::{number, unescaped};
use crate::values::{affinity, converted, order};
use ddl_parse::{parse_column, parse_index, parse_table, parse_view};
use query_parse::{ParseError, parse_expr, parse_select};
use script_parse::{ScriptError, parse_script};
use sql_token::{Token, TokenError, TokenKind, name_of, tokens};
use sql_tree::first_too_deep;
use std::alloc::{AllocError, Global};
use trigger_parse::parse_trigger;

/// The answer to a line. A line of another form is no case.
pub fn answer_to(alloc: Global, line: &[u8]) -> Result<Answer, AllocError> {
    let mut fields = line.split(|byte| *byte == b'\t');
    let (Some(call), Some(first)) = (fields.next(), fields.next()) else {
        return Ok(Answer::NoSuchCase);
    };
    let second = fields.next();
    let third = fields.next();
    if fields.next().is_some() {
        return Ok(Answer::NoSuchCase);
    }
    match (call, second, third) {
        (b"script", None, None) => script(alloc, first),
        (b"affinity", None, None) => affinity(alloc, first),
        (b"apply", Some(to), Some(before)) => converted(alloc, first, to, before),
        (b"compare", Some(a), Some(b)) => order(alloc, first, a, b),
        (call, place, None) => answer_of_text(alloc, call, first, place),
        _ => Ok(Answer::NoSuchCase),
    }
}

/// What `parse_script` gives.
fn script(alloc: Global, field: &[u8]) -> Result<Answer, AllocError> {
    let Some(text) = unescaped(alloc, field)? else {
        return Ok(Answer::NoSuchCase);
    };
    match parse_script(alloc, text.as_slice()) {
        Ok(commands) => Ok(Answer::Commands(commands)),
        Err(ScriptError::At(at, cause)) => Ok(Answer::Refused(at, cause)),
        Err(ScriptError::Memory(fault)) => Err(fault),
    }
}

/// The answer to a call on the tokens of a text.
fn answer_of_text(
    alloc: Global,
    call: &[u8],
    field: &[u8],
    place: Option<&[u8]>,
) -> Result<Answer, AllocError> {
    let Some(text) = unescaped(alloc, field)? else {
        return Ok(Answer::NoSuchCase);
    };
    let list = match tokens(alloc, text.as_slice()) {
        Ok(list) => list,
        Err(TokenError::Bad(at)) => return Ok(Answer::BadToken(at)),
        Err(TokenError::Memory(fault)) => return Err(fault),
    };
    match (call, place) {
        (b"tokens", None) => Ok(Answer::Tokens(list)),
        (b"nesting", None) => Ok(Answer::TooDeep(first_too_deep(
            alloc,
            text.as_slice(),
            list.as_slice(),
        )?)),
        (b"expr", None) => expr(alloc, text.as_slice(), list.as_slice()),
        (b"select", None) => select(alloc, text.as_slice(), list.as_slice()),
        (b"column", None) => column(alloc, text.as_slice(), list.as_slice()),
        (b"table", None) => table(alloc, text.as_slice(), list.as_slice()),
        (b"index", None) => index(alloc, text.as_slice(), list.as_slice()),
        (b"view", None) => view(alloc, text.as_slice(), list.as_slice()),
        (b"trigger", None) => trigger(alloc, text.as_slice(), list.as_slice()),
        (b"name", Some(place)) => name_at(alloc, text.as_slice(), list.as_slice(), place),
        _ => Ok(Answer::NoSuchCase),
    }
}

/// What `parse_expr` gives.
fn expr(alloc: Global, text: &[u8], list: &[Token]) -> Result<Answer, AllocError> {
    match parse_expr(alloc, text, list) {
        Ok(tree) => Ok(spelled(tree.flatten(alloc)?.as_slice(), list)),
        Err(error) => unparsed(error),
    }
}

/// What `parse_select` gives.
fn select(alloc: Global, text: &[u8], list: &[Token]) -> Result<Answer, AllocError> {
    match parse_select(alloc, text, list) {
        Ok(tree) => Ok(spelled(tree.flatten(alloc)?.as_slice(), list)),
        Err(error) => unparsed(error),
    }
}

/// What `parse_column` gives.
fn column(alloc: Global, text: &[u8], list: &[Token]) -> Result<Answer, AllocError> {
    match parse_column(alloc, text, list) {
        Ok(tree) => Ok(spelled(tree.flatten(alloc)?.as_slice(), list)),
        Err(error) => unparsed(error),
    }
}

/// What `parse_table` gives.
fn table(alloc: Global, text: &[u8], list: &[Token]) -> Result<Answer, AllocError> {
    match parse_table(alloc, text, list) {
        Ok(tree) => Ok(spelled(tree.flatten(alloc)?.as_slice(), list)),
        Err(error) => unparsed(error),
    }
}

/// What `parse_index` gives.
fn index(alloc: Global, text: &[u8], list: &[Token]) -> Result<Answer, AllocError> {
    match parse_index(alloc, text, list) {
        Ok(tree) => Ok(spelled(tree.flatten(alloc)?.as_slice(), list)),
        Err(error) => unparsed(error),
    }
}

/// What `parse_view` gives.
fn view(alloc: Global, text: &[u8], list: &[Token]) -> Result<Answer, AllocError> {
    match parse_view(alloc, text, list) {
        Ok(tree) => Ok(spelled(tree.flatten(alloc)?.as_slice(), list)),
        Err(error) => unparsed(error),
    }
}

/// What `parse_trigger` gives.
fn trigger(alloc: Global, text: &[u8], list: &[Token]) -> Result<Answer, AllocError> {
    match parse_trigger(alloc, text, list) {
        Ok(tree) => Ok(spelled(tree.flatten(alloc)?.as_slice(), list)),
        Err(error) => unparsed(error),
    }
}

/// The answer to a tree that spells these tokens, where it was read of those.
fn spelled(tokens: &[Token], list: &[Token]) -> Answer {
    if tokens == list {
        Answer::Parsed(tokens.len())
    } else {
        Answer::Differs
    }
}

fn unparsed(error: ParseError) -> Result<Answer, AllocError> {
    match error {
        ParseError::Depth(at) => Ok(Answer::Depth(at)),
        ParseError::Syntax => Ok(Answer::Syntax),
        ParseError::Memory(fault) => Err(fault),
    }
}

/// The name that the token which begins at the place spells.
fn name_at(alloc: Global, text: &[u8], list: &[Token], place: &[u8]) -> Result<Answer, AllocError>
    requires { AreTokens text.now list.now }
{
    let Some(at) = number(place) else {
        return Ok(Answer::NoSuchCase);
    };
    for token in list {
        if token.start == at && spells_name(token.kind) {
            return Ok(Answer::Name(name_of(alloc, text, token)?));
        }
    }
    Ok(Answer::NoName)
}

fn spells_name(kind: TokenKind) -> bool
    ensures { IsTrue result → IsNameKind kind }
{
    matches!(kind, TokenKind::Word | TokenKind::Quoted | TokenKind::Str)
}
