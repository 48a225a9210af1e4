//! The texts of tables.
ghost use Rattle.std.specs.Prelude.{◌≡◌, ◌≤◌, ◌↔◌, List, ℕ, ◌++◌, length, IsTrue, IfOk, IfSome, IfNone};
ghost use Rattle.std.specs.Option.{IsSomeAnd};
ghost use Rattle.common_laws.specs.Results.{AnyError, Yields};
ghost use Rattle.sql_token.specs.declared.token.Token.{Token};
ghost use Rattle.plain_sql.specs.TableText.{SpellsTable, IsTableReadAs, IsTableFrame, AreColumns, IsPlainColumn, BeginsColumn, IsBehindWords, last_end};

use crate::names::Names;
use crate::words::{plain_name, read_tokens};
use alter_bytes::Bytes;
use sql_token::{Keyword, Token, is_fixed, is_sign};
use std::alloc::{AllocError, Global};

/// A table's text, as far as it is served.
#[derive(Drop)]
pub struct TableText {
    pub name: Bytes,
    pub columns: Names,
    /// The offset behind the last column.
    pub columns_end: usize,
}

/// Reads CREATE TABLE name ( column, column .. ).
pub fn read_table(alloc: Global, text: &[u8]) -> Result<Option<TableText>, AllocError>
    ensures found { IfOk result (λ read. IfSome read (λ t. SpellsTable text.now t.name t.columns t.columns_end)) }
    ensures only { (name : List ℕ) (columns : List (List ℕ)) (end : ℕ) → SpellsTable text.now name columns end → IsTableReadAs name columns end result }
    ensures inside { IfOk result (λ read. IfSome read (λ t. t.columns_end ≤ length text.now)) }
{
    let Some(list) = read_tokens(alloc, text)? else {
        return Ok(None);
    };
    let [create, table, title, left, inside @ .., right] = list.as_slice() else {
        return Ok(None);
    };
    if !is_frame(text, create, table, left, right) {
        return Ok(None);
    }
    let Some(name) = plain_name(text, title) else {
        return Ok(None);
    };
    let Some(columns) = read_columns(alloc, text, inside)? else {
        return Ok(None);
    };
    let name = Bytes::from_slice(alloc, name)?;
    Ok(Some(TableText {
        name,
        columns,
        columns_end: end_of(inside),
    }))
}

/// Whether these are the fixed tokens of a table's text.
fn is_frame(text: &[u8], create: &Token, table: &Token, left: &Token, right: &Token) -> bool
    ensures { IsTrue result ↔ IsTableFrame text.now create.now table.now left.now right.now }
{
    is_fixed(text, Keyword::Create, create)
        && is_fixed(text, Keyword::Table, table)
        && is_sign(text, b"(", left)
        && is_sign(text, b")", right)
}

/// The place behind the last token, or 0 where there is none.
fn end_of(tokens: &[Token]) -> usize
    ensures { result ≡ last_end tokens.now }
{
    match tokens {
        [.., token] => token.end,
        [] => 0,
    }
}

/// The names of the columns, with a comma between each two.
fn read_columns(alloc: Global, text: &[u8], tokens: &[Token]) -> Result<Option<Names>, AllocError>
    ensures found { IfOk result (λ read. IfSome read (λ names. AreColumns text.now tokens.now names)) }
    ensures only { (names : List (List ℕ)) → AreColumns text.now tokens.now names → Yields AnyError (λ read. IsSomeAnd read (λ found. found ≡ names)) result }
{
    let mut names = Names::new(alloc);
    let mut rest = tokens;
    loop {
        let Some((name, others)) = read_column(text, rest) else {
            return Ok(None);
        };
        names.push(Bytes::from_slice(alloc, name)?)?;
        let [comma, next @ ..] = others else {
            return Ok(Some(names));
        };
        if !is_sign(text, b",", comma) {
            return Ok(None);
        }
        rest = next;
    }
}

/// The name of the column in front, and what stands behind the column.
fn read_column<'a>(text: &'a [u8], tokens: &'a [Token]) -> Option<(&'a [u8], &'a [Token])>
    ensures found { IfSome result (λ read. BeginsColumn text.now tokens.now read.0.now read.1.now) }
    ensures none { IfNone result ((column others : List Token) (name : List ℕ) → tokens.now ≡ column ++ others → IsPlainColumn text.now column name → ⊥) }
{
    let [first, others @ ..] = tokens else {
        return None;
    };
    let name = plain_name(text, first)?;
    Some((name, behind_words(text, others)))
}

/// What stands behind the words in front that are none of SQL's.
fn behind_words<'a>(text: &[u8], tokens: &'a [Token]) -> &'a [Token]
    ensures { IsBehindWords text.now tokens.now result.now }
{
    let mut rest = tokens;
    while let [word, others @ ..] = rest {
        if plain_name(text, word).is_none() {
            break;
        }
        rest = others;
    }
    rest
}
