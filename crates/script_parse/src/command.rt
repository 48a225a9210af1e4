//! The command that a piece of a script is.

ghost use Rattle.std.specs.Prelude.{◌⊎◌, IfOk};
ghost use Rattle.std.specs.List.{AllByRecursion};
ghost use Rattle.sql_token.specs.Token.{IsTokenAt};
ghost use Rattle.sql_tree.specs.declared.command.Command.{Command as CommandOf};
ghost use Rattle.ddl_parse.specs.Given.{IsReadAs};
ghost use Rattle.sql_token.specs.declared.keyword.Keyword.TheVariants as K;
ghost use Rattle.script_parse.specs.Command.{without_word, IsAdded, IsAlter, IsAltered, IsColumnNamed, IsColumnRenamed, IsCommand, IsDefined, IsDropped, IsQualified, IsRebuilt, IsTableRenamed};

use crate::fields::{
    bytes_of_all, column_of, is_bare, is_main, name, table_of, table_text, take_first, without_word,
};
use alter_bytes::Bytes;
use sql_reader::ReadError;
use sql_token::{Keyword, Token, is_fixed, is_sign};
use sql_tree::Command;
use std::alloc::Global;

/// The command that the tokens between two `;` are.
pub fn command(alloc: Global, text: &[u8], piece: &[Token]) -> Result<Command, ReadError>
    requires at { AllByRecursion (IsTokenAt text.now) piece.now }
    ensures found { IfOk result (IsCommand text.now piece.now) }
    ensures only { (command : CommandOf) → IsCommand text.now piece.now command → IsReadAs command result }
{
    let (first, rest) = take_first(piece)?;
    if is_fixed(text, Keyword::Alter, &first) {
        alter(alloc, text, rest)
    } else if is_fixed(text, Keyword::Rebuild, &first) {
        rebuilt(alloc, text, without_word(text, Keyword::Table, rest))
    } else {
        Err(ReadError::Syntax)
    }
}

/// Behind ALTER.
fn alter(alloc: Global, text: &[u8], tokens: &[Token]) -> Result<Command, ReadError>
    requires at { AllByRecursion (IsTokenAt text.now) tokens.now }
    ensures found { IfOk result (IsAlter text.now tokens.now) }
    ensures only { (command : CommandOf) → IsAlter text.now tokens.now command → IsReadAs command result }
{
    let (table_word, rest) = take_first(tokens)?;
    if !is_fixed(text, Keyword::Table, &table_word) {
        return Err(ReadError::Syntax);
    }
    qualified(alloc, text, rest)
}

/// Behind ALTER TABLE.
fn qualified(alloc: Global, text: &[u8], tokens: &[Token]) -> Result<Command, ReadError>
    requires at { AllByRecursion (IsTokenAt text.now) tokens.now }
    ensures found { IfOk result (λ command. IsAltered text.now tokens.now command ⊎ IsQualified text.now tokens.now command) }
    ensures only { (command : CommandOf) → (IsAltered text.now tokens.now command ⊎ IsQualified text.now tokens.now command) → IsReadAs command result }
{
    let (qualifier, rest) = take_first(tokens)?;
    let (dot, behind) = take_first(rest)?;
    if !is_sign(text, b".", &dot) {
        return altered(alloc, text, tokens);
    }
    if !is_main(alloc, text, &qualifier)? {
        return Err(ReadError::Syntax);
    }
    altered(alloc, text, behind)
}

/// Behind ALTER TABLE and a qualifier.
fn altered(alloc: Global, text: &[u8], tokens: &[Token]) -> Result<Command, ReadError>
    requires at { AllByRecursion (IsTokenAt text.now) tokens.now }
    ensures found { IfOk result (IsAltered text.now tokens.now) }
    ensures only { (command : CommandOf) → IsAltered text.now tokens.now command → IsReadAs command result }
{
    let (table, rest) = take_first(tokens)?;
    let (verb, rest) = take_first(rest)?;
    if is_fixed(text, Keyword::Rename, &verb) {
        renamed(alloc, text, &table, rest)
    } else if is_fixed(text, Keyword::Add, &verb) {
        added(
            alloc,
            text,
            &table,
            without_word(text, Keyword::Column, rest),
        )
    } else if is_fixed(text, Keyword::Drop, &verb) {
        dropped(
            alloc,
            text,
            &table,
            without_word(text, Keyword::Column, rest),
        )
    } else {
        Err(ReadError::Syntax)
    }
}

/// Behind RENAME. Two tokens rename the table, three or four a column.
fn renamed(
    alloc: Global,
    text: &[u8],
    table: &Token,
    tokens: &[Token],
) -> Result<Command, ReadError>
    requires table { IsTokenAt text.now table.now }
    requires at { AllByRecursion (IsTokenAt text.now) tokens.now }
    ensures found { IfOk result (λ command. IsTableRenamed text.now table.now tokens.now command ⊎ IsColumnRenamed text.now table.now (without_word text.now K.Column tokens.now) command) }
    ensures only { (command : CommandOf) → (IsTableRenamed text.now table.now tokens.now command ⊎ IsColumnRenamed text.now table.now (without_word text.now K.Column tokens.now) command) → IsReadAs command result }
{
    if tokens.len() == 2 {
        table_renamed(alloc, text, table, tokens)
    } else {
        column_renamed(
            alloc,
            text,
            table,
            without_word(text, Keyword::Column, tokens),
        )
    }
}

/// `TO name`
fn table_renamed(
    alloc: Global,
    text: &[u8],
    table: &Token,
    tokens: &[Token],
) -> Result<Command, ReadError>
    requires table { IsTokenAt text.now table.now }
    requires at { AllByRecursion (IsTokenAt text.now) tokens.now }
    ensures found { IfOk result (IsTableRenamed text.now table.now tokens.now) }
    ensures only { (command : CommandOf) → IsTableRenamed text.now table.now tokens.now command → IsReadAs command result }
{
    let [to_word, new] = tokens else {
        return Err(ReadError::Syntax);
    };
    if !is_fixed(text, Keyword::To, to_word) {
        return Err(ReadError::Syntax);
    }
    let table = name(alloc, text, table)?;
    let new = name(alloc, text, new)?;
    Ok(Command::RenameTable { table, new })
}

/// `name TO name`
fn column_renamed(
    alloc: Global,
    text: &[u8],
    table: &Token,
    tokens: &[Token],
) -> Result<Command, ReadError>
    requires table { IsTokenAt text.now table.now }
    requires at { AllByRecursion (IsTokenAt text.now) tokens.now }
    ensures found { IfOk result (IsColumnRenamed text.now table.now tokens.now) }
    ensures only { (command : CommandOf) → IsColumnRenamed text.now table.now tokens.now command → IsReadAs command result }
{
    let [column, to_word, new] = tokens else {
        return Err(ReadError::Syntax);
    };
    if !is_fixed(text, Keyword::To, to_word) {
        return Err(ReadError::Syntax);
    }
    column_named(alloc, text, table, column, new)
}

/// The command that renames the column to the new name.
fn column_named(
    alloc: Global,
    text: &[u8],
    table: &Token,
    column: &Token,
    new: &Token,
) -> Result<Command, ReadError>
    requires table { IsTokenAt text.now table.now }
    requires column { IsTokenAt text.now column.now }
    requires new { IsTokenAt text.now new.now }
    ensures found { IfOk result (IsColumnNamed text.now table.now column.now new.now) }
    ensures only { (command : CommandOf) → IsColumnNamed text.now table.now column.now new.now command → IsReadAs command result }
{
    let bare = is_bare(new);
    let table = name(alloc, text, table)?;
    let column = name(alloc, text, column)?;
    let new = name(alloc, text, new)?;
    Ok(Command::RenameColumn {
        table,
        column,
        new,
        bare,
    })
}

/// A column's definition.
fn added(alloc: Global, text: &[u8], table: &Token, tokens: &[Token]) -> Result<Command, ReadError>
    requires table { IsTokenAt text.now table.now }
    ensures found { IfOk result (IsAdded text.now table.now tokens.now) }
    ensures only { (command : CommandOf) → IsAdded text.now table.now tokens.now command → IsReadAs command result }
{
    let table = name(alloc, text, table)?;
    let body = bytes_of_all(text, tokens);
    let column = column_of(alloc, body)?;
    let copy = Bytes::from_slice(alloc, body)?;
    Ok(Command::Add {
        table,
        text: copy,
        column,
    })
}

/// `name`
fn dropped(
    alloc: Global,
    text: &[u8],
    table: &Token,
    tokens: &[Token],
) -> Result<Command, ReadError>
    requires table { IsTokenAt text.now table.now }
    requires at { AllByRecursion (IsTokenAt text.now) tokens.now }
    ensures found { IfOk result (IsDropped text.now table.now tokens.now) }
    ensures only { (command : CommandOf) → IsDropped text.now table.now tokens.now command → IsReadAs command result }
{
    let [column] = tokens else {
        return Err(ReadError::Syntax);
    };
    let table = name(alloc, text, table)?;
    let column = name(alloc, text, column)?;
    Ok(Command::Drop { table, column })
}

/// Behind REBUILD and TABLE.
fn rebuilt(alloc: Global, text: &[u8], tokens: &[Token]) -> Result<Command, ReadError>
    requires at { AllByRecursion (IsTokenAt text.now) tokens.now }
    ensures found { IfOk result (IsRebuilt text.now tokens.now) }
    ensures only { (command : CommandOf) → IsRebuilt text.now tokens.now command → IsReadAs command result }
{
    let [table, as_word, create, table_word, definition @ ..] = tokens else {
        return Err(ReadError::Syntax);
    };
    if !is_fixed(text, Keyword::As, as_word)
        || !is_fixed(text, Keyword::Create, create)
        || !is_fixed(text, Keyword::Table, table_word)
    {
        return Err(ReadError::Syntax);
    }
    defined(alloc, text, table, definition)
}

/// The command that rebuilds the table by the definition.
fn defined(
    alloc: Global,
    text: &[u8],
    table: &Token,
    tokens: &[Token],
) -> Result<Command, ReadError>
    requires table { IsTokenAt text.now table.now }
    ensures found { IfOk result (IsDefined text.now table.now tokens.now) }
    ensures only { (command : CommandOf) → IsDefined text.now table.now tokens.now command → IsReadAs command result }
{
    let table = name(alloc, text, table)?;
    let body = table_text(alloc, bytes_of_all(text, tokens))?;
    let definition = table_of(alloc, body.as_slice())?;
    Ok(Command::Rebuild {
        table,
        text: body,
        definition,
    })
}
