//! The commands of a script.
ghost use Rattle.std.specs.Prelude.{◌≡◌, ◌↔◌, List, ℕ, ◌∷◌, ◌++◌, IsTrue, IfOk, IfSome, IfNone};
ghost use Rattle.std.specs.List.{AllByRecursion};
ghost use Rattle.sql_token.specs.declared.token.Token.{Token};
ghost use Rattle.plain_sql.specs.declared.script.Command.{Command};
ghost use Rattle.plain_sql.specs.Words.{IsPlainName};
ghost use Rattle.plain_sql.specs.Script.{IsCommandList, IsScript, IsPlainCommand, IsWithin, IsListReadAs, SpellsCommands, SpellsCommand, BeginsCommand, IsAdd, IsColumnWord, IsBehindColumnWord, IsBehindEnds, IsEnded};

use crate::words::{plain_name, read_tokens};
use alter_bytes::Bytes;
use sql_token::{Keyword, Token, is_fixed, is_sign};
use std::alloc::{AllocError, Global};

/// ALTER TABLE table ADD column.
#[derive(Drop)]
pub struct Command {
    pub table: Bytes,
    pub column: Bytes,
}

/// The names of a command in front of some tokens, and the tokens behind it.
#[derive(Clone, Copy)]
struct Piece<'a> {
    table: &'a [u8],
    column: &'a [u8],
    others: &'a [Token],
}

/// The most commands of a script that is served.
const MAX_COMMANDS: usize = 10_000;

/// Reads a script. `None` comes where its text is no list of commands, and where it has more than 10,000.
pub fn read_script(alloc: Global, text: &[u8]) -> Result<Option<Vec<Command>>, AllocError>
    ensures found { IfOk result (λ read. IfSome read (λ commands. IsScript text.now commands.items)) }
    ensures only { (commands : List Command) → IsScript text.now commands → IsListReadAs commands result }
    ensures plain { IfOk result (λ read. IfSome read (λ commands. AllByRecursion IsPlainCommand commands.items)) }
    ensures within { IfOk result (λ read. IfSome read (λ commands. AllByRecursion (IsWithin text.now) commands.items)) }
{
    let Some(commands) = read_commands(alloc, text)? else {
        return Ok(None);
    };
    if commands.len() <= MAX_COMMANDS {
        Ok(Some(commands))
    } else {
        Ok(None)
    }
}

/// Reads the commands, of any number.
fn read_commands(alloc: Global, text: &[u8]) -> Result<Option<Vec<Command>>, AllocError>
    ensures found { IfOk result (λ read. IfSome read (λ commands. IsCommandList text.now commands.items)) }
    ensures only { (commands : List Command) → IsCommandList text.now commands → IsListReadAs commands result }
{
    let Some(list) = read_tokens(alloc, text)? else {
        return Ok(None);
    };
    commands_of(alloc, text, list.as_slice())
}

fn commands_of(
    alloc: Global,
    text: &[u8],
    tokens: &[Token],
) -> Result<Option<Vec<Command>>, AllocError>
    ensures found { IfOk result (λ read. IfSome read (λ commands. SpellsCommands text.now tokens.now commands.items)) }
    ensures only { (commands : List Command) → SpellsCommands text.now tokens.now commands → IsListReadAs commands result }
{
    let mut commands = Vec::new(alloc);
    let mut rest = behind_ends(text, tokens);
    while !rest.is_empty() {
        let Some(piece) = command_in_front(text, rest) else {
            return Ok(None);
        };
        if !is_ended(text, piece.others) {
            return Ok(None);
        }
        let table = Bytes::from_slice(alloc, piece.table)?;
        let column = Bytes::from_slice(alloc, piece.column)?;
        commands.push(Command { table, column })?;
        rest = behind_ends(text, piece.others);
    }
    Ok(Some(commands))
}

/// The command in front.
fn command_in_front<'a>(text: &'a [u8], tokens: &'a [Token]) -> Option<Piece<'a>>
    ensures found { IfSome result (λ p. BeginsCommand text.now tokens.now p.table.now p.column.now p.others.now) }
    ensures none { IfNone result ((piece others : List Token) (command : Command) → tokens.now ≡ piece ++ others → SpellsCommand text.now piece command → ⊥) }
{
    let [alter, table_word, table, add, behind @ ..] = tokens else {
        return None;
    };
    if !is_add(text, alter, table_word, add) {
        return None;
    }
    let table = plain_name(text, table)?;
    let [column, others @ ..] = behind_column_word(text, behind) else {
        return None;
    };
    let column = plain_name(text, column)?;
    Some(Piece {
        table,
        column,
        others,
    })
}

/// Whether these are the fixed words of a command.
fn is_add(text: &[u8], alter: &Token, table: &Token, add: &Token) -> bool
    ensures { IsTrue result ↔ IsAdd text.now alter.now table.now add.now }
{
    is_fixed(text, Keyword::Alter, alter)
        && is_fixed(text, Keyword::Table, table)
        && is_fixed(text, Keyword::Add, add)
}

/// What stands behind the word COLUMN, or all where it is not in front.
fn behind_column_word<'a>(text: &[u8], tokens: &'a [Token]) -> &'a [Token]
    ensures found { IsBehindColumnWord text.now tokens.now result.now }
    ensures only { (word others : List Token) (column : Token) (name : List ℕ) → tokens.now ≡ word ++ column ∷ others → IsColumnWord text.now word → IsPlainName text.now column name → result.now ≡ column ∷ others }
{
    match tokens {
        [word, behind @ ..] if is_fixed(text, Keyword::Column, word) => behind,
        _ => tokens,
    }
}

/// What stands behind each `;` in front.
fn behind_ends<'a>(text: &[u8], tokens: &'a [Token]) -> &'a [Token]
    ensures { IsBehindEnds text.now tokens.now result.now }
{
    let mut rest = tokens;
    while let [token, others @ ..] = rest {
        if !is_sign(text, b";", token) {
            break;
        }
        rest = others;
    }
    rest
}

/// Whether nothing follows, or a `;` first.
fn is_ended(text: &[u8], tokens: &[Token]) -> bool
    ensures { IsTrue result ↔ IsEnded text.now tokens.now }
{
    match tokens {
        [token, ..] => is_sign(text, b";", token),
        [] => true,
    }
}
