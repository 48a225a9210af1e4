//! Pieces of a script, and the commands that they are.

ghost use Rattle.std.specs.Prelude.{◌≡◌, ◌≤◌, List, length, IfOk, IfErr, OnOk};
ghost use Rattle.common_laws.specs.Results.{Yields};
ghost use Rattle.std.specs.List.{AllByRecursion};
ghost use Rattle.sql_token.specs.Token.{AreTokens, IsTokenAt};
ghost use Rattle.sql_tree.specs.declared.command.Command.{Command as CommandOf};
ghost use Rattle.script_parse.specs.declared.error.Cause.TheVariants.{Syntax};
ghost use Rattle.script_parse.specs.Command.{IsCommand};
ghost use Rattle.script_parse.specs.Script.{AreCommands, IsListFault, IsMemory, IsPieceFault, IsTaken, OnRefused, behind_first, first_piece, is_end, pieces_of};

use crate::command::command;
use crate::error::{Cause, ScriptError};
use crate::script::MAX_COMMANDS;
use sql_reader::{Mark, ReadError, sort_of};
use sql_token::Token;
use sql_tree::Command;
use std::alloc::Global;

/// Whether the token is a `;`.
fn is_end(text: &[u8], token: &Token) -> bool
    ensures { result ≡ is_end text.now token.now }
{
    sort_of(text, token).is_sign(Mark::Semicolon)
}

/// The tokens before the first `;`.
pub fn first_piece<'a>(text: &[u8], tokens: &'a [Token]) -> &'a [Token]
    ensures { result.now ≡ first_piece text.now tokens.now }
{
    let mut count = 0;
    for token in tokens {
        if is_end(text, token) {
            return &tokens[..count];
        }
        count += 1;
    }
    tokens
}

/// The tokens behind the first `;`.
pub fn behind_first<'a>(text: &[u8], tokens: &'a [Token]) -> &'a [Token]
    ensures { result.now ≡ behind_first text.now tokens.now }
{
    let mut rest = tokens;
    while let [token, others @ ..] = rest {
        if is_end(text, token) {
            return others;
        }
        rest = others;
    }
    rest
}

/// The commands that the pieces are which are not empty.
pub fn commands_of(
    alloc: Global,
    text: &[u8],
    tokens: &[Token],
) -> Result<Vec<Command>, ScriptError>
    requires tokens { AreTokens text.now tokens.now }
    ensures found { IfOk result (λ read. AreCommands text.now (pieces_of text.now tokens.now) read.items × (length read.items ≤ 10000)) }
    ensures only { (commands : List CommandOf) → AreCommands text.now (pieces_of text.now tokens.now) commands → length commands ≤ 10000 → Yields IsMemory (λ read. read.items ≡ commands) result }
    ensures fault { IfErr result (OnRefused (IsListFault text.now tokens.now)) }
{
    let mut commands = Vec::new(alloc);
    let mut rest = tokens;
    while !rest.is_empty() {
        let piece = first_piece(text, rest);
        add_command(alloc, text, piece, &mut commands)?;
        rest = behind_first(text, rest);
    }
    Ok(commands)
}

/// Adds the command that the piece is, unless it is empty.
fn add_command(
    alloc: Global,
    text: &[u8],
    piece: &[Token],
    commands: &mut Vec<Command>,
) -> Result<(), ScriptError>
    requires at { AllByRecursion (IsTokenAt text.now) piece.now }
    requires few { length commands.old.items ≤ 10000 }
    ensures ok { OnOk result (IsTaken text.now piece.now commands.old.items commands.new.items) }
    ensures fault { IfErr result (OnRefused (IsPieceFault text.now piece.now commands.old.items)) }
{
    let Some((first, _)) = piece.split_first() else {
        return Ok(());
    };
    if commands.len() == MAX_COMMANDS {
        return Err(ScriptError::At(first.start, Cause::TooMany));
    }
    let command = command_at(alloc, text, piece, first.start)?;
    commands.push(command)?;
    Ok(())
}

/// The command that the piece is, which begins at the place.
fn command_at(
    alloc: Global,
    text: &[u8],
    piece: &[Token],
    at: usize,
) -> Result<Command, ScriptError>
    requires at { AllByRecursion (IsTokenAt text.now) piece.now }
    ensures found { IfOk result (IsCommand text.now piece.now) }
    ensures only { (command : CommandOf) → IsCommand text.now piece.now command → Yields IsMemory (λ read. read ≡ command) result }
    ensures fault { IfErr result (OnRefused (λ place cause. (place ≡ at) × (cause ≡ Syntax))) }
{
    match command(alloc, text, piece) {
        Ok(read) => Ok(read),
        Err(ReadError::Memory(fault)) => Err(ScriptError::Memory(fault)),
        Err(ReadError::Syntax) => Err(ScriptError::At(at, Cause::Syntax)),
    }
}
