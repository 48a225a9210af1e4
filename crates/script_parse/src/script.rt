//! Whole scripts.

ghost use Rattle.std.specs.Prelude.{◌≡◌, List, ℕ, IfOk, IfErr};
ghost use Rattle.common_laws.specs.Results.{Yields};
ghost use Rattle.sql_token.specs.declared.token.Token.{Token as TokenOf};
ghost use Rattle.sql_tree.specs.declared.command.Command.{Command as CommandOf};
ghost use Rattle.sql_token.specs.Token.{AreTokens, FirstBad};
ghost use Rattle.script_parse.specs.declared.error.Cause.{Cause as CauseOf};
ghost use Rattle.script_parse.specs.declared.error.Cause.TheVariants.{BadToken};
ghost use Rattle.script_parse.specs.Script.{IsFirstCause, IsMemory, IsReadable, IsScript, OnRefused};

use crate::error::{Cause, ScriptError};
use crate::pieces::commands_of;
use sql_token::{Token, TokenError, tokens};
use sql_tree::{Command, first_too_deep};
use std::alloc::Global;

/// The most bytes of a script.
pub const MAX_BYTES: usize = 1_048_576;

/// The most commands of a script.
pub const MAX_COMMANDS: usize = 10_000;

/// The commands of a script: pieces ended by `;`, of which the last may lack it. A piece without a token is no command.
///
/// `At` comes with the first cause that holds, whatever else is wrong, and its place in bytes.
pub fn parse_script(alloc: Global, text: &[u8]) -> Result<Vec<Command>, ScriptError>
    // What is read is spelled so.
    ensures found { IfOk result (λ read. IsScript text.now read.items) }
    // What is spelled so is read, unless memory runs out.
    ensures only { (commands : List CommandOf) → IsScript text.now commands → Yields IsMemory (λ read. read.items ≡ commands) result }
    // The cause is the first that holds.
    ensures fault { IfErr result (OnRefused (IsFirstCause text.now)) }
    // Where a cause holds, the first is the answer, at its place.
    ensures first { (at : ℕ) (cause : CauseOf) → IsFirstCause text.now at cause → Yields (OnRefused (λ place why. (place ≡ at) × (why ≡ cause))) (λ read. ⊥) result }
{
    let list = script_tokens(alloc, text)?;
    commands_of(alloc, text, list.as_slice())
}

/// The tokens of a text that is neither too long nor nested too deep.
fn script_tokens(alloc: Global, text: &[u8]) -> Result<Vec<Token>, ScriptError>
    ensures found { IfOk result (λ list. IsReadable text.now list.items) }
    ensures only { (list : List TokenOf) → IsReadable text.now list → Yields IsMemory (λ read. read.items ≡ list) result }
    ensures fault { IfErr result (OnRefused (IsFirstCause text.now)) }
{
    if text.len() > MAX_BYTES {
        return Err(ScriptError::At(MAX_BYTES, Cause::TooLong));
    }
    let list = good_tokens(alloc, text)?;
    match first_too_deep(alloc, text, list.as_slice())? {
        Some(at) => Err(ScriptError::At(at, Cause::Depth)),
        None => Ok(list),
    }
}

/// The tokens of a text.
fn good_tokens(alloc: Global, text: &[u8]) -> Result<Vec<Token>, ScriptError>
    ensures found { IfOk result (λ list. AreTokens text.now list.items) }
    ensures only { (list : List TokenOf) → AreTokens text.now list → Yields IsMemory (λ read. read.items ≡ list) result }
    ensures fault { IfErr result (OnRefused (λ at cause. FirstBad text.now at × (cause ≡ BadToken))) }
{
    match tokens(alloc, text) {
        Ok(list) => Ok(list),
        Err(TokenError::Memory(fault)) => Err(ScriptError::Memory(fault)),
        Err(TokenError::Bad(at)) => Err(ScriptError::At(at, Cause::BadToken)),
    }
}
