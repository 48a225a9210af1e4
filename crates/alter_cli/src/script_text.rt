//! The script's text out of its source, and its commands.
ghost use Rattle.std.specs.Prelude.{◌≡◌, ◌≤◌, ◌<◌, ◌+◌, [], ◌^◌, length, drop, Some, IfOk, IfErr, IsErrOf, is_some, IsSomeAnd};
ghost use Rattle.std.specs.List.{AllByRecursion};
ghost use Rattle.alter_disk.specs.Changes.{IfTold};
ghost use Rattle.alter_disk.specs.Faults.{HasCauseOf};
ghost use Rattle.alter_disk.specs.Uses.{SourceFailed};
ghost use Rattle.plain_sql.specs.Script.{IsPlainCommand};
ghost use Rattle.alter_cli.specs.Causes.{IsFrontTaken};
ghost use Rattle.alter_cli.specs.First.{first_rules};
ghost use Rattle.alter_cli.specs.Outcome.{IsServed};
ghost use Rattle.alter_cli.specs.Stops.{NoScript};

use crate::stop::Stop;
use alter_disk::{Failed, Source};
use plain_sql::{Command, read_script};
use std::alloc::{AllocError, Global};

/// The longest script, in bytes.
pub const SCRIPT_LIMIT: usize = 1_048_576;

/// The bytes that are asked of the source at once.
const CHUNK: usize = 4096;

/// Why there is no text.
#[derive(Drop)]
pub enum NoText {
    Memory,
    Failed,
    TooLong,
}

impl From<AllocError> for NoText {
    ghost use Rattle.std.specs.Prelude.{◌≡◌};
    ghost use Rattle.alter_cli.specs.declared.script_text.NoText.TheVariants.{Memory};

    ghost from_gives = { λ _ e. e ≡ Memory };

    fn from(_fault: AllocError) -> NoText {
        NoText::Memory
    }
}

impl From<Failed> for NoText {
    ghost use Rattle.std.specs.Prelude.{◌≡◌};
    ghost use Rattle.alter_cli.specs.declared.script_text.NoText.TheVariants.{Failed};

    ghost from_gives = { λ _ e. e ≡ Failed };

    fn from(_fault: Failed) -> NoText {
        NoText::Failed
    }
}

impl From<NoText> for Stop {
    ghost use Rattle.alter_cli.specs.StopOf.{stop_of_text};
    ghost use Rattle.std.specs.Prelude.{◌≡◌};

    ghost from_gives = { λ fault e. e ≡ stop_of_text fault };

    fn from(fault: NoText) -> Stop {
        match fault {
            NoText::Memory => Stop::Memory,
            NoText::Failed => Stop::Unread,
            NoText::TooLong => Stop::TooLong,
        }
    }
}

/// Reads the source to its end, or to the first byte past the limit.
pub fn read_text<S: Source>(alloc: Global, script: &mut S) -> Result<Vec<u8>, NoText>
    ensures limit { IfOk result (λ text. length text.items ≤ SCRIPT_LIMIT) }
    ensures text { IfOk result (λ text. IfTold (S.left script.old) (λ bytes. bytes ≡ text.items)) }
    ensures end { IfOk result (λ _. IfTold (S.left script.old) (λ _. S.left script.new ≡ Some [])) }
    ensures too_long { IsErrOf result NoText.TooLong → IfTold (S.left script.old) (λ bytes. SCRIPT_LIMIT < length bytes) }
    ensures past { IsErrOf result NoText.TooLong → IfTold (S.left script.old) (λ bytes. S.left script.new ≡ Some (drop (SCRIPT_LIMIT + 1) bytes)) }
    ensures told { is_some (S.left script.new) ≡ is_some (S.left script.old) }
    ensures taken { IfTold (S.left script.old) (λ bytes. IsSomeAnd (S.left script.new) (IsFrontTaken bytes)) }
    ensures cause { HasCauseOf NoText.Failed (S.faults script.old) (S.faults script.new) result }
{
    let mut text = Vec::new(alloc);
    let mut chunk = [0u8; CHUNK];
    while text.len() <= SCRIPT_LIMIT {
        let room = (SCRIPT_LIMIT + 1 - text.len()).min(CHUNK);
        let count = script.read(&mut chunk[..room])?;
        if count == 0 {
            return Ok(text);
        }
        text.extend_from_slice(&chunk[..count])?;
    }
    Err(NoText::TooLong)
}

/// Reads the script.
pub fn read_commands<S: Source>(alloc: Global, script: &mut S) -> Result<Vec<Command>, Stop>
    ensures found { IfOk result (λ commands. IfTold (S.left script.old) (λ text. IsServed first_rules text commands.items × (S.left script.new ≡ Some []))) }
    ensures plain { IfOk result (λ commands. AllByRecursion IsPlainCommand commands.items) }
    ensures small { IfOk result (λ commands. AllByRecursion (λ command. length command.column < 2 ^ 30) commands.items) }
    ensures told { is_some (S.left script.new) ≡ is_some (S.left script.old) }
    ensures taken { IfTold (S.left script.old) (λ text. IsSomeAnd (S.left script.new) (IsFrontTaken text)) }
    ensures stop { IfErr result (NoScript first_rules (SourceFailed S.Source script.old script.new) (S.left script.old) (S.left script.new)) }
    ensures cause { HasCauseOf Stop.Unread (S.faults script.old) (S.faults script.new) result }
{
    let text = read_text(alloc, script)?;
    match read_script(alloc, text.as_slice())? {
        Some(commands) => Ok(commands),
        None => Err(Stop::Unspelled),
    }
}
