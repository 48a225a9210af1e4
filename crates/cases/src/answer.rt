//! What is answered to a case.

use crate::field::{Escaped, Hex, Quoted};
use alter_bytes::Bytes;
use record_codec::Value;
use script_parse::Cause;
use sql_token::{Token, TokenKind};
use sql_tree::Command;
use std::cmp::Ordering;
use std::fmt;
use value_order::Affinity;

/// What a call gives, and how the line of the answer says it.
#[derive(Drop)]
pub enum Answer {
    /// The tokens of the text.
    Tokens(Vec<Token>),
    /// The text has no token at this place.
    BadToken(usize),
    /// The name that a token spells.
    Name(Vec<u8>),
    /// No token that spells a name begins there.
    NoName,
    /// The place of the first token that is too deep, if there is one.
    TooDeep(Option<usize>),
    /// A tree spells all tokens of the text, so many.
    Parsed(usize),
    /// The tree that was read spells other tokens than the text has.
    Differs,
    /// The place of the first token that is too deep for a tree.
    Depth(usize),
    /// No tree spells all tokens of the text.
    Syntax,
    /// The commands of a script.
    Commands(Vec<Command>),
    /// The text is no script: the place and the cause.
    Refused(usize, Cause),
    /// The affinity of a type text.
    Affinity(Affinity),
    /// A value.
    Value(Value),
    /// How the first value stands to the second.
    Order(Ordering),
    /// The answer depends on what number a real is.
    NeedsReal,
    /// The line is no case.
    NoSuchCase,
}

impl fmt::Display for Answer {
    fn fmt<W: fmt::Write>(&self, f: &mut fmt::Formatter<W>) -> fmt::Result {
        match self {
            Answer::Tokens(tokens) => write_tokens(f, tokens.as_slice()),
            Answer::BadToken(at) => write!(f, "bad-token {at}"),
            Answer::Name(name) => write!(f, "{}", Escaped(name.as_slice())),
            Answer::NoName => f.write_str("no-name"),
            Answer::TooDeep(Some(at)) => write!(f, "{at}"),
            Answer::TooDeep(None) => f.write_str("none"),
            Answer::Parsed(count) => write!(f, "ok {count}"),
            Answer::Differs => f.write_str("differs"),
            Answer::Depth(at) => write!(f, "depth {at}"),
            Answer::Syntax => f.write_str("syntax"),
            Answer::Commands(commands) => write_commands(f, commands.as_slice()),
            Answer::Refused(at, cause) => write!(f, "{at} {}", name_of_cause(*cause)),
            Answer::Affinity(affinity) => f.write_str(name_of_affinity(*affinity)),
            Answer::Value(value) => write_value(f, value),
            Answer::Order(ordering) => f.write_str(name_of_order(*ordering)),
            Answer::NeedsReal => f.write_str("needs-real"),
            Answer::NoSuchCase => f.write_str("no such case"),
        }
    }
}

/// The tokens, a space between.
fn write_tokens<W: fmt::Write>(f: &mut fmt::Formatter<W>, tokens: &[Token]) -> fmt::Result {
    let mut between = "";
    for token in tokens {
        let kind = name_of_kind(token.kind);
        write!(f, "{between}{kind}:{}-{}", token.start, token.end)?;
        between = " ";
    }
    Ok(())
}

fn name_of_kind(kind: TokenKind) -> &'static str {
    match kind {
        TokenKind::Word => "Word",
        TokenKind::Quoted => "Quoted",
        TokenKind::Str => "Str",
        TokenKind::Blob => "Blob",
        TokenKind::Int => "Int",
        TokenKind::Hex => "Hex",
        TokenKind::Float => "Float",
        TokenKind::Op => "Op",
    }
}

/// `ok` and the commands, a tab before each.
fn write_commands<W: fmt::Write>(f: &mut fmt::Formatter<W>, commands: &[Command]) -> fmt::Result {
    f.write_str("ok")?;
    for command in commands {
        f.write_str("\t")?;
        write_command(f, command)?;
    }
    Ok(())
}

/// What the command does, and its names and texts between double quotes.
fn write_command<W: fmt::Write>(f: &mut fmt::Formatter<W>, command: &Command) -> fmt::Result {
    match command {
        Command::RenameTable { table, new } => { write_names(f, "rename-table", table, new) }
        Command::RenameColumn {
            table,
            column,
            new,
            bare,
        } => {
            write_names(f, "rename-column", table, column)?;
            let kind = if *bare { "bare" } else { "quoted" };
            write!(f, " {} {kind}", Quoted(new.as_slice()))
        }
        Command::Add { table, text, .. } => write_names(f, "add", table, text),
        Command::Drop { table, column } => write_names(f, "drop", table, column),
        Command::Rebuild { table, text, .. } => write_names(f, "rebuild", table, text),
    }
}

fn write_names<W: fmt::Write>(
    f: &mut fmt::Formatter<W>,
    verb: &str,
    first: &Bytes,
    second: &Bytes,
) -> fmt::Result {
    write!(
        f,
        "{verb} {} {}",
        Quoted(first.as_slice()),
        Quoted(second.as_slice())
    )
}

fn name_of_cause(cause: Cause) -> &'static str {
    match cause {
        Cause::TooLong => "too-long",
        Cause::BadToken => "bad-token",
        Cause::Depth => "depth",
        Cause::TooMany => "too-many",
        Cause::Syntax => "syntax",
    }
}

/// A value, as a field of a case writes it.
fn write_value<W: fmt::Write>(f: &mut fmt::Formatter<W>, value: &Value) -> fmt::Result {
    match value {
        Value::Null => f.write_str("null"),
        Value::Int(number) => write!(f, "{number}"),
        Value::Real(bytes) => write!(f, "real:{}", Hex(bytes)),
        Value::Text(text) => write!(f, "'{}'", Escaped(text.as_slice())),
        Value::Blob(bytes) => write!(f, "x'{}'", Hex(bytes.as_slice())),
    }
}

fn name_of_affinity(affinity: Affinity) -> &'static str {
    match affinity {
        Affinity::Blob => "blob",
        Affinity::Text => "text",
        Affinity::Numeric => "numeric",
        Affinity::Integer => "integer",
        Affinity::Real => "real",
    }
}

fn name_of_order(ordering: Ordering) -> &'static str {
    match ordering {
        Ordering::Less => "less",
        Ordering::Equal => "equal",
        Ordering::Greater => "greater",
    }
}
