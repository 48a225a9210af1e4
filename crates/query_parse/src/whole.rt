//! Whole texts.

ghost use Rattle.std.specs.Prelude.{◌≡◌, IfOk, length};
ghost use Rattle.sql_expr.specs.Rules.{SpellsExpr, SpellsSelect};
ghost use Rattle.sql_expr.specs.declared.expr.Expr.{Expr as ExprTree};
ghost use Rattle.sql_expr.specs.declared.select.Select.{Select as SelectTree};
ghost use Rattle.sql_reader.specs.Sorts.{sort_of};
ghost use Rattle.query_reading.specs.Levels.{read_at};
ghost use Rattle.query_parse.specs.Answers.{OnSyntax, ReadsAll, TellsDepth};

use crate::error::ParseError;
use crate::nested::{nested_expr, nested_select};
use sql_expr::{Expr, Select};
use sql_reader::{Cursor, ReadError};
use sql_token::Token;
use sql_tree::first_too_deep;
use std::alloc::Global;

/// The one expression that all tokens of the text spell (SQLite's page lang_expr.html).
///
/// `Depth` comes before `Syntax`: whatever else is wrong, more than 100 open levels are answered first.
pub fn parse_expr(alloc: Global, text: &[u8], tokens: &[Token]) -> Result<Expr, ParseError>
    ensures found { IfOk result (λ tree. SpellsExpr text.now tree tokens.now) }
    ensures only { IfOk result (λ tree. (other : ExprTree) → SpellsExpr text.now other tokens.now → other ≡ tree) }
    ensures depth { TellsDepth text.now tokens.now result }
    ensures syntax { OnSyntax result ((tree : ExprTree) → SpellsExpr text.now tree tokens.now → ⊥) }
{
    check_nesting(alloc, text, tokens)?;
    Ok(whole_expr(alloc, text, tokens)?)
}

/// The one select that all tokens of the text spell (SQLite's page lang_select.html).
///
/// `Depth` comes before `Syntax`: whatever else is wrong, more than 100 open levels are answered first.
pub fn parse_select(alloc: Global, text: &[u8], tokens: &[Token]) -> Result<Select, ParseError>
    ensures found { IfOk result (λ tree. SpellsSelect text.now tree tokens.now) }
    ensures only { IfOk result (λ tree. (other : SelectTree) → SpellsSelect text.now other tokens.now → other ≡ tree) }
    ensures depth { TellsDepth text.now tokens.now result }
    ensures syntax { OnSyntax result ((tree : SelectTree) → SpellsSelect text.now tree tokens.now → ⊥) }
{
    check_nesting(alloc, text, tokens)?;
    Ok(whole_select(alloc, text, tokens)?)
}

/// Fails where the tokens are nested too deep.
pub fn check_nesting(alloc: Global, text: &[u8], tokens: &[Token]) -> Result<(), ParseError>
    ensures depth { TellsDepth text.now tokens.now result }
    ensures syntax { OnSyntax result ⊥ }
{
    match first_too_deep(alloc, text, tokens)? {
        Some(at) => Err(ParseError::Depth(at)),
        None => Ok(()),
    }
}

/// The expression that is read of all tokens. A tree nests less deep than it has tokens, so the bound is never met.
fn whole_expr(alloc: Global, text: &[u8], tokens: &[Token]) -> Result<Expr, ReadError>
    ensures { ReadsAll (read_at (sort_of text.now) (length tokens.now)).expr tokens.now result }
{
    let mut cursor = Cursor::new(text, tokens);
    let tree = nested_expr(alloc, &mut cursor, tokens.len())?;
    match cursor.take() {
        None => Ok(tree),
        Some(_) => Err(ReadError::Syntax),
    }
}

/// The select that is read of all tokens. A tree nests less deep than it has tokens, so the bound is never met.
fn whole_select(alloc: Global, text: &[u8], tokens: &[Token]) -> Result<Select, ReadError>
    ensures { ReadsAll (read_at (sort_of text.now) (length tokens.now)).select tokens.now result }
{
    let mut cursor = Cursor::new(text, tokens);
    let tree = nested_select(alloc, &mut cursor, tokens.len())?;
    match cursor.take() {
        None => Ok(tree.into_inner()),
        Some(_) => Err(ReadError::Syntax),
    }
}
