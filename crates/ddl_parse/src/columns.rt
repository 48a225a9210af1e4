//! Columns.

ghost use Rattle.std.specs.Prelude.{◌≡◌, IfOk, length};
ghost use Rattle.sql_tree.specs.Rules.{SpellsColumn};
ghost use Rattle.sql_tree.specs.declared.table.Column.{Column as ColumnTree};
ghost use Rattle.sql_reader.specs.Sorts.{sort_of};
ghost use Rattle.query_reading.specs.Levels.{read_at};
ghost use Rattle.query_parse.specs.Answers.{OnSyntax, ReadsAll, TellsDepth};
ghost use Rattle.table_reading.specs.Columns.{read_column, read_column_cons, read_column_constraints, read_default_value, read_expr_parens, read_generated_cons};
ghost use Rattle.table_reading.specs.Handed.{over};
ghost use Rattle.ddl_parse.specs.Given.{GivesAt, GivesOver, IsReadAs};

use query_parse::{ParseError, check_nesting, nested_expr};
use query_reading::opt_type;
use sql_reader::{Cursor, Mark, ReadError};
use sql_token::{Keyword, Token};
use sql_tree::{Column, ColumnCons, DefaultValue, Expr, InParens};
use sqlite_items::Items;
use std::alloc::Global;
use table_reading::{opt_generated, opt_storage, plain_cons, plain_default, starts_column_cons};

/// The one column that all tokens of the text spell, as behind ADD COLUMN (SQLite's page lang_createtable.html,
/// "column-def").
///
/// `Depth` comes before `Syntax`: whatever else is wrong, more than 100 open levels are answered first.
pub fn parse_column(alloc: Global, text: &[u8], tokens: &[Token]) -> Result<Column, ParseError>
    ensures found { IfOk result (λ tree. SpellsColumn text.now tree tokens.now) }
    ensures only { IfOk result (λ tree. (other : ColumnTree) → SpellsColumn text.now other tokens.now → other ≡ tree) }
    ensures depth { TellsDepth text.now tokens.now result }
    ensures syntax { OnSyntax result ((tree : ColumnTree) → SpellsColumn text.now tree tokens.now → ⊥) }
{
    check_nesting(alloc, text, tokens)?;
    Ok(whole_column(alloc, text, tokens)?)
}

/// The one column that all these tokens of the text spell, however deep they nest: for a part of a text whose levels are counted
/// over the whole. `Syntax` comes exactly where no column is spelled.
pub fn read_column(alloc: Global, text: &[u8], tokens: &[Token]) -> Result<Column, ReadError>
    ensures found { IfOk result (λ tree. SpellsColumn text.now tree tokens.now) }
    ensures only { (tree : ColumnTree) → SpellsColumn text.now tree tokens.now → IsReadAs tree result }
{
    whole_column(alloc, text, tokens)
}

/// The column that is read of all tokens. A tree nests less deep than it has tokens, so the bound is never met.
fn whole_column(alloc: Global, text: &[u8], tokens: &[Token]) -> Result<Column, ReadError>
    ensures { ReadsAll (read_column (sort_of text.now) (over text.now (length tokens.now) (read_at (sort_of text.now) (length tokens.now)))) tokens.now result }
{
    let mut cursor = Cursor::new(text, tokens);
    let tree = column(alloc, text, &mut cursor, tokens.len())?;
    match cursor.take() {
        None => Ok(tree),
        Some(_) => Err(ReadError::Syntax),
    }
}

/// `"(" expr ")"`
#[tactic(auto, unfolding(table_reading::specs::Columns::read_expr_parens))]
pub fn expr_parens(
    alloc: Global,
    cursor: &mut Cursor<'_>,
    levels: usize,
) -> Result<InParens<Expr>, ReadError>
    ensures { GivesAt levels read_expr_parens result cursor.old cursor.new }
{
    let opening = cursor.sign(Mark::Opening)?;
    let inner = nested_expr(alloc, cursor, levels)?;
    let closing = cursor.sign(Mark::Closing)?;
    Ok(InParens {
        opening,
        inner,
        closing,
    })
}

/// `"(" expr ")" | name | ["+"|"-"] literal`
#[tactic(auto, unfolding(table_reading::specs::Columns::read_default_value))]
fn default_value(
    alloc: Global,
    cursor: &mut Cursor<'_>,
    levels: usize,
) -> Result<DefaultValue, ReadError>
    ensures { GivesAt levels read_default_value result cursor.old cursor.new }
{
    if cursor.first().is_sign(Mark::Opening) {
        return Ok(DefaultValue::Expr(expr_parens(alloc, cursor, levels)?));
    }
    plain_default(cursor)
}

/// `[GENERATED ALWAYS] AS "(" expr ")" [STORED|VIRTUAL]`
#[tactic(auto, unfolding(table_reading::specs::Columns::read_generated_cons))]
fn generated_cons(
    alloc: Global,
    text: &[u8],
    cursor: &mut Cursor<'_>,
    levels: usize,
) -> Result<ColumnCons, ReadError>
    ensures { GivesOver text.now levels read_generated_cons result cursor.old cursor.new }
{
    let generated = opt_generated(cursor)?;
    let as_word = cursor.word(Keyword::As)?;
    let expr = expr_parens(alloc, cursor, levels)?;
    let storage = opt_storage(text, cursor)?;
    Ok(ColumnCons::Generated {
        generated,
        as_word,
        expr,
        storage,
    })
}

/// A constraint of a column.
#[tactic(auto, unfolding(table_reading::specs::Columns::read_column_cons))]
fn column_cons(
    alloc: Global,
    text: &[u8],
    cursor: &mut Cursor<'_>,
    levels: usize,
) -> Result<ColumnCons, ReadError>
    ensures { GivesOver text.now levels read_column_cons result cursor.old cursor.new }
{
    let first = cursor.first();
    if first.is_word(Keyword::Check) {
        let check = cursor.word(Keyword::Check)?;
        let expr = expr_parens(alloc, cursor, levels)?;
        return Ok(ColumnCons::Check { check, expr });
    }
    if first.is_word(Keyword::Default) {
        let default = cursor.word(Keyword::Default)?;
        let value = default_value(alloc, cursor, levels)?;
        return Ok(ColumnCons::Default { default, value });
    }
    if first.is_word(Keyword::Generated) && cursor.second().is_word(Keyword::Always)
        || first.is_word(Keyword::As)
    {
        return generated_cons(alloc, text, cursor, levels);
    }
    plain_cons(alloc, cursor)
}

/// `{column-cons}`
#[tactic(auto, unfolding(table_reading::specs::Columns::read_column_constraints))]
fn column_constraints(
    alloc: Global,
    text: &[u8],
    cursor: &mut Cursor<'_>,
    levels: usize,
) -> Result<Items<ColumnCons>, ReadError>
    ensures { GivesOver text.now levels read_column_constraints result cursor.old cursor.new }
{
    let mut constraints = Items::new(alloc);
    while starts_column_cons(cursor) {
        let next = column_cons(alloc, text, cursor, levels)?;
        constraints.push(next)?;
    }
    Ok(constraints)
}

/// `name [type] {column-cons}`
#[tactic(auto, unfolding(table_reading::specs::Columns::read_column))]
pub fn column(
    alloc: Global,
    text: &[u8],
    cursor: &mut Cursor<'_>,
    levels: usize,
) -> Result<Column, ReadError>
    ensures { GivesOver text.now levels read_column result cursor.old cursor.new }
{
    let name = cursor.name()?;
    let column_type = opt_type(alloc, cursor)?;
    let constraints = column_constraints(alloc, text, cursor, levels)?;
    Ok(Column {
        name,
        column_type,
        constraints,
    })
}
