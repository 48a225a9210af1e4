//! Tables.

ghost use Rattle.std.specs.Prelude.{◌≡◌, IfOk, length};
ghost use Rattle.sql_tree.specs.Rules.{SpellsTable};
ghost use Rattle.sql_tree.specs.declared.table.CreateTable.{CreateTable as TableTree};
ghost use Rattle.sql_reader.specs.Looks.{looks};
ghost use Rattle.sql_reader.specs.Sorts.{sort_of};
ghost use Rattle.query_reading.specs.Levels.{read_at};
ghost use Rattle.query_parse.specs.Answers.{OnSyntax, ReadsAll, TellsDepth};
ghost use Rattle.table_reading.specs.Columns.{next_column_starts, read_columns, read_more_columns, read_next_column};
ghost use Rattle.table_reading.specs.Handed.{over};
ghost use Rattle.table_reading.specs.Tables.{read_create_table, read_table_body};
ghost use Rattle.ddl_parse.specs.Given.{GivesOver, IsReadAs};

use crate::columns::column;
use crate::constraints::opt_constraints;
use query_parse::{ParseError, check_nesting};
use sql_reader::{Cursor, Mark, ReadError};
use sql_token::{Keyword, Token};
use sql_tree::{Column, Commas, CreateTable, InParens, NextItem, TableBody};
use sqlite_items::Items;
use std::alloc::Global;
use table_reading::{new_name, opt_if_not_exists, opt_options};

/// The one table that all tokens of the text spell (SQLite's page lang_createtable.html).
///
/// `Depth` comes before `Syntax`: whatever else is wrong, more than 100 open levels are answered first.
pub fn parse_table(alloc: Global, text: &[u8], tokens: &[Token]) -> Result<CreateTable, ParseError>
    ensures found { IfOk result (λ tree. SpellsTable text.now tree tokens.now) }
    ensures only { IfOk result (λ tree. (other : TableTree) → SpellsTable text.now other tokens.now → other ≡ tree) }
    ensures depth { TellsDepth text.now tokens.now result }
    ensures syntax { OnSyntax result ((tree : TableTree) → SpellsTable text.now tree tokens.now → ⊥) }
{
    check_nesting(alloc, text, tokens)?;
    Ok(whole_table(alloc, text, tokens)?)
}

/// The one table that all these tokens of the text spell, however deep they nest: for a part of a text whose levels are counted
/// over the whole. `Syntax` comes exactly where no table is spelled.
pub fn read_table(alloc: Global, text: &[u8], tokens: &[Token]) -> Result<CreateTable, ReadError>
    ensures found { IfOk result (λ tree. SpellsTable text.now tree tokens.now) }
    ensures only { (tree : TableTree) → SpellsTable text.now tree tokens.now → IsReadAs tree result }
{
    whole_table(alloc, text, tokens)
}

/// The table that is read of all tokens. A tree nests less deep than it has tokens, so the bound is never met.
fn whole_table(alloc: Global, text: &[u8], tokens: &[Token]) -> Result<CreateTable, ReadError>
    ensures { ReadsAll (read_create_table (sort_of text.now) (over text.now (length tokens.now) (read_at (sort_of text.now) (length tokens.now)))) tokens.now result }
{
    let mut cursor = Cursor::new(text, tokens);
    let tree = create_table(alloc, text, &mut cursor, tokens.len())?;
    match cursor.take() {
        None => Ok(tree),
        Some(_) => Err(ReadError::Syntax),
    }
}

/// Whether the tokens that are left begin with a comma and a column.
fn starts_next_column(cursor: &Cursor<'_>) -> bool
    ensures { result ≡ looks (sort_of cursor.now.text) next_column_starts cursor.now.left }
{
    cursor.first().is_sign(Mark::Comma) && cursor.second().is_name()
}

/// `"," column`
#[tactic(auto, unfolding(table_reading::specs::Columns::read_next_column))]
fn next_column(
    alloc: Global,
    text: &[u8],
    cursor: &mut Cursor<'_>,
    levels: usize,
) -> Result<NextItem<Column>, ReadError>
    ensures { GivesOver text.now levels read_next_column result cursor.old cursor.new }
{
    let comma = cursor.sign(Mark::Comma)?;
    let item = column(alloc, text, cursor, levels)?;
    Ok(NextItem { comma, item })
}

/// `{"," column}`
#[tactic(auto, unfolding(table_reading::specs::Columns::read_more_columns))]
fn more_columns(
    alloc: Global,
    text: &[u8],
    cursor: &mut Cursor<'_>,
    levels: usize,
) -> Result<Items<NextItem<Column>>, ReadError>
    ensures { GivesOver text.now levels read_more_columns result cursor.old cursor.new }
{
    let mut more = Items::new(alloc);
    while starts_next_column(cursor) {
        let next = next_column(alloc, text, cursor, levels)?;
        more.push(next)?;
    }
    Ok(more)
}

/// `column {"," column}`
#[tactic(auto, unfolding(table_reading::specs::Columns::read_columns))]
fn columns(
    alloc: Global,
    text: &[u8],
    cursor: &mut Cursor<'_>,
    levels: usize,
) -> Result<Commas<Column>, ReadError>
    ensures { GivesOver text.now levels read_columns result cursor.old cursor.new }
{
    let first = column(alloc, text, cursor, levels)?;
    let more = more_columns(alloc, text, cursor, levels)?;
    Ok(Commas { first, more })
}

/// `columns ["," table-cons {[","] table-cons}]`
#[tactic(auto, unfolding(table_reading::specs::Tables::read_table_body))]
fn table_body(
    alloc: Global,
    text: &[u8],
    cursor: &mut Cursor<'_>,
    levels: usize,
) -> Result<TableBody, ReadError>
    ensures { GivesOver text.now levels read_table_body result cursor.old cursor.new }
{
    let columns = columns(alloc, text, cursor, levels)?;
    let constraints = opt_constraints(alloc, cursor, levels)?;
    Ok(TableBody {
        columns,
        constraints,
    })
}

/// `CREATE TABLE [IF NOT EXISTS] name "(" columns ["," table-cons {[","] table-cons}] ")" [options]`
#[tactic(auto, unfolding(table_reading::specs::Tables::read_create_table))]
fn create_table(
    alloc: Global,
    text: &[u8],
    cursor: &mut Cursor<'_>,
    levels: usize,
) -> Result<CreateTable, ReadError>
    ensures { GivesOver text.now levels read_create_table result cursor.old cursor.new }
{
    let create = cursor.word(Keyword::Create)?;
    let table = cursor.word(Keyword::Table)?;
    let if_not_exists = opt_if_not_exists(cursor)?;
    let name = new_name(cursor)?;
    let opening = cursor.sign(Mark::Opening)?;
    let inner = table_body(alloc, text, cursor, levels)?;
    let closing = cursor.sign(Mark::Closing)?;
    let options = opt_options(alloc, text, cursor)?;
    Ok(CreateTable {
        create,
        table,
        if_not_exists,
        name,
        body: InParens {
            opening,
            inner,
            closing,
        },
        options,
    })
}
