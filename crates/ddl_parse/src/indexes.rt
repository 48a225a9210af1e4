//! Indexes.

ghost use Rattle.std.specs.Prelude.{◌≡◌, IfOk, length};
ghost use Rattle.sql_token.specs.declared.keyword.Keyword.TheVariants.{Where};
ghost use Rattle.sql_tree.specs.Rules.{SpellsIndex};
ghost use Rattle.sql_tree.specs.declared.index.CreateIndex.{CreateIndex as IndexTree};
ghost use Rattle.sql_reader.specs.Sorts.{sort_of};
ghost use Rattle.query_reading.specs.Levels.{read_at};
ghost use Rattle.query_reading.specs.Windows.{read_opt_after};
ghost use Rattle.query_parse.specs.Answers.{OnSyntax, ReadsAll, TellsDepth};
ghost use Rattle.table_reading.specs.Tables.{read_create_index};
ghost use Rattle.ddl_parse.specs.Given.{GivesAt, GivesKeys};

use crate::keys::key_parens;
use query_parse::{ParseError, check_nesting, nested_expr};
use query_reading::optional_word;
use sql_reader::{Cursor, ReadError};
use sql_token::{Keyword, Token};
use sql_tree::{After, CreateIndex, Expr};
use std::alloc::Global;
use table_reading::{new_name, opt_if_not_exists};

/// The one index that all tokens of the text spell (SQLite's page lang_createindex.html).
///
/// `Depth` comes before `Syntax`: whatever else is wrong, more than 100 open levels are answered first.
pub fn parse_index(alloc: Global, text: &[u8], tokens: &[Token]) -> Result<CreateIndex, ParseError>
    ensures found { IfOk result (λ tree. SpellsIndex text.now tree tokens.now) }
    ensures only { IfOk result (λ tree. (other : IndexTree) → SpellsIndex text.now other tokens.now → other ≡ tree) }
    ensures depth { TellsDepth text.now tokens.now result }
    ensures syntax { OnSyntax result ((tree : IndexTree) → SpellsIndex text.now tree tokens.now → ⊥) }
{
    check_nesting(alloc, text, tokens)?;
    Ok(whole_index(alloc, text, tokens)?)
}

/// The index that is read of all tokens. A tree nests less deep than it has tokens, so the bound is never met.
fn whole_index(alloc: Global, text: &[u8], tokens: &[Token]) -> Result<CreateIndex, ReadError>
    ensures { ReadsAll (read_create_index (sort_of text.now) (length tokens.now) (read_at (sort_of text.now) (length tokens.now))) tokens.now result }
{
    let mut cursor = Cursor::new(text, tokens);
    let tree = create_index(alloc, &mut cursor, tokens.len())?;
    match cursor.take() {
        None => Ok(tree),
        Some(_) => Err(ReadError::Syntax),
    }
}

/// `[WHERE expr]`
#[tactic(auto, unfolding(query_reading::specs::Windows::read_opt_after))]
fn opt_filter(
    alloc: Global,
    cursor: &mut Cursor<'_>,
    levels: usize,
) -> Result<Option<After<Expr>>, ReadError>
    ensures { GivesAt levels (λ sort inner. read_opt_after sort inner Where) result cursor.old cursor.new }
{
    if cursor.first().is_word(Keyword::Where) {
        let word = cursor.word(Keyword::Where)?;
        let part = nested_expr(alloc, cursor, levels)?;
        return Ok(Some(After { word, part }));
    }
    Ok(None)
}

/// `CREATE [UNIQUE] INDEX [IF NOT EXISTS] name ON name "(" indexeds ")" [WHERE expr]`
#[tactic(auto, unfolding(table_reading::specs::Tables::read_create_index))]
fn create_index(
    alloc: Global,
    cursor: &mut Cursor<'_>,
    levels: usize,
) -> Result<CreateIndex, ReadError>
    ensures { GivesKeys levels read_create_index result cursor.old cursor.new }
{
    let create = cursor.word(Keyword::Create)?;
    let unique = optional_word(cursor, Keyword::Unique)?;
    let index = cursor.word(Keyword::Index)?;
    let if_not_exists = opt_if_not_exists(cursor)?;
    let name = new_name(cursor)?;
    let on = cursor.word(Keyword::On)?;
    let table = cursor.name()?;
    let indexeds = key_parens(alloc, cursor, levels)?;
    let filter = opt_filter(alloc, cursor, levels)?;
    Ok(CreateIndex {
        create,
        unique,
        index,
        if_not_exists,
        name,
        on,
        table,
        indexeds,
        filter,
    })
}
