//! Views.

ghost use Rattle.std.specs.Prelude.{◌≡◌, IfOk, length};
ghost use Rattle.sql_tree.specs.Rules.{SpellsView};
ghost use Rattle.sql_tree.specs.declared.index.CreateView.{CreateView as ViewTree};
ghost use Rattle.sql_reader.specs.Sorts.{sort_of};
ghost use Rattle.query_reading.specs.Levels.{read_at};
ghost use Rattle.query_parse.specs.Answers.{OnSyntax, ReadsAll, TellsDepth};
ghost use Rattle.table_reading.specs.Tables.{read_create_view};
ghost use Rattle.ddl_parse.specs.Given.{GivesAt};

use query_parse::{ParseError, check_nesting, nested_select};
use query_reading::opt_names;
use sql_reader::{Cursor, ReadError};
use sql_token::{Keyword, Token};
use sql_tree::CreateView;
use std::alloc::Global;
use table_reading::{new_name, opt_if_not_exists};

/// The one view that all tokens of the text spell (SQLite's page lang_createview.html).
///
/// `Depth` comes before `Syntax`: whatever else is wrong, more than 100 open levels are answered first.
pub fn parse_view(alloc: Global, text: &[u8], tokens: &[Token]) -> Result<CreateView, ParseError>
    ensures found { IfOk result (λ tree. SpellsView text.now tree tokens.now) }
    ensures only { IfOk result (λ tree. (other : ViewTree) → SpellsView text.now other tokens.now → other ≡ tree) }
    ensures depth { TellsDepth text.now tokens.now result }
    ensures syntax { OnSyntax result ((tree : ViewTree) → SpellsView text.now tree tokens.now → ⊥) }
{
    check_nesting(alloc, text, tokens)?;
    Ok(whole_view(alloc, text, tokens)?)
}

/// The view that is read of all tokens. A tree nests less deep than it has tokens, so the bound is never met.
fn whole_view(alloc: Global, text: &[u8], tokens: &[Token]) -> Result<CreateView, ReadError>
    ensures { ReadsAll (read_create_view (sort_of text.now) (read_at (sort_of text.now) (length tokens.now))) tokens.now result }
{
    let mut cursor = Cursor::new(text, tokens);
    let tree = create_view(alloc, &mut cursor, tokens.len())?;
    match cursor.take() {
        None => Ok(tree),
        Some(_) => Err(ReadError::Syntax),
    }
}

/// `CREATE VIEW [IF NOT EXISTS] name ["(" names ")"] AS select`
#[tactic(auto, unfolding(table_reading::specs::Tables::read_create_view))]
fn create_view(
    alloc: Global,
    cursor: &mut Cursor<'_>,
    levels: usize,
) -> Result<CreateView, ReadError>
    ensures { GivesAt levels read_create_view result cursor.old cursor.new }
{
    let create = cursor.word(Keyword::Create)?;
    let view = cursor.word(Keyword::View)?;
    let if_not_exists = opt_if_not_exists(cursor)?;
    let name = new_name(cursor)?;
    let columns = opt_names(alloc, cursor)?;
    let as_word = cursor.word(Keyword::As)?;
    let select = nested_select(alloc, cursor, levels)?.into_inner();
    Ok(CreateView {
        create,
        view,
        if_not_exists,
        name,
        columns,
        as_word,
        select,
    })
}
