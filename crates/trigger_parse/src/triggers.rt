//! Whole triggers.

ghost use Rattle.std.specs.Prelude.{◌≡◌, IfOk, length};
ghost use Rattle.sql_tree.specs.Rules.{SpellsTrigger};
ghost use Rattle.sql_tree.specs.declared.trigger.CreateTrigger.{CreateTrigger as TriggerTree};
ghost use Rattle.sql_reader.specs.Sorts.{sort_of};
ghost use Rattle.query_reading.specs.Levels.{read_at};
ghost use Rattle.expr_parse.specs.Given.{GivesAt};
ghost use Rattle.query_parse.specs.Answers.{OnSyntax, ReadsAll, TellsDepth};
ghost use Rattle.trigger_reading.specs.Triggers.{read_create_trigger, read_ended_statement, read_head, read_more_statements};

use crate::assignments::opt_after;
use crate::statements::statement;
use query_parse::{ParseError, check_nesting};
use query_reading::object;
use sql_reader::{Cursor, Mark, ReadError};
use sql_token::{Keyword, Token};
use sql_tree::{CreateTrigger, EndedStatement, TriggerHead};
use sqlite_items::Items;
use std::alloc::Global;
use table_reading::{new_name, opt_if_not_exists};
use trigger_reading::{event, opt_for_each_row, opt_time, starts_statement};

/// The one trigger that all tokens of the text spell (SQLite's page lang_createtrigger.html).
///
/// `Depth` comes before `Syntax`: whatever else is wrong, more than 100 open levels are answered first.
pub fn parse_trigger(
    alloc: Global,
    text: &[u8],
    tokens: &[Token],
) -> Result<CreateTrigger, ParseError>
    ensures found { IfOk result (λ tree. SpellsTrigger text.now tree tokens.now) }
    ensures only { IfOk result (λ tree. (other : TriggerTree) → SpellsTrigger text.now other tokens.now → other ≡ tree) }
    ensures depth { TellsDepth text.now tokens.now result }
    ensures syntax { OnSyntax result ((tree : TriggerTree) → SpellsTrigger text.now tree tokens.now → ⊥) }
{
    check_nesting(alloc, text, tokens)?;
    Ok(whole_trigger(alloc, text, tokens)?)
}

/// The trigger that is read of all tokens. A tree nests less deep than it has tokens, so the bound is never met.
fn whole_trigger(alloc: Global, text: &[u8], tokens: &[Token]) -> Result<CreateTrigger, ReadError>
    ensures { ReadsAll (read_create_trigger (sort_of text.now) (read_at (sort_of text.now) (length tokens.now))) tokens.now result }
{
    let mut cursor = Cursor::new(text, tokens);
    let tree = create_trigger(alloc, &mut cursor, tokens.len())?;
    match cursor.take() {
        None => Ok(tree),
        Some(_) => Err(ReadError::Syntax),
    }
}

/// `[BEFORE|AFTER|INSTEAD OF] event ON object [FOR EACH ROW] [WHEN expr]`
#[tactic(auto, unfolding(trigger_reading::specs::Triggers::read_head))]
fn head(alloc: Global, cursor: &mut Cursor<'_>, levels: usize) -> Result<TriggerHead, ReadError>
    ensures { GivesAt levels read_head result cursor.old cursor.new }
{
    let time = opt_time(cursor)?;
    let event = event(alloc, cursor)?;
    let on = cursor.word(Keyword::On)?;
    let object = object(cursor)?;
    let for_each_row = opt_for_each_row(cursor)?;
    let condition = opt_after(alloc, cursor, levels, Keyword::When)?;
    Ok(TriggerHead {
        time,
        event,
        on,
        object,
        for_each_row,
        condition,
    })
}

/// `statement ";"`
#[tactic(auto, unfolding(trigger_reading::specs::Triggers::read_ended_statement))]
fn ended_statement(
    alloc: Global,
    cursor: &mut Cursor<'_>,
    levels: usize,
) -> Result<EndedStatement, ReadError>
    ensures { GivesAt levels read_ended_statement result cursor.old cursor.new }
{
    let statement = statement(alloc, cursor, levels)?;
    let semicolon = cursor.sign(Mark::Semicolon)?;
    Ok(EndedStatement {
        statement,
        semicolon,
    })
}

/// `{statement ";"}`
#[tactic(auto, unfolding(trigger_reading::specs::Triggers::read_more_statements))]
fn more_statements(
    alloc: Global,
    cursor: &mut Cursor<'_>,
    levels: usize,
) -> Result<Items<EndedStatement>, ReadError>
    ensures { GivesAt levels read_more_statements result cursor.old cursor.new }
{
    let mut more = Items::new(alloc);
    while starts_statement(cursor) {
        let next = ended_statement(alloc, cursor, levels)?;
        more.push(next)?;
    }
    Ok(more)
}

/// `CREATE TRIGGER [IF NOT EXISTS] name head BEGIN statement ";" {statement ";"} END`
#[tactic(auto, unfolding(trigger_reading::specs::Triggers::read_create_trigger))]
fn create_trigger(
    alloc: Global,
    cursor: &mut Cursor<'_>,
    levels: usize,
) -> Result<CreateTrigger, ReadError>
    ensures { GivesAt levels read_create_trigger result cursor.old cursor.new }
{
    let create = cursor.word(Keyword::Create)?;
    let trigger = cursor.word(Keyword::Trigger)?;
    let if_not_exists = opt_if_not_exists(cursor)?;
    let name = new_name(cursor)?;
    let head = head(alloc, cursor, levels)?;
    let begin = cursor.word(Keyword::Begin)?;
    let first = ended_statement(alloc, cursor, levels)?;
    let more = more_statements(alloc, cursor, levels)?;
    let end = cursor.word(Keyword::End)?;
    Ok(CreateTrigger {
        create,
        trigger,
        if_not_exists,
        name,
        head,
        begin,
        first,
        more,
        end,
    })
}
