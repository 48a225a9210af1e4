//! What SET sets, and an expression behind a word.

ghost use Rattle.query_reading.specs.Windows.{read_opt_after};
ghost use Rattle.expr_parse.specs.Given.{GivesAt};
ghost use Rattle.trigger_reading.specs.Statements.{read_assignment, read_assignments, read_more_assignments, read_next_assignment, read_sets};

use query_parse::nested_expr;
use sql_reader::{Cursor, Mark, ReadError};
use sql_token::Keyword;
use sql_tree::{After, Assignment, Commas, Expr, NextItem, Sets};
use sqlite_items::Items;
use std::alloc::Global;
use trigger_reading::target;

/// `[WORD expr]`
#[tactic(auto, unfolding(query_reading::specs::Windows::read_opt_after))]
pub fn opt_after(
    alloc: Global,
    cursor: &mut Cursor<'_>,
    levels: usize,
    keyword: Keyword,
) -> Result<Option<After<Expr>>, ReadError>
    ensures { GivesAt levels (λ sort inner. read_opt_after sort inner keyword) result cursor.old cursor.new }
{
    if cursor.first().is_word(keyword) {
        let word = cursor.word(keyword)?;
        let part = nested_expr(alloc, cursor, levels)?;
        return Ok(Some(After { word, part }));
    }
    Ok(None)
}

/// `(name | "(" names ")") "=" expr`
#[tactic(auto, unfolding(trigger_reading::specs::Statements::read_assignment))]
fn assignment(
    alloc: Global,
    cursor: &mut Cursor<'_>,
    levels: usize,
) -> Result<Assignment, ReadError>
    ensures { GivesAt levels read_assignment result cursor.old cursor.new }
{
    let target = target(alloc, cursor)?;
    let equals = cursor.sign(Mark::Equal)?;
    let value = nested_expr(alloc, cursor, levels)?;
    Ok(Assignment {
        target,
        equals,
        value,
    })
}

/// `"," set`
#[tactic(auto, unfolding(trigger_reading::specs::Statements::read_next_assignment))]
fn next_assignment(
    alloc: Global,
    cursor: &mut Cursor<'_>,
    levels: usize,
) -> Result<NextItem<Assignment>, ReadError>
    ensures { GivesAt levels read_next_assignment result cursor.old cursor.new }
{
    let comma = cursor.sign(Mark::Comma)?;
    let item = assignment(alloc, cursor, levels)?;
    Ok(NextItem { comma, item })
}

/// `{"," set}`
#[tactic(auto, unfolding(trigger_reading::specs::Statements::read_more_assignments))]
fn more_assignments(
    alloc: Global,
    cursor: &mut Cursor<'_>,
    levels: usize,
) -> Result<Items<NextItem<Assignment>>, ReadError>
    ensures { GivesAt levels read_more_assignments result cursor.old cursor.new }
{
    let mut more = Items::new(alloc);
    while cursor.first().is_sign(Mark::Comma) {
        let next = next_assignment(alloc, cursor, levels)?;
        more.push(next)?;
    }
    Ok(more)
}

/// `set {"," set}`
#[tactic(auto, unfolding(trigger_reading::specs::Statements::read_assignments))]
fn assignments(
    alloc: Global,
    cursor: &mut Cursor<'_>,
    levels: usize,
) -> Result<Commas<Assignment>, ReadError>
    ensures { GivesAt levels read_assignments result cursor.old cursor.new }
{
    let first = assignment(alloc, cursor, levels)?;
    let more = more_assignments(alloc, cursor, levels)?;
    Ok(Commas { first, more })
}

/// `SET sets`
#[tactic(auto, unfolding(trigger_reading::specs::Statements::read_sets))]
pub fn sets(alloc: Global, cursor: &mut Cursor<'_>, levels: usize) -> Result<Sets, ReadError>
    ensures { GivesAt levels read_sets result cursor.old cursor.new }
{
    let set = cursor.word(Keyword::Set)?;
    let assignments = assignments(alloc, cursor, levels)?;
    Ok(Sets { set, assignments })
}
