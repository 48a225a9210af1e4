//! Constraints of tables.

ghost use Rattle.sql_reader.specs.Cursor.{Finds};
ghost use Rattle.sql_reader.specs.Looks.{sign};
ghost use Rattle.sql_reader.specs.declared.sort.Mark.TheVariants.{Comma};
ghost use Rattle.query_reading.specs.Lists.{read_opt_leaf};
ghost use Rattle.table_reading.specs.Tables.{read_check_cons, read_more_table_cons, read_next_table_cons, read_opt_constraints, read_primary_cons, read_table_cons, read_table_constraints, read_unique_cons};
ghost use Rattle.ddl_parse.specs.Given.{GivesAt, GivesKeys};

use crate::columns::expr_parens;
use crate::keys::{indexeds, key_parens};
use query_reading::optional_word;
use sql_reader::{Cursor, Mark, ReadError};
use sql_token::{Keyword, Token};
use sql_tree::{NextTableCons, TableCons, TableConstraints};
use sqlite_items::Items;
use std::alloc::Global;
use table_reading::{foreign_cons, opt_conflict, starts_constraints, starts_next_cons};

/// `PRIMARY KEY "(" indexeds [AUTOINCREMENT] ")" [conflict]`
#[tactic(auto, unfolding(table_reading::specs::Tables::read_primary_cons))]
fn primary_cons(
    alloc: Global,
    cursor: &mut Cursor<'_>,
    levels: usize,
) -> Result<TableCons, ReadError>
    ensures { GivesKeys levels read_primary_cons result cursor.old cursor.new }
{
    let primary = cursor.word(Keyword::Primary)?;
    let key = cursor.word(Keyword::Key)?;
    let opening = cursor.sign(Mark::Opening)?;
    let indexeds = indexeds(alloc, cursor, levels)?;
    let autoincrement = optional_word(cursor, Keyword::AutoIncrement)?;
    let closing = cursor.sign(Mark::Closing)?;
    let conflict = opt_conflict(cursor)?;
    Ok(TableCons::PrimaryKey {
        primary,
        key,
        opening,
        indexeds,
        autoincrement,
        closing,
        conflict,
    })
}

/// `UNIQUE "(" indexeds ")" [conflict]`
#[tactic(auto, unfolding(table_reading::specs::Tables::read_unique_cons))]
fn unique_cons(
    alloc: Global,
    cursor: &mut Cursor<'_>,
    levels: usize,
) -> Result<TableCons, ReadError>
    ensures { GivesKeys levels read_unique_cons result cursor.old cursor.new }
{
    let unique = cursor.word(Keyword::Unique)?;
    let indexeds = key_parens(alloc, cursor, levels)?;
    let conflict = opt_conflict(cursor)?;
    Ok(TableCons::Unique {
        unique,
        indexeds,
        conflict,
    })
}

/// `CHECK "(" expr ")" [conflict]`
#[tactic(auto, unfolding(table_reading::specs::Tables::read_check_cons))]
fn check_cons(alloc: Global, cursor: &mut Cursor<'_>, levels: usize) -> Result<TableCons, ReadError>
    ensures { GivesAt levels read_check_cons result cursor.old cursor.new }
{
    let check = cursor.word(Keyword::Check)?;
    let expr = expr_parens(alloc, cursor, levels)?;
    let conflict = opt_conflict(cursor)?;
    Ok(TableCons::Check {
        check,
        expr,
        conflict,
    })
}

/// A constraint of a table.
#[tactic(auto, unfolding(table_reading::specs::Tables::read_table_cons))]
fn table_cons(alloc: Global, cursor: &mut Cursor<'_>, levels: usize) -> Result<TableCons, ReadError>
    ensures { GivesKeys levels read_table_cons result cursor.old cursor.new }
{
    let first = cursor.first();
    if first.is_word(Keyword::Constraint) {
        let constraint = cursor.word(Keyword::Constraint)?;
        let name = cursor.name()?;
        return Ok(TableCons::Constraint { constraint, name });
    }
    if first.is_word(Keyword::Primary) {
        return primary_cons(alloc, cursor, levels);
    }
    if first.is_word(Keyword::Unique) {
        return unique_cons(alloc, cursor, levels);
    }
    if first.is_word(Keyword::Check) {
        return check_cons(alloc, cursor, levels);
    }
    foreign_cons(alloc, cursor)
}

/// `[","]`
#[tactic(auto, unfolding(query_reading::specs::Lists::read_opt_leaf))]
fn opt_comma(cursor: &mut Cursor<'_>) -> Result<Option<Token>, ReadError>
    ensures { Finds (λ sort. read_opt_leaf sort (sign Comma)) result cursor.old cursor.new }
{
    if cursor.first().is_sign(Mark::Comma) {
        return Ok(Some(cursor.sign(Mark::Comma)?));
    }
    Ok(None)
}

/// `[","] table-cons`
#[tactic(auto, unfolding(table_reading::specs::Tables::read_next_table_cons))]
fn next_table_cons(
    alloc: Global,
    cursor: &mut Cursor<'_>,
    levels: usize,
) -> Result<NextTableCons, ReadError>
    ensures { GivesKeys levels read_next_table_cons result cursor.old cursor.new }
{
    let comma = opt_comma(cursor)?;
    let constraint = table_cons(alloc, cursor, levels)?;
    Ok(NextTableCons { comma, constraint })
}

/// `{[","] table-cons}`
#[tactic(auto, unfolding(table_reading::specs::Tables::read_more_table_cons))]
fn more_table_cons(
    alloc: Global,
    cursor: &mut Cursor<'_>,
    levels: usize,
) -> Result<Items<NextTableCons>, ReadError>
    ensures { GivesKeys levels read_more_table_cons result cursor.old cursor.new }
{
    let mut more = Items::new(alloc);
    while starts_next_cons(cursor) {
        let next = next_table_cons(alloc, cursor, levels)?;
        more.push(next)?;
    }
    Ok(more)
}

/// `"," table-cons {[","] table-cons}`
#[tactic(auto, unfolding(table_reading::specs::Tables::read_table_constraints))]
fn table_constraints(
    alloc: Global,
    cursor: &mut Cursor<'_>,
    levels: usize,
) -> Result<TableConstraints, ReadError>
    ensures { GivesKeys levels read_table_constraints result cursor.old cursor.new }
{
    let comma = cursor.sign(Mark::Comma)?;
    let first = table_cons(alloc, cursor, levels)?;
    let more = more_table_cons(alloc, cursor, levels)?;
    Ok(TableConstraints { comma, first, more })
}

/// `["," table-cons {[","] table-cons}]`
#[tactic(auto, unfolding(table_reading::specs::Tables::read_opt_constraints))]
pub fn opt_constraints(
    alloc: Global,
    cursor: &mut Cursor<'_>,
    levels: usize,
) -> Result<Option<TableConstraints>, ReadError>
    ensures { GivesKeys levels read_opt_constraints result cursor.old cursor.new }
{
    if starts_constraints(cursor) {
        return Ok(Some(table_constraints(alloc, cursor, levels)?));
    }
    Ok(None)
}
