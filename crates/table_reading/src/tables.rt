//! Parts of the texts of tables, indexes and views in which no expression stands.

ghost use Rattle.std.specs.Prelude.{◌≡◌};
ghost use Rattle.sql_token.specs.declared.keyword.Keyword.TheVariants.{Not};
ghost use Rattle.sql_reader.specs.Cursor.{Finds, Gives};
ghost use Rattle.sql_reader.specs.Looks.{looks, name, word, words};
ghost use Rattle.sql_reader.specs.Reading.{read_leaf_before};
ghost use Rattle.sql_reader.specs.Sorts.{sort_of};
ghost use Rattle.table_reading.specs.Tables.{constraints_starts, next_cons_starts, read_foreign_cons, read_more_options, read_next_option, read_opt_if_not_exists, read_opt_options, read_table_option, read_table_options, table_cons_words};

use crate::conflicts::references;
use crate::words::spelled;
use query_reading::names;
use sql_expr::{Commas, NextItem};
use sql_reader::{Cursor, Mark, ReadError, Sort};
use sql_token::{Keyword, Token};
use sql_tree::{IfNotExists, TableCons, TableOption};
use sqlite_items::Items;
use std::alloc::Global;

/// `[IF NOT EXISTS]`, where IF before no NOT is a name.
#[tactic(auto, unfolding(crate::specs::Tables::read_opt_if_not_exists))]
pub fn opt_if_not_exists(cursor: &mut Cursor<'_>) -> Result<Option<IfNotExists>, ReadError>
    ensures { Finds read_opt_if_not_exists result cursor.old cursor.new }
{
    if cursor.first().is_word(Keyword::If) && cursor.second().is_word(Keyword::Not) {
        let if_word = cursor.word(Keyword::If)?;
        let not = cursor.word(Keyword::Not)?;
        let exists = cursor.word(Keyword::Exists)?;
        return Ok(Some(IfNotExists {
            if_word,
            not,
            exists,
        }));
    }
    Ok(None)
}

/// The name of what is created. It may be IF, but not before NOT.
pub fn new_name(cursor: &mut Cursor<'_>) -> Result<Token, ReadError>
    ensures { Finds (λ sort. read_leaf_before sort name (word Not)) result cursor.old cursor.new }
{
    let fits = cursor.first().is_name() && !cursor.second().is_word(Keyword::Not);
    cursor.take_if(fits)
}

/// `WITHOUT ROWID | STRICT`
#[tactic(auto, unfolding(crate::specs::Tables::read_table_option))]
fn table_option(text: &[u8], cursor: &mut Cursor<'_>) -> Result<TableOption, ReadError>
    ensures { Finds (read_table_option text.now) result cursor.old cursor.new }
{
    if cursor.first().is_word(Keyword::Without) {
        let without = cursor.word(Keyword::Without)?;
        let rowid = spelled(text, b"rowid", cursor)?;
        return Ok(TableOption::WithoutRowid { without, rowid });
    }
    Ok(TableOption::Strict(spelled(text, b"strict", cursor)?))
}

/// `"," option`
#[tactic(auto, unfolding(crate::specs::Tables::read_next_option))]
fn next_option(text: &[u8], cursor: &mut Cursor<'_>) -> Result<NextItem<TableOption>, ReadError>
    ensures { Finds (read_next_option text.now) result cursor.old cursor.new }
{
    let comma = cursor.sign(Mark::Comma)?;
    let item = table_option(text, cursor)?;
    Ok(NextItem { comma, item })
}

/// `{"," option}`
#[tactic(auto, unfolding(crate::specs::Tables::read_more_options))]
fn more_options(
    alloc: Global,
    text: &[u8],
    cursor: &mut Cursor<'_>,
) -> Result<Items<NextItem<TableOption>>, ReadError>
    ensures { Gives (read_more_options text.now) result cursor.old cursor.new }
{
    let mut more = Items::new(alloc);
    while cursor.first().is_sign(Mark::Comma) {
        let next = next_option(text, cursor)?;
        more.push(next)?;
    }
    Ok(more)
}

/// `option {"," option}`
#[tactic(auto, unfolding(crate::specs::Tables::read_table_options))]
fn table_options(
    alloc: Global,
    text: &[u8],
    cursor: &mut Cursor<'_>,
) -> Result<Commas<TableOption>, ReadError>
    ensures { Gives (read_table_options text.now) result cursor.old cursor.new }
{
    let first = table_option(text, cursor)?;
    let more = more_options(alloc, text, cursor)?;
    Ok(Commas { first, more })
}

/// `[option {"," option}]`
#[tactic(auto, unfolding(crate::specs::Tables::read_opt_options))]
pub fn opt_options(
    alloc: Global,
    text: &[u8],
    cursor: &mut Cursor<'_>,
) -> Result<Option<Commas<TableOption>>, ReadError>
    ensures { Gives (read_opt_options text.now) result cursor.old cursor.new }
{
    if cursor.first().is_word(Keyword::Without) || cursor.first() == Sort::Plain {
        return Ok(Some(table_options(alloc, text, cursor)?));
    }
    Ok(None)
}

/// `FOREIGN KEY "(" names ")" references`
#[tactic(auto, unfolding(crate::specs::Tables::read_foreign_cons))]
pub fn foreign_cons(alloc: Global, cursor: &mut Cursor<'_>) -> Result<TableCons, ReadError>
    ensures { Gives read_foreign_cons result cursor.old cursor.new }
{
    let foreign = cursor.word(Keyword::Foreign)?;
    let key = cursor.word(Keyword::Key)?;
    let names = names(alloc, cursor)?;
    let references = references(alloc, cursor)?;
    Ok(TableCons::ForeignKey {
        foreign,
        key,
        names,
        references,
    })
}

/// Whether it begins a constraint of a table.
fn begins_table_cons(sort: Sort) -> bool
    ensures { result ≡ words table_cons_words sort }
{
    let words = [
        Keyword::Constraint,
        Keyword::Primary,
        Keyword::Unique,
        Keyword::Check,
        Keyword::Foreign,
    ];
    sort.is_one_of(&words)
}

/// Whether the tokens that are left begin with a comma and a constraint of a table.
pub fn starts_constraints(cursor: &Cursor<'_>) -> bool
    ensures { result ≡ looks (sort_of cursor.now.text) constraints_starts cursor.now.left }
{
    cursor.first().is_sign(Mark::Comma) && begins_table_cons(cursor.second())
}

/// Whether the tokens that are left begin with a further constraint of a table, or with a comma.
pub fn starts_next_cons(cursor: &Cursor<'_>) -> bool
    ensures { result ≡ looks (sort_of cursor.now.text) next_cons_starts cursor.now.left }
{
    let first = cursor.first();
    first.is_sign(Mark::Comma) || begins_table_cons(first)
}
