//! The types of columns.

ghost use Rattle.std.specs.Prelude.{◌≡◌};
ghost use Rattle.sql_token.specs.declared.keyword.Keyword.TheVariants.{Always, Generated};
ghost use Rattle.sql_reader.specs.Cursor.{Finds, Gives};
ghost use Rattle.sql_reader.specs.Looks.{either, looks, number, sign, word};
ghost use Rattle.sql_reader.specs.Reading.{read_leaf, read_leaf_before};
ghost use Rattle.sql_reader.specs.Sorts.{sort_of};
ghost use Rattle.sql_reader.specs.declared.sort.Mark.TheVariants.{Minus, Plus};
ghost use Rattle.query_reading.specs.Lists.{read_opt_leaf};
ghost use Rattle.query_reading.specs.Types.{other_name, read_column_type, read_more_type_names, read_next_type_name, read_opt_size, read_opt_type, read_second_size, read_signed, read_type_size, type_name, type_name_starts};

use crate::leaves::is_join_word;
use sql_expr::{ColumnType, InParens, NextItem, Signed, TypeSize};
use sql_reader::{Cursor, Mark, ReadError, Sort};
use sql_token::{Keyword, Token};
use sqlite_items::Items;
use std::alloc::Global;

/// `["+"|"-"] number`
#[tactic(auto, unfolding(crate::specs::Types::read_signed))]
fn signed(cursor: &mut Cursor<'_>) -> Result<Signed, ReadError>
    ensures { Finds read_signed result cursor.old cursor.new }
{
    let sign = opt_sign(cursor)?;
    let number = number(cursor)?;
    Ok(Signed { sign, number })
}

/// `["+"|"-"]`
#[tactic(auto, unfolding(crate::specs::Lists::read_opt_leaf))]
fn opt_sign(cursor: &mut Cursor<'_>) -> Result<Option<Token>, ReadError>
    ensures { Finds (λ sort. read_opt_leaf sort (either (sign Plus) (sign Minus))) result cursor.old cursor.new }
{
    let fits = is_plus_or_minus(cursor.first());
    if fits {
        return Ok(Some(cursor.take_if(fits)?));
    }
    Ok(None)
}

fn is_plus_or_minus(sort: Sort) -> bool
    ensures { result ≡ either (sign Plus) (sign Minus) sort }
{
    sort.is_sign(Mark::Plus) || sort.is_sign(Mark::Minus)
}

/// A number.
fn number(cursor: &mut Cursor<'_>) -> Result<Token, ReadError>
    ensures { Finds (λ sort. read_leaf sort number) result cursor.old cursor.new }
{
    let fits = cursor.first().is_number();
    cursor.take_if(fits)
}

/// `["," signed]`
#[tactic(auto, unfolding(crate::specs::Types::read_second_size))]
fn second_size(cursor: &mut Cursor<'_>) -> Result<Option<NextItem<Signed>>, ReadError>
    ensures { Finds read_second_size result cursor.old cursor.new }
{
    if cursor.first().is_sign(Mark::Comma) {
        let comma = cursor.sign(Mark::Comma)?;
        let item = signed(cursor)?;
        return Ok(Some(NextItem { comma, item }));
    }
    Ok(None)
}

/// `signed ["," signed]`
#[tactic(auto, unfolding(crate::specs::Types::read_type_size))]
fn type_size(cursor: &mut Cursor<'_>) -> Result<TypeSize, ReadError>
    ensures { Finds read_type_size result cursor.old cursor.new }
{
    let first = signed(cursor)?;
    let second = second_size(cursor)?;
    Ok(TypeSize { first, second })
}

/// `["(" signed ["," signed] ")"]`
#[tactic(auto, unfolding(crate::specs::Types::read_opt_size))]
fn opt_size(cursor: &mut Cursor<'_>) -> Result<Option<InParens<TypeSize>>, ReadError>
    ensures { Finds read_opt_size result cursor.old cursor.new }
{
    if cursor.first().is_sign(Mark::Opening) {
        let opening = cursor.sign(Mark::Opening)?;
        let inner = type_size(cursor)?;
        let closing = cursor.sign(Mark::Closing)?;
        return Ok(Some(InParens {
            opening,
            inner,
            closing,
        }));
    }
    Ok(None)
}

/// Whether it is a name in a type.
fn is_type_name(sort: Sort) -> bool
    ensures { result ≡ type_name sort }
{
    sort.is_name() && !is_join_word(sort)
}

/// Whether it is a name in a type other than GENERATED.
fn is_other_name(sort: Sort) -> bool
    ensures { result ≡ other_name sort }
{
    is_type_name(sort) && !sort.is_word(Keyword::Generated)
}

/// Whether the tokens that are left begin with a name in a type.
fn starts_type_name(cursor: &Cursor<'_>) -> bool
    ensures { result ≡ looks (sort_of cursor.now.text) type_name_starts cursor.now.left }
{
    let first = cursor.first();
    is_other_name(first)
        || first.is_word(Keyword::Generated) && !cursor.second().is_word(Keyword::Always)
}

/// A name in a type other than GENERATED.
fn other_name(cursor: &mut Cursor<'_>) -> Result<Token, ReadError>
    ensures { Finds (λ sort. read_leaf sort other_name) result cursor.old cursor.new }
{
    let fits = is_other_name(cursor.first());
    cursor.take_if(fits)
}

/// GENERATED, before no ALWAYS.
fn generated(cursor: &mut Cursor<'_>) -> Result<Token, ReadError>
    ensures { Finds (λ sort. read_leaf_before sort (word Generated) (word Always)) result cursor.old cursor.new }
{
    let fits = cursor.first().is_word(Keyword::Generated)
        && !cursor.second().is_word(Keyword::Always);
    cursor.take_if(fits)
}

/// `type-name`
#[tactic(auto, unfolding(crate::specs::Types::read_next_type_name))]
fn next_type_name(cursor: &mut Cursor<'_>) -> Result<Token, ReadError>
    ensures { Finds read_next_type_name result cursor.old cursor.new }
{
    if is_other_name(cursor.first()) {
        return other_name(cursor);
    }
    generated(cursor)
}

/// `{type-name}`
#[tactic(auto, unfolding(crate::specs::Types::read_more_type_names))]
fn more_type_names(alloc: Global, cursor: &mut Cursor<'_>) -> Result<Items<Token>, ReadError>
    ensures { Gives read_more_type_names result cursor.old cursor.new }
{
    let mut more = Items::new(alloc);
    while starts_type_name(cursor) {
        let next = next_type_name(cursor)?;
        more.push(next)?;
    }
    Ok(more)
}

/// `type-name {type-name} ["(" signed ["," signed] ")"]`
#[tactic(auto, unfolding(crate::specs::Types::read_column_type))]
pub fn column_type(alloc: Global, cursor: &mut Cursor<'_>) -> Result<ColumnType, ReadError>
    ensures { Gives read_column_type result cursor.old cursor.new }
{
    let first = next_type_name(cursor)?;
    let more = more_type_names(alloc, cursor)?;
    let size = opt_size(cursor)?;
    Ok(ColumnType { first, more, size })
}

/// `[type]`
#[tactic(auto, unfolding(crate::specs::Types::read_opt_type))]
pub fn opt_type(alloc: Global, cursor: &mut Cursor<'_>) -> Result<Option<ColumnType>, ReadError>
    ensures { Gives read_opt_type result cursor.old cursor.new }
{
    if starts_type_name(cursor) {
        return Ok(Some(column_type(alloc, cursor)?));
    }
    Ok(None)
}
