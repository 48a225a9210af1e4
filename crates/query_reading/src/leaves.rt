//! Leaves: what a token may be at its place, and tokens that may be absent.

ghost use Rattle.std.specs.Prelude.{◌≡◌, [], ◌∷◌, ◌&&◌, not};
ghost use Rattle.sql_reader.specs.Cursor.{Finds};
ghost use Rattle.sql_reader.specs.Looks.{join_word, looks, name, only, sign, word, words};
ghost use Rattle.sql_reader.specs.declared.sort.Sort.TheVariants.{Str};
ghost use Rattle.sql_reader.specs.Reading.{read_leaf, read_leaf_before};
ghost use Rattle.sql_reader.specs.Sorts.{sort_of};
ghost use Rattle.query_reading.specs.Exprs.{bare_alias, begins_expr, column_name, dot_or_opening, expr_starts, operand_name, operator_sign, select_words};
ghost use Rattle.query_reading.specs.Lists.{read_maybe_not, read_opt_leaf};
ghost use Rattle.query_reading.specs.Operators.{infix_sign};

use sql_reader::{Cursor, Mark, ReadError, Sort};
use sql_token::{Keyword, Token};

/// `[WORD]`
#[tactic(auto, unfolding(crate::specs::Lists::read_opt_leaf))]
pub fn optional_word(cursor: &mut Cursor<'_>, keyword: Keyword) -> Result<Option<Token>, ReadError>
    ensures { Finds (λ sort. read_opt_leaf sort (word keyword)) result cursor.old cursor.new }
{
    if cursor.first().is_word(keyword) {
        return Ok(Some(cursor.word(keyword)?));
    }
    Ok(None)
}

/// One of the fixed words, or none.
#[tactic(auto, unfolding(crate::specs::Lists::read_opt_leaf))]
pub fn optional_of(
    cursor: &mut Cursor<'_>,
    keywords: &[Keyword],
) -> Result<Option<Token>, ReadError>
    ensures { Finds (λ sort. read_opt_leaf sort (words keywords.now)) result cursor.old cursor.new }
{
    if cursor.first().is_one_of(keywords) {
        return Ok(Some(cursor.words(keywords)?));
    }
    Ok(None)
}

/// `[NOT]` and one of the fixed words.
#[tactic(auto, unfolding(crate::specs::Lists::read_maybe_not))]
pub fn maybe_not(
    cursor: &mut Cursor<'_>,
    keywords: &[Keyword],
) -> Result<(Option<Token>, Token), ReadError>
    ensures { Finds (λ sort. read_maybe_not sort (words keywords.now)) result cursor.old cursor.new }
{
    if cursor.first().is_word(Keyword::Not) && cursor.second().is_one_of(keywords) {
        let not = cursor.word(Keyword::Not)?;
        let word = cursor.words(keywords)?;
        return Ok((Some(not), word));
    }
    let word = cursor.words(keywords)?;
    Ok((None, word))
}

/// `[NOT]` and the fixed word.
#[tactic(auto, unfolding(crate::specs::Lists::read_maybe_not))]
pub fn maybe_not_word(
    cursor: &mut Cursor<'_>,
    keyword: Keyword,
) -> Result<(Option<Token>, Token), ReadError>
    ensures { Finds (λ sort. read_maybe_not sort (word keyword)) result cursor.old cursor.new }
{
    if cursor.first().is_word(Keyword::Not) && cursor.second().is_word(keyword) {
        let not = cursor.word(Keyword::Not)?;
        let word = cursor.word(keyword)?;
        return Ok((Some(not), word));
    }
    let word = cursor.word(keyword)?;
    Ok((None, word))
}

/// A name that is no front of a longer use or of a call.
pub fn whole_name(cursor: &mut Cursor<'_>) -> Result<Token, ReadError>
    ensures { Finds (λ sort. read_leaf_before sort name dot_or_opening) result cursor.old cursor.new }
{
    let fits = cursor.first().is_name() && !is_dot_or_opening(cursor.second());
    cursor.take_if(fits)
}

/// A string that is no front of a longer use or of a call.
pub fn lone_string(cursor: &mut Cursor<'_>) -> Result<Token, ReadError>
    ensures { Finds (λ sort. read_leaf_before sort (only Str) dot_or_opening) result cursor.old cursor.new }
{
    let fits = cursor.first() == Sort::Str && !is_dot_or_opening(cursor.second());
    cursor.take_if(fits)
}

/// A column's name that stands alone.
pub fn column_name(cursor: &mut Cursor<'_>) -> Result<Token, ReadError>
    ensures { Finds (λ sort. read_leaf_before sort column_name dot_or_opening) result cursor.old cursor.new }
{
    let fits = is_lone_column(cursor.first(), cursor.second());
    cursor.take_if(fits)
}

/// An alias without AS.
pub fn bare_alias(cursor: &mut Cursor<'_>) -> Result<Token, ReadError>
    ensures { Finds (λ sort. read_leaf sort bare_alias) result cursor.old cursor.new }
{
    let fits = is_bare_alias(cursor.first());
    cursor.take_if(fits)
}

/// A name that may begin an operand.
pub fn operand_name(cursor: &mut Cursor<'_>) -> Result<Token, ReadError>
    ensures { Finds (λ sort. read_leaf sort operand_name) result cursor.old cursor.new }
{
    let fits = is_operand_name(cursor.first());
    cursor.take_if(fits)
}

/// Whether it makes a name before it the front of a longer use or of a call.
pub fn is_dot_or_opening(sort: Sort) -> bool
    ensures { result ≡ dot_or_opening sort }
{
    sort.is_sign(Mark::Dot) || sort.is_sign(Mark::Opening)
}

/// Whether it is a name that may begin an operand.
pub fn is_operand_name(sort: Sort) -> bool
    ensures { result ≡ operand_name sort }
{
    let words = [
        Keyword::Cast,
        Keyword::Raise,
        Keyword::CurrentDate,
        Keyword::CurrentTime,
        Keyword::CurrentTimestamp,
    ];
    sort.is_name() && !sort.is_one_of(&words)
}

/// Whether it is a column's name that stands alone.
pub fn is_column_name(sort: Sort) -> bool
    ensures { result ≡ column_name sort }
{
    is_operand_name(sort) && sort != Sort::Str
}

/// Whether it is a column's name, before what does not make it the front of a longer use or of a call.
pub fn is_lone_column(first: Sort, second: Sort) -> bool
    ensures { result ≡ (column_name first && not (dot_or_opening second)) }
{
    is_column_name(first) && !is_dot_or_opening(second)
}

/// Whether it is an alias without AS.
pub fn is_bare_alias(sort: Sort) -> bool
    ensures { result ≡ bare_alias sort }
{
    let words = [
        Keyword::Window,
        Keyword::Over,
        Keyword::Filter,
        Keyword::Like,
        Keyword::Glob,
        Keyword::Regexp,
        Keyword::Match,
    ];
    sort.is_name() && !is_join_word(sort) && !sort.is_one_of(&words)
}

/// Whether it is an operator sign other than `~`.
pub fn is_infix_sign(sort: Sort) -> bool
    ensures { result ≡ infix_sign sort }
{
    match sort {
        Sort::Sign(
            Mark::Opening | Mark::Closing | Mark::Comma | Mark::Semicolon | Mark::Dot | Mark::Tilde,
        ) => false,
        Sort::Sign(_) => true,
        _ => false,
    }
}

/// Whether it is a word that may begin a join.
pub fn is_join_word(sort: Sort) -> bool
    ensures { result ≡ join_word sort }
{
    match sort {
        Sort::Fixed(word) => word.is_join_word(),
        _ => false,
    }
}

/// Whether it begins an expression and is no name.
pub fn begins_expr(sort: Sort) -> bool
    ensures { result ≡ begins_expr sort }
{
    match sort {
        Sort::Sign(mark) => matches!(mark, Mark::Opening | Mark::Minus | Mark::Plus | Mark::Tilde),
        Sort::Int | Sort::Hex | Sort::Float | Sort::Blob => true,
        Sort::Fixed(word) => matches!(
            word,
            Keyword::Not
                | Keyword::Null
                | Keyword::Exists
                | Keyword::Case
                | Keyword::Cast
                | Keyword::Raise
                | Keyword::CurrentDate
                | Keyword::CurrentTime
                | Keyword::CurrentTimestamp
        ),
        _ => false,
    }
}

/// Whether the tokens that are left look as an expression begins.
pub fn starts_expr(cursor: &Cursor<'_>) -> bool
    ensures { result ≡ looks (sort_of cursor.now.text) expr_starts cursor.now.left }
{
    let first = cursor.first();
    if is_operand_name(first) {
        return !cursor.second().is_sign(Mark::Dot) || cursor.third().is_name();
    }
    begins_expr(first)
}

/// Whether it begins a select.
pub fn begins_select(sort: Sort) -> bool
    ensures { result ≡ words select_words sort }
{
    sort.is_one_of(&[Keyword::With, Keyword::Select, Keyword::Values])
}
