//! Constraints of columns in which no expression stands, and the parts of the others.

ghost use Rattle.std.specs.Prelude.{◌≡◌};
ghost use Rattle.sql_reader.specs.Cursor.{Finds, Gives};
ghost use Rattle.sql_reader.specs.Looks.{either, looks, sign};
ghost use Rattle.sql_reader.specs.Reading.{read_leaf};
ghost use Rattle.sql_reader.specs.Sorts.{sort_of};
ghost use Rattle.sql_reader.specs.declared.sort.Mark.TheVariants.{Minus, Plus};
ghost use Rattle.query_reading.specs.Lists.{read_opt_leaf};
ghost use Rattle.table_reading.specs.Columns.{cons_starts, default_name, read_null_cons, read_opt_generated, read_opt_storage, read_plain_cons, read_plain_default, read_primary_key};

use crate::conflicts::{opt_conflict, references, two_words};
use crate::words::spelled;
use query_reading::{literal, maybe_not_word, optional_of, optional_word};
use sql_expr::TokenPair;
use sql_reader::{Cursor, Mark, ReadError, Sort};
use sql_token::{Keyword, Token};
use sql_tree::{ColumnCons, DefaultValue};
use std::alloc::Global;

/// Whether it is a name that may stand behind DEFAULT.
fn is_default_name(sort: Sort) -> bool
    ensures { result ≡ default_name sort }
{
    let values = [
        Keyword::CurrentDate,
        Keyword::CurrentTime,
        Keyword::CurrentTimestamp,
    ];
    sort.is_name() && sort != Sort::Str && !sort.is_one_of(&values)
}

/// A name that may stand behind DEFAULT.
fn default_name(cursor: &mut Cursor<'_>) -> Result<Token, ReadError>
    ensures { Finds (λ sort. read_leaf sort default_name) result cursor.old cursor.new }
{
    let fits = is_default_name(cursor.first());
    cursor.take_if(fits)
}

/// `["+"|"-"]`
#[tactic(auto, unfolding(query_reading::specs::Lists::read_opt_leaf))]
fn opt_sign(cursor: &mut Cursor<'_>) -> Result<Option<Token>, ReadError>
    ensures { Finds (λ sort. read_opt_leaf sort (either (sign Plus) (sign Minus))) result cursor.old cursor.new }
{
    let fits = cursor.first().is_sign(Mark::Plus) || cursor.first().is_sign(Mark::Minus);
    if fits {
        return Ok(Some(cursor.take_if(fits)?));
    }
    Ok(None)
}

/// `name | ["+"|"-"] literal`, where a string is a literal.
#[tactic(auto, unfolding(crate::specs::Columns::read_plain_default))]
pub fn plain_default(cursor: &mut Cursor<'_>) -> Result<DefaultValue, ReadError>
    ensures { Finds read_plain_default result cursor.old cursor.new }
{
    if is_default_name(cursor.first()) {
        return Ok(DefaultValue::Name(default_name(cursor)?));
    }
    let sign = opt_sign(cursor)?;
    let literal = literal(cursor)?;
    Ok(DefaultValue::Literal { sign, literal })
}

/// `PRIMARY KEY [ASC|DESC] [conflict] [AUTOINCREMENT]`
#[tactic(auto, unfolding(crate::specs::Columns::read_primary_key))]
fn primary_key(cursor: &mut Cursor<'_>) -> Result<ColumnCons, ReadError>
    ensures { Finds read_primary_key result cursor.old cursor.new }
{
    let primary = cursor.word(Keyword::Primary)?;
    let key = cursor.word(Keyword::Key)?;
    let direction = optional_of(cursor, &[Keyword::Asc, Keyword::Desc])?;
    let conflict = opt_conflict(cursor)?;
    let autoincrement = optional_word(cursor, Keyword::AutoIncrement)?;
    Ok(ColumnCons::PrimaryKey {
        primary,
        key,
        direction,
        conflict,
        autoincrement,
    })
}

/// `[NOT] NULL [conflict]`
#[tactic(auto, unfolding(crate::specs::Columns::read_null_cons))]
fn null_cons(cursor: &mut Cursor<'_>) -> Result<ColumnCons, ReadError>
    ensures { Finds read_null_cons result cursor.old cursor.new }
{
    let (not, null) = maybe_not_word(cursor, Keyword::Null)?;
    let conflict = opt_conflict(cursor)?;
    Ok(ColumnCons::Null {
        not,
        null,
        conflict,
    })
}

/// A constraint of a column in which no expression stands.
#[tactic(auto, unfolding(crate::specs::Columns::read_plain_cons))]
pub fn plain_cons(alloc: Global, cursor: &mut Cursor<'_>) -> Result<ColumnCons, ReadError>
    ensures { Gives read_plain_cons result cursor.old cursor.new }
{
    let first = cursor.first();
    if first.is_word(Keyword::Constraint) {
        let constraint = cursor.word(Keyword::Constraint)?;
        let name = cursor.name()?;
        return Ok(ColumnCons::Constraint { constraint, name });
    }
    if first.is_word(Keyword::Primary) {
        return primary_key(cursor);
    }
    if first.is_word(Keyword::Unique) {
        let unique = cursor.word(Keyword::Unique)?;
        let conflict = opt_conflict(cursor)?;
        return Ok(ColumnCons::Unique { unique, conflict });
    }
    if first.is_word(Keyword::Collate) {
        let collate = cursor.word(Keyword::Collate)?;
        let name = cursor.name()?;
        return Ok(ColumnCons::Collate { collate, name });
    }
    if first.is_word(Keyword::References) {
        return Ok(ColumnCons::References(references(alloc, cursor)?));
    }
    null_cons(cursor)
}

/// `[GENERATED ALWAYS]`
#[tactic(auto, unfolding(crate::specs::Columns::read_opt_generated))]
pub fn opt_generated(cursor: &mut Cursor<'_>) -> Result<Option<TokenPair>, ReadError>
    ensures { Finds read_opt_generated result cursor.old cursor.new }
{
    if cursor.first().is_word(Keyword::Generated) && cursor.second().is_word(Keyword::Always) {
        return Ok(Some(two_words(cursor, Keyword::Generated, Keyword::Always)?));
    }
    Ok(None)
}

/// `[STORED|VIRTUAL]`
#[tactic(auto, unfolding(crate::specs::Columns::read_opt_storage))]
pub fn opt_storage(text: &[u8], cursor: &mut Cursor<'_>) -> Result<Option<Token>, ReadError>
    ensures { Finds (read_opt_storage text.now) result cursor.old cursor.new }
{
    if cursor.first() == Sort::Plain {
        return Ok(Some(spelled(text, b"stored", cursor)?));
    }
    if cursor.first().is_word(Keyword::Virtual) {
        return Ok(Some(cursor.word(Keyword::Virtual)?));
    }
    Ok(None)
}

/// Whether the tokens that are left begin with a constraint of a column.
pub fn starts_column_cons(cursor: &Cursor<'_>) -> bool
    ensures { result ≡ looks (sort_of cursor.now.text) cons_starts cursor.now.left }
{
    let first = cursor.first();
    let words = [
        Keyword::Constraint,
        Keyword::Primary,
        Keyword::Null,
        Keyword::Unique,
        Keyword::Check,
        Keyword::Default,
        Keyword::Collate,
        Keyword::References,
        Keyword::As,
    ];
    first.is_one_of(&words)
        || first.is_word(Keyword::Not) && cursor.second().is_word(Keyword::Null)
        || first.is_word(Keyword::Generated) && cursor.second().is_word(Keyword::Always)
}
