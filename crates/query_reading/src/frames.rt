//! Parts of windows and of terms in which no tree stands.

ghost use Rattle.std.specs.Prelude.{◌≡◌};
ghost use Rattle.sql_reader.specs.Cursor.{Finds};
ghost use Rattle.sql_reader.specs.Reading.{read_leaf};
ghost use Rattle.query_reading.specs.Lists.{read_opt_leaf};
ghost use Rattle.query_reading.specs.Windows.{base_name, read_excluded, read_nulls, read_opt_exclude, read_plain_bound};

use sql_expr::{After, Bound, Excluded, Expr, TokenPair};
use sql_reader::{Cursor, ReadError, Sort};
use sql_token::{Keyword, Token};

/// `[NULLS (FIRST|LAST)]`
#[tactic(auto, unfolding(crate::specs::Windows::read_nulls))]
pub fn nulls(cursor: &mut Cursor<'_>) -> Result<Option<TokenPair>, ReadError>
    ensures { Finds read_nulls result cursor.old cursor.new }
{
    let ends = [Keyword::First, Keyword::Last];
    if cursor.first().is_word(Keyword::Nulls) && cursor.second().is_one_of(&ends) {
        let first = cursor.word(Keyword::Nulls)?;
        let second = cursor.words(&ends)?;
        return Ok(Some(TokenPair { first, second }));
    }
    Ok(None)
}

/// `UNBOUNDED (PRECEDING|FOLLOWING) | CURRENT ROW`
#[tactic(auto, unfolding(crate::specs::Windows::read_plain_bound))]
pub fn plain_bound(cursor: &mut Cursor<'_>) -> Result<Bound<Expr>, ReadError>
    ensures { Finds read_plain_bound result cursor.old cursor.new }
{
    if cursor.first().is_word(Keyword::Unbounded) {
        let unbounded = cursor.word(Keyword::Unbounded)?;
        let way = cursor.words(&[Keyword::Preceding, Keyword::Following])?;
        return Ok(Bound::Unbounded { unbounded, way });
    }
    let current = cursor.word(Keyword::Current)?;
    let row = cursor.word(Keyword::Row)?;
    Ok(Bound::CurrentRow { current, row })
}

/// `NO OTHERS | CURRENT ROW | GROUP | TIES`
#[tactic(auto, unfolding(crate::specs::Windows::read_excluded))]
fn excluded(cursor: &mut Cursor<'_>) -> Result<Excluded, ReadError>
    ensures { Finds read_excluded result cursor.old cursor.new }
{
    if cursor.first().is_word(Keyword::No) {
        let no = cursor.word(Keyword::No)?;
        let others = cursor.word(Keyword::Others)?;
        return Ok(Excluded::NoOthers { no, others });
    }
    if cursor.first().is_word(Keyword::Current) {
        let current = cursor.word(Keyword::Current)?;
        let row = cursor.word(Keyword::Row)?;
        return Ok(Excluded::CurrentRow { current, row });
    }
    if cursor.first().is_word(Keyword::Group) {
        return Ok(Excluded::Group(cursor.word(Keyword::Group)?));
    }
    Ok(Excluded::Ties(cursor.word(Keyword::Ties)?))
}

/// `[EXCLUDE excluded]`
#[tactic(auto, unfolding(crate::specs::Windows::read_opt_exclude))]
pub fn opt_exclude(cursor: &mut Cursor<'_>) -> Result<Option<After<Excluded>>, ReadError>
    ensures { Finds read_opt_exclude result cursor.old cursor.new }
{
    if cursor.first().is_word(Keyword::Exclude) {
        let word = cursor.word(Keyword::Exclude)?;
        let part = excluded(cursor)?;
        return Ok(Some(After { word, part }));
    }
    Ok(None)
}

/// The name of a window on which another stands, or none.
#[tactic(auto, unfolding(crate::specs::Lists::read_opt_leaf))]
pub fn opt_base(cursor: &mut Cursor<'_>) -> Result<Option<Token>, ReadError>
    ensures { Finds (λ sort. read_opt_leaf sort base_name) result cursor.old cursor.new }
{
    if is_base_name(cursor.first()) {
        return Ok(Some(base(cursor)?));
    }
    Ok(None)
}

/// The name of a window on which another stands.
fn base(cursor: &mut Cursor<'_>) -> Result<Token, ReadError>
    ensures { Finds (λ sort. read_leaf sort base_name) result cursor.old cursor.new }
{
    let fits = is_base_name(cursor.first());
    cursor.take_if(fits)
}

/// Whether it is a name of a window on which another may stand.
fn is_base_name(sort: Sort) -> bool
    ensures { result ≡ base_name sort }
{
    let words = [
        Keyword::Partition,
        Keyword::Range,
        Keyword::Rows,
        Keyword::Groups,
    ];
    sort.is_name() && !sort.is_one_of(&words)
}
