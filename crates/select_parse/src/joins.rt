//! The words between sources, between arms and around indexes.

ghost use Rattle.std.specs.Prelude.{◌≡◌};
ghost use Rattle.sql_reader.specs.Cursor.{Finds};
ghost use Rattle.query_reading.specs.Selects.{read_compound, read_materialized, read_opt_materialized};
ghost use Rattle.query_reading.specs.Sources.{read_indexing, read_join, read_join_kind, read_opt_indexing, read_opt_join_kind};

use query_reading::{maybe_not_word, optional_word};
use sql_expr::{Compound, Indexing, Join, JoinKind, Materialized};
use sql_reader::{Cursor, Mark, ReadError};
use sql_token::Keyword;

/// The words that name the side of an outer join.
pub const SIDES: [Keyword; 3] = [Keyword::Left, Keyword::Right, Keyword::Full];

/// `INDEXED BY name | NOT INDEXED`
#[tactic(auto, unfolding(query_reading::specs::Sources::read_indexing))]
fn indexing(cursor: &mut Cursor<'_>) -> Result<Indexing, ReadError>
    ensures { Finds read_indexing result cursor.old cursor.new }
{
    if cursor.first().is_word(Keyword::Indexed) {
        let indexed = cursor.word(Keyword::Indexed)?;
        let by = cursor.word(Keyword::By)?;
        let name = cursor.name()?;
        return Ok(Indexing::By { indexed, by, name });
    }
    let not = cursor.word(Keyword::Not)?;
    let indexed = cursor.word(Keyword::Indexed)?;
    Ok(Indexing::Not { not, indexed })
}

/// `[INDEXED BY name | NOT INDEXED]`
#[tactic(auto, unfolding(query_reading::specs::Sources::read_opt_indexing))]
pub fn opt_indexing(cursor: &mut Cursor<'_>) -> Result<Option<Indexing>, ReadError>
    ensures { Finds read_opt_indexing result cursor.old cursor.new }
{
    let first = cursor.first();
    if first.is_word(Keyword::Indexed) || first.is_word(Keyword::Not) {
        return Ok(Some(indexing(cursor)?));
    }
    Ok(None)
}

/// `(LEFT|RIGHT|FULL) [OUTER] | INNER | CROSS`
#[tactic(auto, unfolding(query_reading::specs::Sources::read_join_kind))]
fn join_kind(cursor: &mut Cursor<'_>) -> Result<JoinKind, ReadError>
    ensures { Finds read_join_kind result cursor.old cursor.new }
{
    let first = cursor.first();
    if first.is_one_of(&SIDES) {
        let side = cursor.words(&SIDES)?;
        let outer = optional_word(cursor, Keyword::Outer)?;
        return Ok(JoinKind::Outer { side, outer });
    }
    if first.is_word(Keyword::Inner) {
        return Ok(JoinKind::Inner(cursor.word(Keyword::Inner)?));
    }
    Ok(JoinKind::Cross(cursor.word(Keyword::Cross)?))
}

/// `[kind]`
#[tactic(auto, unfolding(query_reading::specs::Sources::read_opt_join_kind))]
fn opt_join_kind(cursor: &mut Cursor<'_>) -> Result<Option<JoinKind>, ReadError>
    ensures { Finds read_opt_join_kind result cursor.old cursor.new }
{
    let first = cursor.first();
    if first.is_one_of(&SIDES) || first.is_word(Keyword::Inner) || first.is_word(Keyword::Cross) {
        return Ok(Some(join_kind(cursor)?));
    }
    Ok(None)
}

/// `"," | [NATURAL] [kind] JOIN`
#[tactic(auto, unfolding(query_reading::specs::Sources::read_join))]
pub fn join(cursor: &mut Cursor<'_>) -> Result<Join, ReadError>
    ensures { Finds read_join result cursor.old cursor.new }
{
    if cursor.first().is_sign(Mark::Comma) {
        return Ok(Join::Comma(cursor.sign(Mark::Comma)?));
    }
    let natural = optional_word(cursor, Keyword::Natural)?;
    let kind = opt_join_kind(cursor)?;
    let join = cursor.word(Keyword::Join)?;
    Ok(Join::Join {
        natural,
        kind,
        join,
    })
}

/// `UNION [ALL] | EXCEPT | INTERSECT`
#[tactic(auto, unfolding(query_reading::specs::Selects::read_compound))]
pub fn compound(cursor: &mut Cursor<'_>) -> Result<Compound, ReadError>
    ensures { Finds read_compound result cursor.old cursor.new }
{
    let first = cursor.first();
    if first.is_word(Keyword::Union) {
        let union = cursor.word(Keyword::Union)?;
        let all = optional_word(cursor, Keyword::All)?;
        return Ok(Compound::Union { union, all });
    }
    if first.is_word(Keyword::Except) {
        return Ok(Compound::Except(cursor.word(Keyword::Except)?));
    }
    Ok(Compound::Intersect(cursor.word(Keyword::Intersect)?))
}

/// `[NOT] MATERIALIZED`
#[tactic(auto, unfolding(query_reading::specs::Selects::read_materialized))]
fn materialized(cursor: &mut Cursor<'_>) -> Result<Materialized, ReadError>
    ensures { Finds read_materialized result cursor.old cursor.new }
{
    let (not, materialized) = maybe_not_word(cursor, Keyword::Materialized)?;
    Ok(Materialized { not, materialized })
}

/// `[[NOT] MATERIALIZED]`
#[tactic(auto, unfolding(query_reading::specs::Selects::read_opt_materialized))]
pub fn opt_materialized(cursor: &mut Cursor<'_>) -> Result<Option<Materialized>, ReadError>
    ensures { Finds read_opt_materialized result cursor.old cursor.new }
{
    let first = cursor.first();
    let negated = first.is_word(Keyword::Not) && cursor.second().is_word(Keyword::Materialized);
    if negated || first.is_word(Keyword::Materialized) {
        return Ok(Some(materialized(cursor)?));
    }
    Ok(None)
}
