//! Conflict clauses, and the foreign keys of REFERENCES.

ghost use Rattle.sql_reader.specs.Cursor.{Finds, Gives};
ghost use Rattle.sql_reader.specs.Looks.{looks, word};
ghost use Rattle.sql_reader.specs.Sorts.{sort_of};
ghost use Rattle.table_reading.specs.Conflicts.{clause_starts, read_conflict, read_deferral, read_initially, read_opt_conflict, read_opt_deferral, read_reference_action, read_reference_clause, read_reference_clauses, read_references, read_resolution};
ghost use Rattle.std.specs.Prelude.{◌≡◌};
ghost use Rattle.query_reading.specs.Lists.{pair};

use query_reading::{action, maybe_not_word, opt_names};
use sql_expr::TokenPair;
use sql_reader::{Cursor, ReadError};
use sql_token::Keyword;
use sql_tree::{Conflict, Deferral, ReferenceAction, ReferenceClause, References, Resolution};
use sqlite_items::Items;
use std::alloc::Global;

/// `action | IGNORE | REPLACE`
#[tactic(auto, unfolding(crate::specs::Conflicts::read_resolution))]
fn resolution(cursor: &mut Cursor<'_>) -> Result<Resolution, ReadError>
    ensures { Finds read_resolution result cursor.old cursor.new }
{
    if cursor.first().is_word(Keyword::Ignore) {
        return Ok(Resolution::Ignore(cursor.word(Keyword::Ignore)?));
    }
    if cursor.first().is_word(Keyword::Replace) {
        return Ok(Resolution::Replace(cursor.word(Keyword::Replace)?));
    }
    Ok(Resolution::Action(action(cursor)?))
}

/// `ON CONFLICT (action | IGNORE | REPLACE)`
#[tactic(auto, unfolding(crate::specs::Conflicts::read_conflict))]
fn conflict(cursor: &mut Cursor<'_>) -> Result<Conflict, ReadError>
    ensures { Finds read_conflict result cursor.old cursor.new }
{
    let on = cursor.word(Keyword::On)?;
    let conflict = cursor.word(Keyword::Conflict)?;
    let resolution = resolution(cursor)?;
    Ok(Conflict {
        on,
        conflict,
        resolution,
    })
}

/// `[ON CONFLICT (action | IGNORE | REPLACE)]`
#[tactic(auto, unfolding(crate::specs::Conflicts::read_opt_conflict))]
pub fn opt_conflict(cursor: &mut Cursor<'_>) -> Result<Option<Conflict>, ReadError>
    ensures { Finds read_opt_conflict result cursor.old cursor.new }
{
    if cursor.first().is_word(Keyword::On) && cursor.second().is_word(Keyword::Conflict) {
        return Ok(Some(conflict(cursor)?));
    }
    Ok(None)
}

/// Two fixed words.
pub fn two_words(
    cursor: &mut Cursor<'_>,
    first: Keyword,
    second: Keyword,
) -> Result<TokenPair, ReadError>
    ensures { Finds (λ sort. (pair {sort = sort} (word first) (word second)).read) result cursor.old cursor.new }
{
    let first = cursor.word(first)?;
    let second = cursor.word(second)?;
    Ok(TokenPair { first, second })
}

/// `SET NULL | SET DEFAULT | CASCADE | RESTRICT | NO ACTION`
#[tactic(auto, unfolding(crate::specs::Conflicts::read_reference_action))]
fn reference_action(cursor: &mut Cursor<'_>) -> Result<ReferenceAction, ReadError>
    ensures { Finds read_reference_action result cursor.old cursor.new }
{
    let first = cursor.first();
    if first.is_word(Keyword::Set) && cursor.second().is_word(Keyword::Null) {
        return Ok(ReferenceAction::SetNull(two_words(cursor, Keyword::Set, Keyword::Null)?));
    }
    if first.is_word(Keyword::Set) && cursor.second().is_word(Keyword::Default) {
        return Ok(ReferenceAction::SetDefault(two_words(cursor, Keyword::Set, Keyword::Default)?));
    }
    if first.is_word(Keyword::Cascade) {
        return Ok(ReferenceAction::Cascade(cursor.word(Keyword::Cascade)?));
    }
    if first.is_word(Keyword::Restrict) {
        return Ok(ReferenceAction::Restrict(cursor.word(Keyword::Restrict)?));
    }
    Ok(ReferenceAction::NoAction(two_words(cursor, Keyword::No, Keyword::Action)?))
}

/// Whether the tokens that are left begin with a clause of a reference.
fn starts_clause(cursor: &Cursor<'_>) -> bool
    ensures { result ≡ looks (sort_of cursor.now.text) clause_starts cursor.now.left }
{
    let first = cursor.first();
    let events = [Keyword::Delete, Keyword::Update];
    first.is_word(Keyword::On) && cursor.second().is_one_of(&events)
        || first.is_word(Keyword::Match)
}

/// `ON (DELETE|UPDATE) reference-action | MATCH name`
#[tactic(auto, unfolding(crate::specs::Conflicts::read_reference_clause))]
fn reference_clause(cursor: &mut Cursor<'_>) -> Result<ReferenceClause, ReadError>
    ensures { Finds read_reference_clause result cursor.old cursor.new }
{
    let events = [Keyword::Delete, Keyword::Update];
    if cursor.first().is_word(Keyword::On) && cursor.second().is_one_of(&events) {
        let on = cursor.word(Keyword::On)?;
        let event = cursor.words(&events)?;
        let action = reference_action(cursor)?;
        return Ok(ReferenceClause::On { on, event, action });
    }
    let matches = cursor.word(Keyword::Match)?;
    let name = cursor.name()?;
    Ok(ReferenceClause::Match { matches, name })
}

/// `{ON (DELETE|UPDATE) reference-action | MATCH name}`
#[tactic(auto, unfolding(crate::specs::Conflicts::read_reference_clauses))]
fn reference_clauses(
    alloc: Global,
    cursor: &mut Cursor<'_>,
) -> Result<Items<ReferenceClause>, ReadError>
    ensures { Gives read_reference_clauses result cursor.old cursor.new }
{
    let mut clauses = Items::new(alloc);
    while starts_clause(cursor) {
        let next = reference_clause(cursor)?;
        clauses.push(next)?;
    }
    Ok(clauses)
}

/// `[INITIALLY (DEFERRED|IMMEDIATE)]`
#[tactic(auto, unfolding(crate::specs::Conflicts::read_initially))]
fn initially(cursor: &mut Cursor<'_>) -> Result<Option<TokenPair>, ReadError>
    ensures { Finds read_initially result cursor.old cursor.new }
{
    let times = [Keyword::Deferred, Keyword::Immediate];
    if cursor.first().is_word(Keyword::Initially) && cursor.second().is_one_of(&times) {
        let first = cursor.word(Keyword::Initially)?;
        let second = cursor.words(&times)?;
        return Ok(Some(TokenPair { first, second }));
    }
    Ok(None)
}

/// `[NOT] DEFERRABLE [INITIALLY (DEFERRED|IMMEDIATE)]`
#[tactic(auto, unfolding(crate::specs::Conflicts::read_deferral))]
fn deferral(cursor: &mut Cursor<'_>) -> Result<Deferral, ReadError>
    ensures { Finds read_deferral result cursor.old cursor.new }
{
    let (not, deferrable) = maybe_not_word(cursor, Keyword::Deferrable)?;
    let initially = initially(cursor)?;
    Ok(Deferral {
        not,
        deferrable,
        initially,
    })
}

/// `[[NOT] DEFERRABLE [INITIALLY (DEFERRED|IMMEDIATE)]]`
#[tactic(auto, unfolding(crate::specs::Conflicts::read_opt_deferral))]
fn opt_deferral(cursor: &mut Cursor<'_>) -> Result<Option<Deferral>, ReadError>
    ensures { Finds read_opt_deferral result cursor.old cursor.new }
{
    let first = cursor.first();
    if first.is_word(Keyword::Not) && cursor.second().is_word(Keyword::Deferrable)
        || first.is_word(Keyword::Deferrable)
    {
        return Ok(Some(deferral(cursor)?));
    }
    Ok(None)
}

/// `REFERENCES name ["(" names ")"] {reference-clause} [deferral]`
#[tactic(auto, unfolding(crate::specs::Conflicts::read_references))]
pub fn references(alloc: Global, cursor: &mut Cursor<'_>) -> Result<References, ReadError>
    ensures { Gives read_references result cursor.old cursor.new }
{
    let references = cursor.word(Keyword::References)?;
    let table = cursor.name()?;
    let columns = opt_names(alloc, cursor)?;
    let clauses = reference_clauses(alloc, cursor)?;
    let deferral = opt_deferral(cursor)?;
    Ok(References {
        references,
        table,
        columns,
        clauses,
        deferral,
    })
}
