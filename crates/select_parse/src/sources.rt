//! What stands behind FROM.

ghost use Rattle.std.specs.Prelude.{◌≡◌};
ghost use Rattle.expr_parse.specs.Given.{GivesAt};
ghost use Rattle.query_reading.specs.Sources.{join_starts, read_derived, read_inner_sources, read_join_constraint, read_joined_source, read_joined_sources, read_opt_join_constraint, read_sources_level, read_sources_parens, read_table, read_table_function, read_table_source};
ghost use Rattle.sql_reader.specs.Cursor.{Finds};
ghost use Rattle.sql_reader.specs.Looks.{looks};
ghost use Rattle.sql_reader.specs.Sorts.{sort_of};

use crate::joins::{SIDES, join, opt_indexing};
use expr_parse::{Trees, arguments, query};
use query_reading::{begins_select, names, object, opt_alias};
use sql_expr::{After, Expr, InParens, JoinConstraint, JoinedSource, Sources, TableSource};
use sql_reader::{Cursor, Mark, ReadError};
use sql_token::Keyword;
use sqlite_items::{Boxed, Items};
use std::alloc::Global;

/// `source {join source [ON expr | USING "(" names ")"]}`
#[tactic(auto, unfolding(query_reading::specs::Sources::read_sources_level))]
pub fn sources_level<T: Trees>(
    trees: &T,
    alloc: Global,
    cursor: &mut Cursor<'_>,
) -> Result<Boxed<Sources>, ReadError>
    requires ready { T.ready trees.now }
    ensures { GivesAt (T.left trees.now) read_sources_level result cursor.old cursor.new }
{
    let first = table_source(trees, alloc, cursor)?;
    let more = joined_sources(trees, alloc, cursor)?;
    Ok(Boxed::new(alloc, Sources { first, more })?)
}

/// `{join source [ON expr | USING "(" names ")"]}`
#[tactic(auto, unfolding(query_reading::specs::Sources::read_joined_sources))]
fn joined_sources<T: Trees>(
    trees: &T,
    alloc: Global,
    cursor: &mut Cursor<'_>,
) -> Result<Items<JoinedSource>, ReadError>
    requires ready { T.ready trees.now }
    ensures { GivesAt (T.left trees.now) read_joined_sources result cursor.old cursor.new }
{
    let mut more = Items::new(alloc);
    while starts_join(cursor) {
        let next = joined_source(trees, alloc, cursor)?;
        more.push(next)?;
    }
    Ok(more)
}

/// Whether the tokens that are left look as a join begins.
fn starts_join(cursor: &Cursor<'_>) -> bool
    ensures { result ≡ looks (sort_of cursor.now.text) join_starts cursor.now.left }
{
    let first = cursor.first();
    first.is_sign(Mark::Comma)
        || first.is_word(Keyword::Natural)
        || first.is_one_of(&SIDES)
        || first.is_word(Keyword::Inner)
        || first.is_word(Keyword::Cross)
        || first.is_word(Keyword::Join)
}

/// `join source [ON expr | USING "(" names ")"]`
#[tactic(auto, unfolding(query_reading::specs::Sources::read_joined_source))]
fn joined_source<T: Trees>(
    trees: &T,
    alloc: Global,
    cursor: &mut Cursor<'_>,
) -> Result<JoinedSource, ReadError>
    requires ready { T.ready trees.now }
    ensures { GivesAt (T.left trees.now) read_joined_source result cursor.old cursor.new }
{
    let join = join(cursor)?;
    let source = table_source(trees, alloc, cursor)?;
    let constraint = opt_join_constraint(trees, alloc, cursor)?;
    Ok(JoinedSource {
        join,
        source,
        constraint,
    })
}

/// `[ON expr | USING "(" names ")"]`
#[tactic(auto, unfolding(query_reading::specs::Sources::read_opt_join_constraint))]
fn opt_join_constraint<T: Trees>(
    trees: &T,
    alloc: Global,
    cursor: &mut Cursor<'_>,
) -> Result<Option<JoinConstraint<Expr>>, ReadError>
    requires ready { T.ready trees.now }
    ensures { GivesAt (T.left trees.now) read_opt_join_constraint result cursor.old cursor.new }
{
    let first = cursor.first();
    if first.is_word(Keyword::On) || first.is_word(Keyword::Using) {
        return Ok(Some(join_constraint(trees, alloc, cursor)?));
    }
    Ok(None)
}

/// `ON expr | USING "(" names ")"`
#[tactic(auto, unfolding(query_reading::specs::Sources::read_join_constraint))]
fn join_constraint<T: Trees>(
    trees: &T,
    alloc: Global,
    cursor: &mut Cursor<'_>,
) -> Result<JoinConstraint<Expr>, ReadError>
    requires ready { T.ready trees.now }
    ensures { GivesAt (T.left trees.now) read_join_constraint result cursor.old cursor.new }
{
    if cursor.first().is_word(Keyword::On) {
        let word = cursor.word(Keyword::On)?;
        let part = trees.expr(alloc, cursor)?;
        return Ok(JoinConstraint::On(After { word, part }));
    }
    let using = cursor.word(Keyword::Using)?;
    let names = names(alloc, cursor)?;
    Ok(JoinConstraint::Using { using, names })
}

/// `"(" select ")" [[AS] alias] | "(" sources ")" | name "(" [exprs] ")" [[AS] alias]
/// | object [[AS] alias] [INDEXED BY name | NOT INDEXED]`
#[tactic(auto, unfolding(query_reading::specs::Sources::read_table_source))]
fn table_source<T: Trees>(
    trees: &T,
    alloc: Global,
    cursor: &mut Cursor<'_>,
) -> Result<TableSource, ReadError>
    requires ready { T.ready trees.now }
    ensures { GivesAt (T.left trees.now) read_table_source result cursor.old cursor.new }
{
    if cursor.first().is_sign(Mark::Opening) {
        if begins_select(cursor.second()) {
            return derived(trees, alloc, cursor);
        }
        return Ok(TableSource::Sources(sources_parens(trees, alloc, cursor)?));
    }
    if cursor.first().is_name() && cursor.second().is_sign(Mark::Opening) {
        return table_function(trees, alloc, cursor);
    }
    table(cursor)
}

/// `object [[AS] alias] [INDEXED BY name | NOT INDEXED]`
#[tactic(auto, unfolding(query_reading::specs::Sources::read_table))]
fn table(cursor: &mut Cursor<'_>) -> Result<TableSource, ReadError>
    ensures { Finds read_table result cursor.old cursor.new }
{
    let object = object(cursor)?;
    let alias = opt_alias(cursor)?;
    let indexing = opt_indexing(cursor)?;
    Ok(TableSource::Table {
        object,
        alias,
        indexing,
    })
}

/// `name "(" [exprs] ")" [[AS] alias]`
#[tactic(auto, unfolding(query_reading::specs::Sources::read_table_function))]
fn table_function<T: Trees>(
    trees: &T,
    alloc: Global,
    cursor: &mut Cursor<'_>,
) -> Result<TableSource, ReadError>
    requires ready { T.ready trees.now }
    ensures { GivesAt (T.left trees.now) read_table_function result cursor.old cursor.new }
{
    let name = cursor.name()?;
    let arguments = arguments(trees, alloc, cursor)?;
    let alias = opt_alias(cursor)?;
    Ok(TableSource::TableFunction {
        name,
        arguments,
        alias,
    })
}

/// `"(" select ")" [[AS] alias]`
#[tactic(auto, unfolding(query_reading::specs::Sources::read_derived))]
fn derived<T: Trees>(
    trees: &T,
    alloc: Global,
    cursor: &mut Cursor<'_>,
) -> Result<TableSource, ReadError>
    requires ready { T.ready trees.now }
    ensures { GivesAt (T.left trees.now) read_derived result cursor.old cursor.new }
{
    let select = query(trees, alloc, cursor)?;
    let alias = opt_alias(cursor)?;
    Ok(TableSource::Derived { select, alias })
}

/// `"(" sources ")"`
#[tactic(auto, unfolding(query_reading::specs::Sources::read_sources_parens))]
fn sources_parens<T: Trees>(
    trees: &T,
    alloc: Global,
    cursor: &mut Cursor<'_>,
) -> Result<InParens<Boxed<Sources>>, ReadError>
    requires ready { T.ready trees.now }
    ensures { GivesAt (T.left trees.now) read_sources_parens result cursor.old cursor.new }
{
    let opening = cursor.sign(Mark::Opening)?;
    let inner = inner_sources(trees, alloc, cursor)?;
    let closing = cursor.sign(Mark::Closing)?;
    Ok(InParens {
        opening,
        inner,
        closing,
    })
}

/// Sources in parentheses, where a select would begin with WITH.
#[tactic(auto, unfolding(query_reading::specs::Sources::read_inner_sources))]
fn inner_sources<T: Trees>(
    trees: &T,
    alloc: Global,
    cursor: &mut Cursor<'_>,
) -> Result<Boxed<Sources>, ReadError>
    requires ready { T.ready trees.now }
    ensures { GivesAt (T.left trees.now) read_inner_sources result cursor.old cursor.new }
{
    if cursor.first().is_one_of(&[Keyword::With]) {
        return Err(ReadError::Syntax);
    }
    trees.sources(alloc, cursor)
}
