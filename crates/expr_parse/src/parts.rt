//! Parts of an expression, the operators between them, and one level of an expression.

ghost use Rattle.std.specs.Prelude.{[], not, ◌&&◌, ◌∷◌, ◌≡◌};
ghost use Rattle.sql_reader.specs.Cursor.{Finds, Gives};
ghost use Rattle.sql_reader.specs.Looks.{looks, word, words};
ghost use Rattle.sql_reader.specs.Reading.{read_leaf, read_leaf_before};
ghost use Rattle.sql_reader.specs.Sorts.{sort_of};
ghost use Rattle.expr_parse.specs.Given.{GivesAt};
ghost use Rattle.query_reading.specs.Operands.{infix_starts, postfix_starts, prefix, read_expr_level, read_free_part, read_infix_part, read_infix_parts, read_is_part, read_part, read_postfix, read_postfixes, read_prefixes};
ghost use Rattle.sql_token.specs.declared.keyword.Keyword.TheVariants as K;

use crate::operands::{in_set, operand};
use crate::trees::Trees;
use query_reading::{is_infix_sign, maybe_not_word, operator};
use sql_expr::{Expr, Infix, InfixPart, Part, Postfix};
use sql_reader::{Cursor, Mark, ReadError, Sort};
use sql_token::{Keyword, Token};
use sqlite_items::{Boxed, Items};
use std::alloc::Global;

/// `part {infix part}`
#[tactic(auto, unfolding(query_reading::specs::Operands::read_expr_level))]
pub fn expr_level<T: Trees>(
    trees: &T,
    alloc: Global,
    cursor: &mut Cursor<'_>,
) -> Result<Expr, ReadError>
    requires ready { T.ready trees.now }
    ensures { GivesAt (T.left trees.now) read_expr_level result cursor.old cursor.new }
{
    let part = part(trees, alloc, cursor)?;
    let first = Boxed::new(alloc, part)?;
    let more = infix_parts(trees, alloc, cursor)?;
    Ok(Expr { first, more })
}

/// `{infix part}`
#[tactic(auto, unfolding(query_reading::specs::Operands::read_infix_parts))]
fn infix_parts<T: Trees>(
    trees: &T,
    alloc: Global,
    cursor: &mut Cursor<'_>,
) -> Result<Items<InfixPart>, ReadError>
    requires ready { T.ready trees.now }
    ensures { GivesAt (T.left trees.now) read_infix_parts result cursor.old cursor.new }
{
    let mut more = Items::new(alloc);
    while starts_infix(cursor) {
        let next = infix_part(trees, alloc, cursor)?;
        more.push(next)?;
    }
    Ok(more)
}

/// Whether the tokens that are left look as an operator between parts begins.
fn starts_infix(cursor: &Cursor<'_>) -> bool
    ensures { result ≡ looks (sort_of cursor.now.text) infix_starts cursor.now.left }
{
    let first = cursor.first();
    let words = [
        Keyword::And,
        Keyword::Or,
        Keyword::Is,
        Keyword::Escape,
        Keyword::Between,
        Keyword::Like,
        Keyword::Glob,
        Keyword::Regexp,
        Keyword::Match,
    ];
    let comparing = [
        Keyword::Between,
        Keyword::Like,
        Keyword::Glob,
        Keyword::Regexp,
        Keyword::Match,
    ];
    is_infix_sign(first)
        || first.is_one_of(&words)
        || first.is_word(Keyword::Not) && cursor.second().is_one_of(&comparing)
}

/// `infix part`
#[tactic(auto, unfolding(query_reading::specs::Operands::read_infix_part))]
fn infix_part<T: Trees>(
    trees: &T,
    alloc: Global,
    cursor: &mut Cursor<'_>,
) -> Result<InfixPart, ReadError>
    requires ready { T.ready trees.now }
    ensures { GivesAt (T.left trees.now) read_infix_part result cursor.old cursor.new }
{
    if is_bare_is(cursor.first(), cursor.second()) {
        let (is, part) = is_part(trees, alloc, cursor)?;
        let operator = Infix::Is {
            is,
            not: None,
            distinct_from: None,
        };
        return Ok(InfixPart { operator, part });
    }
    let operator = operator(cursor)?;
    let part = part(trees, alloc, cursor)?;
    Ok(InfixPart { operator, part })
}

/// `IS part`, where the part does not begin with NOT.
#[tactic(auto, unfolding(query_reading::specs::Operands::read_is_part))]
fn is_part<T: Trees>(
    trees: &T,
    alloc: Global,
    cursor: &mut Cursor<'_>,
) -> Result<(Token, Part), ReadError>
    requires ready { T.ready trees.now }
    ensures { GivesAt (T.left trees.now) read_is_part result cursor.old cursor.new }
{
    let is = bare_is(cursor)?;
    let part = free_part(trees, alloc, cursor)?;
    Ok((is, part))
}

/// A part that does not begin with NOT.
#[tactic(auto, unfolding(query_reading::specs::Operands::read_free_part))]
fn free_part<T: Trees>(trees: &T, alloc: Global, cursor: &mut Cursor<'_>) -> Result<Part, ReadError>
    requires ready { T.ready trees.now }
    ensures { GivesAt (T.left trees.now) read_free_part result cursor.old cursor.new }
{
    if cursor.first().is_one_of(&[Keyword::Not]) {
        return Err(ReadError::Syntax);
    }
    part(trees, alloc, cursor)
}

/// IS, before neither NOT nor DISTINCT.
fn bare_is(cursor: &mut Cursor<'_>) -> Result<Token, ReadError>
    ensures { Finds (λ sort. read_leaf_before sort (word K.Is) (words (K.Not ∷ K.Distinct ∷ []))) result cursor.old cursor.new }
{
    let fits = is_bare_is(cursor.first(), cursor.second());
    cursor.take_if(fits)
}

/// Whether it is IS, before neither NOT nor DISTINCT.
fn is_bare_is(first: Sort, second: Sort) -> bool
    ensures { result ≡ (word K.Is first && not (words (K.Not ∷ K.Distinct ∷ []) second)) }
{
    first.is_word(Keyword::Is) && !second.is_one_of(&[Keyword::Not, Keyword::Distinct])
}

/// `{"-" | "+" | "~" | NOT} operand {postfix}`
#[tactic(auto, unfolding(query_reading::specs::Operands::read_part))]
fn part<T: Trees>(trees: &T, alloc: Global, cursor: &mut Cursor<'_>) -> Result<Part, ReadError>
    requires ready { T.ready trees.now }
    ensures { GivesAt (T.left trees.now) read_part result cursor.old cursor.new }
{
    let prefixes = prefixes(alloc, cursor)?;
    let operand = operand(trees, alloc, cursor)?;
    let postfixes = postfixes(trees, alloc, cursor)?;
    Ok(Part {
        prefixes,
        operand,
        postfixes,
    })
}

/// `{"-" | "+" | "~" | NOT}`
#[tactic(auto, unfolding(query_reading::specs::Operands::read_prefixes))]
fn prefixes(alloc: Global, cursor: &mut Cursor<'_>) -> Result<Items<Token>, ReadError>
    ensures { Gives read_prefixes result cursor.old cursor.new }
{
    let mut prefixes = Items::new(alloc);
    while is_prefix(cursor.first()) {
        let next = prefix(cursor)?;
        prefixes.push(next)?;
    }
    Ok(prefixes)
}

/// `"-" | "+" | "~" | NOT`
fn prefix(cursor: &mut Cursor<'_>) -> Result<Token, ReadError>
    ensures { Finds (λ sort. read_leaf sort prefix) result cursor.old cursor.new }
{
    let fits = is_prefix(cursor.first());
    cursor.take_if(fits)
}

/// Whether it is a prefix.
fn is_prefix(sort: Sort) -> bool
    ensures { result ≡ prefix sort }
{
    sort.is_sign(Mark::Minus)
        || sort.is_sign(Mark::Plus)
        || sort.is_sign(Mark::Tilde)
        || sort.is_word(Keyword::Not)
}

/// `{postfix}`
#[tactic(auto, unfolding(query_reading::specs::Operands::read_postfixes))]
fn postfixes<T: Trees>(
    trees: &T,
    alloc: Global,
    cursor: &mut Cursor<'_>,
) -> Result<Items<Postfix>, ReadError>
    requires ready { T.ready trees.now }
    ensures { GivesAt (T.left trees.now) read_postfixes result cursor.old cursor.new }
{
    let mut postfixes = Items::new(alloc);
    while starts_postfix(cursor) {
        let next = postfix(trees, alloc, cursor)?;
        postfixes.push(next)?;
    }
    Ok(postfixes)
}

/// Whether the tokens that are left look as a postfix begins.
fn starts_postfix(cursor: &Cursor<'_>) -> bool
    ensures { result ≡ looks (sort_of cursor.now.text) postfix_starts cursor.now.left }
{
    let first = cursor.first();
    let second = cursor.second();
    first.is_word(Keyword::Collate)
        || first.is_word(Keyword::IsNull)
        || first.is_word(Keyword::NotNull)
        || first.is_word(Keyword::Not) && second.is_word(Keyword::Null)
        || first.is_word(Keyword::Not) && second.is_word(Keyword::In)
        || first.is_word(Keyword::In)
}

/// `COLLATE name | ISNULL | NOTNULL | NOT NULL | [NOT] IN set`
#[tactic(auto, unfolding(query_reading::specs::Operands::read_postfix))]
fn postfix<T: Trees>(
    trees: &T,
    alloc: Global,
    cursor: &mut Cursor<'_>,
) -> Result<Postfix, ReadError>
    requires ready { T.ready trees.now }
    ensures { GivesAt (T.left trees.now) read_postfix result cursor.old cursor.new }
{
    let first = cursor.first();
    if first.is_word(Keyword::Collate) {
        let collate = cursor.word(Keyword::Collate)?;
        let name = cursor.name()?;
        return Ok(Postfix::Collate { collate, name });
    }
    if first.is_word(Keyword::IsNull) {
        return Ok(Postfix::IsNull(cursor.word(Keyword::IsNull)?));
    }
    if first.is_word(Keyword::NotNull) {
        return Ok(Postfix::NotNull(cursor.word(Keyword::NotNull)?));
    }
    if first.is_word(Keyword::Not) && cursor.second().is_word(Keyword::Null) {
        let not = cursor.word(Keyword::Not)?;
        let null = cursor.word(Keyword::Null)?;
        return Ok(Postfix::NotNullWords { not, null });
    }
    let (not, in_word) = maybe_not_word(cursor, Keyword::In)?;
    let set = in_set(trees, alloc, cursor)?;
    Ok(Postfix::In { not, in_word, set })
}
