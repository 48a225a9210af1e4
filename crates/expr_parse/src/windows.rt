//! Terms of ORDER BY, and windows.

ghost use Rattle.expr_parse.specs.Given.{GivesAt};
ghost use Rattle.query_reading.specs.Windows.{read_bound, read_bound_expr, read_frame, read_frame_extent, read_more_terms, read_named_window, read_next_term, read_opt_after, read_opt_by, read_opt_frame, read_opt_order, read_term, read_terms, read_window};

use crate::lists::exprs;
use crate::trees::Trees;
use query_reading::{nulls, opt_base, opt_exclude, optional_of, plain_bound};
use sql_expr::{
    After, Bound, By, Commas, Expr, Frame, FrameExtent, NamedWindow, NextItem, Term, Window,
};
use sql_reader::{Cursor, Mark, ReadError};
use sql_token::Keyword;
use sqlite_items::{Boxed, Items};
use std::alloc::Global;

/// `[WORD expr]`
#[tactic(auto, unfolding(query_reading::specs::Windows::read_opt_after))]
pub fn opt_after<T: Trees>(
    trees: &T,
    alloc: Global,
    cursor: &mut Cursor<'_>,
    keyword: Keyword,
) -> Result<Option<After<Expr>>, ReadError>
    requires ready { T.ready trees.now }
    ensures { GivesAt (T.left trees.now) (λ sort inner. read_opt_after sort inner keyword) result cursor.old cursor.new }
{
    if cursor.first().is_word(keyword) {
        let word = cursor.word(keyword)?;
        let part = trees.expr(alloc, cursor)?;
        return Ok(Some(After { word, part }));
    }
    Ok(None)
}

/// `[WORD BY exprs]`
#[tactic(auto, unfolding(query_reading::specs::Windows::read_opt_by))]
pub fn opt_by<T: Trees>(
    trees: &T,
    alloc: Global,
    cursor: &mut Cursor<'_>,
    keyword: Keyword,
) -> Result<Option<By<Expr>>, ReadError>
    requires ready { T.ready trees.now }
    ensures { GivesAt (T.left trees.now) (λ sort inner. read_opt_by sort inner keyword) result cursor.old cursor.new }
{
    if cursor.first().is_word(keyword) {
        let word = cursor.word(keyword)?;
        let by = cursor.word(Keyword::By)?;
        let items = exprs(trees, alloc, cursor)?;
        return Ok(Some(By { word, by, items }));
    }
    Ok(None)
}

/// `expr [ASC|DESC] [NULLS (FIRST|LAST)]`
#[tactic(auto, unfolding(query_reading::specs::Windows::read_term))]
fn term<T: Trees>(
    trees: &T,
    alloc: Global,
    cursor: &mut Cursor<'_>,
) -> Result<Term<Expr>, ReadError>
    requires ready { T.ready trees.now }
    ensures { GivesAt (T.left trees.now) read_term result cursor.old cursor.new }
{
    let expr = trees.expr(alloc, cursor)?;
    let direction = optional_of(cursor, &[Keyword::Asc, Keyword::Desc])?;
    let nulls = nulls(cursor)?;
    Ok(Term {
        expr,
        direction,
        nulls,
    })
}

/// `"," term`
#[tactic(auto, unfolding(query_reading::specs::Windows::read_next_term))]
fn next_term<T: Trees>(
    trees: &T,
    alloc: Global,
    cursor: &mut Cursor<'_>,
) -> Result<NextItem<Term<Expr>>, ReadError>
    requires ready { T.ready trees.now }
    ensures { GivesAt (T.left trees.now) read_next_term result cursor.old cursor.new }
{
    let comma = cursor.sign(Mark::Comma)?;
    let item = term(trees, alloc, cursor)?;
    Ok(NextItem { comma, item })
}

/// `{"," term}`
#[tactic(auto, unfolding(query_reading::specs::Windows::read_more_terms))]
fn more_terms<T: Trees>(
    trees: &T,
    alloc: Global,
    cursor: &mut Cursor<'_>,
) -> Result<Items<NextItem<Term<Expr>>>, ReadError>
    requires ready { T.ready trees.now }
    ensures { GivesAt (T.left trees.now) read_more_terms result cursor.old cursor.new }
{
    let mut more = Items::new(alloc);
    while cursor.first().is_sign(Mark::Comma) {
        let next = next_term(trees, alloc, cursor)?;
        more.push(next)?;
    }
    Ok(more)
}

/// `term {"," term}`
#[tactic(auto, unfolding(query_reading::specs::Windows::read_terms))]
fn terms<T: Trees>(
    trees: &T,
    alloc: Global,
    cursor: &mut Cursor<'_>,
) -> Result<Commas<Term<Expr>>, ReadError>
    requires ready { T.ready trees.now }
    ensures { GivesAt (T.left trees.now) read_terms result cursor.old cursor.new }
{
    let first = term(trees, alloc, cursor)?;
    let more = more_terms(trees, alloc, cursor)?;
    Ok(Commas { first, more })
}

/// `[ORDER BY terms]`
#[tactic(auto, unfolding(query_reading::specs::Windows::read_opt_order))]
pub fn opt_order<T: Trees>(
    trees: &T,
    alloc: Global,
    cursor: &mut Cursor<'_>,
) -> Result<Option<By<Term<Expr>>>, ReadError>
    requires ready { T.ready trees.now }
    ensures { GivesAt (T.left trees.now) read_opt_order result cursor.old cursor.new }
{
    if cursor.first().is_word(Keyword::Order) {
        let word = cursor.word(Keyword::Order)?;
        let by = cursor.word(Keyword::By)?;
        let items = terms(trees, alloc, cursor)?;
        return Ok(Some(By { word, by, items }));
    }
    Ok(None)
}

/// An expression that does not begin with UNBOUNDED or CURRENT.
#[tactic(auto, unfolding(query_reading::specs::Windows::read_bound_expr))]
fn bound_expr<T: Trees>(
    trees: &T,
    alloc: Global,
    cursor: &mut Cursor<'_>,
) -> Result<Expr, ReadError>
    requires ready { T.ready trees.now }
    ensures { GivesAt (T.left trees.now) read_bound_expr result cursor.old cursor.new }
{
    if cursor
        .first()
        .is_one_of(&[Keyword::Unbounded, Keyword::Current])
    {
        return Err(ReadError::Syntax);
    }
    trees.expr(alloc, cursor)
}

/// `UNBOUNDED (PRECEDING|FOLLOWING) | CURRENT ROW | expr (PRECEDING|FOLLOWING)`
#[tactic(auto, unfolding(query_reading::specs::Windows::read_bound))]
fn bound<T: Trees>(
    trees: &T,
    alloc: Global,
    cursor: &mut Cursor<'_>,
) -> Result<Bound<Expr>, ReadError>
    requires ready { T.ready trees.now }
    ensures { GivesAt (T.left trees.now) read_bound result cursor.old cursor.new }
{
    let first = cursor.first();
    if first.is_word(Keyword::Unbounded) || first.is_word(Keyword::Current) {
        return plain_bound(cursor);
    }
    let expr = bound_expr(trees, alloc, cursor)?;
    let way = cursor.words(&[Keyword::Preceding, Keyword::Following])?;
    Ok(Bound::Expr { expr, way })
}

/// `bound | BETWEEN bound AND bound`
#[tactic(auto, unfolding(query_reading::specs::Windows::read_frame_extent))]
fn frame_extent<T: Trees>(
    trees: &T,
    alloc: Global,
    cursor: &mut Cursor<'_>,
) -> Result<FrameExtent<Expr>, ReadError>
    requires ready { T.ready trees.now }
    ensures { GivesAt (T.left trees.now) read_frame_extent result cursor.old cursor.new }
{
    if cursor.first().is_word(Keyword::Between) {
        let between = cursor.word(Keyword::Between)?;
        let start = bound(trees, alloc, cursor)?;
        let and = cursor.word(Keyword::And)?;
        let end = bound(trees, alloc, cursor)?;
        return Ok(FrameExtent::Between {
            between,
            start,
            and,
            end,
        });
    }
    Ok(FrameExtent::From(bound(trees, alloc, cursor)?))
}

/// `(RANGE|ROWS|GROUPS) extent [EXCLUDE excluded]`
#[tactic(auto, unfolding(query_reading::specs::Windows::read_frame))]
fn frame<T: Trees>(
    trees: &T,
    alloc: Global,
    cursor: &mut Cursor<'_>,
) -> Result<Frame<Expr>, ReadError>
    requires ready { T.ready trees.now }
    ensures { GivesAt (T.left trees.now) read_frame result cursor.old cursor.new }
{
    let unit = cursor.words(&[Keyword::Range, Keyword::Rows, Keyword::Groups])?;
    let extent = frame_extent(trees, alloc, cursor)?;
    let exclude = opt_exclude(cursor)?;
    Ok(Frame {
        unit,
        extent,
        exclude,
    })
}

/// `[frame]`
#[tactic(auto, unfolding(query_reading::specs::Windows::read_opt_frame))]
fn opt_frame<T: Trees>(
    trees: &T,
    alloc: Global,
    cursor: &mut Cursor<'_>,
) -> Result<Option<Frame<Expr>>, ReadError>
    requires ready { T.ready trees.now }
    ensures { GivesAt (T.left trees.now) read_opt_frame result cursor.old cursor.new }
{
    if cursor
        .first()
        .is_one_of(&[Keyword::Range, Keyword::Rows, Keyword::Groups])
    {
        return Ok(Some(frame(trees, alloc, cursor)?));
    }
    Ok(None)
}

/// `"(" [name] [PARTITION BY exprs] [ORDER BY terms] [frame] ")"`
#[tactic(auto, unfolding(query_reading::specs::Windows::read_window))]
pub fn window<T: Trees>(
    trees: &T,
    alloc: Global,
    cursor: &mut Cursor<'_>,
) -> Result<Boxed<Window<Expr>>, ReadError>
    requires ready { T.ready trees.now }
    ensures { GivesAt (T.left trees.now) read_window result cursor.old cursor.new }
{
    let opening = cursor.sign(Mark::Opening)?;
    let base = opt_base(cursor)?;
    let partition = opt_by(trees, alloc, cursor, Keyword::Partition)?;
    let order = opt_order(trees, alloc, cursor)?;
    let frame = opt_frame(trees, alloc, cursor)?;
    let closing = cursor.sign(Mark::Closing)?;
    let window = Window {
        opening,
        base,
        partition,
        order,
        frame,
        closing,
    };
    Ok(Boxed::new(alloc, window)?)
}

/// `name AS window`
#[tactic(auto, unfolding(query_reading::specs::Windows::read_named_window))]
pub fn named_window<T: Trees>(
    trees: &T,
    alloc: Global,
    cursor: &mut Cursor<'_>,
) -> Result<NamedWindow<Expr>, ReadError>
    requires ready { T.ready trees.now }
    ensures { GivesAt (T.left trees.now) read_named_window result cursor.old cursor.new }
{
    let name = cursor.name()?;
    let as_word = cursor.word(Keyword::As)?;
    let window = window(trees, alloc, cursor)?;
    Ok(NamedWindow {
        name,
        as_word,
        window,
    })
}
