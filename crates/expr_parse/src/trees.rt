//! What reads the trees that stand inside a tree.

ghost use Rattle.std.specs.Prelude.{ℕ};
ghost use Rattle.expr_parse.specs.Given.{GivesAt, ReadsAt};

use sql_expr::{Expr, Select, Sources};
use sql_reader::{Cursor, ReadError};
use sqlite_items::Boxed;
use std::alloc::Global;

/// Reads the trees that stand inside a tree. Each rule's function takes one, so that each is proved by itself.
pub trait Trees {
    /// The bound: what it reads nests less deep.
    ghost left: { Self → ℕ };

    /// It may be asked.
    ghost ready: { Self → Type 0 };

    /// An expression.
    fn expr(&self, alloc: Global, cursor: &mut Cursor<'_>) -> Result<Expr, ReadError>
        requires ready { ready self.now }
        ensures found { GivesAt (left self.now) (λ _ inner. inner.expr) result cursor.old cursor.new };

    /// A select.
    fn select(&self, alloc: Global, cursor: &mut Cursor<'_>) -> Result<Boxed<Select>, ReadError>
        requires ready { ready self.now }
        ensures found { GivesAt (left self.now) (λ _ inner. inner.select) result cursor.old cursor.new };

    /// Sources.
    fn sources(&self, alloc: Global, cursor: &mut Cursor<'_>) -> Result<Boxed<Sources>, ReadError>
        requires ready { ready self.now }
        ensures found { GivesAt (left self.now) (λ _ inner. inner.sources) result cursor.old cursor.new };
}

/// Functions that read trees, each to the same bound.
#[derive(Clone, Copy)]
pub struct Handed<E, S, F> {
    pub left: usize,
    pub expr: E,
    pub select: S,
    pub sources: F,
}

impl<E, S, F> Trees for Handed<E, S, F>
where
    E: Fn(Global, &mut Cursor<'_>, usize) -> Result<Expr, ReadError>,
    S: Fn(Global, &mut Cursor<'_>, usize) -> Result<Boxed<Select>, ReadError>,
    F: Fn(Global, &mut Cursor<'_>, usize) -> Result<Boxed<Sources>, ReadError>,
{
    ghost left = { λ handed. handed.left };

    ghost ready = { λ handed.
        ReadsAt handed.left (λ _ inner. inner.expr) (E.pre handed.expr) (E.post handed.expr)
        × ReadsAt handed.left (λ _ inner. inner.select) (S.pre handed.select) (S.post handed.select)
        × ReadsAt handed.left (λ _ inner. inner.sources) (F.pre handed.sources) (F.post handed.sources) };

    fn expr(&self, alloc: Global, cursor: &mut Cursor<'_>) -> Result<Expr, ReadError> {
        (self.expr)(alloc, cursor, self.left)
    }

    fn select(&self, alloc: Global, cursor: &mut Cursor<'_>) -> Result<Boxed<Select>, ReadError> {
        (self.select)(alloc, cursor, self.left)
    }

    fn sources(&self, alloc: Global, cursor: &mut Cursor<'_>) -> Result<Boxed<Sources>, ReadError> {
        (self.sources)(alloc, cursor, self.left)
    }
}
