ghost use Rattle.std.specs.Prelude.{◌≡◌, ◌==◌, ◌+◌, length, [], ◌∷◌, ◌++◌, IfOk, OnOk, OnErr};

use crate::Kind;
use std::alloc::{AllocError, Global};
use std::marker::Model;

/// A cell of a page. `start..end` are the places in the page of the part of its payload that stands
/// there, and `overflow` is the first overflow page where there is one.
#[derive(Clone, Copy, Debug, PartialEq, Eq)]
pub struct Cell {
    /// The page of the left child, on interior pages.
    pub left: Option<u32>,
    /// The rowid, on pages of a table tree.
    pub rowid: Option<i64>,
    /// The length of the whole payload in bytes.
    pub payload: u64,
    pub start: usize,
    pub end: usize,
    pub overflow: Option<u32>,
}

/// The cells of a page in the order of their pointers.
#[derive(Debug, Drop)]
pub struct CellList {
    cells: Vec<Cell>,
}

impl Model for CellList {
    ghost use Rattle.std.specs.Prelude.{List};
    ghost use Rattle.page_cells.specs.declared.cell.Cell.{Cell};

    ghost Value = { List Cell };

    ghost view = { λ l. l.cells.items };
}

impl CellList {
    pub fn new(cells: Vec<Cell>) -> CellList
        ensures { result ≡ cells.items }
    {
        CellList { cells }
    }

    pub fn as_slice(&self) -> &[Cell]
        ensures { result.now ≡ self.now }
    {
        self.cells.as_slice()
    }

    pub fn into_vec(self) -> Vec<Cell>
        ensures { result.items ≡ self }
    {
        self.cells
    }

    pub fn len(&self) -> usize
        ensures { result ≡ length self.now }
    {
        self.cells.len()
    }

    pub fn is_empty(&self) -> bool
        ensures { result ≡ (length self.now == 0) }
    {
        self.cells.is_empty()
    }
}

/// What a page of a tree holds.
#[derive(Debug, Drop)]
pub struct PageCells {
    pub kind: Kind,
    /// The page of the right-most child, on interior pages.
    pub right: Option<u32>,
    pub cells: CellList,
}
