ghost use Rattle.std.specs.Prelude.{◌≡◌, ◌≢◌, ◌≤◌, ◌<◌, ◌↔◌, ℕ, length, slice_index, IfOk, IfErr, IfSome, IfNone};
ghost use Rattle.common_laws.specs.Results.{Yields};
ghost use Rattle.page_cells.specs.Layout.{IsUsable, cell_count, header_start, kind_byte, most_usable, pointers_end};
ghost use Rattle.page_cells.specs.Cells.{AreCells, FirstFault, HasCells, cell_end};
ghost use Rattle.page_cells.specs.Errors.{IsFaultAt, IsMemory, OnBounds};
ghost use Rattle.page_cells.specs.Taken.{IsFault, IsFreeCell, marked};
ghost use Rattle.page_cells.specs.declared.cell.Cell.{Cell};
ghost use Rattle.page_cells.specs.declared.cell.PageCells.{PageCells};

use crate::fields::{cell_at, child_at};
use crate::layout::{CHILD_AT, COUNT_AT, POINTER_LEN, header_at, number_at};
use crate::taken::take_places;
use crate::{Cell, CellError, CellList, Kind, PageCells};
use std::alloc::Global;

/// The cells of a page of a tree, in the order of their pointers. `first` says that it is page 1, and
/// `usable` is the size of a page less its reserved bytes. Free blocks, the number of fragmented bytes
/// and the start of the cells are not looked at.
pub fn cells(alloc: Global, page: &[u8], first: bool, usable: usize) -> Result<PageCells, CellError>
    requires { IsUsable usable (length page.now) }
    ensures found { IfOk result (λ found. HasCells page.now first found.kind usable found) }
    ensures only { (kind : Kind) (c : PageCells) → HasCells page.now first kind usable c → Yields IsMemory (λ found. found ≡ c) result }

    ensures kind { (result ≡ Err CellError.Kind) ↔ ((kind : Kind) → slice_index page.now (header_start first) ≢ kind_byte kind) }
    ensures bounds { OnBounds result (λ at. (kind : Kind) × FirstFault page.now first kind usable at) }
    ensures first_fault { (kind : Kind) (at : ℕ) → FirstFault page.now first kind usable at → IsFaultAt at result }
{
    let header = header_at(first);
    let Some(kind) = Kind::of_byte(page[header]) else {
        return Err(CellError::Kind);
    };
    let count = number_at(page, header + COUNT_AT);
    if usable < header + kind.header_len() + POINTER_LEN * count {
        return Err(CellError::Bounds(header + COUNT_AT));
    }
    let right = child_at(page, kind, header + CHILD_AT);
    let cells = read_cells(alloc, page, first, kind, usable, count)?;
    Ok(PageCells {
        kind,
        right,
        cells: CellList::new(cells),
    })
}

/// The cells at the first `count` pointers.
fn read_cells(
    alloc: Global,
    page: &[u8],
    first: bool,
    kind: Kind,
    usable: usize,
    count: usize,
) -> Result<Vec<Cell>, CellError>
    requires usable { IsUsable usable (length page.now) }
    requires byte { slice_index page.now (header_start first) ≡ kind_byte kind }
    requires count { count ≡ cell_count page.now first }
    requires room { pointers_end page.now first kind ≤ usable }
    ensures found { IfOk result (λ cells. AreCells page.now first kind usable cells.items × (length cells.items ≡ count)) }
    ensures fault { IfErr result (IsFault page.now first kind usable) }
{
    let pointers = header_at(first) + kind.header_len();
    let mut marks = vec![in alloc; false; usable]?;
    let taken = marks.as_mut_slice();
    let mut cells = Vec::with_capacity(alloc, count)?;
    for i in 0..count {
        let place = pointers + POINTER_LEN * i;
        let at = number_at(page, place);
        match next_cell(
            page,
            kind,
            usable,
            pointers + POINTER_LEN * count,
            at,
            taken,
        ) {
            Some(cell) => cells.push(cell)?,
            None => return Err(CellError::Bounds(place)),
        }
    }
    Ok(cells)
}

/// The cell at the place, from `low` on, where none of its places is marked yet. It marks them.
fn next_cell(
    page: &[u8],
    kind: Kind,
    usable: usize,
    low: usize,
    at: usize,
    taken: &mut [bool],
) -> Option<Cell>
    requires usable { IsUsable usable (length page.now) }
    requires place { at < most_usable }
    requires marks { length taken.old ≡ usable }
    ensures found { IfSome result (λ c. IsFreeCell page.now kind usable low at taken.old c × (taken.new ≡ marked taken.old at (cell_end kind usable c))) }
    ensures none { IfNone result ((c : Cell) → IsFreeCell page.now kind usable low at taken.old c → ⊥) }
{
    if at < low {
        return None;
    }
    let (cell, behind) = cell_at(page, kind, usable, at)?;
    if !take_places(taken, at, behind) {
        return None;
    }
    Some(cell)
}
