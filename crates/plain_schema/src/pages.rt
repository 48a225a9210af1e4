//! The pages of a file that is served: page 1 with the schema's rows, and empty tables.
ghost use Rattle.std.specs.Prelude.{◌≡◌, ◌≤◌, ◌<◌, ◌+◌, ◌-◌, ◌^◌, ◌↔◌, ℕ, List, [], ◌∷◌, pos, true, length, take, drop, Some, None, IsTrue, IfOk, IfSome, IfNone, IsSomeAnd};
ghost use Rattle.std.specs.List.{AllByRecursion};
ghost use Rattle.common_laws.specs.Results.{AnyError, Yields};
ghost use Rattle.page_cells.specs.Cells.{HasCells};
ghost use Rattle.page_cells.specs.Layout.{IsUsable};
ghost use Rattle.page_cells.specs.declared.cell.Cell.{Cell};
ghost use Rattle.page_cells.specs.declared.kind.Kind.TheVariants.{TableLeaf};
ghost use Rattle.record_codec.specs.Record.{IsRecord};
ghost use Rattle.schema_rows.specs.Schema.{row_values};
ghost use Rattle.schema_rows.specs.declared.schema.SchemaRow.{SchemaRow};
ghost use Rattle.plain_schema.specs.FirstPage.{HoldsRow, HoldRows, HoldsRows, IsEmptyTable, IsLocal, IsOnPage, leaf_of};
ghost use Rattle.plain_schema.specs.Served.{IsShortRow};

use page_cells::{Cell, CellError, Kind, cells};
use schema_rows::{SchemaRow, read_schema_row};
use std::alloc::{AllocError, Global};

/// The rowid of a cell, if schema rows may have it: from 1 to 2^32 - 1.
fn schema_rowid(rowid: Option<i64>) -> Option<u32>
    ensures found { IfSome result (λ n. (rowid ≡ Some (pos n)) × (1 ≤ n)) }
    ensures none { IfNone result ((n : ℕ) → rowid ≡ Some (pos n) → 1 ≤ n → n < 2 ^ 32 → ⊥) }
{
    match rowid {
        Some(rowid) if 1 <= rowid && rowid <= u32::MAX as i64 => Some(rowid as u32),
        _ => None,
    }
}

/// The cells of page 1, if it is a leaf page of a table tree.
fn first_cells(alloc: Global, page: &[u8], usable: usize) -> Result<Option<Vec<Cell>>, AllocError>
    requires { IsUsable usable (length page.now) }
    ensures found { IfOk result (λ read. IfSome read (λ c. HasCells page.now true TableLeaf usable (leaf_of c.items))) }
    ensures within { IfOk result (λ read. IfSome read (λ c. AllByRecursion (IsOnPage page.now) c.items)) }
    ensures only { (list : List Cell) → HasCells page.now true TableLeaf usable (leaf_of list) → Yields AnyError (λ read. IsSomeAnd read (λ found. found.items ≡ list)) result }
{
    match cells(alloc, page, true, usable) {
        Ok(found) => match found.kind {
            Kind::TableLeaf => Ok(Some(found.cells.into_vec())),
            Kind::IndexInner | Kind::TableInner | Kind::IndexLeaf => Ok(None),
        },
        Err(CellError::Memory(fault)) => Err(fault),
        Err(CellError::Kind) => Ok(None),
        Err(CellError::Bounds(_)) => Ok(None),
    }
}

/// The rowid and the payload of a cell whose payload is all local.
fn local_row<'a>(page: &'a [u8], cell: &Cell) -> Option<(u32, &'a [u8])>
    requires { IsOnPage page.now cell.now }
    ensures found { IfSome result (λ row. IsLocal page.now cell.now row.0 row.1.now) }
    ensures none { IfNone result ((n : ℕ) → IsLocal page.now cell.now n (take (cell.now.end - cell.now.start) (drop cell.now.start page.now)) → ⊥) }
{
    let rowid = schema_rowid(cell.rowid)?;
    match cell.overflow {
        Some(_) => None,
        None => Some((rowid, &page[cell.start..cell.end])),
    }
}

/// The row that a cell holds, if it holds one, and all of it on the page.
fn held_row(alloc: Global, page: &[u8], cell: &Cell) -> Result<Option<SchemaRow>, AllocError>
    requires { IsOnPage page.now cell.now }
    ensures found { IfOk result (λ read. IfSome read (HoldsRow page.now cell.now)) }
    ensures short { IfOk result (λ read. IfSome read (IsShortRow page.now)) }
    ensures only { (row : SchemaRow) → row.root < 2 ^ 31 → HoldsRow page.now cell.now row → Yields AnyError (λ read. IsSomeAnd read (λ found. found ≡ row)) result }
{
    match local_row(page, cell) {
        Some((rowid, payload)) => read_schema_row(alloc, rowid, payload),
        None => Ok(None),
    }
}

/// The rows that the cells hold, one each.
fn held_rows(
    alloc: Global,
    page: &[u8],
    cells: &[Cell],
) -> Result<Option<Vec<SchemaRow>>, AllocError>
    requires { AllByRecursion (IsOnPage page.now) cells.now }
    ensures found { IfOk result (λ read. IfSome read (λ rows. HoldRows page.now cells.now rows.items)) }
    ensures short { IfOk result (λ read. IfSome read (λ rows. AllByRecursion (IsShortRow page.now) rows.items)) }
    ensures only { (list : List SchemaRow) → AllByRecursion (λ row. row.root < 2 ^ 31) list → HoldRows page.now cells.now list → Yields AnyError (λ read. IsSomeAnd read (λ found. found.items ≡ list)) result }
{
    let mut rows = Vec::new(alloc);
    for cell in cells {
        match held_row(alloc, page, cell)? {
            Some(row) => rows.push(row)?,
            None => return Ok(None),
        }
    }
    Ok(Some(rows))
}

/// The rows of page 1, in order.
pub fn read_rows(
    alloc: Global,
    page: &[u8],
    usable: usize,
) -> Result<Option<Vec<SchemaRow>>, AllocError>
    requires { IsUsable usable (length page.now) }
    ensures found { IfOk result (λ read. IfSome read (λ rows. HoldsRows page.now usable rows.items)) }
    ensures short { IfOk result (λ read. IfSome read (λ rows. AllByRecursion (IsShortRow page.now) rows.items)) }
    ensures only { (list : List SchemaRow) → AllByRecursion (λ row. row.root < 2 ^ 31) list → HoldsRows page.now usable list → Yields AnyError (λ read. IsSomeAnd read (λ found. found.items ≡ list)) result }
{
    match first_cells(alloc, page, usable)? {
        Some(cells) => held_rows(alloc, page, cells.as_slice()),
        None => Ok(None),
    }
}

/// Whether the page is an empty table.
pub fn is_empty_table(alloc: Global, page: &[u8], usable: usize) -> Result<bool, AllocError>
    requires { IsUsable usable (length page.now) }
    ensures { IfOk result (λ empty. IsTrue empty ↔ IsEmptyTable usable page.now) }
{
    match cells(alloc, page, false, usable) {
        Ok(found) => Ok(found.kind == Kind::TableLeaf && found.cells.is_empty()),
        Err(CellError::Memory(fault)) => Err(fault),
        Err(CellError::Kind) => Ok(false),
        Err(CellError::Bounds(_)) => Ok(false),
    }
}
