//! One page of a tree, looked at by itself.
ghost use Rattle.std.specs.Prelude.{◌≡◌, true, length, IfOk, is_some};
ghost use Rattle.pager_core.specs.Pages.{IsPage, disk_of, shape_of};
ghost use Rattle.tree_read.specs.Answers.{MeetsNode, OnlyReads};
ghost use Rattle.tree_read.specs.Node as spec;
ghost use Rattle.tree_read.specs.Nodes.{HasNodes, Nodes};

use crate::WalkError;
use crate::error::no_cells;
use crate::place::Limits;
use alter_disk::Disk;
use page_cells::{Cell, Kind, PageCells, cells};
use pager_core::Pages;
use std::alloc::Global;

/// The cells of a page.
pub(crate) fn read_node<D: Disk>(
    alloc: Global,
    pages: &mut Pages<D>,
    page: u32,
) -> Result<PageCells, WalkError>
    requires called { D.called (disk_of pages.old) ≡ true }
    requires page { IsPage pages.old page }
    ensures node { (nodes : Nodes) → HasNodes nodes pages.new → MeetsNode page result (nodes.cells page) }
    ensures reads { OnlyReads D.Disk pages.old pages.new result }
{
    pages.load(page)?;
    let usable = pages.shape().usable as usize;
    match cells(alloc, pages.loaded(page), page == 1, usable) {
        Ok(found) => Ok(found),
        Err(fault) => Err(no_cells(fault, page)),
    }
}

/// Whether pages of the kind are those of a table tree.
pub(crate) fn is_table(kind: Kind) -> bool
    ensures { result ≡ spec.is_table kind }
{
    match kind {
        Kind::TableInner | Kind::TableLeaf => true,
        Kind::IndexInner | Kind::IndexLeaf => false,
    }
}

/// Whether pages of the kind are those of a tree of this sort: of a table, or of an index.
fn is_of(table: bool, kind: Kind) -> bool
    ensures { result ≡ spec.is_of table kind }
{
    if table {
        is_table(kind)
    } else {
        !is_table(kind)
    }
}

/// Whether a page of a file of so many is named, or none is.
fn is_link(count: u32, page: Option<u32>) -> bool
    ensures { result ≡ spec.is_link count page }
{
    match page {
        Some(page) => 1 <= page && page <= count,
        None => true,
    }
}

/// Whether each child and each first overflow page is a page of a file of so many.
fn are_links(count: u32, cells: &[Cell]) -> bool
    ensures { result ≡ spec.are_links count cells.now }
{
    for cell in cells {
        if !is_link(count, cell.left) || !is_link(count, cell.overflow) {
            return false;
        }
    }
    true
}

fn is_above(low: Option<i64>, rowid: Option<i64>) -> bool
    ensures { result ≡ spec.is_above low rowid }
{
    match low {
        Some(low) => match rowid {
            Some(rowid) => low < rowid,
            None => true,
        },
        None => true,
    }
}

fn is_upto(rowid: Option<i64>, high: Option<i64>) -> bool
    ensures { result ≡ spec.is_upto rowid high }
{
    match rowid {
        Some(rowid) => match high {
            Some(high) => rowid <= high,
            None => true,
        },
        None => true,
    }
}

/// Whether the rowids ascend within the limits.
fn ascend(limits: Limits, cells: &[Cell]) -> bool
    ensures { result ≡ spec.ascend limits.low limits.high cells.now }
{
    let mut low = limits.low;
    for cell in cells {
        if !is_above(low, cell.rowid) || !is_upto(cell.rowid, limits.high) {
            return false;
        }
        low = cell.rowid;
    }
    true
}

/// Whether an interior page has a cell. Page 1 needs none.
fn has_least(page: u32, node: &PageCells) -> bool
    ensures { result ≡ spec.has_least page node.now }
{
    node.right.is_none() || page == 1 || !node.cells.is_empty()
}

/// Whether a page, by itself, may stand here in a tree: by its kind, the least number of its cells, its
/// links and its rowids.
pub(crate) fn may_stand(
    count: u32,
    table: bool,
    limits: Limits,
    page: u32,
    node: &PageCells,
) -> bool
    ensures { result ≡ spec.may_stand count table limits page node.now }
{
    let cells = node.cells.as_slice();
    is_of(table, node.kind)
        && has_least(page, node)
        && is_link(count, node.right)
        && are_links(count, cells)
        && ascend(limits, cells)
}
