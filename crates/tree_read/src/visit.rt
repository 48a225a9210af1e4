//! A tree, walked through depth first in key order.
ghost use Rattle.std.specs.Prelude.{◌≡◌, ◌≤◌, ◌∷◌, true, IfSome};
ghost use Rattle.pager_core.specs.Pages.{IsPage, disk_of, shape_of};
ghost use Rattle.tree_read.specs.Answers.{Meets, OnlyReads};
ghost use Rattle.tree_read.specs.Node.{are_links};
ghost use Rattle.tree_read.specs.Nodes.{HasNodes, Nodes};
ghost use Rattle.tree_read.specs.Walk.{Leaf, child_part, children, leaf_cells, left_part, run, trace, walk_tree};

use crate::chain::walk_cell;
use crate::node::{may_stand, read_node};
use crate::place::{Limits, Place};
use crate::{Walk, WalkError};
use alter_disk::Disk;
use page_cells::{Cell, Kind, PageCells};
use pager_core::Pages;
use std::alloc::Global;

/// The greatest number of levels of a tree.
const MAX_LEVELS: u32 = 20;

/// Walks through the tree below a page, which has so many levels at most.
#[cycle(walk)]
fn walk_page<D: Disk>(
    alloc: Global,
    pages: &mut Pages<D>,
    walk: &mut Walk,
    table: bool,
    levels: u32,
    limits: Limits,
    page: u32,
) -> Result<(), WalkError>
    requires called { D.called (disk_of pages.old) ≡ true }
    requires page { IsPage pages.old page }
    ensures walk { (nodes : Nodes) → HasNodes nodes pages.new → Meets result walk.new (run walk.old (trace nodes table levels limits page)) }
    ensures reads { OnlyReads D.Disk pages.old pages.new result }
{
    if levels == 0 {
        return Err(WalkError::Corrupt(page));
    }
    walk.find(page)?;
    let node = read_node(alloc, pages, page)?;
    if !may_stand(pages.count(), table, limits, page, &node) {
        return Err(WalkError::Corrupt(page));
    }
    let kind = node.kind;
    let right = node.right;
    let cells = node.cells.as_slice();
    let below = levels - 1;
    match right {
        None => walk_leaf(pages, walk, kind, below, page, cells),
        Some(right) => walk_inner(alloc, pages, walk, table, below, limits, page, cells, right),
    }
}

/// Walks through the children of an interior page and, in an index, takes its cells between them.
#[cycle(walk)]
fn walk_inner<D: Disk>(
    alloc: Global,
    pages: &mut Pages<D>,
    walk: &mut Walk,
    table: bool,
    levels: u32,
    limits: Limits,
    page: u32,
    cells: &[Cell],
    right: u32,
) -> Result<(), WalkError>
    requires called { D.called (disk_of pages.old) ≡ true }
    requires links { are_links (shape_of pages.old).count cells.now ≡ true }
    requires right { IsPage pages.old right }
    ensures walk { (nodes : Nodes) → HasNodes nodes pages.new → Meets result walk.new (run walk.old (children nodes table levels limits page cells.now right)) }
    ensures reads { OnlyReads D.Disk pages.old pages.new result }
{
    let mut low = limits.low;
    for i in 0..cells.len() {
        let cell = cells[i];
        let place = Place { page, cell: i };
        walk_left(alloc, pages, walk, table, levels, low, place, &cell)?;
        low = cell.rowid;
    }
    let child = Limits {
        low,
        high: limits.high,
    };
    walk_page(alloc, pages, walk, table, levels, child, right)
}

/// Walks through the child of a cell of an interior page and, in an index, takes the cell.
#[cycle(walk)]
fn walk_left<D: Disk>(
    alloc: Global,
    pages: &mut Pages<D>,
    walk: &mut Walk,
    table: bool,
    levels: u32,
    low: Option<i64>,
    place: Place,
    cell: &Cell,
) -> Result<(), WalkError>
    requires called { D.called (disk_of pages.old) ≡ true }
    requires left { IfSome cell.now.left (IsPage pages.old) }
    requires first { IfSome cell.now.overflow (IsPage pages.old) }
    ensures walk { (nodes : Nodes) → HasNodes nodes pages.new → Meets result walk.new (run walk.old (left_part nodes table levels low place cell.now)) }
    ensures reads { OnlyReads D.Disk pages.old pages.new result }
{
    walk_child(alloc, pages, walk, table, levels, low, cell)?;
    if table {
        Ok(())
    } else {
        walk_cell(pages, walk, Kind::IndexInner, place, cell)
    }
}

/// Walks through the child of a cell of an interior page.
#[cycle(walk)]
fn walk_child<D: Disk>(
    alloc: Global,
    pages: &mut Pages<D>,
    walk: &mut Walk,
    table: bool,
    levels: u32,
    low: Option<i64>,
    cell: &Cell,
) -> Result<(), WalkError>
    requires called { D.called (disk_of pages.old) ≡ true }
    requires left { IfSome cell.now.left (IsPage pages.old) }
    ensures walk { (nodes : Nodes) → HasNodes nodes pages.new → Meets result walk.new (run walk.old (child_part nodes table levels low cell.now)) }
    ensures reads { OnlyReads D.Disk pages.old pages.new result }
{
    match cell.left {
        Some(left) => {
            let child = Limits {
                low,
                high: cell.rowid,
            };
            walk_page(alloc, pages, walk, table, levels, child, left)
        }
        None => Ok(()),
    }
}

/// Takes a leaf page and its cells.
fn walk_leaf<D: Disk>(
    pages: &mut Pages<D>,
    walk: &mut Walk,
    kind: Kind,
    level: u32,
    page: u32,
    cells: &[Cell],
) -> Result<(), WalkError>
    requires called { D.called (disk_of pages.old) ≡ true }
    requires links { are_links (shape_of pages.old).count cells.now ≡ true }
    ensures walk { (nodes : Nodes) → HasNodes nodes pages.new → Meets result walk.new (run walk.old (Leaf page level ∷ leaf_cells nodes kind page 0 cells.now)) }
    ensures reads { OnlyReads D.Disk pages.old pages.new result }
{
    walk.settle(page, level)?;
    for i in 0..cells.len() {
        walk_cell(pages, walk, kind, Place { page, cell: i }, &cells[i])?;
    }
    Ok(())
}

impl Walk {
    /// Walks through the tree at `root`: of a table, or of an index.
    pub fn tree<D: Disk>(
        &mut self,
        alloc: Global,
        pages: &mut Pages<D>,
        table: bool,
        root: u32,
    ) -> Result<(), WalkError>
        requires called { D.called (disk_of pages.old) ≡ true }
        requires root { IsPage pages.old root }
        ensures walk { (nodes : Nodes) → HasNodes nodes pages.new → Meets result self.new (walk_tree nodes table root self.old) }
        ensures reads { OnlyReads D.Disk pages.old pages.new result }
    {
        self.begin(root);
        let limits = Limits {
            low: None,
            high: None,
        };
        walk_page(alloc, pages, self, table, MAX_LEVELS, limits, root)
    }
}
