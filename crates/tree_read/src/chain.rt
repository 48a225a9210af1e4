//! A chain of overflow pages, walked by its links.
ghost use Rattle.std.specs.Prelude.{◌≡◌, ◌≤◌, ◌<◌, true, IfOk, IfSome};
ghost use Rattle.pager_core.specs.Pages.{IsPage, disk_of, shape_of};
ghost use Rattle.page_cells.specs.Layout.{least_usable, most_usable};
ghost use Rattle.tree_read.specs.Answers.{Meets, MeetsLink, OnlyReads};
ghost use Rattle.tree_read.specs.Nodes.{HasNodes, Nodes};
ghost use Rattle.tree_read.specs.Walk as spec;

use crate::place::Place;
use crate::{Walk, WalkError};
use alter_bytes::u32_at;
use alter_disk::Disk;
use page_cells::{Cell, Kind, local_len};
use pager_core::Pages;

/// The number of overflow pages of a payload.
fn overflow_pages(kind: Kind, usable: u32, payload: u64) -> u64
    requires least { least_usable ≤ usable }
    requires most { usable ≤ most_usable }
    ensures { result ≡ spec.overflow_pages kind usable payload }
{
    let rest = payload.saturating_sub(local_len(kind, usable, payload));
    rest.div_ceil(u64::from(usable - 4))
}

/// Whether this is the link of an overflow page behind which so many stand: a page, or 0 at the end.
fn is_next(count: u32, left: u64, next: u32) -> bool
    ensures { result ≡ spec.is_next count left next }
{
    if left == 0 {
        next == 0
    } else {
        1 <= next && next <= count
    }
}

/// The link at which an overflow page begins, behind which so many stand.
fn next_link<D: Disk>(pages: &mut Pages<D>, page: u32, left: u64) -> Result<u32, WalkError>
    requires called { D.called (disk_of pages.old) ≡ true }
    requires page { IsPage pages.old page }
    ensures link { (nodes : Nodes) → HasNodes nodes pages.new → MeetsLink nodes page left result }
    ensures page { IfOk result (λ next. 0 < left → IsPage pages.new next) }
    ensures reads { OnlyReads D.Disk pages.old pages.new result }
{
    pages.load(page)?;
    let count = pages.shape().count;
    let next = u32_at(pages.loaded(page), 0);
    if !is_next(count, left, next) {
        return Err(WalkError::Corrupt(page));
    }
    Ok(next)
}

/// Takes the pages of a chain of this many, from `first` on.
fn walk_chain<D: Disk>(
    pages: &mut Pages<D>,
    walk: &mut Walk,
    first: u32,
    len: u64,
) -> Result<(), WalkError>
    requires called { D.called (disk_of pages.old) ≡ true }
    requires first { IsPage pages.old first }
    ensures walk { (nodes : Nodes) → HasNodes nodes pages.new → Meets result walk.new (spec.run walk.old (spec.chain nodes len first)) }
    ensures reads { OnlyReads D.Disk pages.old pages.new result }
{
    let mut page = first;
    let mut left = len;
    while left > 0 {
        walk.find(page)?;
        left -= 1;
        page = next_link(pages, page, left)?;
    }
    Ok(())
}

/// Takes the pages of the chain of a cell, where it has one.
fn walk_overflow<D: Disk>(
    pages: &mut Pages<D>,
    walk: &mut Walk,
    kind: Kind,
    cell: &Cell,
) -> Result<(), WalkError>
    requires called { D.called (disk_of pages.old) ≡ true }
    requires first { IfSome cell.now.overflow (IsPage pages.old) }
    ensures walk { (nodes : Nodes) → HasNodes nodes pages.new → Meets result walk.new (spec.run walk.old (spec.overflow nodes kind cell.now)) }
    ensures reads { OnlyReads D.Disk pages.old pages.new result }
{
    match cell.overflow {
        Some(first) => {
            let len = overflow_pages(kind, pages.shape().usable, cell.payload);
            walk_chain(pages, walk, first, len)
        }
        None => Ok(()),
    }
}

/// Takes a cell, behind the pages of its chain.
pub(crate) fn walk_cell<D: Disk>(
    pages: &mut Pages<D>,
    walk: &mut Walk,
    kind: Kind,
    place: Place,
    cell: &Cell,
) -> Result<(), WalkError>
    requires called { D.called (disk_of pages.old) ≡ true }
    requires first { IfSome cell.now.overflow (IsPage pages.old) }
    ensures walk { (nodes : Nodes) → HasNodes nodes pages.new → Meets result walk.new (spec.run walk.old (spec.held nodes kind place cell.now)) }
    ensures reads { OnlyReads D.Disk pages.old pages.new result }
{
    walk_overflow(pages, walk, kind, cell)?;
    walk.hold(place)
}
