ghost use Rattle.std.specs.Prelude.{◌≡◌, true, IfOk};
ghost use Rattle.pager_core.specs.Pages.{IsPage, disk_of, shape_of};
ghost use Rattle.tree_read.specs.Answers.{MeetsPages, OnlyReads};
ghost use Rattle.tree_read.specs.Nodes.{HasNodes, Nodes};
ghost use Rattle.tree_read.specs.Walk.{walk_found};

use crate::node::{is_table, read_node};
use crate::{Walk, WalkError};
use alter_disk::Disk;
use pager_core::Pages;
use std::alloc::Global;

/// The pages of the tree at `root`, of a table or of an index, with its overflow pages.
pub fn tree_pages<D: Disk>(
    alloc: Global,
    pages: &mut Pages<D>,
    root: u32,
) -> Result<Vec<u32>, WalkError>
    requires called { D.called (disk_of pages.old) ≡ true }
    requires root { IsPage pages.old root }
    ensures walk { (nodes : Nodes) → HasNodes nodes pages.new → MeetsPages result (walk_found nodes root) }
    ensures reads { OnlyReads D.Disk pages.old pages.new result }
{
    let node = read_node(alloc, pages, root)?;
    let mut walk = Walk::new(alloc, pages.count())?;
    walk.tree(alloc, pages, is_table(node.kind), root)?;
    Ok(walk.into_found())
}
