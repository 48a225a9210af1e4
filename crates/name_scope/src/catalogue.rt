//! The catalogue of a schema.
ghost use Rattle.std.specs.Prelude.{◌≡◌, [], IfOk, OnOk, OnErr};
ghost use Rattle.std.specs.Option.{option_copied};
ghost use Rattle.name_scope.specs.Catalogue.{HasRow, IsBare, IsSame, SetsColumns, SetsFound, SetsTree, columns_of, levels_of, one_more, reads_of, rows_of, tree_of, uses_of};
ghost use Rattle.name_scope.specs.Columns.{ordinal_in};

use crate::{Binder, Columns, Level, Resolved, Row, Use};
use alter_bytes::Bytes;
use indexmap::IndexMap;
use sql_tree::Tree;
use sqlite_items::Items;
use std::alloc::{AllocError, Global};

/// The rows of a schema, and of each object its tree, its columns, and the uses and levels of its text, as far as they are
/// known. An object is named by the rowid of its row.
#[derive(Drop)]
pub struct Catalogue<T = Tree> {
    alloc: Global,
    rows: Items<Row>,
    trees: IndexMap<u32, T>,
    columns: IndexMap<u32, Columns>,
    found: IndexMap<u32, Resolved>,
    reads: u64,
}

impl<T> Catalogue<T> {
    /// The rows alone.
    pub fn new(alloc: Global, rows: &[Row]) -> Result<Catalogue<T>, AllocError>
        ensures { IfOk result (λ cat. IsBare rows.now cat) }
    {
        let rows = copy_of(alloc, rows)?;
        Ok(Catalogue {
            alloc,
            rows,
            trees: IndexMap::new(alloc),
            columns: IndexMap::new(alloc),
            found: IndexMap::new(alloc),
            reads: 0,
        })
    }

    pub fn rows(&self) -> &[Row]
        ensures { result.now ≡ rows_of self.now }
    {
        self.rows.as_slice()
    }

    /// The tree of the object's text, where it has one that was read.
    pub fn tree(&self, row: u32) -> Option<&T>
        requires { HasRow self.now row }
        ensures { option_copied result ≡ tree_of self.now row }
    {
        self.trees.get(&row)
    }

    /// The uses in the object's text by offset.
    pub fn uses(&self, row: u32) -> &[Use]
        requires { HasRow self.now row }
        ensures { result.now ≡ uses_of self.now row }
    {
        match self.found.get(&row) {
            Some(found) => found.uses.as_slice(),
            None => &[],
        }
    }

    /// The levels of the object's text by their numbers.
    pub fn levels(&self, row: u32) -> &[Level]
        requires { HasRow self.now row }
        ensures { result.now ≡ levels_of self.now row }
    {
        match self.found.get(&row) {
            Some(found) => found.levels.as_slice(),
            None => &[],
        }
    }

    /// The columns of a table, or the result columns of a view.
    pub fn columns(&self, row: u32) -> &[Binder]
        requires { HasRow self.now row }
        ensures { result.now ≡ columns_of self.now row }
    {
        match self.columns.get(&row) {
            Some(columns) => columns.as_slice(),
            None => &[],
        }
    }

    /// The first column whose folded name this is.
    pub fn ordinal(&self, row: u32, folded: &Bytes) -> Option<u32>
        requires { HasRow self.now row }
        ensures { result ≡ ordinal_in (columns_of self.now row) folded.now }
    {
        match self.columns.get(&row) {
            Some(columns) => columns.ordinal(folded),
            None => None,
        }
    }

    /// How many texts were parsed so far, up to 2^64 - 1.
    pub fn reads(&self) -> u64
        ensures { result ≡ reads_of self.now }
    {
        self.reads
    }
}

impl<T: Drop> Catalogue<T> {
    /// Notes the tree of a text that was parsed.
    pub fn set_tree(&mut self, row: u32, tree: T) -> Result<(), AllocError>
        requires { HasRow self.old row }
        ensures set { OnOk result (SetsTree self.old self.new row tree) }
        ensures reads { OnOk result (reads_of self.new ≡ one_more (reads_of self.old)) }
        ensures err { OnErr result (IsSame self.old self.new) }
    {
        self.trees.insert(row, tree)?;
        self.reads = self.reads.saturating_add(1);
        Ok(())
    }

    /// Notes the columns of an object.
    pub fn set_columns(&mut self, row: u32, columns: Vec<Binder>) -> Result<(), AllocError>
        requires { HasRow self.old row }
        ensures set { OnOk result (SetsColumns self.old self.new row columns.items) }
        ensures reads { reads_of self.new ≡ reads_of self.old }
        ensures err { OnErr result (IsSame self.old self.new) }
    {
        let columns = Columns::from_vec(self.alloc, columns)?;
        self.columns.insert(row, columns)?;
        Ok(())
    }

    /// Notes the uses and levels of a text.
    pub fn set_resolved(&mut self, row: u32, found: Resolved) -> Result<(), AllocError>
        requires { HasRow self.old row }
        ensures set { OnOk result (SetsFound self.old self.new row found) }
        ensures reads { reads_of self.new ≡ reads_of self.old }
        ensures err { OnErr result (IsSame self.old self.new) }
    {
        self.found.insert(row, found)?;
        Ok(())
    }
}

/// A copy of the rows.
fn copy_of(alloc: Global, rows: &[Row]) -> Result<Items<Row>, AllocError>
    ensures { IfOk result (λ copy. copy ≡ rows.now) }
{
    let mut copy = Items::new(alloc);
    for r in rows {
        copy.push(r.try_clone()?)?;
    }
    Ok(copy)
}
