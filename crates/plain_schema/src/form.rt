//! A file that is served, as far as it is read, and what a command makes of it.
ghost use Rattle.std.specs.Prelude.{◌≡◌, ◌<◌, ◌≤◌, ◌^◌, ◌++◌, [], ◌∷◌, map, length, false, All, IsTrue, IfOk, IfSome, IfNone};
ghost use Rattle.std.specs.List.{AllByRecursion, list_any};
ghost use Rattle.page_cells.specs.Write.{IsWholeCell};
ghost use Rattle.schema_rows.specs.Schema.{row_cell};
ghost use Rattle.plain_schema.specs.FirstForm.{rows_of};
ghost use Rattle.plain_schema.specs.Step.{are_local, is_named};
ghost use Rattle.plain_schema.specs.Served.{IsReady, IsReadyTable};
ghost use Rattle.plain_schema.specs.Plan.{Plans, HasPlace, IsSmallRow, AreCellsWith, IsPageWith, HasRoomFor, IsTaken, KeepsExtent, put_at};

use crate::header::commit;
use crate::plan::{Change, Plan};
use crate::table::Table;
use crate::verdict::Refusal;
use alter_bytes::Bytes;
use page_cells::{Kind, fits, write_page};
use pager_core::{FileShape, HEADER_LEN};
use plain_sql::Command;
use schema_rows::SchemaRow;
use sql_token::same_name;
use std::alloc::{AllocError, Global};

/// The most columns of a table (limits.html, "Maximum Number Of Columns").
const MAX_COLUMNS: usize = 2000;

/// A table's leaf keeps a payload whole up to its usable bytes less so many (fileformat2.html, "B-tree
/// Pages").
const LOCAL_MARGIN: usize = 35;

/// A file that is served: its page 1 and its tables, in the order of their rows.
#[derive(Drop)]
pub struct Form {
    pub shape: FileShape,
    pub page: Bytes,
    pub tables: Vec<Table>,
}

/// Adds the row's cell, if its payload is all local, and says whether it is.
fn push_cell(
    alloc: Global,
    usable: usize,
    row: &SchemaRow,
    cells: &mut Vec<Bytes>,
) -> Result<bool, AllocError>
    requires least { 35 ≤ usable }
    requires small { IsSmallRow row.now }
    requires whole { All (IsWholeCell Kind.TableLeaf usable) cells.old.items }
    ensures local { IfOk result (λ local. local ≡ are_local usable (row.now ∷ [])) }
    ensures cells { IfOk result (λ local. IsTrue local → cells.new.items ≡ cells.old.items ++ row_cell row.now ∷ []) }
    ensures whole { IfOk result (λ local. IsTrue local → All (IsWholeCell Kind.TableLeaf usable) cells.new.items) }
{
    // A rowid of 32 bits has a varint.
    prove!(row.rowid <= u32::MAX);
    let record = row.record(alloc)?;
    if record.len() > usable - LOCAL_MARGIN {
        return Ok(false);
    }
    cells.push(row.cell(alloc)?)?;
    Ok(true)
}

/// Adds the cells of the tables' rows, if their payloads are all local, and says whether they are.
fn push_cells(
    alloc: Global,
    usable: usize,
    tables: &[Table],
    cells: &mut Vec<Bytes>,
) -> Result<bool, AllocError>
    requires least { 35 ≤ usable }
    requires ready { AllByRecursion IsReadyTable tables.now }
    requires whole { All (IsWholeCell Kind.TableLeaf usable) cells.old.items }
    ensures local { IfOk result (λ local. local ≡ are_local usable (rows_of tables.now)) }
    ensures cells { IfOk result (λ local. IsTrue local → cells.new.items ≡ cells.old.items ++ map row_cell (rows_of tables.now)) }
    ensures whole { IfOk result (λ local. IsTrue local → All (IsWholeCell Kind.TableLeaf usable) cells.new.items) }
{
    for table in tables {
        if !push_cell(alloc, usable, &table.row, cells)? {
            return Ok(false);
        }
    }
    Ok(true)
}

impl Form {
    /// The place of the table that the command is about.
    fn place_of(&self, command: &Command) -> Option<usize>
        ensures found { IfSome result (HasPlace command.now self.now.tables.items) }
        ensures none { IfNone result (list_any (is_named command.now) self.now.tables.items ≡ false) }
    {
        for place in 0..self.tables.len() {
            let table = &self.tables[place];
            if same_name(command.table.as_slice(), table.row.name.as_slice()) {
                return Some(place);
            }
        }
        None
    }

    /// The cells of the rows, with this one in place of the row at `place`, if all payloads are local.
    fn cells_with(
        &self,
        alloc: Global,
        place: usize,
        row: &SchemaRow,
    ) -> Result<Option<Vec<Bytes>>, AllocError>
        requires ready { IsReady self.now }
        requires place { place < length self.now.tables.items }
        requires small { IsSmallRow row.now }
        ensures { IfOk result (AreCellsWith self.now.shape.usable (put_at place row.now (rows_of self.now.tables.items))) }
    {
        let usable = self.shape.usable as usize;
        let mut cells = Vec::new(alloc);
        let (front, behind) = self.tables.as_slice().split_at(place);
        if push_cells(alloc, usable, front, &mut cells)?
            && push_cell(alloc, usable, row, &mut cells)?
            && push_cells(alloc, usable, &behind[1..], &mut cells)?
        {
            Ok(Some(cells))
        } else {
            Ok(None)
        }
    }

    /// Page 1 with the header of a committed change and with this row in place of the one at `place`, if
    /// the rows have room there.
    fn page_with(
        &self,
        alloc: Global,
        place: usize,
        row: &SchemaRow,
    ) -> Result<Option<Bytes>, AllocError>
        requires ready { IsReady self.now }
        requires place { place < length self.now.tables.items }
        requires small { IsSmallRow row.now }
        ensures page { IfOk result (IsPageWith self.now (put_at place row.now (rows_of self.now.tables.items))) }
        ensures extent { IfOk result (λ made. IfSome made (λ page. length page ≡ length self.now.page)) }
    {
        let usable = self.shape.usable as usize;
        let Some(cells) = self.cells_with(alloc, place, row)? else {
            return Ok(None);
        };
        if !fits(true, usable, Kind::TableLeaf, cells.as_slice()) {
            return Ok(None);
        }
        let mut page = Vec::from_slice(alloc, self.page.as_slice())?;
        let (header, _) = page.split_at_mut(HEADER_LEN);
        commit(header, self.shape.count);
        write_page(
            page.as_mut_slice(),
            true,
            usable,
            Kind::TableLeaf,
            None,
            cells.as_slice(),
        );
        Ok(Some(Bytes::new(page)))
    }

    /// The first restriction that the command breaks, or what it changes.
    pub fn plan(&self, alloc: Global, command: &Command) -> Result<Plan, AllocError>
        requires ready { IsReady self.now }
        requires column { length command.now.column < 2 ^ 30 }
        ensures plan { IfOk result (Plans self.now command.now) }
        ensures extent { IfOk result (KeepsExtent self.now) }
    {
        let Some(place) = self.place_of(command) else {
            return Ok(Plan::Refused(Refusal::NoSuchTable));
        };
        let table = &self.tables[place];
        if table.columns.contains_folded(command.column.as_slice()) {
            return Ok(Plan::Refused(Refusal::ColumnTaken));
        }
        if table.columns.len() >= MAX_COLUMNS {
            return Ok(Plan::Refused(Refusal::TooManyColumns));
        }
        let table = table.with_column(alloc, command)?;
        match self.page_with(alloc, place, &table.row)? {
            Some(page) => Ok(Plan::Changed(Change { page, place, table })),
            None => Ok(Plan::Refused(Refusal::Unbuilt)),
        }
    }

    /// Takes over what the plan changes. It takes no memory.
    pub fn take(&mut self, plan: Plan)
        requires { HasRoomFor self.old plan }
        ensures { IsTaken self.old plan self.new }
    {
        match plan {
            Plan::Refused(_) => {}
            Plan::Changed(Change { page, place, table }) => {
                self.page = page;
                self.tables[place] = table;
            }
        }
    }
}
