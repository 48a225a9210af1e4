//! A table of a file that is served.
ghost use Rattle.std.specs.Prelude.{◌≡◌, ◌<◌, ◌≤◌, ◌^◌, ◌↔◌, List, codes, length, take, IsTrue, IfOk, IfSome, IsSomeAnd};
ghost use Rattle.std.specs.List.{AllByRecursion};
ghost use Rattle.common_laws.specs.Results.{AnyError, Yields};
ghost use Rattle.sql_token.specs.Names.{folded};
ghost use Rattle.plain_schema.specs.FirstForm.{IsSpelled, HasItsName, rows_of};
ghost use Rattle.plain_schema.specs.Step.{added, with_column};
ghost use Rattle.plain_schema.specs.Served.{IsReadyTable};
ghost use Rattle.plain_schema.specs.declared.table.Table.{Table};

use alter_bytes::Bytes;
use plain_sql::{Command, Names, TableText, read_table};
use schema_rows::SchemaRow;
use sql_token::same_name;
use std::alloc::{AllocError, Global};

/// A table: its row of the schema, and what its text says.
#[derive(Drop)]
pub struct Table {
    pub row: SchemaRow,
    pub columns: Names,
    /// The offset in the text behind the last column.
    pub columns_end: usize,
}

/// Whether the name begins as those of SQLite's own tables do.
fn is_of_sqlite(name: &[u8]) -> bool
    ensures { IsTrue result ↔ (folded (take 7 name.now) ≡ codes "sqlite_") }
{
    same_name(&name[..name.len().min(7)], b"sqlite_")
}

/// Whether the text's name is the one of both fields of the row, and not one of SQLite's own.
fn has_its_name(name: &[u8], row: &SchemaRow) -> bool
    ensures { IsTrue result ↔ HasItsName name.now row.now }
{
    same_name(name, row.name.as_slice())
        && same_name(name, row.table.as_slice())
        && !is_of_sqlite(name)
}

/// The table of a row, if its text is one that is served.
fn table_of(alloc: Global, row: SchemaRow) -> Result<Option<Table>, AllocError>
    ensures found { IfOk result (λ read. IfSome read (λ table. (table.row ≡ row) × IsSpelled table)) }
    ensures inside { IfOk result (λ read. IfSome read (λ table. table.columns_end ≤ length table.row.text)) }
    ensures only { (table : Table) → table.row ≡ row → IsSpelled table → Yields AnyError (λ read. IsSomeAnd read (λ found. found ≡ table)) result }
{
    let Some(
        TableText {
            name,
            columns,
            columns_end,
        },
    ) = read_table(alloc, row.text.as_slice())?
    else {
        return Ok(None);
    };
    if !has_its_name(name.as_slice(), &row) || !columns.are_apart() {
        return Ok(None);
    }
    Ok(Some(Table {
        row,
        columns,
        columns_end,
    }))
}

/// The tables of the rows, if each text is one that is served.
pub fn tables_of(alloc: Global, rows: Vec<SchemaRow>) -> Result<Option<Vec<Table>>, AllocError>
    ensures found { IfOk result (λ read. IfSome read (λ tables. (rows_of tables.items ≡ rows.items) × AllByRecursion IsSpelled tables.items)) }
    ensures inside { IfOk result (λ read. IfSome read (λ tables. AllByRecursion (λ table. table.columns_end ≤ length table.row.text) tables.items)) }
    ensures only { (list : List Table) → rows_of list ≡ rows.items → AllByRecursion IsSpelled list → Yields AnyError (λ read. IsSomeAnd read (λ found. found.items ≡ list)) result }
{
    let mut tables = Vec::new(alloc);
    for row in rows {
        match table_of(alloc, row)? {
            Some(table) => tables.push(table)?,
            None => return Ok(None),
        }
    }
    Ok(Some(tables))
}

/// The text of a table with `, ` and a column behind its last one.
fn text_with(alloc: Global, text: &[u8], end: usize, column: &[u8]) -> Result<Bytes, AllocError>
    requires { end ≤ length text.now }
    ensures { IfOk result (λ bytes. bytes ≡ with_column text.now end column.now) }
{
    let (front, behind) = text.split_at(end);
    let mut bytes = Vec::from_slice(alloc, front)?;
    bytes.extend_from_slice(b", ")?;
    bytes.extend_from_slice(column)?;
    bytes.extend_from_slice(behind)?;
    Ok(Bytes::new(bytes))
}

impl Table {
    /// The table with the command's column added.
    pub fn with_column(&self, alloc: Global, command: &Command) -> Result<Table, AllocError>
        requires ready { IsReadyTable self.now }
        requires column { length command.now.column < 2 ^ 30 }
        ensures { IfOk result (λ table. table ≡ added command.now self.now) }
    {
        let text = text_with(
            alloc,
            self.row.text.as_slice(),
            self.columns_end,
            command.column.as_slice(),
        )?;
        let name = self.row.name.try_clone()?;
        let owner = self.row.table.try_clone()?;
        let mut columns = self.columns.try_clone()?;
        columns.push(command.column.try_clone()?)?;
        Ok(Table {
            row: SchemaRow {
                rowid: self.row.rowid,
                name,
                table: owner,
                root: self.row.root,
                text,
            },
            columns,
            columns_end: self.columns_end + 2 + command.column.len(),
        })
    }
}
