//! The rows of the schema table that stand for tables.
ghost use Rattle.std.specs.Prelude.{◌≡◌, ◌<◌, ◌≤◌, ◌+◌, ◌^◌, ℕ, List, pos, length, Ok, None, IfOk, IfSome, IfNone};
ghost use Rattle.std.specs.Option.{IsSomeAnd};
ghost use Rattle.common_laws.specs.Results.{AnyError, Yields};
ghost use Rattle.record_codec.specs.Record.{IsRecord};
ghost use Rattle.schema_rows.specs.Schema as spec;

use alter_bytes::Bytes;
use record_codec::{Value, encode, int_front, push_varint, record_parts, text_front};
use std::alloc::{AllocError, Global};

/// A table's row of the schema table (fileformat2.html, "Storage Of The SQL Database Schema").
#[derive(Drop)]
pub struct SchemaRow {
    pub rowid: u32,
    pub name: Bytes,
    /// `tbl_name`.
    pub table: Bytes,
    /// The page number of the root page.
    pub root: u32,
    /// The statement that made the table.
    pub text: Bytes,
}

/// The row of this rowid, or `None` where the payload is no record of a table's row with a root below 2^31. Memory is
/// taken for a row alone.
pub fn read_schema_row(
    alloc: Global,
    rowid: u32,
    payload: &[u8],
) -> Result<Option<SchemaRow>, AllocError>
    ensures found { IfOk result (λ read. IfSome read (λ row. (row.rowid ≡ rowid) × IsRecord payload.now (spec.row_values row))) }
    ensures limit { IfOk result (λ read. IfSome read (λ row. row.root < 2 ^ 31)) }
    ensures lengths { IfOk result (λ read. IfSome read (λ row. length row.name + length row.table + length row.text ≤ length payload.now)) }
    ensures only { (row : SchemaRow) → row.rowid ≡ rowid → row.root < 2 ^ 31 → IsRecord payload.now (spec.row_values row) → Yields AnyError (λ read. IsSomeAnd read (λ found. found ≡ row)) result }
    ensures bad { ((row : SchemaRow) → row.rowid ≡ rowid → row.root < 2 ^ 31 → IsRecord payload.now (spec.row_values row) → ⊥) → result ≡ Ok None }
{
    let Some((name, table, root, text)) = row_parts(payload) else {
        return Ok(None);
    };
    let name = Bytes::from_slice(alloc, name)?;
    let table = Bytes::from_slice(alloc, table)?;
    let text = Bytes::from_slice(alloc, text)?;
    Ok(Some(SchemaRow {
        rowid,
        name,
        table,
        root,
        text,
    }))
}

/// The name, `tbl_name`, root and text of a table's row in its record.
fn row_parts(payload: &[u8]) -> Option<(&[u8], &[u8], u32, &[u8])>
    ensures found { IfSome result (λ parts. (parts.2 < 2 ^ 31) × IsRecord payload.now (spec.table_values parts.0.now parts.1.now parts.2 parts.3.now)) }
    ensures none { IfNone result ((name table : List ℕ) (root : ℕ) (text : List ℕ) → root < 2 ^ 31 → IsRecord payload.now (spec.table_values name table root text) → ⊥) }
{
    let Ok((types, bodies)) = record_parts(payload) else {
        return None;
    };
    let (kind, types, bodies) = text_front(types, bodies)?;
    let (name, types, bodies) = text_front(types, bodies)?;
    let (table, types, bodies) = text_front(types, bodies)?;
    let (number, types, bodies) = int_front(types, bodies)?;
    let root = page_number(number)?;
    let (text, types, _) = text_front(types, bodies)?;
    if types.is_empty() && kind == b"table".as_slice() {
        Some((name, table, root, text))
    } else {
        None
    }
}

/// The page number that an integer is: one from 0 on below 2^31.
fn page_number(number: i64) -> Option<u32>
    ensures found { IfSome result (λ root. (root < 2 ^ 31) × (number ≡ pos root)) }
    ensures none { IfNone result ((root : ℕ) → root < 2 ^ 31 → number ≡ pos root → ⊥) }
{
    if 0 <= number && number < 1 << 31 {
        Some(number as u32)
    } else {
        None
    }
}

/// The serial types of this schema format are those of every one (fileformat2.html, "Schema format number").
const FORMAT: u8 = 1;

impl SchemaRow {
    /// The row's record in its shortest form.
    #[tactic(auto, unfolding(crate::specs::Schema::row_record))]
    pub fn record(&self, alloc: Global) -> Result<Bytes, AllocError>
        ensures written { IfOk result (λ bytes. bytes ≡ spec.row_record self.now) }
        ensures is_record { IfOk result (λ bytes. IsRecord bytes (spec.row_values self.now)) }
    {
        let values = [
            Value::Text(Bytes::from_slice(alloc, b"table")?),
            Value::Text(self.name.try_clone()?),
            Value::Text(self.table.try_clone()?),
            Value::Int(self.root as i64),
            Value::Text(self.text.try_clone()?),
        ];
        encode(alloc, &values, FORMAT)
    }

    /// The row's cell on a leaf page, with no overflow page (fileformat2.html, "B-tree Cell Format").
    pub fn cell(&self, alloc: Global) -> Result<Bytes, AllocError>
        ensures { IfOk result (λ bytes. bytes ≡ spec.row_cell self.now) }
    {
        let record = self.record(alloc)?;
        let mut bytes = Vec::new(alloc);
        push_varint(record.len() as u64, &mut bytes)?;
        push_varint(self.rowid as u64, &mut bytes)?;
        bytes.extend_from_slice(record.as_slice())?;
        Ok(Bytes::new(bytes))
    }

    /// A copy in the same allocators.
    pub fn try_clone(&self) -> Result<SchemaRow, AllocError>
        ensures { IfOk result (λ copy. copy ≡ self.now) }
    {
        let name = self.name.try_clone()?;
        let table = self.table.try_clone()?;
        let text = self.text.try_clone()?;
        Ok(SchemaRow {
            rowid: self.rowid,
            name,
            table,
            root: self.root,
            text,
        })
    }
}
