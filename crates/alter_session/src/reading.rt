//! A database that is served, read off its pages.
ghost use Rattle.std.specs.Prelude.{◌≡◌, ◌≤◌, ◌↔◌, ℕ, List, true, length, Some, IfNone, IfOk, IfSome, IsSome, IsTrue};
ghost use Rattle.std.specs.List.{AllByRecursion};
ghost use Rattle.alter_disk.specs.Faults.{HasCauseOf};
ghost use Rattle.pager_core.specs.Pages.{IsPage, StayAll, disk_of, shape_of, shown};
ghost use Rattle.plain_schema.specs.declared.table.Table.{Table};
ghost use Rattle.plain_schema.specs.FirstForm.{HasRoot, IsFirstForm, first_page};
ghost use Rattle.plain_schema.specs.Image.{Image};
ghost use Rattle.plain_schema.specs.Served.{IsFormOf, IsReady};
ghost use Rattle.alter_session.specs.Opening.{IsOpenable};
ghost use Rattle.alter_session.specs.Reading.{HasNoFreelist, IsFirst, IsImageOf, OnlyRows};

use alter_bytes::{Bytes, u32_at};
use alter_disk::Disk;
use pager_core::{HEADER_LEN, PageError, Pages};
use plain_schema::{Form, are_apart, is_empty_table, read_rows, tables_of};
use schema_rows::SchemaRow;
use std::alloc::Global;

/// The offset of the first trunk page (fileformat2.html, "The Freelist"), of four bytes.
const FREELIST_AT: usize = 32;

/// The offset of the number of free pages ("The Freelist"), of four bytes.
const FREE_PAGES_AT: usize = 36;

/// Page 1 and its rows.
#[derive(Drop)]
pub(crate) struct First {
    page: Bytes,
    rows: Vec<SchemaRow>,
}

fn has_no_freelist(page: &[u8]) -> bool
    requires { HEADER_LEN ≤ length page.now }
    ensures { IsTrue result ↔ HasNoFreelist page.now }
{
    u32_at(page, FREELIST_AT) == 0 && u32_at(page, FREE_PAGES_AT) == 0
}

/// Reads page 1, if it names no free page and holds rows of a schema.
fn read_first<D: Disk>(alloc: Global, pages: &mut Pages<D>) -> Result<Option<First>, PageError>
    requires called { D.called (disk_of pages.old) ≡ true }
    requires shape { IsOpenable (shape_of pages.old) }
    ensures found { IfOk result (λ read. IfSome read (λ first. IsFirst (shape_of pages.old) first × (shown pages.new 1 ≡ Some first.page))) }
    ensures only { IfOk result (λ read. (page : List ℕ) → shown pages.new 1 ≡ Some page → OnlyRows (shape_of pages.old).usable page read) }
    ensures there { IfOk result (λ _. IsSome (shown pages.new 1)) }
    ensures stay { StayAll D.Disk pages.old pages.new }
    ensures cause { HasCauseOf PageError.Failed (D.read_faults (disk_of pages.old)) (D.read_faults (disk_of pages.new)) result }
{
    pages.load(1)?;
    let usable = pages.shape().usable as usize;
    let page = pages.loaded(1);
    if !has_no_freelist(page) {
        return Ok(None);
    }
    let Some(rows) = read_rows(alloc, page, usable)? else {
        return Ok(None);
    };
    let page = Bytes::from_slice(alloc, page)?;
    Ok(Some(First { page, rows }))
}

/// Whether the row's root is a page behind the first, and an empty table.
fn has_root<D: Disk>(
    alloc: Global,
    pages: &mut Pages<D>,
    row: &SchemaRow,
) -> Result<bool, PageError>
    requires called { D.called (disk_of pages.old) ≡ true }
    requires shape { IsOpenable (shape_of pages.old) }
    ensures there { IfOk result (λ has. IsTrue has → (2 ≤ row.now.root) × (row.now.root ≤ (shape_of pages.old).count)) }
    ensures root { IfOk result (λ has. (image : Image) → IsImageOf D.Disk image pages.old → IsTrue has ↔ HasRoot image row.now) }
    ensures stay { StayAll D.Disk pages.old pages.new }
    ensures cause { HasCauseOf PageError.Failed (D.read_faults (disk_of pages.old)) (D.read_faults (disk_of pages.new)) result }
{
    let root = row.root;
    if root < 2 || root > pages.count() {
        return Ok(false);
    }
    pages.load(root)?;
    let usable = pages.shape().usable as usize;
    Ok(is_empty_table(alloc, pages.loaded(root), usable)?)
}

/// Whether each row's root is a page behind the first, and an empty table.
fn have_roots<D: Disk>(
    alloc: Global,
    pages: &mut Pages<D>,
    rows: &[SchemaRow],
) -> Result<bool, PageError>
    requires called { D.called (disk_of pages.old) ≡ true }
    requires shape { IsOpenable (shape_of pages.old) }
    ensures there { IfOk result (λ have. IsTrue have → AllByRecursion (λ row. (2 ≤ row.root) × (row.root ≤ (shape_of pages.old).count)) rows.now) }
    ensures roots { IfOk result (λ have. (image : Image) → IsImageOf D.Disk image pages.old → IsTrue have ↔ AllByRecursion (HasRoot image) rows.now) }
    ensures stay { StayAll D.Disk pages.old pages.new }
    ensures cause { HasCauseOf PageError.Failed (D.read_faults (disk_of pages.old)) (D.read_faults (disk_of pages.new)) result }
{
    for row in rows {
        if !has_root(alloc, pages, row)? {
            return Ok(false);
        }
    }
    Ok(true)
}

/// What a database holds whose page 1 was read, if the rows' roots and texts are those of one that is served.
fn form_of<D: Disk>(
    alloc: Global,
    pages: &mut Pages<D>,
    first: First,
) -> Result<Option<Form>, PageError>
    requires called { D.called (disk_of pages.old) ≡ true }
    requires shape { IsOpenable (shape_of pages.old) }
    requires first { IsFirst (shape_of pages.old) first }
    ensures ready { IfOk result (λ read. IfSome read (λ form. IsReady form × (form.shape ≡ shape_of pages.old))) }
    ensures found { IfOk result (λ read. IfSome read (λ form. (image : Image) → IsImageOf D.Disk image pages.old → first.page ≡ first_page image → IsFormOf image form)) }
    ensures unserved { IfOk result (λ read. IfNone read ((image : Image) (tables : List Table) → IsImageOf D.Disk image pages.old
        → OnlyRows (shape_of pages.old).usable (first_page image) (Some first) → IsFirstForm image tables → ⊥)) }
    ensures stay { StayAll D.Disk pages.old pages.new }
    ensures cause { HasCauseOf PageError.Failed (D.read_faults (disk_of pages.old)) (D.read_faults (disk_of pages.new)) result }
{
    let First { page, rows } = first;
    if !are_apart(rows.as_slice()) || !have_roots(alloc, pages, rows.as_slice())? {
        return Ok(None);
    }
    match tables_of(alloc, rows)? {
        Some(tables) => Ok(Some(Form {
            shape: pages.shape(),
            page,
            tables,
        })),
        None => Ok(None),
    }
}

/// What the database holds, if it is one that is served.
pub(crate) fn read_form<D: Disk>(
    alloc: Global,
    pages: &mut Pages<D>,
) -> Result<Option<Form>, PageError>
    requires called { D.called (disk_of pages.old) ≡ true }
    requires shape { IsOpenable (shape_of pages.old) }
    ensures ready { IfOk result (λ read. IfSome read (λ form. IsReady form × (form.shape ≡ shape_of pages.old))) }
    ensures found { IfOk result (λ read. IfSome read (λ form. (image : Image) → IsImageOf D.Disk image pages.old → IsFormOf image form)) }
    ensures unserved { IfOk result (λ read. IfNone read ((image : Image) (tables : List Table) → IsImageOf D.Disk image pages.old → IsFirstForm image tables → ⊥)) }
    ensures stay { StayAll D.Disk pages.old pages.new }
    ensures cause { HasCauseOf PageError.Failed (D.read_faults (disk_of pages.old)) (D.read_faults (disk_of pages.new)) result }
{
    match read_first(alloc, pages)? {
        Some(first) => form_of(alloc, pages, first),
        None => Ok(None),
    }
}
