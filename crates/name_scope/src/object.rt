//! The objects that a use may denote, which stand behind all levels.
ghost use Rattle.std.specs.Prelude.{◌≡◌, [], ◌∷◌, ◌++◌, IfOk, OnOk};
ghost use Rattle.std.specs.Option.{option_copied};
ghost use Rattle.name_scope.specs.Sees as spec;

use crate::seen::{is_seen, same_names};
use crate::{Binder, Identity, Row, RowKind, Sight, UseKind};
use alter_bytes::Bytes;
use std::alloc::{AllocError, Global};

/// The row of this rowid.
pub fn row_of(rows: &[Row], rowid: u32) -> Option<&Row>
    ensures { option_copied result ≡ spec.row_of rows.now rowid }
{
    for r in rows {
        if r.rowid == rowid {
            return Some(r);
        }
    }
    None
}

fn is_table_or_view(kind: RowKind) -> bool
    ensures { result ≡ spec.is_table_or_view kind }
{
    match kind {
        RowKind::Table | RowKind::View => true,
        RowKind::Index | RowKind::Trigger => false,
    }
}

fn is_table(kind: RowKind) -> bool
    ensures { result ≡ spec.is_table kind }
{
    match kind {
        RowKind::Table => true,
        RowKind::View | RowKind::Index | RowKind::Trigger => false,
    }
}

fn is_trigger(kind: RowKind) -> bool
    ensures { result ≡ spec.is_trigger kind }
{
    match kind {
        RowKind::Trigger => true,
        RowKind::Table | RowKind::Index | RowKind::View => false,
    }
}

/// Whether the row is a virtual table.
fn is_virtual(r: &Row) -> bool
    ensures { result ≡ spec.is_virtual r.now }
{
    is_table(r.kind) && matches!(r.root, None | Some(0))
}

/// Whether a source or an owner may be the object of the row.
fn may_own(r: &Row) -> bool
    ensures { result ≡ spec.may_own r.now }
{
    is_table_or_view(r.kind) && !is_virtual(r)
}

/// Whether sources in a text of this type see objects.
fn has_sources(kind: RowKind) -> bool
    ensures { result ≡ spec.has_sources kind }
{
    match kind {
        RowKind::View | RowKind::Trigger => true,
        RowKind::Table | RowKind::Index => false,
    }
}

/// Whether the row is an index with a text of this table.
fn is_index_of(table: Option<&Row>, r: &Row) -> bool
    ensures { result ≡ spec.is_index_of (option_copied table.entry) r.now }
{
    match (table, r.kind, &r.sql) {
        (Some(table), RowKind::Index, Some(_)) => same_names(
            r.table.as_slice(),
            table.name.as_slice(),
        ),
        _ => false,
    }
}

/// Whether a use of the kind in the text of an object of the type `own` may denote the object of the row.
fn sees_object(rows: &[Row], own: RowKind, kind: UseKind, r: &Row) -> bool
    ensures { result ≡ spec.sees_object rows.now own kind r.now }
{
    match kind {
        UseKind::Source => has_sources(own) && may_own(r),
        UseKind::Owner => may_own(r) && (is_trigger(own) || is_table(r.kind)),
        UseKind::Index(table) => is_index_of(row_of(rows, table), r),
        UseKind::Parent => is_table(r.kind),
        UseKind::Sighted | UseKind::Function => false,
    }
}

fn object_sight(alloc: Global, row: u32, name: &[u8], what: Identity) -> Result<Sight, AllocError>
    ensures { IfOk result (λ s. s ≡ spec.object_sight row name.now what) }
{
    let qualifier = Bytes::from_slice(alloc, b"main")?;
    let name = Bytes::from_slice(alloc, name)?;
    Ok(Sight {
        class: 0,
        place: 0,
        qualifier: Some(qualifier),
        qualified_only: false,
        source: None,
        binder: Binder {
            row,
            name: Some(name),
            what,
        },
    })
}

/// Adds the binder where it is seen.
pub fn push_seen(
    spelling: &[Bytes],
    depth: u32,
    s: Sight,
    seen: &mut Vec<(u32, Sight)>,
) -> Result<(), AllocError>
    ensures { OnOk result (seen.new.items ≡ seen.old.items ++ spec.seen_at spelling.now depth (s ∷ [])) }
{
    if is_seen(spelling, &s) {
        seen.push((depth, s))?;
    }
    Ok(())
}

/// Adds an object without a row, where it is seen.
fn push_one_fixed(
    alloc: Global,
    spelling: &[Bytes],
    depth: u32,
    name: &[u8],
    number: u32,
    seen: &mut Vec<(u32, Sight)>,
) -> Result<(), AllocError>
    ensures { OnOk result (seen.new.items ≡ seen.old.items ++ spec.seen_at spelling.now depth (spec.object_sight 0 name.now (Identity.Fixed number None) ∷ [])) }
{
    let s = object_sight(alloc, 0, name, Identity::Fixed(number, None))?;
    push_seen(spelling, depth, s, seen)
}

/// Adds two objects without a row, where they are seen.
fn push_two_fixed(
    alloc: Global,
    spelling: &[Bytes],
    depth: u32,
    first: (&[u8], u32),
    second: (&[u8], u32),
    seen: &mut Vec<(u32, Sight)>,
) -> Result<(), AllocError>
    ensures { OnOk result (seen.new.items ≡ seen.old.items ++ spec.seen_at spelling.now depth (spec.object_sight 0 first.entry.0.now (Identity.Fixed first.entry.1 None) ∷ spec.object_sight 0 second.entry.0.now (Identity.Fixed second.entry.1 None) ∷ [])) }
{
    push_one_fixed(alloc, spelling, depth, first.0, first.1, seen)?;
    push_one_fixed(alloc, spelling, depth, second.0, second.1, seen)?;
    Ok(())
}

/// Adds what is seen of the objects without a row.
fn push_fixed(
    alloc: Global,
    own: RowKind,
    kind: UseKind,
    spelling: &[Bytes],
    depth: u32,
    seen: &mut Vec<(u32, Sight)>,
) -> Result<(), AllocError>
    ensures { OnOk result (seen.new.items ≡ seen.old.items ++ spec.seen_at spelling.now depth (spec.fixed_sights own kind)) }
{
    match kind {
        UseKind::Source if has_sources(own) => {
            push_two_fixed(
                alloc,
                spelling,
                depth,
                (b"sqlite_schema", 0),
                (b"sqlite_master", 0),
                seen,
            )
        }
        UseKind::Function if has_sources(own) => {
            push_two_fixed(
                alloc,
                spelling,
                depth,
                (b"json_each", 1),
                (b"json_tree", 2),
                seen,
            )
        }
        _ => Ok(()),
    }
}

/// Adds what is seen of the objects that a use of the kind in the text of an object of the type `own` may denote.
pub fn push_objects(
    alloc: Global,
    rows: &[Row],
    own: RowKind,
    kind: UseKind,
    spelling: &[Bytes],
    depth: u32,
    seen: &mut Vec<(u32, Sight)>,
) -> Result<(), AllocError>
    ensures { OnOk result (seen.new.items ≡ seen.old.items ++ spec.seen_at spelling.now depth (spec.objects rows.now own kind)) }
{
    push_fixed(alloc, own, kind, spelling, depth, seen)?;
    for r in rows {
        if sees_object(rows, own, kind, r) {
            let s = object_sight(alloc, r.rowid, r.name.as_slice(), Identity::Object(r.rowid))?;
            push_seen(spelling, depth, s, seen)?;
        }
    }
    Ok(())
}
