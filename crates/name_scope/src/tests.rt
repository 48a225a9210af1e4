ghost use Rattle.std.specs.Prelude.{◌≡◌, IfOk};
ghost use Rattle.name_scope.specs.Catalogue.{HasRow};

use crate::*;
use alter_bytes::Bytes;
use sqlite_items::Items;
use std::alloc::{AllocError, Global};
use std::test::Fail;

fn sight(
    alloc: Global,
    name: &[u8],
    class: u32,
    place: u32,
    source: Option<u32>,
) -> Result<Sight, AllocError> {
    let source = match source {
        Some(step) => Some(Identity::Source(3, Path::from_slice(alloc, &[step])?)),
        None => None,
    };
    Ok(Sight {
        class,
        place,
        qualifier: Some(Bytes::from_slice(alloc, b"s")?),
        qualified_only: false,
        source,
        binder: Binder {
            row: 3,
            name: Some(Bytes::from_slice(alloc, name)?),
            what: Identity::Column(3, place),
        },
    })
}

fn row(
    alloc: Global,
    rowid: u32,
    kind: RowKind,
    name: &[u8],
    table: &[u8],
) -> Result<Row, AllocError>
    ensures { IfOk result (λ row. row.rowid ≡ rowid) }
{
    Ok(Row {
        rowid,
        kind,
        name: Bytes::from_slice(alloc, name)?,
        table: Bytes::from_slice(alloc, table)?,
        root: Some(2),
        sql: Some(Bytes::from_slice(alloc, b"CREATE ..")?),
    })
}

fn usage(kind: UseKind, level: u32) -> Use
    ensures { result.row ≡ 3 }
{
    Use {
        row: 3,
        start: 0,
        end: 1,
        level,
        kind,
        target: Target::Unbound,
    }
}

#[test]
fn a_lower_place_of_one_source_is_nearer(rt: HostRuntime) -> Result<(), Fail> {
    let a = (0, sight(rt.alloc(), b"x", 1, 0, Some(1))?);
    let later = (0, sight(rt.alloc(), b"x", 1, 3, Some(1))?);
    let other = (0, sight(rt.alloc(), b"x", 1, 2, Some(2))?);
    let outer = (1, sight(rt.alloc(), b"x", 0, 0, Some(1))?);
    assert!(rt; is_nearer(&a, &later));
    assert!(rt; !is_nearer(&a, &other));
    assert!(rt; is_nearer(&other, &outer));
    assert!(rt; is_in_reach(Some(&a), &other));
    assert!(rt; !is_in_reach(Some(&a), &later));
    assert!(rt; is_in_reach(None, &outer));
    Ok(())
}

#[test]
fn two_at_the_least_rank_denote_nothing(rt: HostRuntime) -> Result<(), Fail> {
    let mut seen = Vec::new(rt.alloc());
    assert_eq!(rt; nearest_of(seen.as_slice()), Denoted::Unknown);
    seen.push((0, sight(rt.alloc(), b"x", 1, 3, Some(1))?))?;
    seen.push((0, sight(rt.alloc(), b"x", 1, 0, Some(1))?))?;
    assert_eq!(rt; nearest_of(seen.as_slice()), Denoted::One(1));
    seen.push((0, sight(rt.alloc(), b"x", 1, 2, Some(2))?))?;
    assert_eq!(rt; nearest_of(seen.as_slice()), Denoted::Ambiguous);
    Ok(())
}

/// Two levels around each other, each with a binder.
fn two_levels(alloc: Global) -> Result<Items<Level>, AllocError> {
    let mut scope = Scope::new(alloc);
    let outer = scope.enter(None)?;
    let inner = scope.enter(Some(outer))?;
    scope.add(outer, sight(alloc, b"x", 1, 0, None)?)?;
    scope.add(inner, sight(alloc, b"X", 1, 0, None)?)?;
    Ok(scope.levels())
}

/// A view with two levels, a table and its index.
fn view(alloc: Global) -> Result<Catalogue<u8>, AllocError>
    ensures { IfOk result (λ cat. HasRow cat 3) }
{
    let rows = [
        row(alloc, 3, RowKind::View, b"v", b"v")?,
        row(alloc, 1, RowKind::Table, b"X", b"X")?,
        row(alloc, 2, RowKind::Index, b"x", b"X")?,
    ];
    let mut cat = Catalogue::new(alloc, &rows)?;
    let uses = Items::new(alloc);
    let levels = two_levels(alloc)?;
    cat.set_resolved(3, Resolved { uses, levels })?;
    Ok(cat)
}

#[test]
fn a_source_sees_every_scope_and_the_objects(rt: HostRuntime) -> Result<(), Fail> {
    let cat = view(rt.alloc())?;
    let spelling = [Bytes::from_slice(rt.alloc(), b"x")?];
    let seen = sees(rt.alloc(), &cat, &usage(UseKind::Source, 1), &spelling)?;
    assert_eq!(rt; seen.len(), 3);
    Ok(())
}

#[test]
fn an_index_is_seen_by_its_name(rt: HostRuntime) -> Result<(), Fail> {
    let cat = view(rt.alloc())?;
    let spelling = [Bytes::from_slice(rt.alloc(), b"x")?];
    let seen = sees(rt.alloc(), &cat, &usage(UseKind::Index(1), 0), &spelling)?;
    assert_eq!(rt; seen.len(), 2);
    Ok(())
}

#[test]
fn a_repeated_name_is_the_first(rt: HostRuntime) -> Result<(), Fail> {
    let rows = [row(rt.alloc(), 7, RowKind::Table, b"t", b"t")?];
    let mut cat: Catalogue<u8> = Catalogue::new(rt.alloc(), &rows)?;
    let mut columns = Vec::new(rt.alloc());
    for name in [b"a".as_slice(), b"B".as_slice(), b"b".as_slice()] {
        columns.push(sight(rt.alloc(), name, 1, 0, None)?.binder)?;
    }
    cat.set_columns(7, columns)?;
    assert_eq!(rt;
        cat.ordinal(7, &Bytes::from_slice(rt.alloc(), b"b")?),
        Some(1)
    );
    assert_eq!(rt; cat.ordinal(7, &Bytes::from_slice(rt.alloc(), b"c")?), None);
    assert_eq!(rt; cat.reads(), 0);
    cat.set_tree(7, 1)?;
    assert_eq!(rt; cat.reads(), 1);
    Ok(())
}

#[test]
fn literals_are_quoted_or_truth_values(rt: HostRuntime) -> Result<(), Fail> {
    let table: [(&[u8], bool); 5] = [
        (b"\"x\"", true),
        (b"True", true),
        (b"x", false),
        (b"[x]", false),
        (b"", false),
    ];
    for (token, literal) in table {
        assert_eq!(rt; may_be_literal(token), literal);
    }
    Ok(())
}
