//! What a use sees under a spelling.
ghost use Rattle.std.specs.Prelude.{◌≡◌, ◌+◌, ◌++◌, length, slice_get, option_and_then, IfOk, OnOk};
ghost use Rattle.std.specs.Option.{option_copied};
ghost use Rattle.name_scope.specs.Catalogue.{HasRow, rows_of, levels_of};
ghost use Rattle.name_scope.specs.Sees as spec;

use crate::object::{push_objects, row_of};
use crate::seen::is_seen;
use crate::{Catalogue, Level, Row, RowKind, Sight, Use};
use alter_bytes::Bytes;
use std::alloc::{AllocError, Global};

/// What the use would see if it were spelled so, by one to three names: every binder of every scope, and the objects behind
/// them, each with its number of scopes outward.
pub fn sees<T>(
    alloc: Global,
    cat: &Catalogue<T>,
    u: &Use,
    spelling: &[Bytes],
) -> Result<Vec<(u32, Sight)>, AllocError>
    requires { HasRow cat.now u.now.row }
    ensures { IfOk result (λ seen. seen.items ≡ spec.sees (rows_of cat.now) (levels_of cat.now u.now.row) u.now spelling.now) }
{
    let levels = cat.levels(u.row);
    let own = kind_of(cat.rows(), u.row);
    let mut seen = Vec::new(alloc);
    let depth = push_chain(levels, u.level, spelling, &mut seen)?;
    push_objects(alloc, cat.rows(), own, u.kind, spelling, depth, &mut seen)?;
    Ok(seen)
}

/// The type of the object of this rowid.
fn kind_of(rows: &[Row], rowid: u32) -> RowKind
    ensures { result ≡ spec.kind_of rows.now rowid }
{
    match row_of(rows, rowid) {
        Some(r) => r.kind,
        None => RowKind::Table,
    }
}

/// Adds what is seen in the level of this number and in those around it, and gives how many they are.
fn push_chain(
    levels: &[Level],
    number: u32,
    spelling: &[Bytes],
    seen: &mut Vec<(u32, Sight)>,
) -> Result<u32, AllocError>
    ensures pushed { OnOk result (seen.new.items ≡ seen.old.items ++ spec.seen_in spelling.now 0 (spec.chain levels.now number)) }
    ensures depth { IfOk result (λ depth. depth ≡ length (spec.chain levels.now number)) }
{
    let mut next = Some(number);
    let mut depth: u32 = 0;
    let mut left = levels.len();
    while left > 0 {
        let Some(level) = level_at(levels, next) else {
            break;
        };
        push_sights(spelling, depth, level.sights.as_slice(), seen)?;
        next = level.outer;
        depth = one_deeper(depth)?;
        left -= 1;
    }
    Ok(depth)
}

/// One scope more outward. Past 2^32 - 1 memory counts as run out.
fn one_deeper(depth: u32) -> Result<u32, AllocError>
    ensures { IfOk result (λ deeper. deeper ≡ depth + 1) }
{
    if depth < u32::MAX {
        Ok(depth + 1)
    } else {
        Err(AllocError)
    }
}

/// The level of this number, if there is one.
fn level_at(levels: &[Level], number: Option<u32>) -> Option<&Level>
    ensures { option_copied result ≡ option_and_then (slice_get levels.now) number }
{
    levels.get(number? as usize)
}

/// Adds those of the binders that are seen.
fn push_sights(
    spelling: &[Bytes],
    depth: u32,
    sights: &[Sight],
    seen: &mut Vec<(u32, Sight)>,
) -> Result<(), AllocError>
    ensures { OnOk result (seen.new.items ≡ seen.old.items ++ spec.seen_at spelling.now depth sights.now) }
{
    for s in sights {
        if is_seen(spelling, s) {
            seen.push((depth, s.try_clone()?))?;
        }
    }
    Ok(())
}
