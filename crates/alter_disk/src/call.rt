//! What a disk in memory keeps of its calls.
ghost use Rattle.std.specs.Prelude.{◌≡◌, ◌+◌, ◌-◌, ◌<◌, ◌≤◌, ◌∷◌, ◌++◌, Some, min, length, take, drop, replicate, option_map, vec_len, vec_capacity, IfOk, OnOk};
ghost use Rattle.alter_disk.specs.Pending.{change_of, call_of, newest_first, change_in, synced_after, synced_file, filled_after, filled_file};

use crate::Which;
use std::alloc::{AllocError, Global};

/// What a call did to a file.
#[derive(Drop)]
pub(crate) enum Change {
    /// Wrote bytes from a place to an end. What they were, a crash may forget.
    Wrote(usize, usize),
    /// Cut the file to a length.
    Cut(usize),
    /// Made these bytes durable.
    Synced(Vec<u8>),
}

/// A call that changed what a crash may leave of a file.
#[derive(Drop)]
pub(crate) struct Call {
    pub(crate) which: Which,
    pub(crate) change: Change,
}

/// Adds a call to a record that has room for it.
#[tactic(auto, using(crate::proofs::Pending::one_newer))]
pub(crate) fn keep(steps: &mut Vec<Call>, which: Which, change: Change)
    requires { vec_len steps.old < vec_capacity steps.old }
    ensures kept { newest_first steps.new.items ≡ record { which = which; change = change_of change } ∷ newest_first steps.old.items }
    ensures count { vec_len steps.new ≡ vec_len steps.old + 1 }
    ensures room { vec_capacity steps.old ≤ vec_capacity steps.new }
{
    steps.push(Call { which, change }).unwrap();
}

/// What a call did to this file, if it was this one.
fn change_in(call: &Call, which: Which) -> Option<&Change>
    ensures { option_map (λ c. change_of c.now) result ≡ change_in which (call_of call.now) }
{
    match (which, call.which) {
        (Which::Db, Which::Db) | (Which::Journal, Which::Journal) => Some(&call.change),
        _ => None,
    }
}

/// One file as its last sync left it.
pub(crate) fn synced(
    alloc: Global,
    which: Which,
    first: &[u8],
    steps: &[Call],
) -> Result<Vec<u8>, AllocError>
    ensures { IfOk result (λ bytes. bytes.items ≡ synced_file which first.now (newest_first steps.now)) }
{
    let mut bytes = first;
    for call in steps {
        if let Some(Change::Synced(synced)) = change_in(call, which) {
            bytes = synced.as_slice();
        }
    }
    Vec::from_slice(alloc, bytes)
}

/// One file at its greatest length since its last sync, with this byte in all that is pending.
pub(crate) fn filled(
    alloc: Global,
    which: Which,
    first: &[u8],
    steps: &[Call],
    byte: u8,
) -> Result<Vec<u8>, AllocError>
    ensures { IfOk result (λ bytes. bytes.items ≡ filled_file byte which first.now (newest_first steps.now)) }
{
    let mut bytes = Vec::from_slice(alloc, first)?;
    for call in steps {
        if let Some(change) = change_in(call, which) {
            fill_change(&mut bytes, change, byte)?;
        }
    }
    Ok(bytes)
}

/// Fills what a call made pending, or takes the bytes that it made durable.
fn fill_change(bytes: &mut Vec<u8>, change: &Change, byte: u8) -> Result<(), AllocError>
    ensures { OnOk result (bytes.new.items ≡ filled_after byte (Some (change_of change.now)) bytes.old.items) }
{
    match change {
        Change::Wrote(at, end) => smear(bytes, *at, (*end).max(*at), byte),
        Change::Cut(_) => Ok(()),
        Change::Synced(synced) => {
            bytes.clear();
            bytes.extend_from_slice(synced)
        }
    }
}

/// Puts this byte from a place to an end, and between the old end and a place past it.
fn smear(bytes: &mut Vec<u8>, at: usize, end: usize, byte: u8) -> Result<(), AllocError>
    requires { at ≤ end }
    ensures { OnOk result (bytes.new.items ≡ take at bytes.old.items ++ replicate (end - min at (length bytes.old.items)) byte ++ drop end bytes.old.items) }
{
    let front = at.min(bytes.len());
    if bytes.len() < end {
        bytes.resize(end, byte)?;
    }
    fill(&mut bytes[front..end], byte);
    Ok(())
}

fn fill(bytes: &mut [u8], byte: u8)
    ensures { bytes.new ≡ replicate (length bytes.old) byte }
{
    bytes.fill(byte);
}
