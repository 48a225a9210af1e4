//! The columns of an object, which are found by their names.
ghost use Rattle.std.specs.Prelude.{◌≡◌, ℕ, List, [], nat_eq, if◌then◌else◌, Some, IfOk, OnOk};
ghost use Rattle.std.specs.Cmp.Lexicographic.{pointwise};
ghost use Rattle.indexmap.specs.IndexMap.{get};
ghost use Rattle.name_scope.specs.Columns.{has_folded_name, ordinal_in};
ghost use Rattle.sql_token.specs.Names.{folded};

use crate::Binder;
use alter_bytes::Bytes;
use indexmap::IndexMap;
use sql_token::fold;
use std::alloc::{AllocError, Global};
use std::marker::Model;

/// The columns of an object in order.
#[derive(Drop)]
pub struct Columns {
    binders: Vec<Binder>,
    /// The ordinal of the first column of each folded name.
    ordinals: IndexMap<Bytes, u32>,
}

impl Model for Columns {
    ghost use Rattle.std.specs.Prelude.{◌≡◌, List, ℕ, nat_eq};
    ghost use Rattle.std.specs.Cmp.Lexicographic.{pointwise};
    ghost use Rattle.indexmap.specs.IndexMap.{get};
    ghost use Rattle.name_scope.specs.Columns.{ordinal_in};
    ghost use Rattle.name_scope.specs.declared.level.Binder.{Binder};

    ghost Value = { List Binder };

    ghost view = { λ c. c.binders.items };

    ghost invariant = { λ c. (name : List ℕ) → get (pointwise nat_eq) c.ordinals name ≡ ordinal_in c.binders.items name };
}

impl Columns {
    pub fn new(alloc: Global) -> Columns
        ensures { result ≡ [] }
    {
        Columns {
            binders: Vec::new(alloc),
            ordinals: IndexMap::new(alloc),
        }
    }

    /// The columns, which are fewer than 2^32.
    pub fn from_vec(alloc: Global, binders: Vec<Binder>) -> Result<Columns, AllocError>
        ensures { IfOk result (λ columns. columns ≡ binders.items) }
    {
        let ordinals = first_ordinals(alloc, binders.as_slice())?;
        Ok(Columns { binders, ordinals })
    }

    pub fn as_slice(&self) -> &[Binder]
        ensures { result.now ≡ self.now }
    {
        self.binders.as_slice()
    }

    /// The first column whose folded name this is.
    pub fn ordinal(&self, folded: &Bytes) -> Option<u32>
        ensures { result ≡ ordinal_in self.now folded.now }
    {
        self.ordinals.get(folded).copied()
    }
}

/// The ordinal of the first column of each folded name: from the last column to the first, each takes its name.
fn first_ordinals(alloc: Global, binders: &[Binder]) -> Result<IndexMap<Bytes, u32>, AllocError>
    ensures { IfOk result (λ ordinals. (name : List ℕ) → get (pointwise nat_eq) ordinals name ≡ ordinal_in binders.now name) }
{
    let mut ordinals = IndexMap::new(alloc);
    let mut left = binders.len();
    while left > 0 {
        left -= 1;
        note(alloc, &binders[left], left, &mut ordinals)?;
    }
    Ok(ordinals)
}

/// Gives the name of the column its ordinal.
fn note(
    alloc: Global,
    column: &Binder,
    ordinal: usize,
    ordinals: &mut IndexMap<Bytes, u32>,
) -> Result<(), AllocError>
    ensures { OnOk result ((name : List ℕ) → get (pointwise nat_eq) ordinals.new name ≡ (if has_folded_name name column.now then Some ordinal else get (pointwise nat_eq) ordinals.old name)) }
{
    if let Some(own) = &column.name {
        let name = folded_copy(alloc, own)?;
        ordinals.insert(name, small(ordinal)?)?;
    }
    Ok(())
}

/// The ordinal, which has 32 bits, else memory counts as run out.
fn small(ordinal: usize) -> Result<u32, AllocError>
    ensures { IfOk result (λ small. small ≡ ordinal) }
{
    if ordinal <= u32::MAX as usize {
        Ok(ordinal as u32)
    } else {
        Err(AllocError)
    }
}

/// The name as it is compared.
fn folded_copy(alloc: Global, name: &Bytes) -> Result<Bytes, AllocError>
    ensures { IfOk result (λ copy. copy ≡ folded name.now) }
{
    let mut copy = Vec::with_capacity(alloc, name.len())?;
    for byte in name.as_slice() {
        copy.push(fold(*byte))?;
    }
    Ok(Bytes::new(copy))
}
