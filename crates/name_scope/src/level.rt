//! Levels: what stands at a place.
ghost use Rattle.std.specs.Prelude.{◌≡◌, IfOk};

use crate::{Identity, Use, identity, row};
use alter_bytes::Bytes;
use sqlite_items::Items;
use std::alloc::AllocError;

/// What a name stands for: it is declared in the text of the object of this row. What cannot be named has no name.
#[derive(Drop)]
pub struct Binder {
    pub row: u32,
    pub name: Option<Bytes>,
    pub what: Identity,
}

/// A binder as it stands at a level.
#[derive(Drop)]
pub struct Sight {
    /// Binders of a lower class are nearer.
    pub class: u32,
    /// The place among the binders of the same source. A lower one is nearer.
    pub place: u32,
    /// The name of its source, if that has one.
    pub qualifier: Option<Bytes>,
    /// Whether only uses with a qualifier see it.
    pub qualified_only: bool,
    /// The source, if it is a column of one.
    pub source: Option<Identity>,
    pub binder: Binder,
}

/// The binders that stand at a place of a text, and the number of the level around it.
#[derive(Drop)]
pub struct Level {
    pub outer: Option<u32>,
    pub sights: Items<Sight>,
}

/// What is found in one text: its uses in order, and its levels by their numbers.
#[derive(Drop)]
pub struct Resolved {
    pub uses: Items<Use>,
    pub levels: Items<Level>,
}

impl Binder {
    /// A copy in the same allocators.
    pub fn try_clone(&self) -> Result<Binder, AllocError>
        ensures { IfOk result (λ copy. copy ≡ self.now) }
    {
        let name = row::clone_option(&self.name)?;
        let what = self.what.try_clone()?;
        Ok(Binder {
            row: self.row,
            name,
            what,
        })
    }
}

impl Sight {
    /// A copy in the same allocators.
    pub fn try_clone(&self) -> Result<Sight, AllocError>
        ensures { IfOk result (λ copy. copy ≡ self.now) }
    {
        let qualifier = row::clone_option(&self.qualifier)?;
        let source = identity::clone_option(&self.source)?;
        let binder = self.binder.try_clone()?;
        Ok(Sight {
            class: self.class,
            place: self.place,
            qualifier,
            qualified_only: self.qualified_only,
            source,
            binder,
        })
    }
}
