//! The levels of one text, as they are opened.
ghost use Rattle.std.specs.Prelude.{◌≡◌, ◌<◌, [], ◌∷◌, ◌++◌, length, slice_get, slice_set, Some, IfOk, OnOk, OnErr};
ghost use Rattle.name_scope.specs.Scope.{new_level, with_sight, IsThere};

use crate::{Level, Sight};
use sqlite_items::Items;
use std::alloc::{AllocError, Global};
use std::marker::Model;

/// The levels of one object, numbered from 0 in the order in which they are opened.
#[derive(Drop)]
pub struct Scope {
    alloc: Global,
    levels: Vec<Level>,
}

impl Model for Scope {
    ghost use Rattle.std.specs.Prelude.{List};
    ghost use Rattle.name_scope.specs.declared.level.Level.{Level};

    ghost Value = { List Level };

    ghost view = { λ s. s.levels.items };
}

impl Scope {
    /// No level.
    pub fn new(alloc: Global) -> Scope
        ensures { result ≡ [] }
    {
        Scope {
            alloc,
            levels: Vec::new(alloc),
        }
    }

    /// Opens an empty level inside `outer`, and gives its number. Past 2^32 - 1 levels memory counts as run out.
    pub fn enter(&mut self, outer: Option<u32>) -> Result<u32, AllocError>
        requires { IsThere self.old outer }
        ensures number { IfOk result (λ number. number ≡ length self.old) }
        ensures opened { OnOk result (self.new ≡ self.old ++ new_level outer ∷ []) }
        ensures err { OnErr result (self.new ≡ self.old) }
    {
        let number = small_len(self.levels.as_slice())?;
        let sights = Items::new(self.alloc);
        self.levels.push(Level { outer, sights })?;
        Ok(number)
    }

    /// Adds a binder to the level of this number.
    pub fn add(&mut self, level: u32, s: Sight) -> Result<(), AllocError>
        requires { level < length self.old }
        ensures added { OnOk result (self.new ≡ with_sight self.old level s) }
        ensures err { OnErr result (self.new ≡ self.old) }
    {
        self.levels[level as usize].sights.push(s)
    }

    pub fn level(&self, level: u32) -> &Level
        requires { level < length self.now }
        ensures { slice_get self.now level ≡ Some result.now }
    {
        &self.levels[level as usize]
    }

    /// The levels in order of their numbers.
    pub fn levels(self) -> Items<Level>
        ensures { result ≡ self }
    {
        Items::from_vec(self.levels)
    }
}

/// The number of levels, which is the number of the next one.
fn small_len(levels: &[Level]) -> Result<u32, AllocError>
    ensures { IfOk result (λ number. number ≡ length levels.now) }
{
    let len = levels.len();
    if len < u32::MAX as usize {
        Ok(len as u32)
    } else {
        Err(AllocError)
    }
}
