//! What a walk through trees has found.
ghost use Rattle.std.specs.Prelude.{◌≡◌, IfOk, IsErr};
ghost use Rattle.tree_read.specs.Answers.{Meets, NeverFails};
ghost use Rattle.tree_read.specs.Walk.{Found, Holds, Leaf, begun, step, unwalked};

use crate::WalkError;
use crate::place::Place;
use std::alloc::{AllocError, Global};
use std::marker::Model;

/// The pages that were found so far, each with its owner, and the cells of the tree that is walked through.
#[derive(Drop)]
pub struct Walk {
    owners: Vec<u32>,
    owner: u32,
    level: Option<u32>,
    found: Vec<u32>,
    places: Vec<Place>,
}

impl Model for Walk {
    ghost use Rattle.tree_read.specs.Walk.{Walked};

    ghost Value = { Walked };

    ghost view = { λ w. record { owners = w.owners.items; owner = w.owner; level = w.level; found = w.found.items; places = w.places.items } };
}

impl Walk {
    /// No page of a file of so many was found.
    pub fn new(alloc: Global, count: u32) -> Result<Walk, AllocError>
        ensures { IfOk result (λ walk. walk ≡ unwalked count) }
    {
        Ok(Walk {
            owners: vec![in alloc; 0u32; count as usize + 1]?,
            owner: 1,
            level: None,
            found: Vec::new(alloc),
            places: Vec::new(alloc),
        })
    }

    /// Begins a tree: the pages that are found from now on belong to its root.
    pub(crate) fn begin(&mut self, root: u32)
        ensures { self.new ≡ begun root self.old }
    {
        self.owner = root;
        self.level = None;
        self.found.clear();
        self.places.clear();
    }

    /// Takes a page of the file that has no owner.
    #[tactic(auto, unfolding(crate::specs::Walk::step))]
    pub(crate) fn find(&mut self, page: u32) -> Result<(), WalkError>
        ensures walk { Meets result self.new (step self.old (Found page)) }
        ensures quiet { NeverFails result }
    {
        let at = page as usize;
        if at >= self.owners.len() || self.owners[at] != 0 {
            return Err(WalkError::Corrupt(page));
        }
        self.found.push(page)?;
        self.owners[at] = self.owner;
        Ok(())
    }

    /// Takes a leaf, which is as deep as the first one of its tree.
    #[tactic(auto, unfolding(crate::specs::Walk::step))]
    pub(crate) fn settle(&mut self, page: u32, level: u32) -> Result<(), WalkError>
        ensures walk { Meets result self.new (step self.old (Leaf page level)) }
        ensures quiet { NeverFails result }
    {
        match self.level {
            Some(first) => {
                if first != level {
                    return Err(WalkError::Corrupt(page));
                }
            }
            None => self.level = Some(level),
        }
        Ok(())
    }

    /// Takes a cell.
    #[tactic(auto, unfolding(crate::specs::Walk::step))]
    pub(crate) fn hold(&mut self, place: Place) -> Result<(), WalkError>
        ensures walk { Meets result self.new (step self.old (Holds place)) }
        ensures quiet { NeverFails result }
    {
        self.places.push(place)?;
        Ok(())
    }

    /// The owner of each page at the place of its number, 0 where it has none.
    pub fn owners(&self) -> &[u32]
        ensures { result.now ≡ self.now.owners }
    {
        self.owners.as_slice()
    }

    /// The pages of the last tree, with its overflow pages, in the order in which they were found.
    pub fn into_found(self) -> Vec<u32>
        ensures { result.items ≡ self.found }
    {
        self.found
    }

    /// The cells of the last tree, in key order.
    pub fn places(&self) -> &[Place]
        ensures { result.now ≡ self.now.places }
    {
        self.places.as_slice()
    }
}
