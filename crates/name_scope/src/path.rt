//! Places in a tree.
ghost use Rattle.std.specs.Prelude.{◌≡◌, ◌↔◌, [], ◌∷◌, ◌++◌, IsTrue, IfOk};

use smallvec::SmallVec;
use std::alloc::{AllocError, Global};
use std::marker::Model;

/// A place in the tree of an object: the number of the child at each step from the root.
#[derive(Drop)]
pub struct Path {
    steps: SmallVec<u32, 8>,
}

impl Model for Path {
    ghost use Rattle.std.specs.Prelude.{List, ℕ};

    ghost Value = { List ℕ };

    ghost view = { λ p. p.steps.items };
}

impl Path {
    /// The root.
    pub fn new(alloc: Global) -> Path
        ensures { result ≡ [] }
    {
        Path {
            steps: SmallVec::new(alloc),
        }
    }

    pub fn from_slice(alloc: Global, steps: &[u32]) -> Result<Path, AllocError>
        ensures { IfOk result (λ path. path ≡ steps.now) }
    {
        Ok(Path {
            steps: SmallVec::from_slice(alloc, steps)?,
        })
    }

    pub fn as_slice(&self) -> &[u32]
        ensures { result.now ≡ self.now }
    {
        self.steps.as_slice()
    }

    /// The place of the child of this number.
    pub fn child(&self, step: u32) -> Result<Path, AllocError>
        ensures { IfOk result (λ path. path ≡ self.now ++ step ∷ []) }
    {
        let mut steps = SmallVec::from_slice(*self.steps.allocator(), self.steps.as_slice())?;
        steps.push(step)?;
        Ok(Path { steps })
    }

    /// A copy in the same allocator.
    pub fn try_clone(&self) -> Result<Path, AllocError>
        ensures { IfOk result (λ copy. copy ≡ self.now) }
    {
        Path::from_slice(*self.steps.allocator(), self.as_slice())
    }

    pub fn is_same(&self, other: &Path) -> bool
        ensures { IsTrue result ↔ (self.now ≡ other.now) }
    {
        self.as_slice() == other.as_slice()
    }
}
