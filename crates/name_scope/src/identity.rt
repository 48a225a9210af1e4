//! What a use may denote. No identity holds a name.
ghost use Rattle.std.specs.Prelude.{◌≡◌, ◌↔◌, IsTrue, IfOk};

use crate::Path;
use std::alloc::AllocError;

/// What a use may denote. Objects are numbered by their rowids in the schema table.
#[derive(Drop)]
pub enum Identity {
    /// An object.
    Object(u32),
    /// An object and the ordinal of its column, from 0.
    Column(u32, u32),
    /// The rowid of a table.
    Rowid(u32),
    /// An object and the place of a source in its tree.
    Source(u32, Path),
    /// An object and the place of a WITH name in its tree.
    Cte(u32, Path),
    /// An object, the place of a select in its tree, an item of the select, and the inner column where the item is a star.
    Result(u32, Path, u32, u32),
    /// One of the three objects without a row, and the place of its column where it is a column: 0 is the schema table, 1
    /// `json_each`, 2 `json_tree`. A rowid, where there is one, is at the place after the last column.
    Fixed(u32, Option<u32>),
}

impl Identity {
    /// A copy in the same allocators.
    pub fn try_clone(&self) -> Result<Identity, AllocError>
        ensures { IfOk result (λ copy. copy ≡ self.now) }
    {
        Ok(match self {
            Identity::Object(object) => Identity::Object(*object),
            Identity::Column(object, ordinal) => Identity::Column(*object, *ordinal),
            Identity::Rowid(object) => Identity::Rowid(*object),
            Identity::Source(object, path) => Identity::Source(*object, path.try_clone()?),
            Identity::Cte(object, path) => Identity::Cte(*object, path.try_clone()?),
            Identity::Result(object, path, item, inner) => {
                Identity::Result(*object, path.try_clone()?, *item, *inner)
            }
            Identity::Fixed(object, place) => Identity::Fixed(*object, *place),
        })
    }

    pub fn is_same(&self, other: &Identity) -> bool
        ensures { IsTrue result ↔ (self.now ≡ other.now) }
    {
        match (self, other) {
            (Identity::Object(a), Identity::Object(b)) => *a == *b,
            (Identity::Column(a, m), Identity::Column(b, n)) => *a == *b && *m == *n,
            (Identity::Rowid(a), Identity::Rowid(b)) => *a == *b,
            (Identity::Source(a, p), Identity::Source(b, q)) => *a == *b && p.is_same(q),
            (Identity::Cte(a, p), Identity::Cte(b, q)) => *a == *b && p.is_same(q),
            (Identity::Result(a, p, i, m), Identity::Result(b, q, j, n)) => {
                *a == *b && p.is_same(q) && *i == *j && *m == *n
            }
            (Identity::Fixed(a, m), Identity::Fixed(b, n)) => *a == *b && *m == *n,
            _ => false,
        }
    }
}

/// A copy of the identity, if there is one.
pub fn clone_option(identity: &Option<Identity>) -> Result<Option<Identity>, AllocError>
    ensures { IfOk result (λ copy. copy ≡ identity.now) }
{
    match identity {
        Some(identity) => Ok(Some(identity.try_clone()?)),
        None => Ok(None),
    }
}

/// Whether both are one identity, or neither is there.
pub fn is_same_option(a: &Option<Identity>, b: &Option<Identity>) -> bool
    ensures { IsTrue result ↔ (a.now ≡ b.now) }
{
    match (a, b) {
        (Some(a), Some(b)) => a.is_same(b),
        (None, None) => true,
        _ => false,
    }
}
