//! The names of a table's columns.
ghost use Rattle.std.specs.Prelude.{◌≡◌, ◌≢◌, ◌↔◌, [], ◌∷◌, ◌++◌, length, nat_eq, IsTrue, IfOk, OnOk, OnErr, AllPairs};
ghost use Rattle.std.specs.List.{list_any};
ghost use Rattle.std.specs.Cmp.Lexicographic.{pointwise};
ghost use Rattle.sql_token.specs.Names.{folded};

use alter_bytes::Bytes;
use sql_token::same_name;
use std::alloc::{AllocError, Global};
use std::marker::Model;

/// Names in order.
#[derive(Drop)]
pub struct Names {
    names: Vec<Bytes>,
}

impl Model for Names {
    ghost use Rattle.std.specs.Prelude.{List, ℕ};

    ghost Value = { List (List ℕ) };

    ghost view = { λ n. n.names.items };
}

impl Names {
    pub fn new(alloc: Global) -> Names
        ensures { result ≡ [] }
    {
        Names {
            names: Vec::new(alloc),
        }
    }

    /// Adds a name behind the others.
    pub fn push(&mut self, name: Bytes) -> Result<(), AllocError>
        ensures ok { OnOk result (self.new ≡ self.old ++ name ∷ []) }
        ensures err { OnErr result (self.new ≡ self.old) }
    {
        self.names.push(name)?;
        Ok(())
    }

    /// A copy in the same allocator.
    pub fn try_clone(&self) -> Result<Names, AllocError>
        ensures { IfOk result (λ copy. copy ≡ self.now) }
    {
        let mut names = Vec::new(*self.names.allocator());
        for name in self.names.as_slice() {
            names.push(name.try_clone()?)?;
        }
        Ok(Names { names })
    }

    pub fn len(&self) -> usize
        ensures { result ≡ length self.now }
    {
        self.names.len()
    }

    pub fn as_slice(&self) -> &[Bytes]
        ensures { result.now ≡ self.now }
    {
        self.names.as_slice()
    }

    /// Whether one of them is this name, where ASCII letters of either case are equal.
    pub fn contains_folded(&self, name: &[u8]) -> bool
        ensures { result ≡ list_any (λ c. pointwise nat_eq (folded name.now) (folded c)) self.now }
    {
        any_alike(self.names.as_slice(), name)
    }

    /// Whether no two of them are alike.
    pub fn are_apart(&self) -> bool
        ensures { IsTrue result ↔ AllPairs (λ a b. folded a ≢ folded b) self.now }
    {
        let mut rest = self.names.as_slice();
        while let [name, others @ ..] = rest {
            if any_alike(others, name.as_slice()) {
                return false;
            }
            rest = others;
        }
        true
    }
}

/// Whether one of the names is this one, where ASCII letters of either case are equal.
fn any_alike(names: &[Bytes], name: &[u8]) -> bool
    ensures { result ≡ list_any (λ c. pointwise nat_eq (folded name.now) (folded c)) names.now }
{
    for other in names {
        if same_name(name, other.as_slice()) {
            return true;
        }
    }
    false
}
