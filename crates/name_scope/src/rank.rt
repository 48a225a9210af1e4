//! Which of the binders that a use sees is nearer, and the one that it denotes.
ghost use Rattle.std.specs.Prelude.{◌≡◌, ◌<◌, ◌↔◌, ℕ, List, length, IsTrue};
ghost use Rattle.name_scope.specs.Rank.{Denotes, IsBehind, IsInReach, IsNearer, Seen, StandsBefore};
ghost use Rattle.name_scope.specs.Found.{IsFound};
ghost use Rattle.std.specs.Option.{option_copied};

use crate::Sight;
use crate::identity::is_same_option;

/// Which of the binders that are seen a use denotes.
#[derive(Clone, Copy, Debug, PartialEq, Eq)]
pub enum Denoted {
    /// The one at this place, which is nearer than each other one.
    One(usize),
    /// None is seen.
    Unknown,
    /// Some are seen, and none is nearer than each other one.
    Ambiguous,
}

/// Whether the first of two binders, each with its number of scopes outward, is nearer.
pub fn is_nearer(s: &(u32, Sight), t: &(u32, Sight)) -> bool
    ensures { IsTrue result ↔ IsNearer s.now t.now }
{
    s.0 < t.0 || (s.0 == t.0 && stands_before(&s.1, &t.1))
}

fn stands_before(s: &Sight, t: &Sight) -> bool
    ensures { IsTrue result ↔ StandsBefore s.now t.now }
{
    s.class < t.class
        || (s.class == t.class && is_same_option(&s.source, &t.source) && s.place < t.place)
}

/// Whether a binder is at the rank of the target or nearer. A literal has no target, and each binder is in its reach.
pub fn is_in_reach(target: Option<&(u32, Sight)>, s: &(u32, Sight)) -> bool
    ensures { IsTrue result ↔ IsInReach (option_copied target.entry) s.now }
{
    match target {
        Some(target) => !is_nearer(target, s),
        None => true,
    }
}

/// Which of the binders that are seen a use denotes.
pub fn nearest_of(seen: &[(u32, Sight)]) -> Denoted
    ensures { IsFound seen.now result }
{
    if seen.is_empty() {
        return Denoted::Unknown;
    }
    for place in 0..seen.len() {
        if is_least(seen, place) {
            return Denoted::One(place);
        }
    }
    Denoted::Ambiguous
}

/// No more than one place of a list is denoted.
pub fn one_denoted()
    ensures { (seen : List Seen) (p q : ℕ) → Denotes seen p → Denotes seen q → p ≡ q }
{}

/// Whether the binder at the place is nearer than each other one.
fn is_least(seen: &[(u32, Sight)], place: usize) -> bool
    requires { place < length seen.now }
    ensures { IsTrue result ↔ Denotes seen.now place }
{
    for at in 0..seen.len() {
        if !is_behind(seen, place, at) {
            return false;
        }
    }
    true
}

/// Whether what stands at the other place, if that is another one, is farther.
fn is_behind(seen: &[(u32, Sight)], place: usize, at: usize) -> bool
    requires place { place < length seen.now }
    requires other { at < length seen.now }
    ensures { IsTrue result ↔ IsBehind seen.now place at }
{
    at == place || is_nearer(&seen[place], &seen[at])
}
