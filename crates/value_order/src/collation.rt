//! Collations: how texts are compared (datatype3.html, "Collating Sequences").
ghost use Rattle.std.specs.Prelude.{◌≡◌, IfSome, IfNone, [], ◌∷◌, ◌++◌};
ghost use Rattle.std.specs.Cmp.Lexicographic.{slice_cmp};
ghost use Rattle.std.specs.Ordering.{nat_cmp};
ghost use Rattle.sql_token.specs.Names.{folded};
ghost use Rattle.value_order.specs.Collation.{collated, name_of, without_end_spaces};
ghost use Rattle.value_order.specs.declared.collation.Collation.{Collation};

use sql_token::{fold, same_name};
use std::cmp::Ordering;

/// How texts are compared.
#[derive(Clone, Copy, Debug, PartialEq, Eq)]
pub enum Collation {
    /// By their bytes.
    Binary,
    /// By their bytes, ASCII letters in lower case.
    NoCase,
    /// By their bytes, without the spaces at the end.
    RTrim,
}

/// The collation of this name, in letters of either case.
pub fn collation_of(name: &[u8]) -> Option<Collation>
    ensures found { IfSome result (λ collation. folded name.now ≡ name_of collation) }
    ensures only { (collation : Collation) → folded name.now ≡ name_of collation → result ≡ Some collation }
{
    if same_name(name, b"binary") {
        Some(Collation::Binary)
    } else if same_name(name, b"nocase") {
        Some(Collation::NoCase)
    } else if same_name(name, b"rtrim") {
        Some(Collation::RTrim)
    } else {
        None
    }
}

/// The order of two texts.
pub fn compare_texts(collation: Collation, a: &[u8], b: &[u8]) -> Ordering
    ensures { result ≡ slice_cmp nat_cmp (collated collation a.now) (collated collation b.now) }
{
    match collation {
        Collation::Binary => a.cmp(b),
        Collation::NoCase => compare_folded(a, b),
        Collation::RTrim => without_end_spaces(a).cmp(without_end_spaces(b)),
    }
}

fn compare_folded(a: &[u8], b: &[u8]) -> Ordering
    ensures { result ≡ slice_cmp nat_cmp (folded a.now) (folded b.now) }
{
    for i in 0..a.len().min(b.len()) {
        match fold(a[i]).cmp(&fold(b[i])) {
            Ordering::Equal => {}
            unequal => return unequal,
        }
    }
    a.len().cmp(&b.len())
}

/// The text without the spaces at its end.
#[tactic(auto, using(crate::proofs::Spaces::one_space))]
fn without_end_spaces(text: &[u8]) -> &[u8]
    ensures { result.now ≡ without_end_spaces text.now }
{
    let mut kept = text;
    while let Some(front) = without_last_space(kept) {
        kept = front;
    }
    kept
}

/// The text without the space at its end, if there is one.
fn without_last_space(text: &[u8]) -> Option<&[u8]>
    ensures found { IfSome result (λ front. text.now ≡ front.now ++ 32 ∷ []) }
    ensures none { IfNone result (without_end_spaces text.now ≡ text.now) }
{
    let (last, front) = text.split_last()?;
    if *last == b' ' { Some(front) } else { None }
}
