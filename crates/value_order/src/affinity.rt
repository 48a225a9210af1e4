//! What a column's type says of its values (datatype3.html, "Determination Of Column Affinity").
ghost use Rattle.std.specs.Prelude.{◌≡◌, ◌↔◌, ◌++◌, List, ℕ, IsTrue};
ghost use Rattle.sql_token.specs.Names.{folded};
ghost use Rattle.value_order.specs.Affinity.{BeginsWith, Contains, HasAffinity, NamesBlob, NamesReal, NamesText};
ghost use Rattle.value_order.specs.declared.affinity.Affinity.{Affinity};

use sql_token::same_name;

/// The affinity of a column (datatype3.html, "Type Affinity").
#[derive(Clone, Copy, Debug, PartialEq, Eq)]
pub enum Affinity {
    Blob,
    Text,
    Numeric,
    Integer,
    Real,
}

/// The affinity of the type text: that of the first rule that holds, in SQLite's order. No type is the empty text.
pub fn affinity_of(type_text: &[u8]) -> Affinity
    ensures first { HasAffinity result type_text.now }
    ensures only { (affinity : Affinity) → HasAffinity affinity type_text.now → affinity ≡ result }
{
    if contains(type_text, b"int") {
        Affinity::Integer
    } else if names_text(type_text) {
        Affinity::Text
    } else if names_blob(type_text) {
        Affinity::Blob
    } else if names_real(type_text) {
        Affinity::Real
    } else {
        Affinity::Numeric
    }
}

fn names_text(type_text: &[u8]) -> bool
    ensures { IsTrue result ↔ NamesText type_text.now }
{
    contains(type_text, b"char") || contains(type_text, b"clob") || contains(type_text, b"text")
}

#[tactic(auto, using(common_laws::proofs::Lists::none_left))]
fn names_blob(type_text: &[u8]) -> bool
    ensures { IsTrue result ↔ NamesBlob type_text.now }
{
    type_text.is_empty() || contains(type_text, b"blob")
}

fn names_real(type_text: &[u8]) -> bool
    ensures { IsTrue result ↔ NamesReal type_text.now }
{
    contains(type_text, b"real") || contains(type_text, b"floa") || contains(type_text, b"doub")
}

/// Whether the word, in lower-case letters, stands somewhere in the text, in letters of either case.
fn contains(text: &[u8], word: &[u8]) -> bool
    requires { folded word.now ≡ word.now }
    ensures { IsTrue result ↔ Contains word.now text.now }
{
    let mut rest = text;
    while !begins_with(rest, word) {
        let [_, behind @ ..] = rest else {
            return false;
        };
        rest = behind;
    }
    true
}

/// Whether the text begins with the word, in letters of either case.
fn begins_with(text: &[u8], word: &[u8]) -> bool
    requires { folded word.now ≡ word.now }
    ensures { IsTrue result ↔ BeginsWith word.now text.now }
{
    if text.len() < word.len() {
        return false;
    }
    same_name(&text[..word.len()], word)
}
