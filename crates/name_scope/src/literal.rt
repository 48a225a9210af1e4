//! Literals among the uses.
ghost use Rattle.std.specs.Prelude.{◌≡◌, ◌↔◌, ◌∷◌, ℕ, List, IsTrue};
ghost use Rattle.name_scope.specs.Literal.{MayBeLiteral};

use sql_token::same_name;

/// Whether a use whose one token has these bytes is a literal where it sees nothing: it is in double quotes, or the bare word
/// TRUE or FALSE.
pub fn may_be_literal(token: &[u8]) -> bool
    ensures { IsTrue result ↔ MayBeLiteral token.now }
{
    begins_quoted(token) || same_name(token, b"true") || same_name(token, b"false")
}

fn begins_quoted(token: &[u8]) -> bool
    ensures { IsTrue result ↔ ((rest : List ℕ) × (token.now ≡ 34 ∷ rest)) }
{
    match token.split_first() {
        Some((first, _)) => *first == b'"',
        None => false,
    }
}
