//! What a token may be in a rule: the tests of leaves. Fixed words, signs and names are tested in `sql_token`.

ghost use Rattle.std.specs.Prelude.{◌↔◌, IsTrue};
ghost use Rattle.sql_token.specs.Form.{IsNumberKind};
ghost use Rattle.sql_expr.specs.Leaf.{IsOneOf, IsNoneOf, IsOperatorSign, IsNoJoinWord, IsBareAlias, IsTypeName, IsOperandName, IsColumnName};

use sql_token::{Keyword, Token, TokenKind, fixed_word, is_fixed, is_name, is_sign};

/// Whether the token is one of the fixed words.
pub fn is_one_of(text: &[u8], words: &[Keyword], token: &Token) -> bool
    ensures { IsTrue result ↔ IsOneOf text.now words.now token.now }
{
    for word in words {
        if is_fixed(text, *word, token) {
            return true;
        }
    }
    false
}

/// Whether the token is none of the fixed words.
pub fn is_none_of(text: &[u8], words: &[Keyword], token: &Token) -> bool
    ensures { IsTrue result ↔ IsNoneOf text.now words.now token.now }
{
    !is_one_of(text, words, token)
}

/// Whether the kind is that of a number.
pub fn is_number_kind(kind: TokenKind) -> bool
    ensures { IsTrue result ↔ IsNumberKind kind }
{
    matches!(kind, TokenKind::Int | TokenKind::Hex | TokenKind::Float)
}

/// Whether the token is an operator sign: a sign other than those of parentheses, lists and names.
pub fn is_operator_sign(text: &[u8], token: &Token) -> bool
    ensures { IsTrue result ↔ IsOperatorSign text.now token.now }
{
    token.kind == TokenKind::Op
        && !is_sign(text, b"(", token)
        && !is_sign(text, b")", token)
        && !is_sign(text, b",", token)
        && !is_sign(text, b";", token)
        && !is_sign(text, b".", token)
}

/// Whether the token is no join word.
pub fn is_no_join_word(text: &[u8], token: &Token) -> bool
    ensures { IsTrue result ↔ IsNoJoinWord text.now token.now }
{
    match fixed_word(text, token) {
        Some(word) => !word.is_join_word(),
        None => true,
    }
}

/// Whether the token is an alias without AS.
pub fn is_bare_alias(text: &[u8], token: &Token) -> bool
    ensures { IsTrue result ↔ IsBareAlias text.now token.now }
{
    let words = [
        Keyword::Window,
        Keyword::Over,
        Keyword::Filter,
        Keyword::Like,
        Keyword::Glob,
        Keyword::Regexp,
        Keyword::Match,
    ];
    is_name(text, token) && is_no_join_word(text, token) && is_none_of(text, &words, token)
}

/// Whether the token is a name in a type.
pub fn is_type_name(text: &[u8], token: &Token) -> bool
    ensures { IsTrue result ↔ IsTypeName text.now token.now }
{
    is_name(text, token) && is_no_join_word(text, token)
}

/// Whether the token is a name that may begin an operand.
pub fn is_operand_name(text: &[u8], token: &Token) -> bool
    ensures { IsTrue result ↔ IsOperandName text.now token.now }
{
    let words = [
        Keyword::Cast,
        Keyword::Raise,
        Keyword::CurrentDate,
        Keyword::CurrentTime,
        Keyword::CurrentTimestamp,
    ];
    is_name(text, token) && is_none_of(text, &words, token)
}

/// Whether the token is a column's name that stands alone.
pub fn is_column_name(text: &[u8], token: &Token) -> bool
    ensures { IsTrue result ↔ IsColumnName text.now token.now }
{
    is_operand_name(text, token) && token.kind != TokenKind::Str
}
