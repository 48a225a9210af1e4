//! The sort of a token, found once.

ghost use Rattle.std.specs.Prelude.{◌≡◌, ◌↔◌, IsTrue};
ghost use Rattle.sql_reader.specs.Sorts.{sort_of, mark_of, mark_of_byte, sort_of_word, word_of};
ghost use Rattle.sql_reader.specs.Looks.{word, words, sign, name, number};
ghost use Rattle.sql_token.specs.Names.{folded};

use sql_token::{Keyword, Token, TokenKind, bytes_of, keyword_of};

/// A sign that a rule names, or any other operator.
#[derive(Clone, Copy, Debug, PartialEq, Eq)]
pub enum Mark {
    /// `(`
    Opening,
    /// `)`
    Closing,
    /// `,`
    Comma,
    /// `;`
    Semicolon,
    /// `.`
    Dot,
    /// `+`
    Plus,
    /// `-`
    Minus,
    /// `*`
    Star,
    /// `~`
    Tilde,
    /// `=`
    Equal,
    /// Any other sign.
    Operator,
}

/// What a token is to the grammar: a fixed word, a sign, or a kind of name, number or text.
#[derive(Clone, Copy, Debug, PartialEq, Eq)]
pub enum Sort {
    /// A Word that spells a keyword.
    Fixed(Keyword),
    /// An operator or a sign of punctuation.
    Sign(Mark),
    /// A Word that spells no keyword.
    Plain,
    /// A name between quotes.
    Quoted,
    /// A text between `'`.
    Str,
    /// A blob.
    Blob,
    /// Digits.
    Int,
    /// `0x` and hexadecimal digits.
    Hex,
    /// A number with a fraction, an exponent or both.
    Float,
    /// What stands behind the last token.
    End,
}

impl Sort {
    /// Whether it is the sort of this fixed word.
    pub fn is_word(self, keyword: Keyword) -> bool
        ensures { result ≡ word keyword self }
    {
        match self {
            Sort::Fixed(word) => same_word(word, keyword),
            _ => false,
        }
    }

    /// Whether it is the sort of one of the fixed words.
    pub fn is_one_of(self, keywords: &[Keyword]) -> bool
        ensures { result ≡ words keywords.now self }
    {
        keywords.iter().any(|keyword| self.is_word(*keyword))
    }

    /// Whether it is the sort of this sign.
    pub fn is_sign(self, mark: Mark) -> bool
        ensures { result ≡ sign mark self }
    {
        matches!(self, Sort::Sign(sign) if sign == mark)
    }

    /// Whether it is the sort of a name: a Word that is not reserved, a Quoted or a Str.
    pub fn is_name(self) -> bool
        ensures { result ≡ name self }
    {
        match self {
            Sort::Fixed(word) => !word.is_reserved(),
            Sort::Plain | Sort::Quoted | Sort::Str => true,
            _ => false,
        }
    }

    /// Whether it is the sort of a number.
    pub fn is_number(self) -> bool
        ensures { result ≡ number self }
    {
        matches!(self, Sort::Int | Sort::Hex | Sort::Float)
    }
}

fn same_word(a: Keyword, b: Keyword) -> bool
    ensures { IsTrue result ↔ (a ≡ b) }
{
    a == b
}

/// The sort of a token of the text.
#[tactic(auto, unfolding(crate::specs::Sorts::sort_of))]
pub fn sort_of(text: &[u8], token: &Token) -> Sort
    ensures { result ≡ sort_of text.now token.now }
{
    let bytes = bytes_of(text, token);
    match token.kind {
        TokenKind::Word => word_sort(bytes),
        TokenKind::Quoted => Sort::Quoted,
        TokenKind::Str => Sort::Str,
        TokenKind::Blob => Sort::Blob,
        TokenKind::Int => Sort::Int,
        TokenKind::Hex => Sort::Hex,
        TokenKind::Float => Sort::Float,
        TokenKind::Op => Sort::Sign(mark_of(bytes)),
    }
}

fn word_sort(bytes: &[u8]) -> Sort
    ensures { result ≡ sort_of_word (word_of (folded bytes.now)) }
{
    match keyword_of(bytes) {
        Some(word) => Sort::Fixed(word),
        None => Sort::Plain,
    }
}

fn mark_of(bytes: &[u8]) -> Mark
    ensures { result ≡ mark_of bytes.now }
{
    match bytes {
        [byte] => mark_of_byte(*byte),
        _ => Mark::Operator,
    }
}

fn mark_of_byte(byte: u8) -> Mark
    ensures { result ≡ mark_of_byte byte }
{
    match byte {
        b'(' => Mark::Opening,
        b')' => Mark::Closing,
        b',' => Mark::Comma,
        b';' => Mark::Semicolon,
        b'.' => Mark::Dot,
        b'+' => Mark::Plus,
        b'-' => Mark::Minus,
        b'*' => Mark::Star,
        b'~' => Mark::Tilde,
        b'=' => Mark::Equal,
        _ => Mark::Operator,
    }
}
