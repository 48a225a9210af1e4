//! A cursor over the tokens of a text that are left.

ghost use Rattle.std.specs.Prelude.{◌≡◌, [], ◌∷◌, drop, MatchOption, OnErr};
ghost use Rattle.sql_reader.specs.Sorts.{sort_of};
ghost use Rattle.sql_reader.specs.Looks.{next_sort, behind_next, only, word, words, sign, name, number};
ghost use Rattle.sql_reader.specs.Reading.{read_leaf, read_leaf_before};
ghost use Rattle.sql_reader.specs.Input.{Input, first_sort, second_sort, third_sort};
ghost use Rattle.sql_reader.specs.Cursor.{Finds};

use crate::error::ReadError;
use crate::sort::{Mark, Sort, sort_of};
use sql_token::{Keyword, Token};
use std::marker::Model;

/// The tokens of a text that are left. The sorts of the next three are kept, so each token's sort is found once.
#[derive(Drop)]
pub struct Cursor<'a> {
    text: &'a [u8],
    left: &'a [Token],
    first: Sort,
    second: Sort,
    third: Sort,
}

impl<'a> Model for Cursor<'a> {
    ghost use Rattle.sql_reader.specs.Input.{Input};
    ghost use Rattle.sql_reader.specs.Kept.{input_of, KeepsSorts};

    ghost Value = { Input };

    ghost view = { input_of };

    ghost invariant = { KeepsSorts };
}

impl<'a> Cursor<'a> {
    /// A cursor before the first of the text's tokens.
    pub fn new(text: &'a [u8], tokens: &'a [Token]) -> Cursor<'a>
        ensures { result ≡ record { text = text.now; left = tokens.now } }
    {
        Cursor {
            text,
            left: tokens,
            first: sort_at(text, tokens, 0),
            second: sort_at(text, tokens, 1),
            third: sort_at(text, tokens, 2),
        }
    }

    /// The sort of the next token, `End` behind the last.
    pub fn first(&self) -> Sort
        ensures { result ≡ first_sort self.now }
    {
        self.first
    }

    /// The sort of the token behind the next.
    pub fn second(&self) -> Sort
        ensures { result ≡ second_sort self.now }
    {
        self.second
    }

    /// The sort of the third token.
    pub fn third(&self) -> Sort
        ensures { result ≡ third_sort self.now }
    {
        self.third
    }

    /// Takes the next token, if there is one.
    pub fn take(&mut self) -> Option<Token>
        ensures taken { MatchOption result ((self.old.left ≡ []) × (self.new.left ≡ [])) (λ token. self.old.left ≡ token ∷ self.new.left) }
        ensures text { self.new.text ≡ self.old.text }
    {
        let (token, left) = self.left.split_first()?;
        self.left = left;
        self.first = self.second;
        self.second = self.third;
        self.third = sort_at(self.text, left, 2);
        Some(*token)
    }

    /// Takes the next token if the test of its sort, which was made before, says so.
    pub fn take_if(&mut self, fits: bool) -> Result<Token, ReadError>
        ensures found { Finds (λ sort. read_leaf sort (λ _. fits)) result self.old self.new }
        ensures kept { OnErr result (self.new ≡ self.old) }
    {
        if !fits {
            return Err(ReadError::Syntax);
        }
        self.take().ok_or(ReadError::Syntax)
    }

    /// The fixed word.
    pub fn word(&mut self, keyword: Keyword) -> Result<Token, ReadError>
        ensures found { Finds (λ sort. read_leaf sort (word keyword)) result self.old self.new }
        ensures kept { OnErr result (self.new ≡ self.old) }
    {
        let fits = self.first.is_word(keyword);
        self.take_if(fits)
    }

    /// One of the fixed words.
    pub fn words(&mut self, keywords: &[Keyword]) -> Result<Token, ReadError>
        ensures found { Finds (λ sort. read_leaf sort (words keywords.now)) result self.old self.new }
        ensures kept { OnErr result (self.new ≡ self.old) }
    {
        let fits = self.first.is_one_of(keywords);
        self.take_if(fits)
    }

    /// The sign.
    pub fn sign(&mut self, mark: Mark) -> Result<Token, ReadError>
        ensures found { Finds (λ sort. read_leaf sort (sign mark)) result self.old self.new }
        ensures kept { OnErr result (self.new ≡ self.old) }
    {
        let fits = self.first.is_sign(mark);
        self.take_if(fits)
    }

    /// A name.
    pub fn name(&mut self) -> Result<Token, ReadError>
        ensures found { Finds (λ sort. read_leaf sort name) result self.old self.new }
        ensures kept { OnErr result (self.new ≡ self.old) }
    {
        let fits = self.first.is_name();
        self.take_if(fits)
    }

    /// A name, where the sign does not stand behind it.
    pub fn name_before(&mut self, mark: Mark) -> Result<Token, ReadError>
        ensures found { Finds (λ sort. read_leaf_before sort name (sign mark)) result self.old self.new }
        ensures kept { OnErr result (self.new ≡ self.old) }
    {
        let fits = self.first.is_name() && !self.second.is_sign(mark);
        self.take_if(fits)
    }
}

/// The sort of the token at the place, `End` where there is none.
fn sort_at(text: &[u8], tokens: &[Token], place: usize) -> Sort
    ensures { result ≡ next_sort (sort_of text.now) (drop place tokens.now) }
{
    match tokens.get(place) {
        Some(token) => sort_of(text, token),
        None => Sort::End,
    }
}
