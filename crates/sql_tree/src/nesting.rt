//! How deep the parentheses and the CASEs of a text are nested.

ghost use Rattle.std.specs.Prelude.{◌≡◌, ℕ, [], length, reverse, take, IfOk, IfSome, OnOk};
ghost use Rattle.std.specs.Option.{option_map};
ghost use Rattle.sql_tree.specs.Nesting.{FirstTooDeep, IsFoundAt, around, closed, effect_of, effect_of_sign, effect_of_word, ended, turned};

use sql_token::{Token, TokenKind, bytes_of, same_name};
use std::alloc::{AllocError, Global};
use std::marker::Model;

/// How many levels may be open.
pub const MAX_DEPTH: usize = 100;

/// What opened a level.
#[derive(Clone, Copy)]
pub enum Opening {
    Parenthesis,
    Case,
}

/// What a token does to the open levels.
#[derive(Clone, Copy)]
enum Effect {
    Opens(Opening),
    /// Closes the levels down to and with the innermost parenthesis.
    Closes,
    /// Ends a CASE.
    Ends,
    Keeps,
}

#[tactic(auto, unfolding(crate::specs::Nesting::effect_of))]
fn effect_of(text: &[u8], token: &Token) -> Effect
    ensures { result ≡ effect_of text.now token.now }
{
    let bytes = bytes_of(text, token);
    match token.kind {
        TokenKind::Op => effect_of_sign(bytes),
        TokenKind::Word => effect_of_word(bytes),
        _ => Effect::Keeps,
    }
}

fn effect_of_sign(sign: &[u8]) -> Effect
    ensures { result ≡ effect_of_sign sign.now }
{
    match sign {
        b"(" => Effect::Opens(Opening::Parenthesis),
        b")" => Effect::Closes,
        _ => Effect::Keeps,
    }
}

fn effect_of_word(word: &[u8]) -> Effect
    ensures { result ≡ effect_of_word word.now }
{
    if same_name(word, b"case") {
        Effect::Opens(Opening::Case)
    } else if same_name(word, b"end") {
        Effect::Ends
    } else {
        Effect::Keeps
    }
}

/// The open levels, innermost first.
#[derive(Drop)]
struct Levels {
    /// What opened them, the innermost last.
    openings: Vec<Opening>,
}

impl Model for Levels {
    ghost use Rattle.std.specs.Prelude.{List, reverse};
    ghost use Rattle.sql_tree.specs.declared.nesting.Opening.{Opening};

    ghost Value = { List Opening };

    ghost view = { λ l. reverse l.openings.items };
}

impl Levels {
    fn new(alloc: Global) -> Levels
        ensures { result ≡ [] }
    {
        Levels {
            openings: Vec::new(alloc),
        }
    }

    fn depth(&self) -> usize
        ensures { result ≡ length self.now }
    {
        self.openings.len()
    }

    /// The levels behind a token that does this.
    fn turn(&mut self, effect: Effect) -> Result<(), AllocError>
        ensures { OnOk result (self.new ≡ turned effect self.old) }
    {
        match effect {
            Effect::Opens(opening) => self.openings.push(opening)?,
            Effect::Closes => self.close(),
            Effect::Ends => self.end(),
            Effect::Keeps => (),
        }
        Ok(())
    }

    /// Closes the levels down to and with the innermost parenthesis, where one is open.
    fn close(&mut self)
        ensures { self.new ≡ closed self.old }
    {
        if let Some(count) = around(self.openings.as_slice()) {
            self.openings.truncate(count);
        }
    }

    /// Closes the innermost level, where a CASE opened it.
    fn end(&mut self)
        ensures { self.new ≡ ended self.old }
    {
        if let Some(Opening::Case) = self.openings.last() {
            let _ = self.openings.pop();
        }
    }
}

/// How many levels are around the innermost parenthesis, if one is open.
fn around(openings: &[Opening]) -> Option<usize>
    ensures { around (reverse openings.now) ≡ option_map (λ count. reverse (take count openings.now)) result }
{
    let mut count = openings.len();
    while count > 0 {
        count -= 1;
        match openings[count] {
            Opening::Parenthesis => return Some(count),
            Opening::Case => {}
        }
    }
    None
}

/// The start of the first token behind which more than `MAX_DEPTH` levels are open.
///
/// `(` and the word CASE open a level. `)` closes the levels down to and with the innermost `(`, or
/// none where no `(` is open; END closes the innermost level where a CASE opened it.
pub fn first_too_deep(
    alloc: Global,
    text: &[u8],
    tokens: &[Token],
) -> Result<Option<usize>, AllocError>
    ensures found { IfOk result (λ found. IfSome found (λ at. FirstTooDeep text.now tokens.now at)) }
    ensures only { (at : ℕ) → FirstTooDeep text.now tokens.now at → IsFoundAt at result }
{
    let mut levels = Levels::new(alloc);
    for token in tokens {
        levels.turn(effect_of(text, token))?;
        if levels.depth() > MAX_DEPTH {
            return Ok(Some(token.start));
        }
    }
    Ok(None)
}
