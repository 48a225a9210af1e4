//! The tokens of SQL texts, the names that they spell, and the keywords.
#![tactic(auto)]

mod class;
mod filler;
mod fixed;
mod keyword;
mod name;
mod number;
mod quote;
mod scan;
#[cfg(test)]
mod tests;
mod token;
mod tokenize;

pub use fixed::{bytes_of, fixed_word, is_fixed, is_name, is_sign};
pub use keyword::{Keyword, keyword_of};
pub use name::{fold, name_of, same_name};
pub use token::{Token, TokenError, TokenKind};
pub use tokenize::tokens;
