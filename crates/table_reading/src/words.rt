//! Words that are fixed only where a rule names them.

ghost use Rattle.std.specs.Prelude.{◌≡◌};
ghost use Rattle.sql_reader.specs.Cursor.{Finds};
ghost use Rattle.table_reading.specs.Words.{is_spelled, read_spelled};

use sql_reader::{Cursor, ReadError};
use sql_token::{Token, TokenKind, bytes_of};

/// The word that spells these letters, in either case. The letters are in lower case.
pub fn spelled(text: &[u8], letters: &[u8], cursor: &mut Cursor<'_>) -> Result<Token, ReadError>
    ensures { Finds (λ _. read_spelled text.now letters.now) result cursor.old cursor.new }
{
    let Some(token) = cursor.take() else {
        return Err(ReadError::Syntax);
    };
    if is_spelled(text, letters, &token) {
        Ok(token)
    } else {
        Err(ReadError::Syntax)
    }
}

/// Whether the token is a word that spells these letters, in either case.
fn is_spelled(text: &[u8], letters: &[u8], token: &Token) -> bool
    ensures { result ≡ is_spelled text.now letters.now token.now }
{
    match token.kind {
        TokenKind::Word => bytes_of(text, token).eq_ignore_ascii_case(letters),
        _ => false,
    }
}
