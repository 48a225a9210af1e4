//! Names and texts out of the tokens of a piece.

ghost use Rattle.std.specs.Prelude.{◌≡◌, ◌↔◌, ◌∷◌, [], ◌++◌, codes, slice_range, List, ℕ, IsTrue, IfOk, IfErr};
ghost use Rattle.std.specs.List.{AllByRecursion};
ghost use Rattle.sql_token.specs.Fixed.{IsName};
ghost use Rattle.sql_token.specs.Names.{SpellsName};
ghost use Rattle.sql_token.specs.Token.{AreTokens, IsTokenAt};
ghost use Rattle.sql_token.specs.declared.token.Token.{Token as TokenOf};
ghost use Rattle.sql_reader.specs.declared.error.ReadError.TheVariants.{Syntax};
ghost use Rattle.common_laws.specs.Results.{Yields};
ghost use Rattle.sql_tree.specs.declared.table.Column.{Column as ColumnTree};
ghost use Rattle.sql_tree.specs.declared.table.CreateTable.{CreateTable as TableTree};
ghost use Rattle.ddl_parse.specs.Given.{IsReadAs};
ghost use Rattle.script_parse.specs.Answers.{IsWant};
ghost use Rattle.script_parse.specs.Command.{IsColumnText, IsMain, IsTableText, Names, bytes_of_all, end_of, is_bare, without_word};

use alter_bytes::Bytes;
use ddl_parse::{read_column, read_table};
use sql_reader::{ReadError, sort_of};
use sql_token::{
    Keyword, Token, TokenError, TokenKind, bytes_of, is_name, name_of, same_name, tokens,
};
use sql_tree::{Column, CreateTable};
use std::alloc::{AllocError, Global};

/// The first token and those behind it.
pub fn take_first<'a>(tokens: &'a [Token]) -> Result<(Token, &'a [Token]), ReadError>
    ensures found { IfOk result (λ p. tokens.now ≡ p.0 ∷ p.1.now) }
    ensures none { IfErr result (λ fault. (tokens.now ≡ []) × (fault ≡ Syntax)) }
{
    match tokens.split_first() {
        Some((first, rest)) => Ok((*first, rest)),
        None => Err(ReadError::Syntax),
    }
}

/// What stands behind the word, where it is in front and a name behind it; else all.
pub fn without_word<'a>(text: &[u8], keyword: Keyword, tokens: &'a [Token]) -> &'a [Token]
    ensures { result.now ≡ without_word text.now keyword tokens.now }
{
    match tokens {
        [first, second, ..]
            if sort_of(text, first).is_word(keyword) && sort_of(text, second).is_name() => {
            &tokens[1..]
        }
        _ => tokens,
    }
}

/// The name that a token is.
pub fn name(alloc: Global, text: &[u8], token: &Token) -> Result<Bytes, ReadError>
    requires at { IsTokenAt text.now token.now }
    ensures found { IfOk result (Names text.now token.now) }
    ensures only { (spelled : List ℕ) → Names text.now token.now spelled → IsReadAs spelled result }
{
    if !is_name(text, token) {
        return Err(ReadError::Syntax);
    }
    Ok(Bytes::new(name_of(alloc, text, token)?))
}

/// Whether the token is a name without quotes.
pub fn is_bare(token: &Token) -> bool
    ensures { result ≡ is_bare token.now.kind }
{
    matches!(token.kind, TokenKind::Word)
}

/// Whether the token is a name that spells `main`.
pub fn is_main(alloc: Global, text: &[u8], token: &Token) -> Result<bool, AllocError>
    requires at { IsTokenAt text.now token.now }
    ensures { IfOk result (λ so. IsTrue so ↔ IsMain text.now token.now) }
{
    if !is_name(text, token) {
        return Ok(false);
    }
    let spelled = name_of(alloc, text, token)?;
    Ok(same_name(spelled.as_slice(), b"main"))
}

/// The text's bytes from the first token to the last.
pub fn bytes_of_all<'a>(text: &'a [u8], tokens: &[Token]) -> &'a [u8]
    ensures { result.now ≡ bytes_of_all text.now tokens.now }
{
    match tokens.split_first() {
        Some((first, rest)) => bytes_of(
            text,
            &Token {
                kind: first.kind,
                start: first.start,
                end: end_of(first.end, rest),
            },
        ),
        None => &[],
    }
}

/// The end of the last token, or this where there is none.
fn end_of(end: usize, tokens: &[Token]) -> usize
    ensures { result ≡ end_of end tokens.now }
{
    let mut last = end;
    for token in tokens {
        last = token.end;
    }
    last
}

/// `CREATE TABLE ` and the bytes.
pub fn table_text(alloc: Global, bytes: &[u8]) -> Result<Bytes, AllocError>
    ensures { IfOk result (λ text. text ≡ codes "CREATE TABLE " ++ bytes.now) }
{
    let mut text = Vec::from_slice(alloc, b"CREATE TABLE ")?;
    text.extend_from_slice(bytes)?;
    Ok(Bytes::new(text))
}

/// The text's tokens. A text with a bad one has none.
fn tokens_of(alloc: Global, text: &[u8]) -> Result<Vec<Token>, ReadError>
    ensures found { IfOk result (λ list. AreTokens text.now list.items) }
    ensures only { (list : List TokenOf) → AreTokens text.now list → Yields IsWant (λ read. read.items ≡ list) result }
{
    match tokens(alloc, text) {
        Ok(list) => Ok(list),
        Err(TokenError::Memory(fault)) => Err(ReadError::Memory(fault)),
        Err(TokenError::Bad(_)) => Err(ReadError::Syntax),
    }
}

/// The column that the whole text is.
pub fn column_of(alloc: Global, text: &[u8]) -> Result<Column, ReadError>
    ensures found { IfOk result (IsColumnText text.now) }
    ensures only { (column : ColumnTree) → IsColumnText text.now column → IsReadAs column result }
{
    let list = tokens_of(alloc, text)?;
    read_column(alloc, text, list.as_slice())
}

/// The table that the whole text is, without IF NOT EXISTS.
pub fn table_of(alloc: Global, text: &[u8]) -> Result<CreateTable, ReadError>
    ensures found { IfOk result (IsTableText text.now) }
    ensures only { (table : TableTree) → IsTableText text.now table → IsReadAs table result }
{
    let list = tokens_of(alloc, text)?;
    let table = read_table(alloc, text, list.as_slice())?;
    match table.if_not_exists {
        None => Ok(table),
        Some(_) => Err(ReadError::Syntax),
    }
}
