use super::*;
use sql_token::{Keyword, tokens};
use std::alloc::Global;
use std::test::Fail;

/// The sorts of the tokens, each found by a cursor that takes them one by one.
fn outline(alloc: Global, text: &[u8]) -> Result<String, Fail> {
    let list = tokens(alloc, text)?;
    let mut cursor = Cursor::new(text, &list);
    let mut outline = String::new(alloc);
    for _ in 0..list.len() {
        let sort = cursor.first();
        outline.push_str(format!(in alloc; "{sort:?} ")?.as_str())?;
        let _ = cursor.take();
    }
    let end = cursor.first();
    outline.push_str(format!(in alloc; "{end:?}")?.as_str())?;
    Ok(outline)
}

#[test]
fn each_token_has_one_sort(rt: HostRuntime) -> Result<(), Fail> {
    let cases: [(&[u8], &str); 4] = [
        (b"", "End"),
        (b"Select x \"select\"", "Fixed(Select) Plain Quoted End"),
        (b"'a' x'' 1 0x1 1.", "Str Blob Int Hex Float End"),
        (
            b"( ) , ; . + - * ~ = ==",
            "Sign(Opening) Sign(Closing) Sign(Comma) Sign(Semicolon) Sign(Dot) Sign(Plus) Sign(Minus) Sign(Star) Sign(Tilde) Sign(Equal) Sign(Operator) End",
        ),
    ];
    for (text, expected) in cases {
        let found = outline(rt.alloc(), text)?;
        assert_eq!(rt; found.as_str(), expected);
    }
    Ok(())
}

#[test]
fn leaves_are_taken_in_order(rt: HostRuntime) -> Result<(), Fail> {
    let text = b"COLLATE a . b DESC";
    let list = tokens(rt.alloc(), text)?;
    let mut cursor = Cursor::new(text, &list);
    assert!(rt; cursor.name().is_err());
    assert_eq!(rt; cursor.word(Keyword::Collate)?.end, 7);
    assert!(rt; cursor.name_before(Mark::Dot).is_err());
    assert_eq!(rt; cursor.name()?.end, 9);
    assert_eq!(rt; cursor.sign(Mark::Dot)?.end, 11);
    assert_eq!(rt; cursor.name_before(Mark::Dot)?.end, 13);
    assert_eq!(rt; cursor.words(&[Keyword::Asc, Keyword::Desc])?.end, 18);
    assert!(rt; cursor.take().is_none());
    Ok(())
}
