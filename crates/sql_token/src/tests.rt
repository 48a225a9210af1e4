use super::*;
use std::alloc::Global;
use std::test::Fail;

/// The kinds and ends of the tokens, or the place of the first bad byte.
fn outline(alloc: Global, text: &[u8]) -> Result<String, Fail> {
    let list = match tokens(alloc, text) {
        Err(TokenError::Bad(at)) => return Ok(format!(in alloc; "bad {at}")?),
        other => other?,
    };
    let mut outline = String::new(alloc);
    for token in &list {
        let kind = token.kind;
        let end = token.end;
        outline.push_str(format!(in alloc; "{kind:?}{end} ")?.as_str())?;
    }
    Ok(outline)
}

#[test]
fn each_token_is_the_longest(rt: HostRuntime) -> Result<(), Fail> {
    let cases: [(&[u8], &str); 27] = [
        (b"5.e", "bad 0"),
        (b"0x", "bad 0"),
        (b"1$", "bad 0"),
        (b"1e+", "bad 0"),
        (b"1.a", "bad 0"),
        (b"'a''", "bad 0"),
        (b"x'ag'", "bad 0"),
        (b"x'abc'", "bad 0"),
        (b"\0", "bad 0"),
        (b"!", "bad 0"),
        (b"@", "bad 0"),
        (b"a ?", "bad 2"),
        (b"[a]]", "bad 3"),
        (b"", ""),
        (b"1.5.3", "Float3 Float5 "),
        (b"t.5", "Word1 Float3 "),
        (b"5. .5 5e-1", "Float2 Float5 Float10 "),
        (b"1..2", "Float2 Float4 "),
        (b"0X1f 12", "Hex4 Int7 "),
        (b"a--b", "Word1 "),
        (b"a--b\nc", "Word1 Word6 "),
        (b"/*/ x */", ""),
        (b"/* *", ""),
        (b"<>->>=", "Op2 Op5 Op6 "),
        (b"'a''b'\"c\"[d]", "Str6 Quoted9 Quoted12 "),
        (b"x'' X'0F' xy", "Blob3 Blob9 Word12 "),
        (b"\xc3\xa9t(*,$", "bad 6"),
    ];
    for (text, expected) in cases {
        let found = outline(rt.alloc(), text)?;
        assert_eq!(rt; found.as_str(), expected);
    }
    Ok(())
}

/// The name of the one token.
fn name_in(alloc: Global, text: &[u8]) -> Result<Vec<u8>, Fail> {
    let list = tokens(alloc, text)?;
    if list.len() == 1 && is_name(text, &list[0]) {
        Ok(name_of(alloc, text, &list[0])?)
    } else {
        Err(Fail::from("no name"))
    }
}

#[test]
fn a_name_has_no_quotes(rt: HostRuntime) -> Result<(), Fail> {
    let cases: [(&[u8], &[u8]); 7] = [
        (b"\"a\"\"b\"", b"a\"b"),
        (b"`a``\"\"`", b"a`\"\""),
        (b"[c\"\"[]", b"c\"\"["),
        (b"'d''e'", b"d'e"),
        (b"\"\"", b""),
        (b"[]", b""),
        (b"_e$1", b"_e$1"),
    ];
    for (text, name) in cases {
        let found = name_in(rt.alloc(), text)?;
        assert_eq!(rt; found.as_slice(), name);
    }
    Ok(())
}

#[test]
fn letters_of_either_case_are_one(rt: HostRuntime) {
    assert_eq!(rt; fold(b'Q'), b'q');
    assert!(rt; same_name(b"Caf\xc3\xa9", b"cAF\xc3\xa9"));
    assert!(rt; !same_name(b"a", b"ab"));
    assert!(rt; keyword_of(b"reBuild") == Some(Keyword::Rebuild));
    assert!(rt; keyword_of(b"rebuilt").is_none());
    assert!(rt; Keyword::Add.is_reserved() && !Keyword::Add.is_join_word());
    assert!(rt; Keyword::Left.is_join_word() && !Keyword::Left.is_reserved());
}

const WORDS: &str =
    "ABORT ACTION ADD AFTER ALL ALTER ALWAYS ANALYZE AND AS ASC ATTACH AUTOINCREMENT BEFORE \
    BEGIN BETWEEN BY CASCADE CASE CAST CHECK COLLATE COLUMN COMMIT CONFLICT CONSTRAINT CREATE \
    CROSS CURRENT CURRENT_DATE CURRENT_TIME CURRENT_TIMESTAMP DATABASE DEFAULT DEFERRABLE \
    DEFERRED DELETE DESC DETACH DISTINCT DO DROP EACH ELSE END ESCAPE EXCEPT EXCLUDE EXCLUSIVE \
    EXISTS EXPLAIN FAIL FILTER FIRST FOLLOWING FOR FOREIGN FROM FULL GENERATED GLOB GROUP \
    GROUPS HAVING IF IGNORE IMMEDIATE IN INDEX INDEXED INITIALLY INNER INSERT INSTEAD \
    INTERSECT INTO IS ISNULL JOIN KEY LAST LEFT LIKE LIMIT MATCH MATERIALIZED NATURAL NO NOT \
    NOTHING NOTNULL NULL NULLS OF OFFSET ON OR ORDER OTHERS OUTER OVER PARTITION PLAN PRAGMA \
    PRECEDING PRIMARY QUERY RAISE RANGE REBUILD RECURSIVE REFERENCES REGEXP REINDEX RELEASE \
    RENAME REPLACE RESTRICT RETURNING RIGHT ROLLBACK ROW ROWS SAVEPOINT SELECT SET TABLE TEMP \
    TEMPORARY THEN TIES TO TRANSACTION TRIGGER UNBOUNDED UNION UNIQUE UPDATE USING VACUUM \
    VALUES VIEW VIRTUAL WHEN WHERE WINDOW WITH WITHOUT";

const RESERVED: &str =
    "ADD ALL ALTER AND AS AUTOINCREMENT BETWEEN CASE CHECK COLLATE COMMIT CONSTRAINT CREATE \
    DEFAULT DEFERRABLE DELETE DISTINCT DROP ELSE ESCAPE EXCEPT EXISTS FOREIGN FROM GROUP \
    HAVING IN INDEX INSERT INTERSECT INTO IS ISNULL JOIN LIMIT NOT NOTHING NOTNULL NULL ON OR \
    ORDER PRIMARY REFERENCES RETURNING SELECT SET TABLE THEN TO TRANSACTION UNION UNIQUE \
    UPDATE USING VALUES WHEN WHERE";

const JOIN_WORDS: &str = "CROSS FULL INDEXED INNER LEFT NATURAL OUTER RIGHT";

fn is_among(list: &str, word: &str) -> bool {
    for other in list.split_whitespace() {
        if other == word {
            return true;
        }
    }
    false
}

/// The word with each second letter in lower case.
fn in_mixed_case(alloc: Global, word: &str) -> Result<Vec<u8>, Fail> {
    let mut mixed = Vec::new(alloc);
    for byte in word.as_bytes() {
        let upper = mixed.len() % 2 == 0;
        mixed.push(if upper { *byte } else { fold(*byte) })?;
    }
    Ok(mixed)
}

/// The keyword's own name without `_`, in capitals as the word.
fn is_named(alloc: Global, keyword: Keyword, word: &str) -> Result<bool, Fail> {
    let mut letters = Vec::new(alloc);
    for byte in word.as_bytes() {
        if *byte != b'_' {
            letters.push(*byte)?;
        }
    }
    let name = format!(in alloc; "{keyword:?}")?;
    Ok(same_name(name.as_bytes(), letters.as_slice()))
}

#[test]
fn each_word_is_known(rt: HostRuntime) -> Result<(), Fail> {
    let mut count = 0u32;
    for word in WORDS.split_whitespace() {
        let mut mixed = in_mixed_case(rt.alloc(), word)?;
        let keyword = keyword_of(mixed.as_slice()).ok_or("no keyword")?;
        assert!(rt; is_named(rt.alloc(), keyword, word)?);
        assert_eq!(rt; keyword.is_reserved(), is_among(RESERVED, word));
        assert_eq!(rt; keyword.is_join_word(), is_among(JOIN_WORDS, word));
        mixed.push(b'x')?;
        assert!(rt; keyword_of(mixed.as_slice()).is_none());
        count = count.wrapping_add(1);
    }
    assert_eq!(rt; count, 148);
    Ok(())
}
