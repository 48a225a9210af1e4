use super::*;
use alter_bytes::Bytes;
use std::alloc::Global;
use std::test::Fail;

/// The commands of a script as table and column, one a line, or nothing where it is refused.
fn outline(alloc: Global, text: &[u8]) -> Result<Option<Vec<u8>>, Fail> {
    let Some(commands) = read_script(alloc, text)? else {
        return Ok(None);
    };
    let mut outline = Vec::new(alloc);
    for command in &commands {
        outline.extend_from_slice(command.table.as_slice())?;
        outline.push(b'.')?;
        outline.extend_from_slice(command.column.as_slice())?;
        outline.push(b'\n')?;
    }
    Ok(Some(outline))
}

#[test]
fn scripts_are_lists_of_commands(rt: HostRuntime) -> Result<(), Fail> {
    let table: [(&[u8], Option<&[u8]>); 9] = [
        (b"", Some(b"")),
        (b" ;/* ; */; ", Some(b"")),
        (b"ALTER TABLE t ADD COLUMN c;", Some(b"t.c\n")),
        (
            b";;alter table T add c;; ;Alter Table u Add D",
            Some(b"T.c\nu.D\n"),
        ),
        (b"ALTER TABLE t ADD column", None),
        (b"ALTER TABLE t ADD c d", None),
        (b"ALTER TABLE \"t\" ADD c", None),
        (b"ALTER TABLE t ADD c; DROP TABLE t", None),
        (b"ALTER TABLE t ADD c ?", None),
    ];
    for (text, wanted) in table {
        let found = outline(rt.alloc(), text)?;
        assert!(rt; found.is_some() == wanted.is_some());
        assert_eq!(rt;
            found.unwrap_or(Vec::new(rt.alloc())).as_slice(),
            wanted.unwrap_or(b"".as_slice())
        );
    }
    Ok(())
}

#[test]
fn texts_of_tables_are_read(rt: HostRuntime) -> Result<(), Fail> {
    let text = b"create table t -- t\n(a VARCHAR big, B/* b */)";
    let table = read_table(rt.alloc(), text)?.ok_or("no table")?;
    assert_eq!(rt; table.name.as_slice(), b"t".as_slice());
    assert_eq!(rt; table.columns.len(), 2);
    assert_eq!(rt; table.columns_end, 37);
    let mut columns = table.columns.try_clone()?;
    assert!(rt; columns.contains_folded(b"b") && !columns.contains_folded(b"c"));
    assert!(rt; columns.are_apart());
    columns.push(Bytes::from_slice(rt.alloc(), b"A")?)?;
    assert!(rt; !columns.are_apart());
    let others: [&[u8]; 5] = [
        b"CREATE TABLE t()",
        b"CREATE TABLE t(a,)",
        b"CREATE TABLE t(a PRIMARY KEY)",
        b"CREATE TABLE t(a) STRICT",
        b"CREATE VIEW t(a)",
    ];
    for other in others {
        assert!(rt; read_table(rt.alloc(), other)?.is_none());
    }
    Ok(())
}
