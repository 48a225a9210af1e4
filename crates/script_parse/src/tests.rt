use super::*;
use sql_tree::Command;
use std::test::Fail;

/// The place and the cause, or the number of commands and no cause.
fn refused(rt: HostRuntime, text: &[u8]) -> (usize, Option<Cause>) {
    match parse_script(rt.alloc(), text) {
        Ok(commands) => (commands.len(), None),
        Err(ScriptError::At(at, cause)) => (at, Some(cause)),
        Err(ScriptError::Memory(_)) => (0, None),
    }
}

#[test]
fn a_script_is_read_or_refused_at_its_first_cause(rt: HostRuntime) -> Result<(), Fail> {
    assert_eq!(rt; refused(rt, b""), (0, None));
    assert_eq!(rt; refused(rt, b"; -- nothing\n;;/* */"), (0, None));
    assert_eq!(rt;
        refused(rt, b"ALTER TABLE t RENAME"),
        (0, Some(Cause::Syntax))
    );
    assert_eq!(rt;
        refused(rt, b"ALTER TABLE t ADD c DEFAULT 'x"),
        (28, Some(Cause::BadToken))
    );
    assert_eq!(rt;
        refused(rt, b"ALTER TABLE t ADD c; DROP t"),
        (21, Some(Cause::Syntax))
    );
    assert_eq!(rt;
        refused(rt, b"ALTER TABLE temp.t DROP c"),
        (0, Some(Cause::Syntax))
    );
    assert_eq!(rt; refused(rt, b"ALTER TABLE [MAIN].t DROP c;"), (1, None));
    assert_eq!(rt;
        refused(
            rt,
            b";;ALTER TABLE t RENAME COLUMN a TO b;rebuild table t as create table t(a, b)"
        ),
        (2, None)
    );
    assert_eq!(rt;
        refused(rt, b"REBUILD t AS CREATE TABLE if not exists t(a)"),
        (0, Some(Cause::Syntax))
    );
    assert_eq!(rt;
        refused(rt, b"REBUILD \"if\" AS CREATE TABLE if(a)"),
        (1, None)
    );
    Ok(())
}

/// Whether the one command adds a column by this text.
fn adds(rt: HostRuntime, script: &[u8], wanted: &[u8]) -> bool {
    match parse_script(rt.alloc(), script) {
        Ok(commands) => match commands.as_slice() {
            [Command::Add { text, .. }] => text.as_slice() == wanted,
            _ => false,
        },
        Err(_) => false,
    }
}

/// Whether the one command renames this column to this name, written so.
fn renames(rt: HostRuntime, script: &[u8], of: &[u8], to: &[u8], is_bare: bool) -> bool {
    match parse_script(rt.alloc(), script) {
        Ok(commands) => match commands.as_slice() {
            [
                Command::RenameColumn {
                    column,
                    new,
                    bare,
                    ..
                },
            ] => { column.as_slice() == of && new.as_slice() == to && *bare == is_bare }
            _ => false,
        },
        Err(_) => false,
    }
}

#[test]
fn column_is_a_name_where_no_name_follows(rt: HostRuntime) -> Result<(), Fail> {
    assert!(rt; adds(rt, b"ALTER TABLE t ADD column;", b"column"));
    assert!(rt; adds(rt, b"ALTER TABLE t ADD column int ;", b"int"));
    assert!(rt;
        adds(
            rt,
            b"ALTER TABLE t ADD column \"x\" INT /* */ ;",
            b"\"x\" INT"
        )
    );
    assert!(rt;
        renames(
            rt,
            b"ALTER TABLE t RENAME column TO \"x y\"",
            b"column",
            b"x y",
            false
        )
    );
    assert!(rt; renames(rt, b"ALTER TABLE t RENAME column a TO b", b"a", b"b", true));
    Ok(())
}
