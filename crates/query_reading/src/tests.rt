use super::*;
use sql_reader::Cursor;
use sql_token::tokens;
use std::test::Fail;

#[test]
fn an_object_and_names_are_read(rt: HostRuntime) -> Result<(), Fail> {
    let text = b"main.t , (a, \"b\")";
    let list = tokens(rt.alloc(), text)?;
    let mut cursor = Cursor::new(text, &list);
    let found = object(&mut cursor)?;
    assert!(rt; found.qualifier.is_some());
    assert_eq!(rt; found.name.start, 5);
    assert!(rt; cursor.take().is_some());
    let columns = names(rt.alloc(), &mut cursor)?;
    assert_eq!(rt; columns.inner.first.start, 10);
    assert_eq!(rt; columns.inner.more.as_slice().len(), 1);
    Ok(())
}
