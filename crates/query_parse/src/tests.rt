use super::*;
use sql_expr::{Expr, Infix, InfixPart};
use sql_token::tokens;
use std::test::Fail;

#[test]
fn a_text_is_read_as_an_expression_or_a_select(rt: HostRuntime) -> Result<(), Fail> {
    let expr = b"a + (SELECT b FROM t)";
    let select = b"SELECT b FROM t ORDER BY 1";
    let in_expr = tokens(rt.alloc(), expr)?;
    let in_select = tokens(rt.alloc(), select)?;
    assert!(rt; parse_expr(rt.alloc(), expr, &in_expr).is_ok());
    assert!(rt; parse_select(rt.alloc(), select, &in_select).is_ok());
    Ok(())
}

/// Whether it is two parts with one IS NOT between them, and nothing before them.
fn is_one_is_not(tree: &Expr) -> bool {
    match tree.more.as_slice() {
        [
            InfixPart {
                operator: Infix::Is {
                    not: Some(_),
                    distinct_from: None,
                    ..
                },
                part,
            },
        ] => tree.first.get().prefixes.is_empty() && part.prefixes.is_empty(),
        _ => false,
    }
}

#[test]
fn is_not_is_one_operator(rt: HostRuntime) -> Result<(), Fail> {
    let text = b"a IS NOT b";
    let list = tokens(rt.alloc(), text)?;
    let is_one = match parse_expr(rt.alloc(), text, &list) {
        Ok(tree) => is_one_is_not(&tree),
        Err(_) => false,
    };
    assert!(rt; is_one);
    Ok(())
}
