use super::*;
use alter_bytes::Bytes;
use record_codec::Value;
use std::alloc::{AllocError, Global};
use std::cmp::Ordering;
use std::test::Fail;

/// What a conversion gave, as far as the tests ask.
#[derive(Clone, Copy, Debug, PartialEq, Eq)]
enum Outcome {
    Integer(i64),
    /// A text of so many bytes.
    Text(usize),
    Real,
    Blob,
    Null,
    NeedsReal,
    Memory,
}

fn outcome_of(given: Result<Value, ApplyError>) -> Outcome {
    match given {
        Ok(Value::Int(n)) => Outcome::Integer(n),
        Ok(Value::Text(text)) => Outcome::Text(text.len()),
        Ok(Value::Real(_)) => Outcome::Real,
        Ok(Value::Blob(_)) => Outcome::Blob,
        Ok(Value::Null) => Outcome::Null,
        Err(ApplyError::NeedsReal) => Outcome::NeedsReal,
        Err(ApplyError::Memory(_)) => Outcome::Memory,
    }
}

fn text_to(alloc: Global, to: Affinity, text: &[u8]) -> Result<Outcome, AllocError> {
    let value = Value::Text(Bytes::from_slice(alloc, text)?);
    Ok(outcome_of(apply(alloc, Affinity::Blob, to, value)))
}

#[test]
fn texts_that_are_integers(rt: HostRuntime) -> Result<(), Fail> {
    let table: [(&[u8], i64); 9] = [
        (b"0", 0),
        (b" 12 ", 12),
        (b"\t\n\x0b\x0c\r 7\r\x0c\x0b\n\t ", 7),
        (b"+5", 5),
        (b"-5", -5),
        (b"-0", 0),
        (b"0000000000000000000000000000012", 12),
        (b"9223372036854775807", i64::MAX),
        (b"-9223372036854775808", i64::MIN),
    ];
    for (text, number) in table {
        assert_eq!(rt;
            text_to(rt.alloc(), Affinity::Integer, text)?,
            Outcome::Integer(number)
        );
        assert_eq!(rt;
            text_to(rt.alloc(), Affinity::Numeric, text)?,
            Outcome::Integer(number)
        );
        assert_eq!(rt;
            text_to(rt.alloc(), Affinity::Real, text)?,
            Outcome::NeedsReal
        );
        assert_eq!(rt;
            text_to(rt.alloc(), Affinity::Text, text)?,
            Outcome::Text(text.len())
        );
        assert_eq!(rt;
            text_to(rt.alloc(), Affinity::Blob, text)?,
            Outcome::Text(text.len())
        );
    }
    Ok(())
}

#[test]
fn texts_that_are_other_numbers(rt: HostRuntime) -> Result<(), Fail> {
    let table: [&[u8]; 9] = [
        b"9223372036854775808",
        b"-9223372036854775809",
        b"1.",
        b".5",
        b" -1.5 ",
        b"1e2",
        b"1E+2",
        b"+.5e-02\t",
        b"99999999999999999999999999999999999999999",
    ];
    for text in table {
        assert_eq!(rt;
            text_to(rt.alloc(), Affinity::Numeric, text)?,
            Outcome::NeedsReal
        );
        assert_eq!(rt;
            text_to(rt.alloc(), Affinity::Real, text)?,
            Outcome::NeedsReal
        );
    }
    Ok(())
}

#[test]
fn texts_that_are_no_numbers(rt: HostRuntime) -> Result<(), Fail> {
    let table: [&[u8]; 14] = [
        b"", b" ", b"+", b".", b"-.", b"e5", b"1e", b"1e+", b"1 2", b"+ 1", b"0x10", b"1.2.3",
        b"12a", b"1\0",
    ];
    for text in table {
        assert_eq!(rt;
            text_to(rt.alloc(), Affinity::Integer, text)?,
            Outcome::Text(text.len())
        );
        assert_eq!(rt;
            text_to(rt.alloc(), Affinity::Real, text)?,
            Outcome::Text(text.len())
        );
    }
    Ok(())
}

#[test]
fn integers_and_reals(rt: HostRuntime) -> Result<(), Fail> {
    use Affinity::{Blob, Integer, Numeric, Real, Text};
    let alloc = rt.alloc();
    let least = apply(alloc, Integer, Text, Value::Int(i64::MIN));
    match &least {
        Ok(Value::Text(text)) => assert_eq!(rt;
            text.as_slice(),
            b"-9223372036854775808".as_slice()
        ),
        _ => assert!(rt; false),
    }
    assert_eq!(rt;
        outcome_of(apply(alloc, Blob, Numeric, Value::Int(5))),
        Outcome::Integer(5)
    );
    assert_eq!(rt;
        outcome_of(apply(alloc, Integer, Real, Value::Int(5))),
        Outcome::NeedsReal
    );
    assert_eq!(rt;
        outcome_of(apply(alloc, Real, Real, Value::Int(5))),
        Outcome::Integer(5)
    );
    assert_eq!(rt;
        outcome_of(apply(alloc, Real, Blob, Value::Int(5))),
        Outcome::NeedsReal
    );
    assert_eq!(rt;
        outcome_of(apply(alloc, Real, Text, Value::Int(5))),
        Outcome::NeedsReal
    );
    assert_eq!(rt;
        outcome_of(apply(alloc, Real, Text, Value::Real([0; 8]))),
        Outcome::NeedsReal
    );
    assert_eq!(rt;
        outcome_of(apply(alloc, Blob, Real, Value::Real([0; 8]))),
        Outcome::Real
    );
    assert_eq!(rt;
        outcome_of(apply(alloc, Numeric, Integer, Value::Real([0; 8]))),
        Outcome::Real
    );
    assert_eq!(rt;
        outcome_of(apply(alloc, Blob, Integer, Value::Real([0; 8]))),
        Outcome::NeedsReal
    );
    assert_eq!(rt;
        outcome_of(apply(alloc, Real, Integer, Value::Null)),
        Outcome::Null
    );
    let blob = Value::Blob(Bytes::from_slice(alloc, b"12")?);
    assert_eq!(rt;
        outcome_of(apply(alloc, Blob, Integer, blob)),
        Outcome::Blob
    );
    Ok(())
}

#[test]
fn values_are_ordered(rt: HostRuntime) -> Result<(), Fail> {
    let text = Value::Text(Bytes::from_slice(rt.alloc(), b"a ")?);
    let other = Value::Text(Bytes::from_slice(rt.alloc(), b"A")?);
    assert_eq!(rt;
        compare(Collation::Binary, &Value::Null, &Value::Int(0)),
        Ok(Ordering::Less)
    );
    assert_eq!(rt;
        compare(Collation::Binary, &text, &Value::Int(0)),
        Ok(Ordering::Greater)
    );
    assert_eq!(rt;
        compare(Collation::NoCase, &text, &other),
        Ok(Ordering::Greater)
    );
    assert_eq!(rt;
        compare(Collation::Binary, &Value::Int(0), &Value::Real([0; 8])),
        Err(NeedsReal)
    );
    assert_eq!(rt; affinity_of(b"CHARINT"), Affinity::Integer);
    assert_eq!(rt; collation_of(b"rTrim"), Some(Collation::RTrim));
    Ok(())
}
