//! The calls on values, and how a value is written.

use crate::answer::Answer;
use crate::field::{byte_of, unescaped};
use alter_bytes::Bytes;
use record_codec::Value;
use std::alloc::{AllocError, Global};
use value_order::{Affinity, ApplyError, Collation, affinity_of, apply, collation_of, compare};

/// What `affinity_of` gives.
pub fn affinity(alloc: Global, type_text: &[u8]) -> Result<Answer, AllocError> {
    match unescaped(alloc, type_text)? {
        Some(text) => Ok(Answer::Affinity(affinity_of(text.as_slice()))),
        None => Ok(Answer::NoSuchCase),
    }
}

/// What `apply` gives.
pub fn converted(
    alloc: Global,
    from: &[u8],
    to: &[u8],
    before: &[u8],
) -> Result<Answer, AllocError> {
    let (Some(from), Some(to)) = (affinity_named(from), affinity_named(to)) else {
        return Ok(Answer::NoSuchCase);
    };
    let Some(before) = value(alloc, before)? else {
        return Ok(Answer::NoSuchCase);
    };
    match apply(alloc, from, to, before) {
        Ok(after) => Ok(Answer::Value(after)),
        Err(ApplyError::NeedsReal) => Ok(Answer::NeedsReal),
        Err(ApplyError::Memory(fault)) => Err(fault),
    }
}

fn affinity_named(name: &[u8]) -> Option<Affinity> {
    match name {
        b"blob" => Some(Affinity::Blob),
        b"text" => Some(Affinity::Text),
        b"numeric" => Some(Affinity::Numeric),
        b"integer" => Some(Affinity::Integer),
        b"real" => Some(Affinity::Real),
        _ => None,
    }
}

/// What `compare` gives.
pub fn order(alloc: Global, collation: &[u8], a: &[u8], b: &[u8]) -> Result<Answer, AllocError> {
    let Some(collation) = collation_of(collation) else {
        return Ok(Answer::NoSuchCase);
    };
    match (value(alloc, a)?, value(alloc, b)?) {
        (Some(a), Some(b)) => Ok(ordered(collation, &a, &b)),
        _ => Ok(Answer::NoSuchCase),
    }
}

fn ordered(collation: Collation, a: &Value, b: &Value) -> Answer {
    match compare(collation, a, b) {
        Ok(ordering) => Answer::Order(ordering),
        Err(_) => Answer::NeedsReal,
    }
}

/// The value that a field writes: `null`, a decimal integer, `real:` and sixteen hexadecimal digits, a text in `'`, or
/// a blob in `x'` and `'` with two hexadecimal digits a byte.
fn value(alloc: Global, field: &[u8]) -> Result<Option<Value>, AllocError> {
    match field {
        b"null" => Ok(Some(Value::Null)),
        [b'r', b'e', b'a', b'l', b':', digits @ ..] => Ok(real(digits)),
        [b'x', b'\'', digits @ .., b'\''] => blob(alloc, digits),
        [b'\'', text @ .., b'\''] => text_value(alloc, text),
        digits => Ok(integer(digits)),
    }
}

fn integer(digits: &[u8]) -> Option<Value> {
    Some(Value::Int(std::str::from_utf8(digits).ok()?.parse().ok()?))
}

fn text_value(alloc: Global, text: &[u8]) -> Result<Option<Value>, AllocError> {
    match unescaped(alloc, text)? {
        Some(bytes) => Ok(Some(Value::Text(Bytes::new(bytes)))),
        None => Ok(None),
    }
}

fn blob(alloc: Global, digits: &[u8]) -> Result<Option<Value>, AllocError> {
    let mut bytes = Vec::new(alloc);
    let mut rest = digits;
    while let [high, low, behind @ ..] = rest {
        let Some(byte) = byte_of(*high, *low) else {
            return Ok(None);
        };
        bytes.push(byte)?;
        rest = behind;
    }
    if rest.is_empty() {
        Ok(Some(Value::Blob(Bytes::new(bytes))))
    } else {
        Ok(None)
    }
}

fn real(digits: &[u8]) -> Option<Value> {
    if digits.len() != 16 {
        return None;
    }
    let mut bytes = [0; 8];
    for i in 0..8 {
        bytes[i] = byte_of(digits[2 * i], digits[2 * i + 1])?;
    }
    Some(Value::Real(bytes))
}
