//! The order of values (datatype3.html, "Sort Order").
ghost use Rattle.std.specs.Prelude.{◌≡◌, ◌↔◌, IfOk, IsErr, IsTrue};
ghost use Rattle.value_order.specs.Order.{IsOrder, NeedReal, class_of, order};

use crate::collation::{Collation, compare_texts};
use record_codec::Value;
use std::cmp::Ordering;

/// The answer depends on the number that a real is, which nothing here reads.
#[derive(Clone, Copy, Debug, PartialEq, Eq)]
pub struct NeedsReal;

/// The order of two values: NULL, numbers, texts, blobs; numbers by their size, texts by the collation, blobs by
/// their bytes. `NeedsReal` comes exactly where both are numbers and one is a real.
pub fn compare(c: Collation, a: &Value, b: &Value) -> Result<Ordering, NeedsReal>
    ensures value { IfOk result (λ ordering. ordering ≡ order c a.now b.now) }
    ensures needs_real { IsErr result ↔ NeedReal a.now b.now }
    ensures laws { IsOrder NeedReal (order c) }
{
    if need_real(a, b) {
        Err(NeedsReal)
    } else {
        Ok(ordering(c, a, b))
    }
}

/// Whether both are numbers, and one is a real.
fn need_real(a: &Value, b: &Value) -> bool
    ensures { IsTrue result ↔ NeedReal a.now b.now }
{
    match (a, b) {
        (Value::Real(_), Value::Int(_) | Value::Real(_)) => true,
        (Value::Int(_), Value::Real(_)) => true,
        _ => false,
    }
}

/// The order of two values that need no real.
fn ordering(c: Collation, a: &Value, b: &Value) -> Ordering
    ensures { result ≡ order c a.now b.now }
{
    match (a, b) {
        (Value::Int(x), Value::Int(y)) => x.cmp(y),
        (Value::Text(x), Value::Text(y)) => compare_texts(c, x.as_slice(), y.as_slice()),
        (Value::Blob(x), Value::Blob(y)) => x.as_slice().cmp(y.as_slice()),
        _ => class_of(a).cmp(&class_of(b)),
    }
}

/// The place of a value's kind in the order.
fn class_of(value: &Value) -> u8
    ensures { result ≡ class_of value.now }
{
    match value {
        Value::Null => 0,
        Value::Int(_) | Value::Real(_) => 1,
        Value::Text(_) => 2,
        Value::Blob(_) => 3,
    }
}
