//! What becomes of a value under an affinity (datatype3.html, "Type Affinity").
ghost use Rattle.std.specs.Prelude.{◌≡◌, ◌↔◌, IfErr, IfOk, IsErrOf};
ghost use Rattle.std.specs.Fmt.{signed_decimal};
ghost use Rattle.value_order.specs.Conversion.{Applied, AreForms, AsksReal, Becomes, IsMemory, IsWritten};

use crate::affinity::Affinity;
use crate::number::{Form, form_of};
use alter_bytes::Bytes;
use itoa::Buffer;
use record_codec::Value;
use std::alloc::{AllocError, Global};

/// Why a value was not converted.
#[derive(Debug, Drop)]
pub enum ApplyError {
    Memory(AllocError),
    /// The result depends on the number that a real is, or is a real.
    NeedsReal,
}

impl From<AllocError> for ApplyError {
    ghost use Rattle.value_order.specs.declared.conversion.ApplyError.{ApplyError};

    ghost from_gives = { λ e x. x ≡ ApplyError.Memory e };

    fn from(error: AllocError) -> ApplyError {
        ApplyError::Memory(error)
    }
}

/// The value of a column with the affinity `from`, put into a column with the affinity `to`: integers become texts, and
/// texts integers. `NeedsReal` comes exactly where a real would have to be read or written as a number, and memory is
/// asked for only where an integer becomes a text.
pub fn apply(alloc: Global, from: Affinity, to: Affinity, v: Value) -> Result<Value, ApplyError>
    ensures value { IfOk result (λ after. Becomes to v after) }
    ensures needs_real { IsErrOf result ApplyError.NeedsReal ↔ AsksReal from to v }
    ensures only { IfErr result (λ error. IsMemory error → IsWritten to v) }
    ensures forms { AreForms }
{
    applied(alloc, from, to, v)
}

fn applied(alloc: Global, from: Affinity, to: Affinity, v: Value) -> Result<Value, ApplyError>
    ensures { Applied from to v result }
{
    match v {
        Value::Null => Ok(Value::Null),
        Value::Blob(bytes) => Ok(Value::Blob(bytes)),
        Value::Int(n) => apply_int(alloc, from, to, n),
        Value::Real(bytes) => apply_real(from, to, bytes),
        Value::Text(text) => apply_text(from, to, text),
    }
}

fn apply_int(alloc: Global, from: Affinity, to: Affinity, n: i64) -> Result<Value, ApplyError>
    ensures { Applied from to (Value.Int n) result }
{
    if (from == Affinity::Real) != (to == Affinity::Real) {
        Err(ApplyError::NeedsReal)
    } else if to == Affinity::Text {
        Ok(Value::Text(decimal(alloc, n)?))
    } else {
        Ok(Value::Int(n))
    }
}

/// The decimal text of an integer.
fn decimal(alloc: Global, n: i64) -> Result<Bytes, AllocError>
    ensures { IfOk result (λ text. text ≡ signed_decimal n) }
{
    let mut buffer = Buffer::new();
    Bytes::from_slice(alloc, buffer.format(n).as_bytes())
}

fn apply_real(from: Affinity, to: Affinity, bytes: [u8; 8]) -> Result<Value, ApplyError>
    ensures { Applied from to (Value.Real bytes) result }
{
    let stays = match to {
        Affinity::Blob | Affinity::Real => true,
        Affinity::Text => false,
        Affinity::Integer | Affinity::Numeric => from == Affinity::Integer
            || from == Affinity::Numeric,
    };
    if stays {
        Ok(Value::Real(bytes))
    } else {
        Err(ApplyError::NeedsReal)
    }
}

fn apply_text(from: Affinity, to: Affinity, text: Bytes) -> Result<Value, ApplyError>
    ensures { Applied from to (Value.Text text) result }
{
    match to {
        Affinity::Blob | Affinity::Text => Ok(Value::Text(text)),
        Affinity::Integer | Affinity::Numeric => match form_of(text.as_slice()) {
            Form::Integer(n) => Ok(Value::Int(n)),
            Form::Number => Err(ApplyError::NeedsReal),
            Form::Other => Ok(Value::Text(text)),
        },
        Affinity::Real => match form_of(text.as_slice()) {
            Form::Integer(_) | Form::Number => Err(ApplyError::NeedsReal),
            Form::Other => Ok(Value::Text(text)),
        },
    }
}
