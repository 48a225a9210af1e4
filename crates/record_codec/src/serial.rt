//! Serial types (fileformat2.html, "Record Format").
ghost use Rattle.std.specs.Prelude.{◌≡◌, ◌≤◌, ℕ, ℤ, List, length, IfOk, IfSome, IfNone};
ghost use Rattle.record_codec.specs.Serial.{body_size, value_of};
ghost use Rattle.record_codec.specs.declared.value.Value.TheVariants.{Int, Text};

use crate::Value;
use alter_bytes::Bytes;
use byteorder::{BigEndian, ByteOrder};
use std::alloc::{AllocError, Global};

/// How many bytes the body of the serial type takes.
#[tactic(auto, unfolding(crate::specs::Serial::body_size))]
pub fn body_len(serial: u64) -> u64
    ensures size { result ≡ body_size serial }
    ensures small { serial ≤ 11 → result ≤ 8 }
{
    match serial {
        0..=4 => serial,
        5 => 6,
        6 | 7 => 8,
        8..=11 => 0,
        _ => (serial - 12) / 2,
    }
}

/// The value of a body.
#[tactic(auto, unfolding(crate::specs::Serial::value_of, crate::specs::Serial::body_size))]
pub fn value_at(alloc: Global, serial: u64, body: &[u8]) -> Result<Value, AllocError>
    requires { length body.now ≡ body_size serial }
    ensures { IfOk result (λ value. value ≡ value_of serial body.now) }
{
    Ok(match serial {
        0 => Value::Null,
        1..=6 => Value::Int(BigEndian::read_int(body, body.len())),
        7 => {
            let mut real = [0; 8];
            real.copy_from_slice(body);
            Value::Real(real)
        }
        8 => Value::Int(0),
        9 => Value::Int(1),
        _ if serial % 2 == 0 => Value::Blob(Bytes::from_slice(alloc, body)?),
        _ => Value::Text(Bytes::from_slice(alloc, body)?),
    })
}

/// The integer of a body, or `None` where it is no integer's.
#[tactic(auto, unfolding(crate::specs::Serial::value_of, crate::specs::Serial::body_size))]
pub fn int_at(serial: u64, body: &[u8]) -> Option<i64>
    requires { length body.now ≡ body_size serial }
    ensures found { IfSome result (λ number. value_of serial body.now ≡ Int number) }
    ensures none { IfNone result ((number : ℤ) → value_of serial body.now ≡ Int number → ⊥) }
{
    match serial {
        1..=6 => Some(BigEndian::read_int(body, body.len())),
        8 => Some(0),
        9 => Some(1),
        _ => None,
    }
}

/// The text of a body, or `None` where it is no text's.
#[tactic(auto, unfolding(crate::specs::Serial::value_of))]
pub fn text_at(serial: u64, body: &[u8]) -> Option<&[u8]>
    ensures found { IfSome result (λ text. value_of serial body.now ≡ Text text.now) }
    ensures none { IfNone result ((text : List ℕ) → value_of serial body.now ≡ Text text → ⊥) }
{
    if serial > 9 && serial % 2 == 1 {
        Some(body)
    } else {
        None
    }
}
