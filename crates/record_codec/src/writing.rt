//! Writes records.
ghost use Rattle.std.specs.Prelude.{◌≡◌, ◌*◌, ◌<◌, ◌≤◌, ◌+◌, ◌++◌, ◌^◌, pos, negsuc, List, length, IfOk, OnOk};
ghost use Rattle.std.specs.List.{AllByRecursion};
ghost use Rattle.alter_bytes.specs.Varint.{varint};
ghost use Rattle.record_codec.specs.declared.value.Value.{Value};
ghost use Rattle.record_codec.specs.Serial.{IsBody, body_size};
ghost use Rattle.record_codec.specs.Record.{IsRecord};
ghost use Rattle.record_codec.specs.Written.{IsShortest, IsWritable, body_of, integer_bytes, integer_serial, record_of, serial_of, size_len, sized_serial, types_of};

use crate::Value;
use crate::serial::body_len;
use alter_bytes::{Bytes, varint_len, write_varint};
use byteorder::{BigEndian, ByteOrder};
use std::alloc::{AllocError, Global};

/// The shortest record of the values; the serial types of the integers 0 and 1 are used in schema format 4 alone
/// (fileformat2.html, "Schema format number"). A text or blob whose serial type would pass 64 bits is answered as
/// want of memory.
#[tactic(auto, unfolding(crate::specs::Written::record_of))]
pub fn encode(alloc: Global, values: &[Value], format: u8) -> Result<Bytes, AllocError>
    ensures written { IfOk result (λ bytes. bytes ≡ record_of format values.now) }
    ensures is_record { IfOk result (λ bytes. IsRecord bytes values.now) }
    ensures only { IfOk result (λ bytes. (read : List Value) → IsRecord bytes read → read ≡ values.now) }
    ensures shortest { IfOk result (λ bytes. IsShortest format bytes values.now) }
{
    let types = serials(alloc, values, format)?;
    let mut bytes = Vec::new(alloc);
    let size = size_len(types.len()) + types.len();
    push_varint(size as u64, &mut bytes)?;
    bytes.extend_from_slice(types.as_slice())?;
    for value in values {
        push_body(value, format, &mut bytes)?;
    }
    Ok(Bytes::new(bytes))
}

/// The serial types of the values.
fn serials(alloc: Global, values: &[Value], format: u8) -> Result<Vec<u8>, AllocError>
    ensures types { IfOk result (λ types. types.items ≡ types_of format values.now) }
    ensures writable { IfOk result (λ types. AllByRecursion (IsWritable format) values.now) }
{
    let mut types = Vec::new(alloc);
    for value in values {
        push_varint(serial(value, format)?, &mut types)?;
    }
    Ok(types)
}

/// How many bytes the size of a header takes, where the serial types take so many.
#[tactic(auto, unfolding(crate::specs::Written::size_len))]
fn size_len(types: usize) -> usize
    requires { types < 2 ^ 63 }
    ensures len { result ≡ size_len types }
    ensures small { result ≤ 9 }
{
    let least = varint_len(types as u64);
    if varint_len((least + types) as u64) == least {
        least
    } else {
        least + 1
    }
}

/// Adds the shortest varint of the number (fileformat2.html, "Record Format").
pub fn push_varint(number: u64, bytes: &mut Vec<u8>) -> Result<(), AllocError>
    ensures { OnOk result (bytes.new.items ≡ bytes.old.items ++ varint number) }
{
    let mut field = [0; 9];
    let len = write_varint(number, &mut field);
    bytes.extend_from_slice(&field[..len])
}

/// The serial type of a value.
#[tactic(auto, unfolding(crate::specs::Written::serial_of))]
fn serial(value: &Value, format: u8) -> Result<u64, AllocError>
    ensures serial { IfOk result (λ serial. serial ≡ serial_of format value.now) }
    ensures writable { IfOk result (λ serial. IsWritable format value.now) }
{
    match value {
        Value::Null => Ok(0),
        Value::Int(number) => Ok(integer_serial(*number, format)),
        Value::Real(real) => Ok(real_serial(*real)),
        Value::Text(text) => sized(13, text.len()),
        Value::Blob(blob) => sized(12, blob.len()),
    }
}

/// The serial type of so many bytes above the first one of their kind.
fn sized(first: u64, len: usize) -> Result<u64, AllocError>
    ensures serial { IfOk result (λ serial. serial ≡ first + 2 * len) }
    ensures fits { IfOk result (λ serial. first + 2 * len < 2 ^ 64) }
{
    let twice = (len as u64).checked_mul(2).ok_or(AllocError)?;
    twice.checked_add(first).ok_or(AllocError)
}

/// The serial type of a real, whose body has eight bytes.
fn real_serial(real: [u8; 8]) -> u64
    ensures serial { result ≡ 7 }
    ensures len { length real ≡ 8 }
{
    7
}

/// The shortest serial type of an integer.
#[tactic(auto, unfolding(crate::specs::Written::integer_serial))]
fn integer_serial(number: i64, format: u8) -> u64
    ensures serial { result ≡ integer_serial format number }
    ensures small { result ≤ 9 }
{
    if format == 4 && (number == 0 || number == 1) {
        8 + number as u64
    } else if number < 0 {
        sized_serial((-1 - number) as u64)
    } else {
        sized_serial(number as u64)
    }
}

/// The serial type of an integer with a body of the fewest bytes; `bits` is the integer, or -1 less a negative one.
#[tactic(auto, unfolding(crate::specs::Written::sized_serial))]
fn sized_serial(bits: u64) -> u64
    ensures serial { result ≡ sized_serial bits }
    ensures small { result ≤ 6 }
{
    if bits < 1 << 7 {
        1
    } else if bits < 1 << 15 {
        2
    } else if bits < 1 << 23 {
        3
    } else if bits < 1 << 31 {
        4
    } else if bits < 1 << 47 {
        5
    } else {
        6
    }
}

/// Adds the body of a value.
#[tactic(auto, unfolding(crate::specs::Written::body_of))]
fn push_body(value: &Value, format: u8, bytes: &mut Vec<u8>) -> Result<(), AllocError>
    ensures { OnOk result (bytes.new.items ≡ bytes.old.items ++ body_of format value.now) }
{
    match value {
        Value::Null => Ok(()),
        Value::Int(number) => {
            let len = body_len(integer_serial(*number, format));
            push_integer(*number, len as usize, bytes)
        }
        Value::Real(real) => bytes.extend_from_slice(real),
        Value::Text(text) => bytes.extend_from_slice(text.as_slice()),
        Value::Blob(blob) => bytes.extend_from_slice(blob.as_slice()),
    }
}

/// Adds the lowest bytes of an integer, the highest of them first.
fn push_integer(number: i64, len: usize, bytes: &mut Vec<u8>) -> Result<(), AllocError>
    requires { len ≤ 8 }
    ensures { OnOk result (bytes.new.items ≡ bytes.old.items ++ integer_bytes len number) }
{
    if len == 0 {
        return Ok(());
    }
    let mut field = [0; 8];
    BigEndian::write_int(&mut field, number, len);
    bytes.extend_from_slice(&field[..len])
}
