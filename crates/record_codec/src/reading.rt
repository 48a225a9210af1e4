//! Reads records.
ghost use Rattle.std.specs.Prelude.{◌≡◌, ◌+◌, ℕ, List, length, IfOk, IfErr, IfSome, IfNone, None, Err};
ghost use Rattle.std.specs.Option.{IsSomeAnd};
ghost use Rattle.common_laws.specs.Results.{Yields};
ghost use Rattle.record_codec.specs.Record.{AreSerials, AreValues, HasHeader, HaveValues, IsRecord};
ghost use Rattle.record_codec.specs.Faults.{FirstBad, IsBodyFault, IsMemory, OnBad};
ghost use Rattle.record_codec.specs.declared.value.Value.{Value};
ghost use Rattle.record_codec.specs.declared.error.RecordError.TheVariants.{Bad};

use crate::fields::{body_front, parts, serial_front, split_body};
use crate::serial::value_at;
use crate::{RecordError, Value};
use std::alloc::{AllocError, Global};

/// The values of a record. `Bad` has the offset of the first field that does not fit, or of the first byte behind the
/// last body; the header is read before the bodies (fileformat2.html, "Record Format"). Memory is taken for a record alone.
pub fn decode(alloc: Global, b: &[u8]) -> Result<Vec<Value>, RecordError>
    ensures found { IfOk result (λ read. IsRecord b.now read.items) }
    ensures only { (values : List Value) → IsRecord b.now values → Yields IsMemory (λ read. read.items ≡ values) result }
    ensures bad { IfErr result (OnBad (FirstBad b.now)) }
    ensures first { (at : ℕ) → FirstBad b.now at → result ≡ Err (Bad at) }
{
    match record_parts(b) {
        Ok((types, bodies)) => Ok(values(alloc, types, bodies)?),
        Err(at) => Err(RecordError::Bad(at)),
    }
}

/// The offset at which `decode` answers `Bad`, or `None` where the bytes are a record. It takes no memory.
pub fn first_bad(b: &[u8]) -> Option<usize>
    ensures bad { IfSome result (FirstBad b.now) }
    ensures first { (at : ℕ) → FirstBad b.now at → IsSomeAnd result (λ place. place ≡ at) }
    ensures record { IfNone result ((values : List Value) × IsRecord b.now values) }
    ensures only { (values : List Value) → IsRecord b.now values → result ≡ None }
{
    match record_parts(b) {
        Ok(_) => None,
        Err(at) => Some(at),
    }
}

/// The serial types of a record and its bodies; else the place of the first fault. It takes no memory.
pub fn record_parts(b: &[u8]) -> Result<(&[u8], &[u8]), usize>
    ensures found { IfOk result (λ parts. HasHeader b.now parts.0.now parts.1.now × HaveValues parts.0.now parts.1.now) }
    ensures bad { IfErr result (FirstBad b.now) }
{
    let (types, bodies) = parts(b)?;
    match bad_body(b, types, bodies) {
        Some(at) => Err(at),
        None => Ok((types, bodies)),
    }
}

/// The values of the bodies under these serial types.
fn values(alloc: Global, types: &[u8], bodies: &[u8]) -> Result<Vec<Value>, AllocError>
    requires { HaveValues types.now bodies.now }
    ensures { IfOk result (λ read. AreValues types.now bodies.now read.items) }
{
    let mut values = Vec::new(alloc);
    let mut left = types;
    let mut rest = bodies;
    while let Some((serial, others)) = serial_front(left) {
        let (body, behind) = split_body(serial, rest);
        values.push(value_at(alloc, serial, body)?)?;
        left = others;
        rest = behind;
    }
    Ok(values)
}

/// The place of the first fault of the bodies under these serial types, with which the bytes end.
fn bad_body(b: &[u8], types: &[u8], bodies: &[u8]) -> Option<usize>
    requires header { HasHeader b.now types.now bodies.now }
    requires serials { (serials : List ℕ) × AreSerials serials types.now }
    ensures bad { IfSome result (IsBodyFault b.now) }
    ensures record { IfNone result (HaveValues types.now bodies.now) }
{
    let mut left = types;
    let mut rest = bodies;
    while let Some((serial, others)) = serial_front(left) {
        let Some((_, behind)) = body_front(serial, rest) else {
            return Some(b.len() - rest.len());
        };
        left = others;
        rest = behind;
    }
    if rest.is_empty() {
        None
    } else {
        Some(b.len() - rest.len())
    }
}
