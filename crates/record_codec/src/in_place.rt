//! Reads the values of a record in place, which takes no memory.
ghost use Rattle.std.specs.Prelude.{◌≡◌, ◌∷◌, ℕ, ℤ, List, length, IfSome, IfNone};
ghost use Rattle.record_codec.specs.Record.{AreValues, HaveValues, IsFront};
ghost use Rattle.record_codec.specs.Serial.{body_size, value_of};
ghost use Rattle.record_codec.specs.declared.value.Value.{Value};
ghost use Rattle.record_codec.specs.declared.value.Value.TheVariants.{Int, Text};

use crate::fields::{serial_front, split_body};
use crate::serial::{int_at, text_at};

/// The text in front, and the serial types and the bodies behind it; `None` where the first value is no text.
pub fn text_front<'a>(types: &'a [u8], bodies: &'a [u8]) -> Option<(&'a [u8], &'a [u8], &'a [u8])>
    requires { HaveValues types.now bodies.now }
    ensures found { IfSome result (λ front. IsFront types.now bodies.now (Text front.0.now) front.1.now front.2.now) }
    ensures none { IfNone result ((text : List ℕ) (others : List Value) → AreValues types.now bodies.now (Text text ∷ others) → ⊥) }
{
    let (serial, body, others, behind) = front(types, bodies)?;
    let text = text_at(serial, body)?;
    Some((text, others, behind))
}

/// The integer in front, and the serial types and the bodies behind it; `None` where the first value is no integer.
pub fn int_front<'a>(types: &'a [u8], bodies: &'a [u8]) -> Option<(i64, &'a [u8], &'a [u8])>
    requires { HaveValues types.now bodies.now }
    ensures found { IfSome result (λ front. IsFront types.now bodies.now (Int front.0) front.1.now front.2.now) }
    ensures none { IfNone result ((number : ℤ) (others : List Value) → AreValues types.now bodies.now (Int number ∷ others) → ⊥) }
{
    let (serial, body, others, behind) = front(types, bodies)?;
    let number = int_at(serial, body)?;
    Some((number, others, behind))
}

/// The serial type and the body of the first value, and the serial types and the bodies behind it.
fn front<'a>(types: &'a [u8], bodies: &'a [u8]) -> Option<(u64, &'a [u8], &'a [u8], &'a [u8])>
    requires { HaveValues types.now bodies.now }
    ensures found { IfSome result (λ front. IsFront types.now bodies.now (value_of front.0 front.1.now) front.2.now front.3.now) }
    ensures size { IfSome result (λ front. length front.1.now ≡ body_size front.0) }
    ensures none { IfNone result ((first : Value) (others : List Value) → AreValues types.now bodies.now (first ∷ others) → ⊥) }
{
    let (serial, others) = serial_front(types)?;
    let (body, behind) = split_body(serial, bodies);
    Some((serial, body, others, behind))
}
