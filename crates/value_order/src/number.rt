//! Texts that are numbers (datatype3.html, "Type Affinity").
ghost use Rattle.std.specs.Prelude.{◌≡◌, ◌≤◌, ◌<◌, ◌^◌, IfSome, IfNone, neg_ℤ, pos};
ghost use Rattle.value_order.specs.Conversion.{IsForm};
ghost use Rattle.value_order.specs.Number.{Fits, begins_minus, is_blank, is_digit, number_after, signed_number};
ghost use Rattle.value_order.specs.Runs.{front, past, past_point, past_sign, reads_end, reads_exponent, reads_signed, reads_unsigned};

/// What number a text is.
#[derive(Clone, Copy)]
pub enum Form {
    /// The integer of a text of the integer form that fits 64 signed bits.
    Integer(i64),
    /// Another number.
    Number,
    /// None.
    Other,
}

/// The number that the text is: blanks, an optional sign, digits, and blanks make an integer.
pub fn form_of(text: &[u8]) -> Form
    ensures { IsForm result text.now }
{
    let number = past_blanks(text);
    if is_signed(number) {
        match integer(begins_minus(number), digits(past_sign(number))) {
            Some(n) => Form::Integer(n),
            None => Form::Number,
        }
    } else if is_unsigned(past_sign(number)) {
        Form::Number
    } else {
        Form::Other
    }
}

fn is_blank(byte: u8) -> bool
    ensures { result ≡ is_blank byte }
{
    byte == b' ' || (9 <= byte && byte <= 13)
}

fn is_digit(byte: u8) -> bool
    ensures { result ≡ is_digit byte }
{
    b'0' <= byte && byte <= b'9'
}

fn past_blanks(text: &[u8]) -> &[u8]
    ensures { result.now ≡ past is_blank text.now }
{
    let mut rest = text;
    while let [first, behind @ ..] = rest {
        if !is_blank(*first) {
            return rest;
        }
        rest = behind;
    }
    rest
}

fn past_digits(text: &[u8]) -> &[u8]
    ensures { result.now ≡ past is_digit text.now }
{
    let mut rest = text;
    while let [first, behind @ ..] = rest {
        if !is_digit(*first) {
            return rest;
        }
        rest = behind;
    }
    rest
}

/// The digits in front.
fn digits(text: &[u8]) -> &[u8]
    ensures { result.now ≡ front is_digit text.now }
{
    &text[..text.len() - past_digits(text).len()]
}

fn past_sign(text: &[u8]) -> &[u8]
    ensures { result.now ≡ past_sign text.now }
{
    match text {
        [b'+' | b'-', behind @ ..] => behind,
        _ => text,
    }
}

fn begins_minus(text: &[u8]) -> bool
    ensures { result ≡ begins_minus text.now }
{
    match text {
        [first, ..] => *first == b'-',
        [] => false,
    }
}

fn past_point(text: &[u8]) -> &[u8]
    ensures { result.now ≡ past_point text.now }
{
    match text {
        [b'.', behind @ ..] => behind,
        _ => text,
    }
}

/// Whether the text is an optional sign, digits and blanks.
fn is_signed(text: &[u8]) -> bool
    ensures { result ≡ reads_signed text.now }
{
    let digits = past_sign(text);
    let back = past_digits(digits);
    back.len() < digits.len() && past_blanks(back).is_empty()
}

/// Whether the text is `e` or `E`, an optional sign, digits and blanks.
fn is_exponent(text: &[u8]) -> bool
    ensures { result ≡ reads_exponent text.now }
{
    match text {
        [first, behind @ ..] => (*first == b'e' || *first == b'E') && is_signed(behind),
        [] => false,
    }
}

/// Whether an optional exponent and blanks are all that is left.
fn is_end(text: &[u8]) -> bool
    ensures { result ≡ reads_end text.now }
{
    past_blanks(text).is_empty() || is_exponent(text)
}

/// Whether the text is digits with at most one point, an optional exponent and blanks.
fn is_unsigned(text: &[u8]) -> bool
    ensures { result ≡ reads_unsigned text.now }
{
    let whole = past_digits(text);
    let fraction = past_point(whole);
    let back = past_digits(fraction);
    (whole.len() < text.len() || back.len() < fraction.len()) && is_end(back)
}

/// The integer of the digits, where it is one of 64 signed bits.
fn integer(minus: bool, digits: &[u8]) -> Option<i64>
    ensures found { IfSome result (λ z. z ≡ signed_number minus digits.now) }
    ensures fits { IfSome result (λ z. Fits z) }
    ensures none { IfNone result (Fits (signed_number minus digits.now) → ⊥) }
{
    if minus {
        Some(negative(magnitude(digits, 1 << 63)?))
    } else {
        Some(magnitude(digits, i64::MAX as u64)? as i64)
    }
}

fn negative(n: u64) -> i64
    requires { n ≤ 2 ^ 63 }
    ensures { result ≡ neg_ℤ (pos n) }
{
    if n == 0 { 0 } else { -1 - (n - 1) as i64 }
}

/// The number of the digits, where it is at most this.
fn magnitude(digits: &[u8], most: u64) -> Option<u64>
    ensures found { IfSome result (λ n. (n ≡ number_after 0 digits.now) × (n ≤ most)) }
    ensures none { IfNone result (most < number_after 0 digits.now) }
{
    let mut n = 0;
    let mut rest = digits;
    while let [digit, behind @ ..] = rest {
        let next = n as u128 * 10 + digit.saturating_sub(b'0') as u128;
        if next > most as u128 {
            return None;
        }
        n = next as u64;
        rest = behind;
    }
    Some(n)
}
