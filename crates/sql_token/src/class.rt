//! Classes of bytes, and runs of them.

ghost use Rattle.std.specs.Prelude.{◌≡◌, ◌==◌, ◌≤◌, length, not};
ghost use Rattle.std.specs.Char.{is_ascii_digit, is_ascii_hexdigit};
ghost use Rattle.std.specs.List.{prefix_len};
ghost use Rattle.sql_token.specs.Byte as spec;
ghost use Rattle.sql_token.specs.Scan.{class_of};

/// What may begin with a byte.
#[derive(Clone, Copy)]
pub enum Class {
    Letter,
    Digit,
    Point,
    Apostrophe,
    Sign,
    Bracket,
    Other,
}

pub fn class_of(byte: u8) -> Class
    ensures { result ≡ class_of byte }
{
    if starts_word(byte) {
        Class::Letter
    } else if byte.is_ascii_digit() {
        Class::Digit
    } else {
        match byte {
            b'.' => Class::Point,
            b'\'' => Class::Apostrophe,
            b'"' | b'`' => Class::Sign,
            b'[' => Class::Bracket,
            _ => Class::Other,
        }
    }
}

fn starts_word(byte: u8) -> bool
    ensures { result ≡ spec.starts_word byte }
{
    byte.is_ascii_alphabetic() || byte == b'_' || 128 <= byte
}

fn in_word(byte: u8) -> bool
    ensures { result ≡ spec.in_word byte }
{
    byte.is_ascii_alphanumeric() || byte == b'_' || byte == b'$' || 128 <= byte
}

pub fn is_x(byte: u8) -> bool
    ensures { result ≡ spec.is_x byte }
{
    byte == b'x' || byte == b'X'
}

/// Whether a byte that may stand in a Word is in front.
pub fn begins_in_word(bytes: &[u8]) -> bool
    ensures { result ≡ spec.begins spec.in_word bytes.now }
{
    match bytes {
        [first, ..] => in_word(*first),
        [] => false,
    }
}

/// Whether the byte is in front.
pub fn begins_with(bytes: &[u8], byte: u8) -> bool
    ensures { result ≡ spec.begins (λ b. b == byte) bytes.now }
{
    match bytes {
        [first, ..] => *first == byte,
        [] => false,
    }
}

/// Whether a digit is in front.
pub fn begins_digit(bytes: &[u8]) -> bool
    ensures { result ≡ spec.begins is_ascii_digit bytes.now }
{
    match bytes {
        [first, ..] => first.is_ascii_digit(),
        [] => false,
    }
}

/// How many bytes in front may stand in a Word.
pub fn word_run(bytes: &[u8]) -> usize
    ensures value { result ≡ prefix_len spec.in_word bytes.now }
    ensures within { result ≤ length bytes.now }
{
    bytes.iter().take_while(|byte| in_word(**byte)).count()
}

/// How many digits are in front.
pub fn digit_run(bytes: &[u8]) -> usize
    ensures value { result ≡ prefix_len is_ascii_digit bytes.now }
    ensures within { result ≤ length bytes.now }
{
    bytes
        .iter()
        .take_while(|byte| byte.is_ascii_digit())
        .count()
}

/// How many hexadecimal digits are in front.
pub fn hex_run(bytes: &[u8]) -> usize
    ensures value { result ≡ prefix_len is_ascii_hexdigit bytes.now }
    ensures within { result ≤ length bytes.now }
{
    bytes
        .iter()
        .take_while(|byte| byte.is_ascii_hexdigit())
        .count()
}

/// How many bytes in front are not the byte.
pub fn run_without(bytes: &[u8], byte: u8) -> usize
    ensures value { result ≡ prefix_len (λ b. not (b == byte)) bytes.now }
    ensures within { result ≤ length bytes.now }
{
    bytes.iter().take_while(|other| **other != byte).count()
}
