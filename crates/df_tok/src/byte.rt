//! Classes of bytes.

ghost use Rattle.std.specs.Prelude.{◌≡◌, ◌-◌};
ghost use Rattle.df_tok.specs.Byte as spec;

pub fn is_blank(b: u8) -> bool
    ensures { result ≡ spec.is_blank b }
{
    b == b' ' || b == b'\t' || b == b'\r' || b == b'\n'
}

pub fn is_digit(b: u8) -> bool
    ensures { result ≡ spec.is_digit b }
{
    b'0' <= b && b <= b'9'
}

pub fn is_hex_digit(b: u8) -> bool
    ensures { result ≡ spec.is_hex_digit b }
{
    is_digit(b) || (b'A' <= b && b <= b'F') || (b'a' <= b && b <= b'f')
}

fn is_letter(b: u8) -> bool
    ensures { result ≡ spec.is_letter b }
{
    (b'A' <= b && b <= b'Z') || (b'a' <= b && b <= b'z')
}

pub fn begins_identifier(b: u8) -> bool
    ensures { result ≡ spec.begins_identifier b }
{
    is_letter(b) || b == b'_'
}

pub fn continues_identifier(b: u8) -> bool
    ensures { result ≡ spec.continues_identifier b }
{
    is_letter(b) || is_digit(b) || b == b'_' || b == b'\'' || b == b'?'
}

pub fn continues_number(b: u8) -> bool
    ensures { result ≡ spec.continues_number b }
{
    is_letter(b) || is_digit(b) || b == b'_'
}

pub fn is_plain_in_character(b: u8) -> bool
    ensures { result ≡ spec.is_plain_in_character b }
{
    b' ' <= b && b <= b'~' && b != b'\\' && b != b'\''
}

pub fn is_plain_in_text(b: u8) -> bool
    ensures { result ≡ spec.is_plain_in_text b }
{
    ((b' ' <= b && b <= b'~') || b == b'\t') && b != b'\\' && b != b'"'
}

/// The character that an escape gives.
pub fn escaped(b: u8) -> Option<u8>
    ensures { result ≡ spec.escaped b }
{
    match b {
        b'n' => Some(b'\n'),
        b'r' => Some(b'\r'),
        b't' => Some(b'\t'),
        b'0' => Some(0),
        b'\\' => Some(b'\\'),
        b'\'' => Some(b'\''),
        b'"' => Some(b'"'),
        _ => None,
    }
}

/// The value of a digit, decimal or hexadecimal.
pub fn digit_value(b: u8) -> u8
    ensures { result ≡ spec.digit_value b }
{
    if b <= b'9' {
        b.saturating_sub(b'0')
    } else if b <= b'F' {
        b - (b'A' - 10)
    } else {
        b.saturating_sub(b'a' - 10)
    }
}
