//! What a stream took, beside what is wanted of it.

/// Stands in a wanted text for any decimal number.
pub const NUMBER: u8 = 1;

/// What is behind a decimal number, where a text begins with one.
fn behind_number(text: &[u8]) -> &[u8] {
    let digits = text.strip_prefix(b"-").unwrap_or(text);
    for (end, byte) in digits.iter().enumerate() {
        if !byte.is_ascii_digit() {
            return digits.get(end..).unwrap_or(&[]);
        }
    }
    &[]
}

/// What is behind a byte of a wanted text, where a text fits it.
fn behind(wanted: u8, text: &[u8]) -> Option<&[u8]> {
    if wanted == NUMBER {
        return Some(behind_number(text));
    }
    match text {
        [first, rest @ ..] if *first == wanted => Some(rest),
        _ => None,
    }
}

/// Whether a text is what is wanted.
pub fn fits(wanted: &[u8], text: &[u8]) -> bool {
    let mut rest = text;
    for byte in wanted {
        match behind(*byte, rest) {
            Some(more) => rest = more,
            None => return false,
        }
    }
    rest.is_empty()
}
