//! Numbers that are read: canonical decimals.

ghost use Rattle.std.specs.Prelude.{◌≡◌, ◌+◌, ◌*◌, ◌-◌, ◌<◌, ◌≤◌, ◌^◌, ◌&&◌, nat_lt, IfSome, if◌then◌else◌};
ghost use Rattle.df_logtext.specs.Numeral as spec;

fn is_digit(byte: u8) -> bool
    ensures { result ≡ spec.is_digit byte }
{
    b'0' <= byte && byte <= b'9'
}

/// A value with one more digit, where it is below the limit.
fn with_digit(limit: u128, value: u128, byte: u8) -> Option<u128>
    ensures { result ≡ (if spec.is_digit byte && nat_lt (value * 10 + (byte - 48)) limit then Some (value * 10 + (byte - 48)) else None) }
{
    if !is_digit(byte) {
        return None;
    }
    let more = value.checked_mul(10)?.checked_add(u128::from(byte - b'0'))?;
    if more < limit { Some(more) } else { None }
}

/// The value of digits, where it is below the limit.
fn digits(limit: u128, bytes: &[u8]) -> Option<u128>
    requires { 0 < limit }
    ensures value { result ≡ spec.digits_after limit 0 bytes.now }
    ensures below { IfSome result (λ value. value < limit) }
{
    let mut value = 0;
    for byte in bytes {
        match with_digit(limit, value, *byte) {
            Some(more) => value = more,
            None => return None,
        }
    }
    Some(value)
}

/// A number from 0 on, where it is below the limit.
#[tactic(auto, unfolding(crate::specs::Numeral::number_of))]
pub fn number(limit: u128, word: &[u8]) -> Option<u128>
    requires { 0 < limit }
    ensures value { result ≡ spec.number_of limit word.now }
    ensures below { IfSome result (λ value. value < limit) }
{
    match word {
        [] => None,
        [b'0'] => Some(0),
        [b'0', _, ..] => None,
        [_, ..] => digits(limit, word),
    }
}

/// The negative of a number, if it is not 0.
fn negative(number: u128) -> Option<i128>
    requires { number ≤ 2 ^ 127 }
    ensures { result ≡ spec.negative_of number }
{
    if number == 0 {
        return None;
    }
    Some(-((number - 1) as i128) - 1)
}

/// A whole number of 128 bits.
#[tactic(auto, unfolding(crate::specs::Numeral::integer_of))]
pub fn integer(word: &[u8]) -> Option<i128>
    ensures { result ≡ spec.integer_of word.now }
{
    match word {
        [] => None,
        [b'-', digits @ ..] => negative(number((1 << 127) + 1, digits)?),
        [_, ..] => Some(number(1 << 127, word)? as i128),
    }
}
