//! The results of operators.

ghost use Rattle.std.specs.Prelude.{◌≡◌, ◌≢◌, pos, neg_ℤ, ◌+ℤ◌, ◌-ℤ◌, ◌*ℤ◌, option_map};
ghost use Rattle.std.specs.Int.{int_div_euclid, int_rem_euclid};
ghost use Rattle.df_nmach.specs.View.{value_of};
ghost use Rattle.df_nmach.specs.Step as table;
ghost use Rattle.df_nvm.specs.mirror.Operators.{within_if};

use df_nmach::{BinaryOperator, Range, UnaryOperator, Value};

/// The number, if there is one and it lies in the range.
fn within(range: Range, number: Option<i128>) -> Option<Value>
    ensures { option_map value_of result ≡ within_if range number }
{
    let number = number?;
    if range.low <= number && number <= range.high {
        Some(Value::Number(number))
    } else {
        None
    }
}

/// The character of a number of 0 to 127.
fn character(number: i128) -> Option<Value>
    ensures { option_map value_of result ≡ table.character number }
{
    if 0 <= number && number < 128 {
        Some(Value::Char(number as u8))
    } else {
        None
    }
}

fn negated(range: Range, number: i128) -> Option<Value>
    ensures { option_map value_of result ≡ table.within range (neg_ℤ number) }
{
    within(range, number.checked_neg())
}

fn sum(range: Range, left: i128, right: i128) -> Option<Value>
    ensures { option_map value_of result ≡ table.within range (left +ℤ right) }
{
    within(range, left.checked_add(right))
}

fn difference(range: Range, left: i128, right: i128) -> Option<Value>
    ensures { option_map value_of result ≡ table.within range (left -ℤ right) }
{
    within(range, left.checked_sub(right))
}

fn product(range: Range, left: i128, right: i128) -> Option<Value>
    ensures { option_map value_of result ≡ table.within range (left *ℤ right) }
{
    within(range, left.checked_mul(right))
}

/// The Euclidean quotient by a divisor that is not 0, if it lies in the range.
fn divided(range: Range, left: i128, right: i128) -> Option<Value>
    requires { right ≢ pos 0 }
    ensures { option_map value_of result ≡ table.within range (int_div_euclid left right) }
{
    within(range, left.checked_div_euclid(right))
}

/// The Euclidean quotient, if the divisor is not 0 and the quotient lies in the range.
fn quotient(range: Range, left: i128, right: i128) -> Option<Value>
    ensures { option_map value_of result ≡ table.divisor right (table.within range (int_div_euclid left right)) }
{
    if right == 0 {
        return None;
    }
    divided(range, left, right)
}

/// The Euclidean remainder, if the divisor is not 0 and the remainder lies in the range.
fn remainder(range: Range, left: i128, right: i128) -> Option<Value>
    ensures { option_map value_of result ≡ table.divisor right (table.within range (int_rem_euclid left right)) }
{
    if right == 0 {
        return None;
    }
    within(range, Some(left.wrapping_rem_euclid(right)))
}

/// The result of an operand, if it is of the kind that the operator wants and the result is in range.
pub(crate) fn unary(operator: &UnaryOperator, operand: &Value) -> Option<Value>
    ensures { option_map value_of result ≡ table.unary operator.now (value_of operand.now) }
{
    match (operator, operand) {
        (UnaryOperator::Negate(range), Value::Number(number)) => negated(*range, *number),
        (UnaryOperator::Fit(range), Value::Number(number)) => within(*range, Some(*number)),
        (UnaryOperator::Not, Value::Truth(truth)) => Some(Value::Truth(!*truth)),
        (UnaryOperator::Code, Value::Char(character)) => Some(Value::Number(i128::from(
            *character,
        ))),
        (UnaryOperator::Character, Value::Number(number)) => character(*number),
        _ => None,
    }
}

/// The result of a left and a right operand, if they are of the kinds that the operator wants and the
/// result is in range.
pub(crate) fn binary(operator: &BinaryOperator, left: &Value, right: &Value) -> Option<Value>
    ensures { option_map value_of result ≡ table.binary operator.now (value_of left.now) (value_of right.now) }
{
    match (operator, left, right) {
        (BinaryOperator::Add(range), Value::Number(a), Value::Number(b)) => sum(*range, *a, *b),
        (BinaryOperator::Subtract(range), Value::Number(a), Value::Number(b)) => difference(
            *range, *a, *b,
        ),
        (BinaryOperator::Multiply(range), Value::Number(a), Value::Number(b)) => product(
            *range, *a, *b,
        ),
        (BinaryOperator::Divide(range), Value::Number(a), Value::Number(b)) => quotient(
            *range, *a, *b,
        ),
        (BinaryOperator::Modulo(range), Value::Number(a), Value::Number(b)) => remainder(
            *range, *a, *b,
        ),
        (BinaryOperator::Less, Value::Number(a), Value::Number(b)) => Some(Value::Truth(*a < *b)),
        (BinaryOperator::Less, Value::Char(a), Value::Char(b)) => Some(Value::Truth(*a < *b)),
        (BinaryOperator::AtMost, Value::Number(a), Value::Number(b)) => Some(Value::Truth(
            *a <= *b,
        )),
        (BinaryOperator::AtMost, Value::Char(a), Value::Char(b)) => Some(Value::Truth(*a <= *b)),
        (BinaryOperator::Same, a, b) => Some(Value::Truth(a.is_same(b))),
        _ => None,
    }
}
