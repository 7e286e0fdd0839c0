//! Values of terms.

use crate::assignment::Assignment;
use crate::declarations::Head;
use df_form::{Free, Front, Node, NodeTable, Op, Sort, Symbol, Term};
use df_lang::{DeclId, Ty};
use std::alloc::{AllocError, Global};

/// A value; a character by its code.
#[derive(Clone, Copy, PartialEq, Eq)]
pub(crate) enum Value {
    Number(i128),
    Truth(bool),
    Character(i128),
}

/// The parts of a node among the values of the nodes before it.
#[derive(Clone, Copy)]
struct Parts<'a> {
    values: &'a [Option<Value>],
    parts: &'a [Term],
}

impl<'a> Parts<'a> {
    fn value(&self, place: usize) -> Option<Value> {
        *self.values.get(*self.parts.get(place)?)?
    }

    fn number(&self, place: usize) -> Option<i128> {
        match self.value(place)? {
            Value::Number(number) => Some(number),
            Value::Truth(_) | Value::Character(_) => None,
        }
    }

    fn truth(&self, place: usize) -> Option<bool> {
        match self.value(place)? {
            Value::Truth(truth) => Some(truth),
            Value::Number(_) | Value::Character(_) => None,
        }
    }

    /// The first two parts, if they are numbers.
    fn numbers(&self) -> Option<(i128, i128)> {
        let first = self.number(0)?;
        let second = self.number(1)?;
        Some((first, second))
    }

    /// The first two parts, if they are truths.
    fn truths(&self) -> Option<(bool, bool)> {
        let first = self.truth(0)?;
        let second = self.truth(1)?;
        Some((first, second))
    }

    /// Whether all parts have this truth.
    fn all_are(&self, wanted: bool) -> Option<bool> {
        let mut all = true;
        for place in 0..self.parts.len() {
            let truth = self.truth(place)?;
            all = all && truth == wanted;
        }
        Some(all)
    }

    /// Whether the part is of the type.
    fn typing(&self, heads: &[Head], ty: Ty) -> Option<Value> {
        let value = self.value(0)?;
        Some(Value::Truth(is_of(heads, ty, value)))
    }

    /// What an operation of arithmetic gives.
    fn arithmetic(&self, op: Op) -> Option<Value> {
        let (a, b) = self.numbers()?;
        let number = number_of(op, a, b)?;
        Some(Value::Number(number))
    }

    /// The number of the part, a character.
    fn code(&self) -> Option<Value> {
        match self.value(0)? {
            Value::Character(code) => Some(Value::Number(code)),
            Value::Number(_) | Value::Truth(_) => None,
        }
    }

    /// The character of the part, a number.
    fn character(&self) -> Option<Value> {
        let number = self.number(0)?;
        Some(Value::Character(code_of(number)))
    }

    fn equality(&self) -> Option<Value> {
        let first = self.value(0)?;
        let second = self.value(1)?;
        Some(Value::Truth(first == second))
    }

    fn order(&self) -> Option<Value> {
        let (a, b) = self.numbers()?;
        Some(Value::Truth(a <= b))
    }

    fn negation(&self) -> Option<Value> {
        let truth = self.truth(0)?;
        Some(Value::Truth(!truth))
    }

    fn conjunction(&self) -> Option<Value> {
        let all_hold = self.all_are(true)?;
        Some(Value::Truth(all_hold))
    }

    fn disjunction(&self) -> Option<Value> {
        let none_holds = self.all_are(false)?;
        Some(Value::Truth(!none_holds))
    }

    fn implication(&self) -> Option<Value> {
        let (premise, conclusion) = self.truths()?;
        Some(Value::Truth(!premise || conclusion))
    }

    fn equivalence(&self) -> Option<Value> {
        let (a, b) = self.truths()?;
        Some(Value::Truth(a == b))
    }
}

/// The code of the character of a number; of a number that is no code it is that of `D`.
fn code_of(number: i128) -> i128 {
    if 0 <= number && number <= 127 {
        number
    } else {
        68
    }
}

/// The quotient that leaves a remainder of at least 0; by 0 it is 0.
fn quotient(a: i128, b: i128) -> Option<i128> {
    if b == 0 {
        Some(0)
    } else {
        a.checked_div_euclid(b)
    }
}

/// That remainder; by 0 it is 0.
fn remainder(a: i128, b: i128) -> Option<i128> {
    if b == 0 {
        Some(0)
    } else {
        a.checked_rem_euclid(b)
    }
}

/// Whether a number is one of a newtype.
fn is_within(heads: &[Head], newtype: DeclId, number: i128) -> bool {
    let Some(head) = heads.get(newtype) else {
        return false;
    };
    match head.ends {
        Some((low, high)) => low <= number && number <= high,
        None => false,
    }
}

/// Whether a value is one of the type.
fn is_of(heads: &[Head], ty: Ty, value: Value) -> bool {
    match (ty, value) {
        (Ty::Newtype(newtype), Value::Number(number)) => is_within(heads, newtype, number),
        (Ty::Int, Value::Number(_)) => true,
        (Ty::Nat, Value::Number(number)) => 0 <= number,
        (Ty::Bool, Value::Truth(_)) => true,
        (Ty::Char, Value::Character(_)) => true,
        _ => false,
    }
}

/// The value of a free term, if it has one of its sort.
fn free_value(assignment: &Assignment, free: Free) -> Option<Value> {
    match free.sort {
        Sort::Number => Some(Value::Number(assignment.number(free.number)?)),
        Sort::Truth => Some(Value::Truth(assignment.truth(free.number)?)),
        Sort::Character => Some(Value::Character(assignment.number(free.number)?)),
    }
}

/// The number that an operation of arithmetic gives.
fn number_of(op: Op, a: i128, b: i128) -> Option<i128> {
    match op {
        Op::Plus => a.checked_add(b),
        Op::Times => a.checked_mul(b),
        Op::Of(Symbol::Div, _) => quotient(a, b),
        Op::Of(Symbol::Mod, _) => remainder(a, b),
        _ => None,
    }
}

/// The value of a node, if its parts and its free terms have one, and numbers fit 128 bits.
fn node_value(
    heads: &[Head],
    assignment: &Assignment,
    values: &[Option<Value>],
    node: &Node,
) -> Option<Value> {
    let parts = Parts {
        values,
        parts: &node.parts,
    };
    match node.op {
        Op::Number(number) => Some(Value::Number(number)),
        Op::Free(free) => free_value(assignment, free),
        Op::Of(Symbol::Is, payload) => parts.typing(heads, payload.ty()),
        Op::Plus | Op::Times | Op::Of(Symbol::Div | Symbol::Mod, _) => parts.arithmetic(node.op),
        Op::Of(Symbol::Code, _) => parts.code(),
        Op::Of(Symbol::Chr, _) => parts.character(),
        Op::Equal => parts.equality(),
        Op::AtMost => parts.order(),
        Op::Not => parts.negation(),
        Op::And => parts.conjunction(),
        Op::Or => parts.disjunction(),
        Op::Implies => parts.implication(),
        Op::Iff => parts.equivalence(),
    }
}

/// The value of the node of this number, if it has one.
fn value_at(
    heads: &[Head],
    assignment: &Assignment,
    values: &[Option<Value>],
    nodes: &Front,
    number: usize,
) -> Option<Value> {
    match nodes.get(number) {
        Some(node) => node_value(heads, assignment, values, node),
        None => None,
    }
}

/// Adds the value of each node that has one.
fn push_values(
    values: &mut Vec<Option<Value>>,
    heads: &[Head],
    assignment: &Assignment,
    nodes: &Front,
) -> Result<(), AllocError> {
    for number in 0..nodes.len() {
        let value = value_at(heads, assignment, values.as_slice(), nodes, number);
        values.push(value)?;
    }
    Ok(())
}

/// The value of each node that has one, by its number.
pub(crate) fn values(
    alloc: Global,
    heads: &[Head],
    assignment: &Assignment,
    nodes: &Front,
) -> Result<Vec<Option<Value>>, AllocError> {
    let mut values = Vec::new(alloc);
    push_values(&mut values, heads, assignment, nodes)?;
    Ok(values)
}
