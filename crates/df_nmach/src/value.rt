//! Values.

ghost use Rattle.std.specs.Prelude.{◌≡◌, true, IfOk, OnErr};
ghost use Rattle.df_nmach.specs.Value as pure;
ghost use Rattle.df_nmach.specs.View.{value_of};

use std::alloc::AllocError;

/// What a local, an operand, a slot or an element holds. No value holds another one.
#[derive(Drop)]
pub enum Value {
    Number(i128),
    Truth(bool),
    /// A character, as its byte.
    Char(u8),
    /// The reference to nothing.
    Null,
    /// The object of this number.
    Reference(u64),
    /// A sequence of characters, in order.
    Text(Vec<u8>),
}

impl Value {
    /// Another value that is equal. It fails for want of memory, which only a text takes.
    pub fn copy(&self) -> Result<Value, AllocError>
        ensures copy { IfOk result (λ copy. value_of copy ≡ value_of self.now) }
        ensures memory { OnErr result (pure.is_text (value_of self.now) ≡ true) }
    {
        match self {
            Value::Number(number) => Ok(Value::Number(*number)),
            Value::Truth(truth) => Ok(Value::Truth(*truth)),
            Value::Char(character) => Ok(Value::Char(*character)),
            Value::Null => Ok(Value::Null),
            Value::Reference(reference) => Ok(Value::Reference(*reference)),
            Value::Text(text) => Ok(Value::Text(text.clone()?)),
        }
    }

    /// Whether two values are equal. Values of two kinds are not.
    pub fn is_same(&self, other: &Value) -> bool
        ensures { result ≡ pure.same (value_of self.now) (value_of other.now) }
    {
        match (self, other) {
            (Value::Number(a), Value::Number(b)) => *a == *b,
            (Value::Truth(a), Value::Truth(b)) => *a == *b,
            (Value::Char(a), Value::Char(b)) => *a == *b,
            (Value::Null, Value::Null) => true,
            (Value::Reference(a), Value::Reference(b)) => *a == *b,
            (Value::Text(a), Value::Text(b)) => a.as_slice() == b.as_slice(),
            _ => false,
        }
    }
}
