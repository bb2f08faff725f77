//! Exact comparison of values, inputs and effects.

ghost use Rattle.std.specs.Prelude.{◌≡◌, ◌↔◌, IsTrue};

use crate::effect::{Effect, Sending};
use crate::input::Input;
use crate::value::Value;

impl Value {
    /// Whether the two values are equal.
    pub fn same(self, other: Value) -> bool
        ensures { IsTrue result ↔ (self ≡ other) }
    {
        match self {
            Value::Int(left) => match other {
                Value::Int(right) => left == right,
                Value::Bool(_) => false,
            },
            Value::Bool(left) => match other {
                Value::Int(_) => false,
                Value::Bool(right) => left == right,
            },
        }
    }
}

/// Whether the two lists hold equal values.
pub fn same_values(left: &[Value], right: &[Value]) -> bool
    ensures { IsTrue result ↔ (left.now ≡ right.now) }
{
    match (left, right) {
        ([], []) => true,
        ([first, left @ ..], [other, right @ ..]) => {
            first.same(*other) && same_values(left, right)
        }
        _ => false,
    }
}

/// Whether the same variables are set, to equal values.
pub fn same_variables(left: &[Option<Value>], right: &[Option<Value>]) -> bool
    ensures { IsTrue result ↔ (left.now ≡ right.now) }
{
    match (left, right) {
        ([], []) => true,
        ([first, left @ ..], [other, right @ ..]) => {
            same_if_any(*first, *other) && same_variables(left, right)
        }
        _ => false,
    }
}

/// Whether both are none, or both are equal values.
fn same_if_any(left: Option<Value>, right: Option<Value>) -> bool
    ensures { IsTrue result ↔ (left ≡ right) }
{
    match left {
        Some(left) => match right {
            Some(right) => left.same(right),
            None => false,
        },
        None => right.is_none(),
    }
}

impl Input {
    /// Whether the two inputs are equal.
    pub fn same(&self, other: &Input) -> bool
        ensures { IsTrue result ↔ (self.now ≡ other.now) }
    {
        same_variables(self.variables.as_slice(), other.variables.as_slice())
            && same_values(self.parameters.as_slice(), other.parameters.as_slice())
            && self.sender == other.sender
    }
}

impl Sending {
    /// Whether it is the same signal with the same parameters, to the same party.
    pub fn same(&self, other: &Sending) -> bool
        ensures { IsTrue result ↔ (self.now ≡ other.now) }
    {
        self.signal == other.signal
            && self.receiver == other.receiver
            && same_values(self.parameters.as_slice(), other.parameters.as_slice())
    }
}

impl Effect {
    /// Whether the two effects are equal.
    pub fn same(&self, other: &Effect) -> bool
        ensures { IsTrue result ↔ (self.now ≡ other.now) }
    {
        match self {
            Effect::Output(left) => match other {
                Effect::Output(right) => left.same(right),
                _ => false,
            },
            Effect::Set(left, delay) => match other {
                Effect::Set(right, late) => *left == *right && *delay == *late,
                _ => false,
            },
            Effect::Reset(left) => match other {
                Effect::Reset(right) => *left == *right,
                _ => false,
            },
        }
    }
}
