//! The operands of a run.

ghost use Rattle.std.specs.Prelude.{◌≡◌, ◌<◌, ◌≤◌, ◌==◌, [], ◌∷◌, length, take, drop, reverse, IfSome, IfNone, IfOk, IfErr, OnErr};
ghost use Rattle.turn_code.specs.declared.value.Value.TheVariants.{Int as IntValue, Bool as BoolValue};
ghost use Rattle.turn_code.specs.Taken.{TroubleAtOne, TroubleAtTwo, TroubleAtBoolean, TroubleAtBooleans};
ghost use Rattle.plain_laws.specs.Limits.{MOST_OPERANDS, MOST_PARAMETERS};

use crate::trouble::Trouble;
use crate::value::Value;
use arrayvec::ArrayVec;
use std::marker::Model;

/// At most 16 values; contracts see them as a list with the topmost first.
#[derive(Drop)]
pub struct Operands {
    values: ArrayVec<Value, 16>,
}

impl Model for Operands {
    ghost use Rattle.std.specs.Prelude.{◌≤◌, List, length, reverse};
    ghost use Rattle.turn_code.specs.declared.value.Value.{Value as Item};
    ghost use Rattle.plain_laws.specs.Limits.{MOST_OPERANDS};

    ghost Value = { List Item };

    ghost view = { λ o. reverse o.values.items };

    ghost invariant = { λ o. length o.values.items ≤ MOST_OPERANDS };
}

impl Operands {
    /// An empty list of operands.
    pub fn new() -> Self
        ensures { result ≡ [] }
    {
        Operands {
            values: ArrayVec::new(),
        }
    }

    /// The number of operands.
    pub fn len(&self) -> usize
        ensures value { result ≡ length self.now }
        ensures fits { result ≤ MOST_OPERANDS }
    {
        self.values.len()
    }

    /// Whether there is no operand.
    pub fn is_empty(&self) -> bool
        ensures { result ≡ (length self.now == 0) }
    {
        self.values.is_empty()
    }

    /// Puts a value on top; there must be room for it.
    pub fn push(&mut self, value: Value)
        requires { length self.old < MOST_OPERANDS }
        ensures { self.new ≡ value ∷ self.old }
    {
        self.values.push(value);
    }

    /// Takes the topmost value, if there is one.
    pub fn pop(&mut self) -> Option<Value>
        ensures some { IfSome result (λ x. self.old ≡ x ∷ self.new) }
        ensures room { IfSome result (λ x. length self.new < MOST_OPERANDS) }
        ensures none { IfNone result (self.old ≡ []) }
        ensures unchanged { IfNone result (self.new ≡ []) }
    {
        self.values.pop()
    }

    /// Takes the topmost value if it is an Integer; otherwise leaves all.
    pub fn pop_integer(&mut self) -> Result<i32, Trouble>
        ensures ok { IfOk result (λ x. self.old ≡ IntValue x ∷ self.new) }
        ensures room { IfOk result (λ x. length self.new < MOST_OPERANDS) }
        ensures trouble { IfErr result (λ e. TroubleAtOne self.old e) }
        ensures unchanged { OnErr result (self.new ≡ self.old) }
    {
        match self.pop() {
            None => Err(Trouble::Underflow),
            Some(Value::Int(number)) => Ok(number),
            Some(other) => {
                self.push(other);
                Err(Trouble::WrongSort)
            }
        }
    }

    /// Takes the two topmost values, the topmost as the second, if both are Integers; otherwise leaves all.
    pub fn pop_integers(&mut self) -> Result<(i32, i32), Trouble>
        ensures ok { IfOk result (λ p. self.old ≡ IntValue p.1 ∷ IntValue p.0 ∷ self.new) }
        ensures room { IfOk result (λ p. length self.new < MOST_OPERANDS) }
        ensures trouble { IfErr result (λ e. TroubleAtTwo self.old e) }
        ensures unchanged { OnErr result (self.new ≡ self.old) }
    {
        let Some(right) = self.pop() else {
            return Err(Trouble::Underflow);
        };
        let Some(left) = self.pop() else {
            self.push(right);
            return Err(Trouble::Underflow);
        };
        match (left, right) {
            (Value::Int(left), Value::Int(right)) => Ok((left, right)),
            _ => {
                self.push(left);
                self.push(right);
                Err(Trouble::WrongSort)
            }
        }
    }

    /// Takes the topmost value if it is a Boolean; otherwise leaves all.
    pub fn pop_boolean(&mut self) -> Result<bool, Trouble>
        ensures ok { IfOk result (λ x. self.old ≡ BoolValue x ∷ self.new) }
        ensures room { IfOk result (λ x. length self.new < MOST_OPERANDS) }
        ensures trouble { IfErr result (λ e. TroubleAtBoolean self.old e) }
        ensures unchanged { OnErr result (self.new ≡ self.old) }
    {
        match self.pop() {
            None => Err(Trouble::Underflow),
            Some(Value::Bool(truth)) => Ok(truth),
            Some(other) => {
                self.push(other);
                Err(Trouble::WrongSort)
            }
        }
    }

    /// Takes the two topmost values, the topmost as the second, if both are Booleans; otherwise leaves all.
    pub fn pop_booleans(&mut self) -> Result<(bool, bool), Trouble>
        ensures ok { IfOk result (λ p. self.old ≡ BoolValue p.1 ∷ BoolValue p.0 ∷ self.new) }
        ensures room { IfOk result (λ p. length self.new < MOST_OPERANDS) }
        ensures trouble { IfErr result (λ e. TroubleAtBooleans self.old e) }
        ensures unchanged { OnErr result (self.new ≡ self.old) }
    {
        let Some(right) = self.pop() else {
            return Err(Trouble::Underflow);
        };
        let Some(left) = self.pop() else {
            self.push(right);
            return Err(Trouble::Underflow);
        };
        match (left, right) {
            (Value::Bool(left), Value::Bool(right)) => Ok((left, right)),
            _ => {
                self.push(left);
                self.push(right);
                Err(Trouble::WrongSort)
            }
        }
    }

    /// Takes `count` values, at most 4, which must be there, as a list with the topmost last.
    pub fn pop_parameters(&mut self, count: usize) -> ArrayVec<Value, 4>
        requires few { count ≤ MOST_PARAMETERS }
        requires there { count ≤ length self.old }
        ensures value { result.items ≡ reverse (take count self.old) }
        ensures rest { self.new ≡ drop count self.old }
    {
        let left = self.values.len() - count;
        match ArrayVec::try_from(&self.values.as_slice()[left..]) {
            Ok(parameters) => {
                self.values.truncate(left);
                parameters
            }
            Err(_) => unreachable!(),
        }
    }
}
