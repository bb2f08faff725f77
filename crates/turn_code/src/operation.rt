//! The operations on Integers and on Booleans.

ghost use Rattle.std.specs.Prelude.{◌≡◌, ◌≤◌, neg_ℤ};
ghost use Rattle.turn_code.specs.Values.{wrap, holds};
ghost use Rattle.turn_code.specs.Operation.{meaning_of, truth_of};

use crate::instruction::Relation;

/// An operation on two Integers; the result wraps to 32 bits.
#[derive(Clone, Copy)]
pub enum Operation {
    /// The sum.
    Add,
    /// The difference: the right number is subtracted from the left.
    Subtract,
    /// The product.
    Multiply,
}

/// An operation on two Booleans.
#[derive(Clone, Copy)]
pub enum Connective {
    /// Whether both are TRUE.
    And,
    /// Whether at least one is TRUE.
    Or,
    /// Whether they differ.
    Xor,
    /// Whether they are equal.
    Same,
}

impl Operation {
    /// The result of the operation.
    pub fn apply(self, left: i32, right: i32) -> i32
        ensures { result ≡ wrap (meaning_of self left right) }
    {
        match self {
            Operation::Add => left.wrapping_add(right),
            Operation::Subtract => left.wrapping_sub(right),
            Operation::Multiply => left.wrapping_mul(right),
        }
    }
}

impl Connective {
    /// The result of the connective.
    pub fn apply(self, left: bool, right: bool) -> bool
        ensures { result ≡ truth_of self left right }
    {
        match self {
            Connective::And => left && right,
            Connective::Or => left || right,
            Connective::Xor => left != right,
            Connective::Same => left == right,
        }
    }
}

impl Relation {
    /// Whether the left number is in this relation to the right one.
    pub fn holds(self, left: i32, right: i32) -> bool
        ensures { result ≡ holds self left right }
    {
        match self {
            Relation::Equal => left == right,
            Relation::NotEqual => left != right,
            Relation::Less => left < right,
            Relation::LessEqual => left <= right,
            Relation::Greater => left > right,
            Relation::GreaterEqual => left >= right,
        }
    }
}

/// The negated number, wrapped to 32 bits.
pub fn negated(number: i32) -> i32
    ensures { result ≡ wrap (neg_ℤ number) }
{
    number.wrapping_neg()
}
