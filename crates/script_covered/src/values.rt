//! The answers of a text that apply to a value.
ghost use Rattle.std.specs.Prelude.{◌≡◌, unwrap_or, false};
ghost use Rattle.sdl_meaning.specs.Act.{relation_of, integer_in, compared, between, is_literal, covers_integer, covers_truth};
ghost use Rattle.script_covered.specs.Ways.{has_value, is_for};

use sdl_ast::{Literal, Range, Relation};
use turn_code::{Connective, Relation as Standing, Value};

/// The relation that an answer states.
fn relation_of(relation: Relation) -> Standing
    ensures { result ≡ relation_of relation }
{
    match relation {
        Relation::Equal => Standing::Equal,
        Relation::NotEqual => Standing::NotEqual,
        Relation::Less => Standing::Less,
        Relation::LessEqual => Standing::LessEqual,
        Relation::Greater => Standing::Greater,
        Relation::GreaterEqual => Standing::GreaterEqual,
    }
}

/// The Integer of a constant, if it is one.
fn integer_in(literal: Literal) -> Option<i32>
    ensures { result ≡ integer_in literal }
{
    match literal {
        Literal::Integer(number) => Some(number),
        Literal::Boolean(_) => None,
    }
}

/// Whether a number has this relation to a constant.
fn stands(relation: Standing, number: i32, bound: Option<i32>) -> bool
    ensures { result ≡ unwrap_or (compared relation number bound) false }
{
    match bound {
        Some(bound) => relation.holds(number, bound),
        None => false,
    }
}

/// Whether a number is between two constants, both included.
fn lies(number: i32, low: Option<i32>, high: Option<i32>) -> bool
    ensures { result ≡ unwrap_or (between number low high) false }
{
    match low {
        Some(low) => match high {
            Some(high) => {
                Standing::LessEqual.holds(low, number) && Standing::LessEqual.holds(number, high)
            }
            None => false,
        },
        None => false,
    }
}

/// Whether a range contains a number.
fn has_number(range: &Range, number: i32) -> bool
    ensures { result ≡ unwrap_or (covers_integer range.now number) false }
{
    match range {
        Range::Value(constant) => stands(Standing::Equal, number, integer_in(constant.value)),
        Range::Compared {
            relation,
            constant,
            ..
        } => stands(relation_of(*relation), number, integer_in(constant.value)),
        Range::Between(low, high) => { lies(number, integer_in(low.value), integer_in(high.value)) }
    }
}

/// Whether a constant is this truth value.
fn is_truth(literal: Literal, truth: bool) -> bool
    ensures { result ≡ unwrap_or (is_literal literal truth) false }
{
    match literal {
        Literal::Integer(_) => false,
        Literal::Boolean(value) => Connective::Same.apply(value, truth),
    }
}

/// Whether a range contains a truth value.
fn has_truth(range: &Range, truth: bool) -> bool
    ensures { result ≡ unwrap_or (covers_truth range.now truth) false }
{
    match range {
        Range::Value(constant) => is_truth(constant.value, truth),
        Range::Compared { .. } => false,
        Range::Between(_, _) => false,
    }
}

/// Whether a range contains a value.
fn has(range: &Range, value: Value) -> bool
    ensures { result ≡ has_value value range.now }
{
    match value {
        Value::Int(number) => has_number(range, number),
        Value::Bool(truth) => has_truth(range, truth),
    }
}

/// Whether an answer with these ranges applies to a value.
pub(crate) fn answers(ranges: &[Range], value: Value) -> bool
    ensures { result ≡ is_for ranges.now value }
{
    ranges.iter().any(|range| has(range, value))
}
