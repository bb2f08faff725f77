//! The values of synonyms, as parts of a text.
ghost use Rattle.std.specs.Prelude.{◌≡◌, []};
ghost use Rattle.sdl_ast.specs.Views.{tree_of};
ghost use Rattle.sdl_sound.specs.Sorts.{same_sort};
ghost use Rattle.sdl_meaning.specs.Valued.{valued};
ghost use Rattle.sdl_rules.specs.Synonyms.{node, literal_of, sort_of_value, signed, used, expanded_constant, synonym_sort, no_value, value_for, value_of_tree};
ghost use Rattle.sdl_rules.specs.Views.{sight_of};

use crate::sight::Sight;
use sdl_ast::{Constant, Expression, Identifier, Literal, Sort};
use sdl_meaning::evaluate;
use sdl_scopes::constant_sort;
use sdl_tables::{NameKey, NameTable};
use std::alloc::Global;
use turn_code::{Value, negated};

/// A value as an operand at a place.
pub(crate) fn node(at: u32, value: Value) -> Expression
    ensures { tree_of result ≡ node at value }
{
    match value {
        Value::Int(number) => Expression::Number {
            at,
            value: number.cast_unsigned(),
        },
        Value::Bool(truth) => Expression::Truth { at, value: truth },
    }
}

/// A value as a constant.
fn literal(value: Value) -> Literal
    ensures { result ≡ literal_of value }
{
    match value {
        Value::Int(number) => Literal::Integer(number),
        Value::Bool(truth) => Literal::Boolean(truth),
    }
}

/// The value, negated if a minus is before the synonym.
fn signed(is_negated: bool, value: Value) -> Value
    ensures { result ≡ signed is_negated value }
{
    if !is_negated {
        return value;
    }
    match value {
        Value::Int(number) => Value::Int(negated(number)),
        Value::Bool(_) => Value::Int(0),
    }
}

/// The value of a synonym in place of a literal; 0 if there is no such synonym.
fn used(sight: &Sight, is_negated: bool, synonym: Identifier) -> Value
    ensures { result ≡ used (sight_of sight.now) is_negated synonym }
{
    let value = sight.value(synonym.name).unwrap_or(Value::Int(0));
    signed(is_negated, value)
}

/// A constant with its value in place of its synonym.
pub(crate) fn expand_constant(sight: &Sight, constant: Constant) -> Constant
    ensures { result ≡ expanded_constant (sight_of sight.now) constant }
{
    let at = constant.at;
    let is_negated = constant.is_negated;
    match constant.synonym {
        None => constant,
        Some(synonym) => Constant {
            at,
            value: literal(used(sight, is_negated, synonym)),
            is_negated: false,
            synonym: None,
        },
    }
}

/// Whether a value is of a sort.
pub(crate) fn is_of_sort(want: Sort, value: Value) -> bool
    ensures { result ≡ same_sort want (sort_of_value value) }
{
    match (want, value) {
        (Sort::Integer, Value::Int(_)) => true,
        (Sort::Boolean, Value::Bool(_)) => true,
        (Sort::Integer, Value::Bool(_)) => false,
        (Sort::Boolean, Value::Int(_)) => false,
    }
}

/// 0 or FALSE.
fn no_value(want: Sort) -> Value
    ensures { result ≡ no_value want }
{
    match want {
        Sort::Integer => Value::Int(0),
        Sort::Boolean => Value::Bool(false),
    }
}

/// A value of this sort, else 0 or FALSE.
fn value_for(want: Sort, value: Option<Value>) -> Value
    ensures { result ≡ value_for want value }
{
    match value {
        Some(value) => {
            if is_of_sort(want, value) {
                value
            } else {
                no_value(want)
            }
        }
        None => no_value(want),
    }
}

/// The written sort, else that of an expression without variables.
fn synonym_sort(written: Option<Sort>, expression: &Expression) -> Sort
    ensures { result ≡ synonym_sort written (tree_of expression.now) }
{
    match written {
        Some(sort) => sort,
        None => constant_sort(expression).unwrap_or(Sort::Integer),
    }
}

/// The value of an expression without variables.
fn evaluate_alone(alloc: Global, key: NameKey, expression: &Expression) -> Option<Value>
    ensures { result ≡ valued [] (tree_of expression.now) [] }
{
    let names = NameTable::new(alloc, key);
    evaluate(&names, &[], expression)
}

/// The value of an expression without variables, of the written sort; 0 or FALSE if it has no value
/// of that sort.
pub(crate) fn value_of(
    alloc: Global,
    key: NameKey,
    written: Option<Sort>,
    expression: &Expression,
) -> Value
    ensures { result ≡ value_of_tree written (tree_of expression.now) }
{
    let value = evaluate_alone(alloc, key, expression);
    value_for(synonym_sort(written, expression), value)
}
