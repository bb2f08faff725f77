//! The values of expressions, if variables have these values.
ghost use Rattle.std.specs.Prelude.{◌≡◌, ◌≤ℤ◌, pos, false};
ghost use Rattle.sdl_ast.specs.Views.{tree_of};
ghost use Rattle.sdl_tables.specs.Names.{number_of};
ghost use Rattle.sdl_sound.specs.Longest.{is_division};
ghost use Rattle.sdl_meaning.specs.Act.{divisor_of, quotient};
ghost use Rattle.sdl_meaning.specs.Valued.{made_of_one, made_of_two, quotient_of, held, valued};
ghost use Rattle.turn_code.specs.Values.{wrap};
ghost use Rattle.turn_code.specs.declared.value.Value.TheVariants.{Int, Bool as Truth};

use sdl_ast::{BinaryOperator, Expression, Identifier, UnaryOperator};
use sdl_sound::is_division;
use sdl_tables::NameTable;
use turn_code::{Connective, Division, Operation, Relation as Standing, Value, negated};

/// The result of an operator on a value; none if the value has another sort.
fn unary(operator: UnaryOperator, value: Value) -> Option<Value>
    ensures { result ≡ made_of_one operator value }
{
    match operator {
        UnaryOperator::Negate => match value {
            Value::Int(number) => Some(Value::Int(negated(number))),
            Value::Bool(_) => None,
        },
        UnaryOperator::Not => match value {
            Value::Int(_) => None,
            Value::Bool(truth) => Some(Value::Bool(!truth)),
        },
    }
}

/// The Integer of a number in a text.
fn integer(value: u32) -> i32
    ensures { result ≡ wrap (pos value) }
{
    value.cast_signed()
}

/// The number to the right of a division; 0 for any other expression.
fn divisor(expression: &Expression) -> i32
    ensures { result ≡ divisor_of (tree_of expression.now) }
{
    match expression {
        Expression::Number { value, .. } => integer(*value),
        Expression::Truth { .. } => 0,
        Expression::Variable { .. } => 0,
        Expression::Unary { .. } => 0,
        Expression::Binary { .. } => 0,
    }
}

/// The result of a division of a number by a divisor.
fn quotient(operator: BinaryOperator, number: i32, divisor: i32) -> i32
    requires { pos 1 ≤ℤ divisor }
    ensures { result ≡ quotient operator number divisor }
{
    match operator {
        BinaryOperator::Divide => Division::Quotient.apply(number, divisor),
        BinaryOperator::Modulo => Division::Modulo.apply(number, divisor),
        _ => Division::Remainder.apply(number, divisor),
    }
}

/// The result of a division of a value; none if that is no number, or the divisor isn't 1 or more.
fn divided(operator: BinaryOperator, left: Value, right: &Expression) -> Option<Value>
    ensures { result ≡ quotient_of operator (tree_of right.now) left }
{
    let divisor = divisor(right);
    match left {
        Value::Int(number) => {
            if 0 < divisor {
                Some(Value::Int(quotient(operator, number, divisor)))
            } else {
                None
            }
        }
        Value::Bool(_) => None,
    }
}

/// The result of an operator other than a division on two numbers; none if it requires Booleans.
fn on_numbers(operator: BinaryOperator, left: i32, right: i32) -> Option<Value>
    ensures { is_division operator ≡ false → result ≡ made_of_two operator (Int left) (Int right) }
{
    match operator {
        BinaryOperator::Or => None,
        BinaryOperator::Xor => None,
        BinaryOperator::And => None,
        BinaryOperator::Equal => Some(Value::Bool(Standing::Equal.holds(left, right))),
        BinaryOperator::NotEqual => Some(Value::Bool(Standing::NotEqual.holds(left, right))),
        BinaryOperator::Less => Some(Value::Bool(Standing::Less.holds(left, right))),
        BinaryOperator::LessEqual => Some(Value::Bool(Standing::LessEqual.holds(left, right))),
        BinaryOperator::Greater => Some(Value::Bool(Standing::Greater.holds(left, right))),
        BinaryOperator::GreaterEqual => {
            Some(Value::Bool(Standing::GreaterEqual.holds(left, right)))
        }
        BinaryOperator::Add => Some(Value::Int(Operation::Add.apply(left, right))),
        BinaryOperator::Subtract => Some(Value::Int(Operation::Subtract.apply(left, right))),
        BinaryOperator::Multiply => Some(Value::Int(Operation::Multiply.apply(left, right))),
        BinaryOperator::Divide => None,
        BinaryOperator::Modulo => None,
        BinaryOperator::Remainder => None,
    }
}

/// The result of an operator on two Booleans; none if it requires numbers.
fn on_truths(operator: BinaryOperator, left: bool, right: bool) -> Option<Value>
    ensures { result ≡ made_of_two operator (Truth left) (Truth right) }
{
    match operator {
        BinaryOperator::Or => Some(Value::Bool(Connective::Or.apply(left, right))),
        BinaryOperator::Xor => Some(Value::Bool(Connective::Xor.apply(left, right))),
        BinaryOperator::And => Some(Value::Bool(Connective::And.apply(left, right))),
        BinaryOperator::Equal => Some(Value::Bool(Connective::Same.apply(left, right))),
        BinaryOperator::NotEqual => Some(Value::Bool(Connective::Xor.apply(left, right))),
        BinaryOperator::Less => None,
        BinaryOperator::LessEqual => None,
        BinaryOperator::Greater => None,
        BinaryOperator::GreaterEqual => None,
        BinaryOperator::Add => None,
        BinaryOperator::Subtract => None,
        BinaryOperator::Multiply => None,
        BinaryOperator::Divide => None,
        BinaryOperator::Modulo => None,
        BinaryOperator::Remainder => None,
    }
}

/// The result of an operator other than a division on two values; none if these have other sorts.
fn binary(operator: BinaryOperator, left: Value, right: Value) -> Option<Value>
    ensures { is_division operator ≡ false → result ≡ made_of_two operator left right }
{
    match left {
        Value::Int(one) => match right {
            Value::Int(other) => on_numbers(operator, one, other),
            Value::Bool(_) => None,
        },
        Value::Bool(one) => match right {
            Value::Int(_) => None,
            Value::Bool(other) => on_truths(operator, one, other),
        },
    }
}

/// The value of a variable, if it is set.
fn held(names: &NameTable, values: &[Option<Value>], name: &Identifier) -> Option<Value>
    ensures { result ≡ held (number_of names.now name.now.name) values.now }
{
    match names.number(name.name) {
        Some(number) => match values.get(number) {
            Some(value) => *value,
            None => None,
        },
        None => None,
    }
}

/// The value of an expression, if variables with these names have these values.
pub fn evaluate(
    names: &NameTable,
    values: &[Option<Value>],
    expression: &Expression,
) -> Option<Value>
    ensures { result ≡ valued names.now (tree_of expression.now) values.now }
{
    match expression {
        Expression::Number { value, .. } => Some(Value::Int(integer(*value))),
        Expression::Truth { value, .. } => Some(Value::Bool(*value)),
        Expression::Variable { name, .. } => held(names, values, name),
        Expression::Unary {
            operator,
            operand,
            ..
        } => {
            let value = evaluate(names, values, operand)?;
            unary(*operator, value)
        }
        Expression::Binary {
            operator,
            left,
            right,
            ..
        } => {
            let one = evaluate(names, values, left)?;
            if is_division(*operator) {
                return divided(*operator, one, right);
            }
            let other = evaluate(names, values, right)?;
            binary(*operator, one, other)
        }
    }
}
