//! Expressions.
ghost use Rattle.std.specs.Prelude.{◌≡◌, ◌++◌, ◌≤◌, ◌+◌, OnOk};
ghost use Rattle.sdl_ast.specs.Views.{tree_of};
ghost use Rattle.draw_text.specs.Written.{is_loose_number, signed_text, spelled, tree_text, truth_text, sign_text, level_of, left_level, operator_text, opening, closing};

use crate::bytes::{push_bytes, push_integer};
use crate::names::push_name;
use sdl_ast::{BinaryOperator, Expression, UnaryOperator};
use sdl_tables::NameTable;
use std::alloc::{AllocError, Global};

/// How tightly a sign binds.
const SIGNED: u32 = 5;

/// How tightly its operand has to bind.
const OPERAND: u32 = 6;

/// TRUE or FALSE.
pub(crate) fn truth_word(value: bool) -> &'static [u8]
    ensures { result.now ≡ truth_text value }
{
    if value { b"TRUE" } else { b"FALSE" }
}

/// A sign before its operand.
fn sign_word(operator: UnaryOperator) -> &'static [u8]
    ensures { result.now ≡ sign_text operator }
{
    match operator {
        UnaryOperator::Negate => b"-",
        UnaryOperator::Not => b"NOT ",
    }
}

/// How tightly an operator binds, from 0, the loosest.
fn level_of(operator: BinaryOperator) -> u32
    ensures level { result ≡ level_of operator }
    ensures within { result ≤ 4 }
{
    match operator {
        BinaryOperator::Or | BinaryOperator::Xor => 0,
        BinaryOperator::And => 1,
        BinaryOperator::Equal
        | BinaryOperator::NotEqual
        | BinaryOperator::Less
        | BinaryOperator::LessEqual
        | BinaryOperator::Greater
        | BinaryOperator::GreaterEqual => 2,
        BinaryOperator::Add | BinaryOperator::Subtract => 3,
        BinaryOperator::Multiply
        | BinaryOperator::Divide
        | BinaryOperator::Modulo
        | BinaryOperator::Remainder => 4,
    }
}

/// The level that its left operand needs: its own, but a relation is no operand of a relation.
fn left_level(level: u32) -> u32
    ensures { result ≡ left_level level }
{
    if level == 2 { 3 } else { level }
}

/// An operator between its operands, with the spaces around it.
fn operator_word(operator: BinaryOperator) -> &'static [u8]
    ensures { result.now ≡ operator_text operator }
{
    match operator {
        BinaryOperator::Or => b" OR ",
        BinaryOperator::Xor => b" XOR ",
        BinaryOperator::And => b" AND ",
        BinaryOperator::Equal => b" = ",
        BinaryOperator::NotEqual => b" /= ",
        BinaryOperator::Less => b" < ",
        BinaryOperator::LessEqual => b" <= ",
        BinaryOperator::Greater => b" > ",
        BinaryOperator::GreaterEqual => b" >= ",
        BinaryOperator::Add => b" + ",
        BinaryOperator::Subtract => b" - ",
        BinaryOperator::Multiply => b" * ",
        BinaryOperator::Divide => b" / ",
        BinaryOperator::Modulo => b" MOD ",
        BinaryOperator::Remainder => b" REM ",
    }
}

/// An opening parenthesis if one is needed.
fn opening(is_wanted: bool) -> &'static [u8]
    ensures { result.now ≡ opening is_wanted }
{
    if is_wanted { b"(" } else { b"" }
}

/// A closing parenthesis if one is needed.
fn closing(is_wanted: bool) -> &'static [u8]
    ensures { result.now ≡ closing is_wanted }
{
    if is_wanted { b")" } else { b"" }
}

/// Whether a number needs parentheses where an operand has to bind so tightly: one below 0 has a sign.
fn is_loose_number(level: u32, number: i32) -> bool
    ensures { result ≡ is_loose_number level number }
{
    SIGNED < level && number < 0
}

/// Appends a number to `text`, in parentheses if it is below 0 and its sign binds less tightly than `level`.
fn push_signed(alloc: Global, text: &mut Vec<u8>, number: i32, level: u32) -> Result<(), AllocError>
    ensures { OnOk result (text.new.items ≡ text.old.items ++ signed_text level number) }
{
    let is_loose = is_loose_number(level, number);
    push_bytes(text, opening(is_loose))?;
    push_integer(alloc, text, number)?;
    push_bytes(text, closing(is_loose))
}

/// Appends an expression to `text`, in parentheses if its operator binds less tightly than `level` (0 is the loosest).
/// Variables are spelled as they are declared. A number that replaces a synonym may stand for one below 0.
pub fn push_expression(
    alloc: Global,
    text: &mut Vec<u8>,
    variables: &NameTable,
    tree: &Expression,
    level: u32,
) -> Result<(), AllocError>
    ensures { OnOk result (text.new.items ≡ text.old.items ++ tree_text variables.now level (tree_of tree.now)) }
{
    match tree {
        Expression::Number { value, .. } => push_signed(alloc, text, value.cast_signed(), level),
        Expression::Truth { value, .. } => push_bytes(text, truth_word(*value)),
        Expression::Variable { name, .. } => push_name(text, variables, name.name),
        Expression::Unary {
            operator,
            operand,
            ..
        } => {
            let is_loose = SIGNED < level;
            push_bytes(text, opening(is_loose))?;
            push_bytes(text, sign_word(*operator))?;
            push_expression(alloc, text, variables, operand, OPERAND)?;
            push_bytes(text, closing(is_loose))
        }
        Expression::Binary {
            operator,
            left,
            right,
            ..
        } => {
            let own = level_of(*operator);
            let is_loose = own < level;
            push_bytes(text, opening(is_loose))?;
            push_expression(alloc, text, variables, left, left_level(own))?;
            push_bytes(text, operator_word(*operator))?;
            push_expression(alloc, text, variables, right, own + 1)?;
            push_bytes(text, closing(is_loose))
        }
    }
}
