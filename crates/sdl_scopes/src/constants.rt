//! The rule on sorts in expressions without variables; a name in one has no sort.
ghost use Rattle.std.specs.Prelude.{◌≡◌, []};
ghost use Rattle.sdl_ast.specs.Views.{tree_of};
ghost use Rattle.sdl_tables.specs.Scopes.{Marks};
ghost use Rattle.sdl_sound.specs.Sorts.{misfit, wrong_operands, wrong_in, sort_in};

use crate::divisors::place;
use crate::sorts::{binary_sort, have_one_sort, operand_sort, unary_sort};
use sdl_ast::{BinaryOperator, Expression, Sort};
use sdl_tables::earlier;

/// The sort of an expression without variables, which its operator determines.
pub fn constant_sort(expression: &Expression) -> Option<Sort>
    ensures { result ≡ sort_in [] (tree_of expression.now) }
{
    match expression {
        Expression::Number { .. } => Some(Sort::Integer),
        Expression::Truth { .. } => Some(Sort::Boolean),
        Expression::Variable { .. } => None,
        Expression::Unary { operator, .. } => Some(unary_sort(*operator)),
        Expression::Binary { operator, .. } => Some(binary_sort(*operator)),
    }
}

/// The place of an expression without variables that has another sort.
pub fn constant_misfit(want: Option<Sort>, expression: &Expression) -> Option<u32>
    ensures { Marks result (misfit [] want (tree_of expression.now)) }
{
    if have_one_sort(want, constant_sort(expression)) {
        None
    } else {
        Some(place(expression))
    }
}

/// The place of an operand that has another sort than its operator requires.
fn wrong_operands(operator: BinaryOperator, left: &Expression, right: &Expression) -> Option<u32>
    ensures { Marks result (wrong_operands [] operator (tree_of left.now) (tree_of right.now)) }
{
    let want = operand_sort(operator, constant_sort(left));
    let first = constant_misfit(want, left);
    earlier(first, constant_misfit(want, right))
}

/// The place of a wrong operand in an expression without variables. (S3; Z.100: constant expressions.)
pub fn wrong_in_constant(expression: &Expression) -> Option<u32>
    ensures { Marks result (wrong_in [] (tree_of expression.now)) }
{
    match expression {
        Expression::Number { .. } => None,
        Expression::Truth { .. } => None,
        Expression::Variable { .. } => None,
        Expression::Unary {
            operator,
            operand,
            ..
        } => {
            let inside = wrong_in_constant(operand);
            earlier(
                inside,
                constant_misfit(Some(unary_sort(*operator)), operand),
            )
        }
        Expression::Binary {
            operator,
            left,
            right,
            ..
        } => {
            let first = wrong_in_constant(left);
            let second = wrong_in_constant(right);
            let beyond = earlier(second, wrong_operands(*operator, left, right));
            earlier(first, beyond)
        }
    }
}
