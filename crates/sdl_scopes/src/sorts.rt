//! The sort of an expression. (Z.100: expressions of a sort.)
ghost use Rattle.std.specs.Prelude.{◌≡◌};
ghost use Rattle.sdl_ast.specs.Views.{tree_of, process_of};
ghost use Rattle.sdl_tables.specs.Names.{variables_of};
ghost use Rattle.sdl_sound.specs.Sorts.{same_sort, has_sort, have_one_sort, variable_sort, unary_sort, binary_sort, operand_sort, sort_in, is_truth};

use sdl_ast::{BinaryOperator, Expression, Sort, UnaryOperator};
use sdl_lex::Name;
use sdl_tables::ProcessTable;

/// Whether two sorts are the same.
pub(crate) fn same_sort(one: Sort, other: Sort) -> bool
    ensures { result ≡ same_sort one other }
{
    match (one, other) {
        (Sort::Integer, Sort::Integer) => true,
        (Sort::Boolean, Sort::Boolean) => true,
        _ => false,
    }
}

/// Whether there is a sort, and it is the expected one.
pub(crate) fn has_sort(want: Sort, found: Option<Sort>) -> bool
    ensures { result ≡ has_sort want found }
{
    match found {
        None => false,
        Some(found) => same_sort(want, found),
    }
}

/// Whether there are two sorts, and they are the same.
pub(crate) fn have_one_sort(one: Option<Sort>, other: Option<Sort>) -> bool
    ensures { result ≡ have_one_sort one other }
{
    match one {
        None => false,
        Some(want) => has_sort(want, other),
    }
}

/// The sort of the variable with a name, if it is declared.
pub(crate) fn variable_sort(process: &ProcessTable, name: Name) -> Option<Sort>
    ensures { result ≡ variable_sort (variables_of (process_of process.now)) name }
{
    let rows = process.rows();
    match process.variables().number(name) {
        None => None,
        Some(number) => {
            if number < rows.len() {
                Some(rows[number].sort)
            } else {
                None
            }
        }
    }
}

/// The sort of the operand and of the result of a unary operator.
pub(crate) fn unary_sort(operator: UnaryOperator) -> Sort
    ensures { result ≡ unary_sort operator }
{
    match operator {
        UnaryOperator::Negate => Sort::Integer,
        UnaryOperator::Not => Sort::Boolean,
    }
}

/// The sort of the result of a binary operator.
pub(crate) fn binary_sort(operator: BinaryOperator) -> Sort
    ensures { result ≡ binary_sort operator }
{
    match operator {
        BinaryOperator::Add => Sort::Integer,
        BinaryOperator::Subtract => Sort::Integer,
        BinaryOperator::Multiply => Sort::Integer,
        BinaryOperator::Divide => Sort::Integer,
        BinaryOperator::Modulo => Sort::Integer,
        BinaryOperator::Remainder => Sort::Integer,
        _ => Sort::Boolean,
    }
}

/// The expected sort of both operands, given the sort of the left one.
pub(crate) fn operand_sort(operator: BinaryOperator, left: Option<Sort>) -> Option<Sort>
    ensures { result ≡ operand_sort operator left }
{
    match operator {
        BinaryOperator::Equal => left,
        BinaryOperator::NotEqual => left,
        BinaryOperator::Or => Some(Sort::Boolean),
        BinaryOperator::Xor => Some(Sort::Boolean),
        BinaryOperator::And => Some(Sort::Boolean),
        _ => Some(Sort::Integer),
    }
}

/// The sort of an expression, determined by its operator or the declaration of its variable; `None` if undeclared.
pub fn sort_in(process: &ProcessTable, expression: &Expression) -> Option<Sort>
    ensures { result ≡ sort_in (variables_of (process_of process.now)) (tree_of expression.now) }
{
    match expression {
        Expression::Number { .. } => Some(Sort::Integer),
        Expression::Truth { .. } => Some(Sort::Boolean),
        Expression::Variable { name, .. } => variable_sort(process, name.name),
        Expression::Unary { operator, .. } => Some(unary_sort(*operator)),
        Expression::Binary { operator, .. } => Some(binary_sort(*operator)),
    }
}

/// Whether a question is Boolean.
pub fn is_truth(process: &ProcessTable, question: &Expression) -> bool
    ensures { result ≡ is_truth (variables_of (process_of process.now)) (tree_of question.now) }
{
    has_sort(Sort::Boolean, sort_in(process, question))
}
