//! Why an operand of an expression has the wrong sort (S3).
use crate::sorts::Cause;
use sdl_scopes::sort_in;
use sdl_tables::ProcessTable;
use sdl_tree::{BinaryOperator, Expression, Sort, UnaryOperator};

/// Tells the sorts of expressions.
pub(crate) trait Sorted {
    /// The sort of an expression.
    fn sort_of(&self, expression: &Expression) -> Option<Sort>;
}

impl Sorted for ProcessTable<'_> {
    fn sort_of(&self, expression: &Expression) -> Option<Sort> {
        sort_in(self, expression)
    }
}

/// The side of an operator on which an operand stands.
#[derive(Clone, Copy)]
pub(crate) enum Side {
    Behind(UnaryOperator),
    Left(BinaryOperator),
    Right(BinaryOperator),
}

/// Where an expression begins.
pub(crate) fn place(expression: &Expression) -> u32 {
    match expression {
        Expression::Number { at, .. } => *at,
        Expression::Truth { at, .. } => *at,
        Expression::Variable { at, .. } => *at,
        Expression::Unary { at, .. } => *at,
        Expression::Binary { at, .. } => *at,
    }
}

/// The sort that both operands must have: for `=` and `/=` that of the left one.
fn operand_sort(operator: BinaryOperator, left: Option<Sort>) -> Option<Sort> {
    match operator {
        BinaryOperator::Equal | BinaryOperator::NotEqual => left,
        BinaryOperator::Or | BinaryOperator::Xor | BinaryOperator::And => Some(Sort::Boolean),
        _ => Some(Sort::Integer),
    }
}

/// Whether an expression begins with NOT.
fn is_denied(operand: &Expression) -> bool {
    match operand {
        Expression::Unary { operator, .. } => *operator == UnaryOperator::Not,
        _ => false,
    }
}

/// Why an operand that begins at a place is wrong, if it has another sort than the required one.
fn operand_cause<S: Sorted>(
    sorts: &S,
    side: Side,
    want: Option<Sort>,
    operand: &Expression,
    at: u32,
) -> Option<Cause> {
    let found = sorts.sort_of(operand);
    if place(operand) != at || found == want {
        return None;
    }
    Some(Cause::Operand {
        side,
        want,
        found,
        is_denied: is_denied(operand),
    })
}

/// The first of two causes, if there is one, else the second.
pub(crate) fn first_of(one: Option<Cause>, other: Option<Cause>) -> Option<Cause> {
    match one {
        Some(cause) => Some(cause),
        None => other,
    }
}

/// Why the operand that begins at a place of an expression is wrong; of several operands the outermost.
pub(crate) fn in_expression<S: Sorted>(
    sorts: &S,
    expression: &Expression,
    at: u32,
) -> Option<Cause> {
    match expression {
        Expression::Number { .. } => None,
        Expression::Truth { .. } => None,
        Expression::Variable { .. } => None,
        Expression::Unary {
            operator,
            operand,
            ..
        } => {
            let own = unary_cause(sorts, *operator, operand, at);
            let inside = in_expression(sorts, operand, at);
            first_of(own, inside)
        }
        Expression::Binary {
            operator,
            left,
            right,
            ..
        } => {
            let own = binary_cause(sorts, *operator, left, right, at);
            let in_left = in_expression(sorts, left, at);
            let in_right = in_expression(sorts, right, at);
            first_of(own, first_of(in_left, in_right))
        }
    }
}

/// Why the operand of a unary operator is wrong, if it begins at the place.
fn unary_cause<S: Sorted>(
    sorts: &S,
    operator: UnaryOperator,
    operand: &Expression,
    at: u32,
) -> Option<Cause> {
    let want = match operator {
        UnaryOperator::Negate => Sort::Integer,
        UnaryOperator::Not => Sort::Boolean,
    };
    operand_cause(sorts, Side::Behind(operator), Some(want), operand, at)
}

/// Why one of two operands is wrong, if it begins at the place.
fn binary_cause<S: Sorted>(
    sorts: &S,
    operator: BinaryOperator,
    left: &Expression,
    right: &Expression,
    at: u32,
) -> Option<Cause> {
    let want = operand_sort(operator, sorts.sort_of(left));
    first_of(
        operand_cause(sorts, Side::Left(operator), want, left, at),
        operand_cause(sorts, Side::Right(operator), want, right, at),
    )
}
