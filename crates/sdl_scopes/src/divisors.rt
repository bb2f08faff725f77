//! The rule on divisions (S9): finds the first divisor that isn't a literal of 1 or more.
ghost use Rattle.std.specs.Prelude.{◌≡◌, map};
ghost use Rattle.std.specs.List.{flat_map};
ghost use Rattle.sdl_ast.specs.Places.{place_of};
ghost use Rattle.sdl_ast.specs.Views.{tree_of, assignment_of, sending_of, action_of};
ghost use Rattle.sdl_tables.specs.Scopes.{Marks};
ghost use Rattle.sdl_sound.specs.Divisors.{divides, is_divisor, bad_divisor, bad_divisors_in, assignment_divisors, sending_divisors, action_divisors};

use sdl_ast::{Action, Assignment, BinaryOperator, Expression, Sending};
use sdl_lex::MAX_NUMBER;
use sdl_tables::earlier;

/// The place of an expression.
pub(crate) fn place(expression: &Expression) -> u32
    ensures { result ≡ place_of (tree_of expression.now) }
{
    match expression {
        Expression::Number { at, .. } => *at,
        Expression::Truth { at, .. } => *at,
        Expression::Variable { at, .. } => *at,
        Expression::Unary { at, .. } => *at,
        Expression::Binary { at, .. } => *at,
    }
}

/// Whether an operator is `/`, MOD or REM.
fn divides(operator: BinaryOperator) -> bool
    ensures { result ≡ divides operator }
{
    match operator {
        BinaryOperator::Divide => true,
        BinaryOperator::Modulo => true,
        BinaryOperator::Remainder => true,
        _ => false,
    }
}

/// Whether an expression is a literal from 1 to 2147483647.
fn is_divisor(expression: &Expression) -> bool
    ensures { result ≡ is_divisor (tree_of expression.now) }
{
    match expression {
        Expression::Number { value, .. } => 0 < *value && *value <= MAX_NUMBER,
        _ => false,
    }
}

/// The place of the right operand, if the operator divides and the operand isn't a literal of 1 or more.
fn bad_divisor(operator: BinaryOperator, right: &Expression) -> Option<u32>
    ensures { Marks result (bad_divisor operator (tree_of right.now)) }
{
    if divides(operator) && !is_divisor(right) {
        Some(place(right))
    } else {
        None
    }
}

/// The place of a divisor in an expression that isn't a literal of 1 or more. (S9, of this profile: no division fails.)
pub fn bad_in(expression: &Expression) -> Option<u32>
    ensures { Marks result (bad_divisors_in (tree_of expression.now)) }
{
    match expression {
        Expression::Number { .. } => None,
        Expression::Truth { .. } => None,
        Expression::Variable { .. } => None,
        Expression::Unary { operand, .. } => bad_in(operand),
        Expression::Binary {
            operator,
            left,
            right,
            ..
        } => {
            let first = bad_in(left);
            let beyond = earlier(bad_in(right), bad_divisor(*operator, right));
            earlier(first, beyond)
        }
    }
}

/// The place of a divisor in assignments that isn't a literal of 1 or more.
fn bad_in_assignments(assignments: &[Assignment]) -> Option<u32>
    ensures { Marks result (flat_map assignment_divisors (map assignment_of assignments.now)) }
{
    let mut place = None;
    for assignment in assignments {
        place = earlier(place, bad_in(&assignment.value));
    }
    place
}

/// The place of a divisor in parameters that isn't a literal of 1 or more.
fn bad_in_parameters(parameters: &[Expression]) -> Option<u32>
    ensures { Marks result (flat_map bad_divisors_in (map tree_of parameters.now)) }
{
    let mut place = None;
    for parameter in parameters {
        place = earlier(place, bad_in(parameter));
    }
    place
}

/// The place of a divisor in sendings that isn't a literal of 1 or more.
fn bad_in_sendings(sendings: &[Sending]) -> Option<u32>
    ensures { Marks result (flat_map sending_divisors (map sending_of sendings.now)) }
{
    let mut place = None;
    for sending in sendings {
        place = earlier(place, bad_in_parameters(&sending.parameters));
    }
    place
}

/// The place of a divisor in an action that isn't a literal of 1 or more. (S9)
pub fn bad_in_action(action: &Action) -> Option<u32>
    ensures { Marks result (action_divisors (action_of action.now)) }
{
    match action {
        Action::Task(task) => bad_in_assignments(&task.assignments),
        Action::Output(output) => bad_in_sendings(&output.sendings),
        Action::Set(set) => bad_in(&set.delay),
        Action::Reset(_) => None,
    }
}
