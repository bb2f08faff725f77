//! How many instructions, operands and effects expressions and actions have, each up to 4,294,967,295.
ghost use Rattle.std.specs.Prelude.{◌≡◌, ℕ, map, length, sum_by};
ghost use Rattle.sdl_ast.specs.Views.{tree_of, assignment_of, sending_of, action_of};
ghost use Rattle.sdl_sound.specs.Longest.{is_division, cost_of, depth_of, assignments_cost, assignments_depth, parameters_depth, sendings_cost, sendings_depth, action_cost, action_depth, action_effects, place_cost, place_depth, places_cost, places_depth};
ghost use Rattle.sdl_measures.specs.Measures.{capped};

use sdl_ast::{Action, Assignment, Expression, Identifier, Sending};
use sdl_sound::is_division;

/// How many instructions an expression has: 1 for each number, truth value, variable and operator, none for a divisor.
pub(crate) fn cost(expression: &Expression) -> u32
    ensures { result ≡ capped (cost_of (tree_of expression.now)) }
{
    match expression {
        Expression::Number { .. } => 1,
        Expression::Truth { .. } => 1,
        Expression::Variable { .. } => 1,
        Expression::Unary { operand, .. } => cost(operand).saturating_add(1),
        Expression::Binary {
            operator,
            left,
            right,
            ..
        } => {
            let second = if is_division(*operator) {
                0
            } else {
                cost(right)
            };
            cost(left).saturating_add(second).saturating_add(1)
        }
    }
}

/// The most operands that an expression needs at once. The left operand waits for the right one; a divisor counts 0.
pub(crate) fn depth(expression: &Expression) -> u32
    ensures { result ≡ capped (depth_of (tree_of expression.now)) }
{
    match expression {
        Expression::Number { .. } => 1,
        Expression::Truth { .. } => 1,
        Expression::Variable { .. } => 1,
        Expression::Unary { operand, .. } => depth(operand),
        Expression::Binary {
            operator,
            left,
            right,
            ..
        } => {
            let second = if is_division(*operator) {
                0
            } else {
                depth(right).saturating_add(1)
            };
            depth(left).max(second)
        }
    }
}

/// How many instructions assignments have: those of each value, and 1 to store it.
fn assignments_cost(assignments: &[Assignment]) -> u32
    ensures { result ≡ capped (assignments_cost (map assignment_of assignments.now)) }
{
    let mut total: u32 = 0;
    for assignment in assignments {
        total = total.saturating_add(cost(&assignment.value).saturating_add(1));
    }
    total
}

/// The most operands that the values of assignments have at once.
fn assignments_depth(assignments: &[Assignment]) -> u32
    ensures { result ≡ capped (assignments_depth (map assignment_of assignments.now)) }
{
    let mut most: u32 = 0;
    for assignment in assignments {
        most = most.max(depth(&assignment.value));
    }
    most
}

/// How many instructions parameters have together.
fn parameters_cost(parameters: &[Expression]) -> u32
    ensures { result ≡ capped (sum_by cost_of (map tree_of parameters.now)) }
{
    let mut total: u32 = 0;
    for parameter in parameters {
        total = total.saturating_add(cost(parameter));
    }
    total
}

/// The most operands that a list of parameters needs at once. While one is computed, those before it wait.
fn parameters_depth(parameters: &[Expression]) -> u32
    ensures { result ≡ capped (parameters_depth 0 (map tree_of parameters.now)) }
{
    let mut most: u32 = 0;
    let mut waiting: u32 = 0;
    for parameter in parameters {
        most = most.max(depth(parameter).saturating_add(waiting));
        waiting = waiting.saturating_add(1);
    }
    most
}

/// How many instructions sendings have: those of the parameters, and 1 to send each signal.
fn sendings_cost(sendings: &[Sending]) -> u32
    ensures { result ≡ capped (sendings_cost (map sending_of sendings.now)) }
{
    let mut total: u32 = 0;
    for sending in sendings {
        total = total.saturating_add(parameters_cost(&sending.parameters).saturating_add(1));
    }
    total
}

/// The most operands that sendings have at once.
fn sendings_depth(sendings: &[Sending]) -> u32
    ensures { result ≡ capped (sendings_depth (map sending_of sendings.now)) }
{
    let mut most: u32 = 0;
    for sending in sendings {
        most = most.max(parameters_depth(&sending.parameters));
    }
    most
}

/// How many instructions an action has: for SET those of the delay and 1 more, for RESET 1.
pub(crate) fn action_cost(action: &Action) -> u32
    ensures { result ≡ capped (action_cost (action_of action.now)) }
{
    match action {
        Action::Task(task) => assignments_cost(&task.assignments),
        Action::Output(output) => sendings_cost(&output.sendings),
        Action::Set(set) => cost(&set.delay).saturating_add(1),
        Action::Reset(_) => 1,
    }
}

/// The most operands that an action has at once: RESET has none.
pub(crate) fn action_depth(action: &Action) -> u32
    ensures { result ≡ capped (action_depth (action_of action.now)) }
{
    match action {
        Action::Task(task) => assignments_depth(&task.assignments),
        Action::Output(output) => sendings_depth(&output.sendings),
        Action::Set(set) => depth(&set.delay),
        Action::Reset(_) => 0,
    }
}

/// How many effects sendings have: 1 each.
fn sendings_effects(sendings: &[Sending]) -> u32
    ensures { result ≡ capped (length (map sending_of sendings.now)) }
{
    let mut total: u32 = 0;
    for _sending in sendings {
        total = total.saturating_add(1);
    }
    total
}

/// How many effects an action has: 1 for each signal that it sends, 1 for SET and for RESET, none for TASK.
pub(crate) fn action_effects(action: &Action) -> u32
    ensures { result ≡ capped (action_effects (action_of action.now)) }
{
    match action {
        Action::Task(_) => 0,
        Action::Output(output) => sendings_effects(&output.sendings),
        Action::Set(_) => 1,
        Action::Reset(_) => 1,
    }
}

/// How many instructions a place of an INPUT has: 2 if it names a variable to store the parameter in, else 0.
fn place_cost(place: Option<Identifier>) -> u32
    ensures { result ≡ place_cost place }
{
    match place {
        None => 0,
        Some(_) => 2,
    }
}

/// How many operands a place of an INPUT needs at once: 1 if it names a variable, else 0.
fn place_depth(place: Option<Identifier>) -> u32
    ensures { result ≡ place_depth place }
{
    match place {
        None => 0,
        Some(_) => 1,
    }
}

/// How many instructions the places of an INPUT have: 2 for each that names a variable.
pub(crate) fn places_cost(places: &[Option<Identifier>]) -> u32
    ensures { result ≡ capped (places_cost places.now) }
{
    let mut total: u32 = 0;
    for place in places {
        total = total.saturating_add(place_cost(*place));
    }
    total
}

/// The most operands that the places of an INPUT need at once: 1 if one of them names a variable, else 0.
pub(crate) fn places_depth(places: &[Option<Identifier>]) -> u32
    ensures { result ≡ capped (places_depth places.now) }
{
    let mut most: u32 = 0;
    for place in places {
        most = most.max(place_depth(*place));
    }
    most
}
