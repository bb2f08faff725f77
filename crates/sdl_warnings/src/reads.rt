//! Which variables expressions and statements read or assign.
ghost use Rattle.std.specs.Prelude.{◌≡◌, map};
ghost use Rattle.std.specs.List.{list_any};
ghost use Rattle.sdl_sound.specs.Statements.{acts};
ghost use Rattle.sdl_ast.specs.Views.{tree_of, assignment_of, sending_of, action_of};
ghost use Rattle.sdl_tables.specs.Names.{same_name};
ghost use Rattle.sdl_warnings.specs.Standing.{part_of};
ghost use Rattle.sdl_warnings.specs.Warned.{reads_in, reads_in_sending, reads_in_action, reads, assigns, is_constant};

use crate::parts::Part;
use sdl_ast::{Action, Assignment, Expression, Name, Sending};

/// Whether two names are equal, ignoring case.
pub(crate) fn same_name(one: Name, other: Name) -> bool
    ensures { result ≡ same_name one other }
{
    one.folded() == other.folded()
}

/// Whether an expression has this variable or synonym.
pub(crate) fn reads_in(expression: &Expression, name: Name) -> bool
    ensures { result ≡ reads_in name (tree_of expression.now) }
{
    match expression {
        Expression::Number { .. } => false,
        Expression::Truth { .. } => false,
        Expression::Variable { name: own, .. } => same_name(name, own.name),
        Expression::Unary { operand, .. } => reads_in(operand, name),
        Expression::Binary { left, right, .. } => reads_in(left, name) || reads_in(right, name),
    }
}

/// Whether an expression has no variable.
pub(crate) fn is_constant(expression: &Expression) -> bool
    ensures { result ≡ is_constant (tree_of expression.now) }
{
    match expression {
        Expression::Number { .. } => true,
        Expression::Truth { .. } => true,
        Expression::Variable { .. } => false,
        Expression::Unary { operand, .. } => is_constant(operand),
        Expression::Binary { left, right, .. } => is_constant(left) && is_constant(right),
    }
}

/// Whether one of these assignments reads a variable.
fn reads_in_assignments(assignments: &[Assignment], name: Name) -> bool
    ensures { result ≡ list_any (λ a. reads_in name a.value) (map assignment_of assignments.now) }
{
    let mut any = false;
    for assignment in assignments {
        any |= reads_in(&assignment.value, name);
    }
    any
}

/// Whether one of these assignments sets a variable.
fn assigns_in(assignments: &[Assignment], name: Name) -> bool
    ensures { result ≡ list_any (λ a. same_name name a.variable.name) (map assignment_of assignments.now) }
{
    let mut any = false;
    for assignment in assignments {
        any |= same_name(name, assignment.variable.name);
    }
    any
}

/// Whether one of these expressions reads a variable.
fn reads_in_expressions(expressions: &[Expression], name: Name) -> bool
    ensures { result ≡ list_any (reads_in name) (map tree_of expressions.now) }
{
    let mut any = false;
    for expression in expressions {
        any |= reads_in(expression, name);
    }
    any
}

/// Whether a parameter of one of these signals reads a variable.
fn reads_in_sendings(sendings: &[Sending], name: Name) -> bool
    ensures { result ≡ list_any (reads_in_sending name) (map sending_of sendings.now) }
{
    let mut any = false;
    for sending in sendings {
        any |= reads_in_expressions(&sending.parameters, name);
    }
    any
}

/// Whether an action reads a variable.
fn reads_in_action(action: &Action, name: Name) -> bool
    ensures { result ≡ reads_in_action name (action_of action.now) }
{
    match action {
        Action::Task(task) => reads_in_assignments(&task.assignments, name),
        Action::Output(output) => reads_in_sendings(&output.sendings, name),
        Action::Set(set) => reads_in(&set.delay, name),
        Action::Reset(_) => false,
    }
}

/// Whether a statement reads a variable.
fn reads_in_part(part: &Part<'_>, name: Name) -> bool
    ensures { result ≡ reads name (part_of part.now) }
{
    match part {
        Part::Act(action) => reads_in_action(action, name),
        Part::Ask(decision) => reads_in(&decision.question, name),
        Part::Cover(_, _) => false,
        Part::Finish(_) => false,
    }
}

/// Whether one of these statements reads a variable.
pub(crate) fn reads_in_parts(parts: &[Part<'_>], name: Name) -> bool
    ensures { result ≡ list_any (reads name) (map part_of parts.now) }
{
    let mut any = false;
    for part in parts {
        any |= reads_in_part(part, name);
    }
    any
}

/// Whether an action assigns a variable.
fn assigns_in_action(action: &Action, name: Name) -> bool
    ensures { result ≡ assigns name (acts (action_of action.now)) }
{
    match action {
        Action::Task(task) => assigns_in(&task.assignments, name),
        Action::Output(_) => false,
        Action::Set(_) => false,
        Action::Reset(_) => false,
    }
}

/// Whether a statement assigns a variable.
fn assigns_in_part(part: &Part<'_>, name: Name) -> bool
    ensures { result ≡ assigns name (part_of part.now) }
{
    match part {
        Part::Act(action) => assigns_in_action(action, name),
        Part::Ask(_) => false,
        Part::Cover(_, _) => false,
        Part::Finish(_) => false,
    }
}

/// Whether one of these statements assigns a variable.
pub(crate) fn assigns_in_parts(parts: &[Part<'_>], name: Name) -> bool
    ensures { result ≡ list_any (assigns name) (map part_of parts.now) }
{
    let mut any = false;
    for part in parts {
        any |= assigns_in_part(part, name);
    }
    any
}
