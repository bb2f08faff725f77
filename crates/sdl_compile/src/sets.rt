//! The variables that are set at each instruction of an action, of the tests of a DECISION and of the places of INPUT.
ghost use Rattle.std.specs.Prelude.{◌≡◌, ◌<◌, [], ◌∷◌, ◌++◌, OnOk, IfOk, map};
ghost use Rattle.sdl_ast.specs.Views.{tree_of, assignment_of, sending_of, action_of, choice_of};
ghost use Rattle.sdl_sound.specs.Longest.{is_division};
ghost use Rattle.sdl_emit.specs.Scopes.{scope_in};
ghost use Rattle.sdl_meaning.specs.Named.{NamedTasks, NamedAction, NamedPlaces};
ghost use Rattle.turn_code.specs.Sets.{with_variable};
ghost use Rattle.sdl_compile.specs.Reads.{tasks_set, action_set, everything, meet, places_set};
ghost use Rattle.sdl_compile.specs.Facts.{tree_sets, trees_sets, sendings_sets, tasks_sets, action_sets, ranges_sets, tests_sets, places_sets};
ghost use Rattle.plain_laws.specs.Limits.{MOST_VARIABLES};

use sdl_ast::{Action, Assignment, Decision, Expression, Identifier, Range, Sending};
use sdl_emit::Names;
use sdl_sound::is_division;
use std::alloc::AllocError;
use turn_code::{VariableNumber, VariableSet};

/// Every variable.
pub(crate) fn everything() -> VariableSet
    ensures { result ≡ everything }
{
    VariableSet(u32::MAX)
}

/// The variables of both sets.
pub(crate) fn meet(one: VariableSet, other: VariableSet) -> VariableSet
    ensures { result ≡ meet one other }
{
    VariableSet(one.0 & other.0)
}

/// The set with one more variable.
fn with(set: VariableSet, variable: VariableNumber) -> VariableSet
    requires { variable.0 < MOST_VARIABLES }
    ensures { result ≡ with_variable set variable.0 }
{
    VariableSet(set.0 | (1 << variable.0))
}

/// Adds the set of one more instruction.
pub(crate) fn mark(sets: &mut Vec<VariableSet>, set: VariableSet) -> Result<(), AllocError>
    ensures { OnOk result (sets.new.items ≡ sets.old.items ++ set ∷ []) }
{
    sets.push(set)?;
    Ok(())
}

/// Adds the sets of an expression: the same set at each instruction.
pub(crate) fn mark_expression(
    sets: &mut Vec<VariableSet>,
    expression: &Expression,
    set: VariableSet,
) -> Result<(), AllocError>
    ensures { OnOk result (sets.new.items ≡ sets.old.items ++ tree_sets set (tree_of expression.now)) }
{
    match expression {
        Expression::Number { .. } => mark(sets, set),
        Expression::Truth { .. } => mark(sets, set),
        Expression::Variable { .. } => mark(sets, set),
        Expression::Unary { operand, .. } => {
            mark_expression(sets, operand, set)?;
            mark(sets, set)
        }
        Expression::Binary {
            operator,
            left,
            right,
            ..
        } => {
            mark_expression(sets, left, set)?;
            if is_division(*operator) {
                mark(sets, set)
            } else {
                mark_expression(sets, right, set)?;
                mark(sets, set)
            }
        }
    }
}

/// Adds the sets of the parameters of a signal: the same set at each instruction.
fn mark_parameters(
    sets: &mut Vec<VariableSet>,
    parameters: &[Expression],
    set: VariableSet,
) -> Result<(), AllocError>
    ensures { OnOk result (sets.new.items ≡ sets.old.items ++ trees_sets set (map tree_of parameters.now)) }
{
    for parameter in parameters {
        mark_expression(sets, parameter, set)?;
    }
    Ok(())
}

/// Adds the sets of sendings: the same set at each instruction.
fn mark_sendings(
    sets: &mut Vec<VariableSet>,
    sendings: &[Sending],
    set: VariableSet,
) -> Result<(), AllocError>
    ensures { OnOk result (sets.new.items ≡ sets.old.items ++ sendings_sets set (map sending_of sendings.now)) }
{
    for sending in sendings {
        mark_parameters(sets, &sending.parameters, set)?;
        mark(sets, set)?;
    }
    Ok(())
}

/// Adds the sets of assignments. Returns the set after them.
fn mark_assignments(
    sets: &mut Vec<VariableSet>,
    names: &Names,
    assignments: &[Assignment],
    set: VariableSet,
) -> Result<VariableSet, AllocError>
    requires { NamedTasks (scope_in names.now) (map assignment_of assignments.now) }
    ensures sets { OnOk result (sets.new.items ≡ sets.old.items ++ tasks_sets (scope_in names.now) set (map assignment_of assignments.now)) }
    ensures behind { IfOk result (λ m. m ≡ tasks_set (scope_in names.now) set (map assignment_of assignments.now)) }
{
    let mut set = set;
    for assignment in assignments {
        mark_expression(sets, &assignment.value, set)?;
        mark(sets, set)?;
        set = with(set, names.variable(&assignment.variable));
    }
    Ok(set)
}

/// Adds the sets of an action. Returns the set after it.
pub(crate) fn mark_action(
    sets: &mut Vec<VariableSet>,
    names: &Names,
    action: &Action,
    set: VariableSet,
) -> Result<VariableSet, AllocError>
    requires { NamedAction (scope_in names.now) (action_of action.now) }
    ensures sets { OnOk result (sets.new.items ≡ sets.old.items ++ action_sets (scope_in names.now) set (action_of action.now)) }
    ensures behind { IfOk result (λ m. m ≡ action_set (scope_in names.now) set (action_of action.now)) }
{
    match action {
        Action::Task(task) => mark_assignments(sets, names, &task.assignments, set),
        Action::Output(output) => {
            mark_sendings(sets, &output.sendings, set)?;
            Ok(set)
        }
        Action::Set(timer) => {
            mark_expression(sets, &timer.delay, set)?;
            mark(sets, set)?;
            Ok(set)
        }
        Action::Reset(_) => {
            mark(sets, set)?;
            Ok(set)
        }
    }
}

/// Adds the sets of the tests, one for each range.
fn mark_ranges(
    sets: &mut Vec<VariableSet>,
    ranges: &[Range],
    set: VariableSet,
) -> Result<(), AllocError>
    ensures { OnOk result (sets.new.items ≡ sets.old.items ++ ranges_sets set ranges.now) }
{
    for _range in ranges {
        mark(sets, set)?;
    }
    Ok(())
}

/// Adds the sets of the tests of an Integer DECISION, and of the drop before ELSE.
pub(crate) fn mark_tests(
    sets: &mut Vec<VariableSet>,
    decision: &Decision,
    set: VariableSet,
) -> Result<(), AllocError>
    ensures { OnOk result (sets.new.items ≡ sets.old.items ++ tests_sets set (choice_of decision.now)) }
{
    for answer in &decision.answers {
        mark_ranges(sets, &answer.ranges, set)?;
    }
    match decision.otherwise {
        Some(_) => mark(sets, set),
        None => Ok(()),
    }
}

/// Adds the sets of the places of INPUT: a named place loads a parameter and stores it. Returns the set after them.
pub(crate) fn mark_places(
    sets: &mut Vec<VariableSet>,
    names: &Names,
    places: &[Option<Identifier>],
    set: VariableSet,
) -> Result<VariableSet, AllocError>
    requires { NamedPlaces (scope_in names.now) places.now }
    ensures sets { OnOk result (sets.new.items ≡ sets.old.items ++ places_sets (scope_in names.now) set places.now) }
    ensures behind { IfOk result (λ m. m ≡ places_set (scope_in names.now) set places.now) }
{
    let mut set = set;
    for place in places {
        if let Some(id) = place {
            mark(sets, set)?;
            mark(sets, set)?;
            set = with(set, names.variable(id));
        }
    }
    Ok(set)
}
