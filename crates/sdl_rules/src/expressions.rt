//! Expressions and actions with values in place of synonyms.
ghost use Rattle.std.specs.Prelude.{◌≡◌, map, IfOk};
ghost use Rattle.sdl_ast.specs.Views.{tree_of, assignment_of, sending_of, action_of};
ghost use Rattle.sdl_rules.specs.Synonyms.{node_or, expanded_tree};
ghost use Rattle.sdl_ast.specs.Plain.{variable};
ghost use Rattle.sdl_rules.specs.Expansion.{expanded_assignment, expanded_sending, expanded_action};
ghost use Rattle.sdl_rules.specs.Views.{sight_of};

use crate::sight::Sight;
use crate::values::node;
use sdl_ast::{Action, Assignment, Expression, Identifier, Output, Sending, SetTimer, Task};
use std::alloc::{AllocError, Global};
use turn_code::Value;

/// The value at a place, if there is one, else the variable there.
fn node_or(at: u32, name: Identifier, value: Option<Value>) -> Expression
    ensures { tree_of result ≡ node_or (variable at name) at value }
{
    match value {
        Some(value) => node(at, value),
        None => Expression::Variable { at, name },
    }
}

/// An expression with values in place of synonyms.
pub(crate) fn expand_expression(
    alloc: Global,
    sight: &Sight,
    given: &Expression,
) -> Result<Expression, AllocError>
    ensures { IfOk result (λ copy. tree_of copy ≡ expanded_tree (sight_of sight.now) (tree_of given.now)) }
{
    match given {
        Expression::Number { at, value } => Ok(Expression::Number {
            at: *at,
            value: *value,
        }),
        Expression::Truth { at, value } => Ok(Expression::Truth {
            at: *at,
            value: *value,
        }),
        Expression::Variable { at, name } => Ok(node_or(*at, *name, sight.value(name.name))),
        Expression::Unary {
            at,
            operator,
            operand,
        } => {
            let operand = expand_expression(alloc, sight, operand)?;
            Ok(Expression::Unary {
                at: *at,
                operator: *operator,
                operand: Box::new(alloc, operand)?,
            })
        }
        Expression::Binary {
            at,
            operator,
            left,
            right,
        } => {
            let left = expand_expression(alloc, sight, left)?;
            let right = expand_expression(alloc, sight, right)?;
            Ok(Expression::Binary {
                at: *at,
                operator: *operator,
                left: Box::new(alloc, left)?,
                right: Box::new(alloc, right)?,
            })
        }
    }
}

/// Expressions with values in place of synonyms.
fn expand_expressions(
    alloc: Global,
    sight: &Sight,
    given: &[Expression],
) -> Result<Vec<Expression>, AllocError>
    ensures { IfOk result (λ copy. map tree_of copy.items ≡ map (expanded_tree (sight_of sight.now)) (map tree_of given.now)) }
{
    let mut copies = Vec::new(alloc);
    for expression in given {
        copies.push(expand_expression(alloc, sight, expression)?)?;
    }
    Ok(copies)
}

/// Assignments with values in place of synonyms.
fn expand_assignments(
    alloc: Global,
    sight: &Sight,
    given: &[Assignment],
) -> Result<Vec<Assignment>, AllocError>
    ensures { IfOk result (λ copy. map assignment_of copy.items ≡ map (expanded_assignment (sight_of sight.now)) (map assignment_of given.now)) }
{
    let mut copies = Vec::new(alloc);
    for assignment in given {
        copies.push(Assignment {
            variable: assignment.variable,
            value: expand_expression(alloc, sight, &assignment.value)?,
        })?;
    }
    Ok(copies)
}

/// Sendings with values in place of synonyms.
fn expand_sendings(
    alloc: Global,
    sight: &Sight,
    given: &[Sending],
) -> Result<Vec<Sending>, AllocError>
    ensures { IfOk result (λ copy. map sending_of copy.items ≡ map (expanded_sending (sight_of sight.now)) (map sending_of given.now)) }
{
    let mut copies = Vec::new(alloc);
    for sending in given {
        copies.push(Sending {
            signal: sending.signal,
            parameters: expand_expressions(alloc, sight, &sending.parameters)?,
        })?;
    }
    Ok(copies)
}

/// An action with values in place of synonyms.
pub(crate) fn expand_action(
    alloc: Global,
    sight: &Sight,
    given: &Action,
) -> Result<Action, AllocError>
    ensures { IfOk result (λ copy. action_of copy ≡ expanded_action (sight_of sight.now) (action_of given.now)) }
{
    match given {
        Action::Task(task) => Ok(Action::Task(Task {
            at: task.at,
            assignments: expand_assignments(alloc, sight, &task.assignments)?,
        })),
        Action::Output(output) => Ok(Action::Output(Output {
            at: output.at,
            sendings: expand_sendings(alloc, sight, &output.sendings)?,
            to: output.to,
        })),
        Action::Set(set) => Ok(Action::Set(SetTimer {
            at: set.at,
            delay: expand_expression(alloc, sight, &set.delay)?,
            timer: set.timer,
        })),
        Action::Reset(reset) => Ok(Action::Reset(*reset)),
    }
}
