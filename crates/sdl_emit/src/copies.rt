//! Copies of expressions and actions.
ghost use Rattle.std.specs.Prelude.{◌≡◌, map, IfOk};
ghost use Rattle.sdl_ast.specs.Views.{tree_of, assignment_of, sending_of, action_of};

use sdl_ast::{Action, Assignment, Expression, Output, Sending, SetTimer, Task};
use std::alloc::{AllocError, Global};

pub(crate) fn copy_expression(alloc: Global, given: &Expression) -> Result<Expression, AllocError>
    ensures { IfOk result (λ copy. tree_of copy ≡ tree_of given.now) }
{
    match given {
        Expression::Number { at, value } => Ok(Expression::Number {
            at: *at,
            value: *value,
        }),
        Expression::Truth { at, value } => Ok(Expression::Truth {
            at: *at,
            value: *value,
        }),
        Expression::Variable { at, name } => Ok(Expression::Variable {
            at: *at,
            name: *name,
        }),
        Expression::Unary {
            at,
            operator,
            operand,
        } => {
            let operand = copy_expression(alloc, operand)?;
            Ok(Expression::Unary {
                at: *at,
                operator: *operator,
                operand: Box::new(alloc, operand)?,
            })
        }
        Expression::Binary {
            at,
            operator,
            left,
            right,
        } => {
            let left = copy_expression(alloc, left)?;
            let right = copy_expression(alloc, right)?;
            Ok(Expression::Binary {
                at: *at,
                operator: *operator,
                left: Box::new(alloc, left)?,
                right: Box::new(alloc, right)?,
            })
        }
    }
}

fn copy_expressions(alloc: Global, given: &[Expression]) -> Result<Vec<Expression>, AllocError>
    ensures { IfOk result (λ copy. map tree_of copy.items ≡ map tree_of given.now) }
{
    let mut copies = Vec::new(alloc);
    for expression in given {
        copies.push(copy_expression(alloc, expression)?)?;
    }
    Ok(copies)
}

fn copy_assignments(alloc: Global, given: &[Assignment]) -> Result<Vec<Assignment>, AllocError>
    ensures { IfOk result (λ copy. map assignment_of copy.items ≡ map assignment_of given.now) }
{
    let mut copies = Vec::new(alloc);
    for assignment in given {
        copies.push(Assignment {
            variable: assignment.variable,
            value: copy_expression(alloc, &assignment.value)?,
        })?;
    }
    Ok(copies)
}

fn copy_sendings(alloc: Global, given: &[Sending]) -> Result<Vec<Sending>, AllocError>
    ensures { IfOk result (λ copy. map sending_of copy.items ≡ map sending_of given.now) }
{
    let mut copies = Vec::new(alloc);
    for sending in given {
        copies.push(Sending {
            signal: sending.signal,
            parameters: copy_expressions(alloc, &sending.parameters)?,
        })?;
    }
    Ok(copies)
}

pub(crate) fn copy_action(alloc: Global, given: &Action) -> Result<Action, AllocError>
    ensures { IfOk result (λ copy. action_of copy ≡ action_of given.now) }
{
    match given {
        Action::Task(task) => Ok(Action::Task(Task {
            at: task.at,
            assignments: copy_assignments(alloc, &task.assignments)?,
        })),
        Action::Output(output) => Ok(Action::Output(Output {
            at: output.at,
            sendings: copy_sendings(alloc, &output.sendings)?,
            to: output.to,
        })),
        Action::Set(set) => Ok(Action::Set(SetTimer {
            at: set.at,
            delay: copy_expression(alloc, &set.delay)?,
            timer: set.timer,
        })),
        Action::Reset(reset) => Ok(Action::Reset(*reset)),
    }
}
