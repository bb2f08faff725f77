//! Transitions without the TASKs that hold only quoted text, which have neither an effect nor an instruction.
ghost use Rattle.std.specs.Prelude.{◌≡◌, ◌++◌, [], true, map, IfOk, OnOk};
ghost use Rattle.std.specs.List.{flat_map};
ghost use Rattle.sdl_ast.specs.Views.{action_of, plain_statement, plain_decision, plain_answer, text_of, else_choice, connection_of};
ghost use Rattle.sdl_emit.specs.Trimmed.{is_quoted, trimmed, trimmed_choice, trimmed_statement, trimmed_decision, trimmed_answer, kept_statement, AreTrimmed};

use crate::copies::{copy_action, copy_expression};
use sdl_ast::{Action, Answer, Connection, Decision, Range, Statement, Transition};
use std::alloc::{AllocError, Global};

/// Whether an action is a TASK that holds only quoted text.
fn is_quoted(action: &Action) -> bool
    ensures { result ≡ is_quoted (action_of action.now) }
{
    match action {
        Action::Task(task) => task.assignments.is_empty(),
        Action::Output(_) => false,
        Action::Set(_) => false,
        Action::Reset(_) => false,
    }
}

fn copy_ranges(alloc: Global, given: &[Range]) -> Result<Vec<Range>, AllocError>
    ensures { IfOk result (λ copy. copy.items ≡ given.now) }
{
    let mut copies = Vec::new(alloc);
    for range in given {
        copies.push(*range)?;
    }
    Ok(copies)
}

/// Whether a statement is such a TASK, which is left out.
fn is_left_out(statement: &Statement) -> bool
    ensures { result ≡ true → trimmed_statement (plain_statement statement.now) ≡ [] }
{
    match statement {
        Statement::Act(action) => is_quoted(action),
        Statement::Decide(_) => false,
    }
}

/// Adds a statement, if it is kept.
fn push_kept(statements: &mut Vec<Statement>, kept: Option<Statement>) -> Result<(), AllocError>
    ensures { OnOk result (map plain_statement statements.new.items ≡ map plain_statement statements.old.items ++ kept_statement kept) }
{
    match kept {
        Some(statement) => {
            statements.push(statement)?;
            Ok(())
        }
        None => Ok(()),
    }
}

/// A copy of a transition without the TASKs that hold only quoted text. Fails only if memory runs out.
#[cycle(trimming)]
pub fn trim_transition(alloc: Global, given: &Transition) -> Result<Transition, AllocError>
    ensures { IfOk result (λ copy. text_of copy ≡ trimmed (text_of given.now)) }
{
    let mut statements = Vec::new(alloc);
    for statement in &given.statements {
        if !is_left_out(statement) {
            let kept = trim_statement(alloc, statement)?;
            push_kept(&mut statements, kept)?;
        }
    }
    Ok(Transition {
        statements,
        end: given.end,
    })
}

/// A copy of a statement, or `None` for such a TASK.
#[cycle(trimming)]
fn trim_statement(alloc: Global, given: &Statement) -> Result<Option<Statement>, AllocError>
    ensures { IfOk result (λ kept. kept_statement kept ≡ trimmed_statement (plain_statement given.now)) }
{
    match given {
        Statement::Act(action) => {
            if is_quoted(action) {
                return Ok(None);
            }
            let copy = copy_action(alloc, action)?;
            Ok(Some(Statement::Act(copy)))
        }
        Statement::Decide(decision) => {
            let copy = trim_decision(alloc, decision)?;
            Ok(Some(Statement::Decide(copy)))
        }
    }
}

#[cycle(trimming)]
fn trim_decision(alloc: Global, given: &Decision) -> Result<Decision, AllocError>
    ensures { IfOk result (λ copy. plain_decision copy ≡ trimmed_decision (plain_decision given.now)) }
{
    let mut answers = Vec::new(alloc);
    for answer in &given.answers {
        answers.push(trim_answer(alloc, answer)?)?;
    }
    let question = copy_expression(alloc, &given.question)?;
    let otherwise = trim_else(alloc, &given.otherwise)?;
    Ok(Decision {
        at: given.at,
        question,
        answers,
        otherwise,
    })
}

#[cycle(trimming)]
fn trim_answer(alloc: Global, given: &Answer) -> Result<Answer, AllocError>
    ensures { IfOk result (λ copy. plain_answer copy ≡ trimmed_answer (plain_answer given.now)) }
{
    Ok(Answer {
        at: given.at,
        ranges: copy_ranges(alloc, &given.ranges)?,
        body: trim_transition(alloc, &given.body)?,
    })
}

#[cycle(trimming)]
fn trim_else(alloc: Global, given: &Option<Transition>) -> Result<Option<Transition>, AllocError>
    ensures { IfOk result (λ copy. else_choice copy ≡ trimmed_choice (else_choice given.now)) }
{
    match given {
        None => Ok(None),
        Some(body) => Ok(Some(trim_transition(alloc, body)?)),
    }
}

/// Copies of the transitions of connections, trimmed and in their order. Fails only if memory runs out.
pub fn trim_connections(alloc: Global, given: &[Connection]) -> Result<Vec<Transition>, AllocError>
    ensures { IfOk result (λ copies. AreTrimmed (map connection_of given.now) copies.items) }
{
    let mut copies = Vec::new(alloc);
    for connection in given {
        copies.push(trim_transition(alloc, &connection.transition)?)?;
    }
    Ok(copies)
}
