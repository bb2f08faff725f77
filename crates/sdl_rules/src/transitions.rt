//! Transitions with values in place of synonyms.
ghost use Rattle.std.specs.Prelude.{◌≡◌, map, IfOk};
ghost use Rattle.sdl_ast.specs.Views.{plain_statement, plain_decision, plain_answer, text_of, else_choice};
ghost use Rattle.sdl_rules.specs.Expansion.{expanded_range, expanded_text, expanded_choice, expanded_statement, expanded_answer};
ghost use Rattle.sdl_rules.specs.Views.{sight_of};

use crate::expressions::{expand_action, expand_expression};
use crate::sight::Sight;
use crate::values::expand_constant;
use sdl_ast::{Answer, Decision, Range, Statement, Transition};
use std::alloc::{AllocError, Global};

/// A range with values in place of synonyms.
fn expand_range(sight: &Sight, range: Range) -> Range
    ensures { result ≡ expanded_range (sight_of sight.now) range }
{
    match range {
        Range::Value(constant) => Range::Value(expand_constant(sight, constant)),
        Range::Compared {
            at,
            relation,
            constant,
        } => Range::Compared {
            at,
            relation,
            constant: expand_constant(sight, constant),
        },
        Range::Between(low, high) => {
            Range::Between(expand_constant(sight, low), expand_constant(sight, high))
        }
    }
}

/// Ranges with values in place of synonyms.
fn expand_ranges(alloc: Global, sight: &Sight, given: &[Range]) -> Result<Vec<Range>, AllocError>
    ensures { IfOk result (λ copy. copy.items ≡ map (expanded_range (sight_of sight.now)) given.now) }
{
    let mut copies = Vec::new(alloc);
    for range in given {
        copies.push(expand_range(sight, *range))?;
    }
    Ok(copies)
}

/// A transition with values in place of synonyms.
#[cycle(expanding)]
pub(crate) fn expand_transition(
    alloc: Global,
    sight: &Sight,
    given: &Transition,
) -> Result<Transition, AllocError>
    ensures { IfOk result (λ copy. text_of copy ≡ expanded_text (sight_of sight.now) (text_of given.now)) }
{
    let mut statements = Vec::new(alloc);
    for statement in &given.statements {
        statements.push(expand_statement(alloc, sight, statement)?)?;
    }
    Ok(Transition {
        statements,
        end: given.end,
    })
}

#[cycle(expanding)]
fn expand_statement(
    alloc: Global,
    sight: &Sight,
    given: &Statement,
) -> Result<Statement, AllocError>
    ensures { IfOk result (λ copy. plain_statement copy ≡ expanded_statement (sight_of sight.now) (plain_statement given.now)) }
{
    match given {
        Statement::Act(action) => {
            let copy = expand_action(alloc, sight, action)?;
            Ok(Statement::Act(copy))
        }
        Statement::Decide(decision) => {
            let copy = expand_decision(alloc, sight, decision)?;
            Ok(Statement::Decide(copy))
        }
    }
}

#[cycle(expanding)]
fn expand_decision(alloc: Global, sight: &Sight, given: &Decision) -> Result<Decision, AllocError>
    ensures { IfOk result (λ copy. plain_decision copy ≡ expanded_statement (sight_of sight.now) (plain_decision given.now)) }
{
    let mut answers = Vec::new(alloc);
    for answer in &given.answers {
        answers.push(expand_answer(alloc, sight, answer)?)?;
    }
    let question = expand_expression(alloc, sight, &given.question)?;
    let otherwise = expand_else(alloc, sight, &given.otherwise)?;
    Ok(Decision {
        at: given.at,
        question,
        answers,
        otherwise,
    })
}

#[cycle(expanding)]
fn expand_answer(alloc: Global, sight: &Sight, given: &Answer) -> Result<Answer, AllocError>
    ensures { IfOk result (λ copy. plain_answer copy ≡ expanded_answer (sight_of sight.now) (plain_answer given.now)) }
{
    let ranges = expand_ranges(alloc, sight, &given.ranges)?;
    let body = expand_transition(alloc, sight, &given.body)?;
    Ok(Answer {
        at: given.at,
        ranges,
        body,
    })
}

#[cycle(expanding)]
fn expand_else(
    alloc: Global,
    sight: &Sight,
    given: &Option<Transition>,
) -> Result<Option<Transition>, AllocError>
    ensures { IfOk result (λ copy. else_choice copy ≡ expanded_choice (sight_of sight.now) (else_choice given.now)) }
{
    match given {
        None => Ok(None),
        Some(body) => Ok(Some(expand_transition(alloc, sight, body)?)),
    }
}
