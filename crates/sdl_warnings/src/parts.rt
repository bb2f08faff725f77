//! Lists the statements of a transition in text order, including those in the answers of its DECISIONs.
ghost use Rattle.std.specs.Prelude.{◌≡◌, ◌++◌, ◌∷◌, [], map, IfOk, OnOk};
ghost use Rattle.sdl_ast.specs.declared.tree.Decision.{out-Decision};
ghost use Rattle.sdl_ast.specs.Plain.{Text, Tree};
ghost use Rattle.sdl_ast.specs.Views.{tree_of, action_of, text_of, end_text, statement_of, else_choice};
ghost use Rattle.sdl_sound.specs.Statements.{acts, covers, statements_of, choice_statements};
ghost use Rattle.sdl_sound.specs.Parts.{question_of, decision_parts};
ghost use Rattle.sdl_warnings.specs.Standing.{part_of};

use sdl_ast::{Action, Answer, Decision, End, Statement, Transition};
use std::alloc::{AllocError, Global};

/// A statement, without those inside it.
#[derive(Clone, Copy)]
pub(crate) enum Part<'a> {
    /// A TASK, OUTPUT, SET or RESET.
    Act(&'a Action),
    /// A DECISION.
    Ask(&'a Decision),
    /// The values of an answer of a DECISION.
    Cover(&'a Decision, &'a Answer),
    /// A NEXTSTATE, STOP or JOIN.
    Finish(&'a End),
}

/// Appends the end of a transition if it has one.
fn push_end<'a>(parts: &mut Vec<Part<'a>>, end: &'a Option<End>) -> Result<(), AllocError>
    ensures { OnOk result (map part_of parts.new.items ≡ map part_of parts.old.items ++ statements_of (end_text end.now)) }
{
    match end {
        None => Ok(()),
        Some(end) => Ok(parts.push(Part::Finish(end))?),
    }
}

/// Appends a TASK, OUTPUT, SET or RESET.
fn push_act<'a>(parts: &mut Vec<Part<'a>>, action: &'a Action) -> Result<(), AllocError>
    ensures { OnOk result (map part_of parts.new.items ≡ map part_of parts.old.items ++ acts (action_of action.now) ∷ []) }
{
    Ok(parts.push(Part::Act(action))?)
}

/// Appends a DECISION.
fn push_question<'a>(parts: &mut Vec<Part<'a>>, decision: &'a Decision) -> Result<(), AllocError>
    ensures { OnOk result (map part_of parts.new.items ≡ map part_of parts.old.items ++ question_of decision.now ∷ []) }
{
    Ok(parts.push(Part::Ask(decision))?)
}

/// Appends the values of an answer.
fn push_values<'a>(
    parts: &mut Vec<Part<'a>>,
    decision: &'a Decision,
    answer: &'a Answer,
) -> Result<(), AllocError>
    ensures { OnOk result (map part_of parts.new.items
        ≡ map part_of parts.old.items ++ covers (tree_of (out-Decision decision.now).question) answer.now.ranges.items ∷ []) }
{
    Ok(parts.push(Part::Cover(decision, answer))?)
}

/// Appends the statements of a transition.
#[cycle(parting)]
pub(crate) fn push_parts<'a>(
    parts: &mut Vec<Part<'a>>,
    transition: &'a Transition,
) -> Result<(), AllocError>
    ensures { OnOk result (map part_of parts.new.items ≡ map part_of parts.old.items ++ statements_of (text_of transition.now)) }
{
    for statement in &transition.statements {
        push_statement(parts, statement)?;
    }
    push_end(parts, &transition.end)
}

/// Appends a statement, and those in the answers if it is a DECISION.
#[cycle(parting)]
#[tactic(auto, using(crate::proofs::Parting::act_on, crate::proofs::Parting::decide_on))]
fn push_statement<'a>(parts: &mut Vec<Part<'a>>, statement: &'a Statement) -> Result<(), AllocError>
    ensures { OnOk result ((rest : Text) → map part_of parts.new.items ++ statements_of rest ≡ map part_of parts.old.items ++ statements_of (statement_of statement.now rest)) }
{
    match statement {
        Statement::Act(action) => push_act(parts, action),
        Statement::Decide(decision) => push_decision(parts, decision),
    }
}

/// Appends a DECISION, and the statements in its answers.
#[cycle(parting)]
fn push_decision<'a>(parts: &mut Vec<Part<'a>>, decision: &'a Decision) -> Result<(), AllocError>
    ensures { OnOk result (map part_of parts.new.items ≡ map part_of parts.old.items ++ decision_parts decision.now) }
{
    push_question(parts, decision)?;
    for answer in &decision.answers {
        push_values(parts, decision, answer)?;
        push_parts(parts, &answer.body)?;
    }
    push_else(parts, &decision.otherwise)
}

/// Appends the statements of ELSE if there is one.
#[cycle(parting)]
fn push_else<'a>(
    parts: &mut Vec<Part<'a>>,
    otherwise: &'a Option<Transition>,
) -> Result<(), AllocError>
    ensures { OnOk result ((q : Tree) → map part_of parts.new.items ≡ map part_of parts.old.items ++ choice_statements q (else_choice otherwise.now)) }
{
    match otherwise {
        None => Ok(()),
        Some(body) => push_parts(parts, body),
    }
}

/// The statements of a transition.
pub(crate) fn parts_of<'a>(
    alloc: Global,
    transition: &'a Transition,
) -> Result<Vec<Part<'a>>, AllocError>
    ensures { IfOk result (λ v. map part_of v.items ≡ statements_of (text_of transition.now)) }
{
    let mut parts = Vec::new(alloc);
    push_parts(&mut parts, transition)?;
    Ok(parts)
}
