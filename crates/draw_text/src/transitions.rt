//! The parts of transitions.
ghost use Rattle.std.specs.Prelude.{◌≡◌, ◌++◌, ◌∷◌, [], map, codes, OnOk, IfOk};
ghost use Rattle.std.specs.List.{flat_map};
ghost use Rattle.sdl_ast.specs.Plain.{Text};
ghost use Rattle.sdl_ast.specs.Views.{action_of, assignment_of, block_of, choice_of, decision_of, plain_answer, process_of, sending_of, statement_of, text_of, tree_of};
ghost use Rattle.draw_text.specs.Statements.{assignment_text};
ghost use Rattle.draw_text.specs.Parts.{part_of, mark, symbol, answer_text, task_text, set_text, reset_text, action_parts, sending_part, end_part, question_part, else_part, text_parts, choice_parts};

use crate::parts::{Kind, Part, push_mark, push_symbol};
use crate::{
    Names, push_assignment, push_bytes, push_delay, push_name, push_ranges, push_receiver,
    push_sending, push_timer,
};
use sdl_ast::{
    Action, Assignment, Decision, Destination, End, Expression, Identifier, Output, Range, Sending,
    Statement, Transition,
};
use sdl_tables::ProcessTable;
use std::alloc::{AllocError, Global};

/// Appends further assignments to `text`, each on its own line.
fn push_more_assignments(
    alloc: Global,
    text: &mut Vec<u8>,
    process: &ProcessTable<'_>,
    assignments: &[Assignment],
) -> Result<(), AllocError>
    ensures { OnOk result (text.new.items ≡ text.old.items ++ flat_map (λ a. codes "\n" ++ assignment_text (process_of process.now) a) (map assignment_of assignments.now)) }
{
    for assignment in assignments {
        push_bytes(text, b"\n")?;
        push_assignment(alloc, text, process, assignment)?;
    }
    Ok(())
}

/// The text in the symbol of a TASK.
fn task_text(
    alloc: Global,
    process: &ProcessTable<'_>,
    assignments: &[Assignment],
) -> Result<Vec<u8>, AllocError>
    ensures { IfOk result (λ v. v.items ≡ task_text (process_of process.now) (map assignment_of assignments.now)) }
{
    let mut text = Vec::new(alloc);
    if let Some((first, others)) = assignments.split_first() {
        push_assignment(alloc, &mut text, process, first)?;
        push_more_assignments(alloc, &mut text, process, others)?;
    }
    Ok(text)
}

/// The text in the symbol of a SET.
fn set_text(
    alloc: Global,
    process: &ProcessTable<'_>,
    delay: &Expression,
    timer: Identifier,
) -> Result<Vec<u8>, AllocError>
    ensures { IfOk result (λ v. v.items ≡ set_text (process_of process.now) (tree_of delay.now) timer) }
{
    let mut text = Vec::new(alloc);
    push_bytes(&mut text, b"SET(NOW + ")?;
    push_delay(alloc, &mut text, process, delay)?;
    push_bytes(&mut text, b", ")?;
    push_timer(&mut text, process, timer)?;
    push_bytes(&mut text, b")")?;
    Ok(text)
}

/// The text in the symbol of a RESET.
fn reset_text(
    alloc: Global,
    process: &ProcessTable<'_>,
    timer: Identifier,
) -> Result<Vec<u8>, AllocError>
    ensures { IfOk result (λ v. v.items ≡ reset_text (process_of process.now) timer) }
{
    let mut text = Vec::new(alloc);
    push_bytes(&mut text, b"RESET(")?;
    push_timer(&mut text, process, timer)?;
    push_bytes(&mut text, b")")?;
    Ok(text)
}

/// Appends a signal that is sent to `parts`.
fn push_one_sending(
    alloc: Global,
    parts: &mut Vec<Part>,
    names: &Names<'_, '_>,
    to: &Option<Destination>,
    sending: &Sending,
) -> Result<(), AllocError>
    ensures { OnOk result (map part_of parts.new.items ≡ map part_of parts.old.items ++ sending_part (block_of names.now.block.now) (process_of names.now.process.now) to.now (sending_of sending.now) ∷ []) }
{
    let mut text = Vec::new(alloc);
    push_sending(alloc, &mut text, names, sending)?;
    push_bytes(&mut text, b"\nTO ")?;
    push_receiver(&mut text, names, to, sending.signal)?;
    push_symbol(parts, Kind::Output, sending.signal.at, text)
}

/// Appends the signals of an OUTPUT to `parts`.
fn push_output(
    alloc: Global,
    parts: &mut Vec<Part>,
    names: &Names<'_, '_>,
    output: &Output,
) -> Result<(), AllocError>
    ensures { OnOk result (map part_of parts.new.items ≡ map part_of parts.old.items ++ map (sending_part (block_of names.now.block.now) (process_of names.now.process.now) output.now.to) (map sending_of output.now.sendings.items)) }
{
    for sending in &output.sendings {
        push_one_sending(alloc, parts, names, &output.to, sending)?;
    }
    Ok(())
}

/// Appends an action to `parts`.
fn push_action(
    alloc: Global,
    parts: &mut Vec<Part>,
    names: &Names<'_, '_>,
    action: &Action,
) -> Result<(), AllocError>
    ensures { OnOk result (map part_of parts.new.items ≡ map part_of parts.old.items ++ action_parts (block_of names.now.block.now) (process_of names.now.process.now) (action_of action.now)) }
{
    match action {
        Action::Task(task) => {
            let text = task_text(alloc, names.process, &task.assignments)?;
            push_symbol(parts, Kind::Task, task.at, text)
        }
        Action::Output(output) => push_output(alloc, parts, names, output),
        Action::Set(set) => {
            let text = set_text(alloc, names.process, &set.delay, set.timer)?;
            push_symbol(parts, Kind::Task, set.at, text)
        }
        Action::Reset(reset) => {
            let text = reset_text(alloc, names.process, reset.timer)?;
            push_symbol(parts, Kind::Task, reset.at, text)
        }
    }
}

/// Appends the end of a transition to `parts`.
fn push_end(
    alloc: Global,
    parts: &mut Vec<Part>,
    process: &ProcessTable<'_>,
    end: End,
) -> Result<(), AllocError>
    ensures { OnOk result (map part_of parts.new.items ≡ map part_of parts.old.items ++ end_part (process_of process.now) end ∷ []) }
{
    let mut text = Vec::new(alloc);
    match end {
        End::NextState(next) => {
            push_name(&mut text, process.states(), next.state.name)?;
            push_symbol(parts, Kind::NextState, next.at, text)
        }
        End::Stop(at) => push_symbol(parts, Kind::Stop, at, text),
        End::Join(join) => {
            push_name(&mut text, process.connectors(), join.connector.name)?;
            push_symbol(parts, Kind::Join, join.at, text)
        }
    }
}

/// Appends the question of a DECISION, and the fork after it, to `parts`.
fn push_question(
    alloc: Global,
    parts: &mut Vec<Part>,
    process: &ProcessTable<'_>,
    at: u32,
    question: &Expression,
) -> Result<(), AllocError>
    ensures { OnOk result (map part_of parts.new.items ≡ map part_of parts.old.items ++ question_part (process_of process.now) at (tree_of question.now) ∷ mark Kind.Fork ∷ []) }
{
    let mut text = Vec::new(alloc);
    push_delay(alloc, &mut text, process, question)?;
    push_symbol(parts, Kind::Question, at, text)?;
    push_mark(alloc, parts, Kind::Fork)
}

/// Appends the beginning of an answer's branch to `parts`.
fn push_answer_head(
    alloc: Global,
    parts: &mut Vec<Part>,
    at: u32,
    ranges: &[Range],
) -> Result<(), AllocError>
    ensures { OnOk result (map part_of parts.new.items ≡ map part_of parts.old.items ++ mark Kind.Branch ∷ symbol Kind.Answer at (answer_text ranges.now) ∷ []) }
{
    let mut text = Vec::new(alloc);
    push_bytes(&mut text, b"(")?;
    push_ranges(alloc, &mut text, ranges)?;
    push_bytes(&mut text, b")")?;
    push_mark(alloc, parts, Kind::Branch)?;
    push_symbol(parts, Kind::Answer, at, text)
}

/// Appends the beginning of ELSE's branch to `parts`.
fn push_else_head(alloc: Global, parts: &mut Vec<Part>) -> Result<(), AllocError>
    ensures { OnOk result (map part_of parts.new.items ≡ map part_of parts.old.items ++ mark Kind.Branch ∷ else_part ∷ []) }
{
    let text = Vec::from_slice(alloc, b"ELSE")?;
    push_mark(alloc, parts, Kind::Branch)?;
    push_symbol(parts, Kind::Answer, 0, text)
}

/// Appends a statement to `parts`.
#[cycle(flow)]
fn push_statement(
    alloc: Global,
    parts: &mut Vec<Part>,
    names: &Names<'_, '_>,
    statement: &Statement,
) -> Result<(), AllocError>
    ensures { OnOk result ((rest : Text) → map part_of parts.new.items ++ text_parts (block_of names.now.block.now) (process_of names.now.process.now) rest
        ≡ map part_of parts.old.items ++ text_parts (block_of names.now.block.now) (process_of names.now.process.now) (statement_of statement.now rest)) }
{
    match statement {
        Statement::Act(action) => push_action(alloc, parts, names, action),
        Statement::Decide(decision) => push_decision(alloc, parts, names, decision),
    }
}

/// Appends a DECISION to `parts`.
#[cycle(flow)]
fn push_decision(
    alloc: Global,
    parts: &mut Vec<Part>,
    names: &Names<'_, '_>,
    decision: &Decision,
) -> Result<(), AllocError>
    ensures { OnOk result ((rest : Text) → map part_of parts.new.items ++ text_parts (block_of names.now.block.now) (process_of names.now.process.now) rest
        ≡ map part_of parts.old.items ++ text_parts (block_of names.now.block.now) (process_of names.now.process.now) (decision_of decision.now rest)) }
{
    push_question(alloc, parts, names.process, decision.at, &decision.question)?;
    push_bodies(alloc, parts, names, decision)?;
    push_mark(alloc, parts, Kind::Meet)
}

/// Appends the branches of a DECISION to `parts`.
#[cycle(flow)]
fn push_bodies(
    alloc: Global,
    parts: &mut Vec<Part>,
    names: &Names<'_, '_>,
    decision: &Decision,
) -> Result<(), AllocError>
    ensures { OnOk result (map part_of parts.new.items ≡ map part_of parts.old.items ++ choice_parts (block_of names.now.block.now) (process_of names.now.process.now) (choice_of decision.now)) }
{
    for answer in &decision.answers {
        push_answer_head(alloc, parts, answer.at, &answer.ranges)?;
        push_transition(alloc, parts, names, &answer.body)?;
    }
    match &decision.otherwise {
        Some(body) => {
            push_else_head(alloc, parts)?;
            push_transition(alloc, parts, names, body)
        }
        None => Ok(()),
    }
}

/// Appends a transition to `parts`.
#[cycle(flow)]
pub(crate) fn push_transition(
    alloc: Global,
    parts: &mut Vec<Part>,
    names: &Names<'_, '_>,
    transition: &Transition,
) -> Result<(), AllocError>
    ensures { OnOk result (map part_of parts.new.items ≡ map part_of parts.old.items ++ text_parts (block_of names.now.block.now) (process_of names.now.process.now) (text_of transition.now)) }
{
    for statement in &transition.statements {
        push_statement(alloc, parts, names, statement)?;
    }
    match transition.end {
        Some(end) => push_end(alloc, parts, names.process, end),
        None => Ok(()),
    }
}
