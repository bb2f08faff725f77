//! The marks of a text: where something that may be taken begins, and the answers of DECISIONs.
ghost use Rattle.std.specs.Prelude.{◌≡◌, ◌∷◌, ◌++◌, [], IfOk, OnOk, map};
ghost use Rattle.std.specs.List.{flat_map};
ghost use Rattle.sdl_ast.specs.Plain.{Text};
ghost use Rattle.sdl_ast.specs.declared.tree.Decision.{out-Decision};
ghost use Rattle.sdl_ast.specs.Views.{block_of, choice_of, connection_of, end_text, input_of, process_of, statement_of, text_of};
ghost use Rattle.script_covered.specs.Lcov.{text_marks, choice_marks, input_marks, connection_marks, process_marks, block_marks};
ghost use Rattle.script_covered.specs.declared.marks.Mark.TheVariants.{Begins as Begun};

use crate::ways::{action_place, end_place};
use sdl_ast::{Connection, Decision, End, InputPart, Statement, Transition};
use sdl_tables::{BlockTable, ProcessTable};
use std::alloc::{AllocError, Global};

/// A mark of a text.
#[derive(Clone, Copy)]
pub(crate) enum Mark {
    /// A statement, an end, an INPUT or START begins at this place.
    Begins(u32),
    /// An answer.
    Answer {
        /// Where it begins.
        at: u32,
        /// Where its DECISION begins.
        decision: u32,
        /// Its number among the answers, from 0.
        number: usize,
    },
    /// An ELSE.
    Else {
        /// Where its DECISION begins.
        decision: u32,
        /// Its number, after those of the answers.
        number: usize,
    },
}

/// Appends the mark of something that begins at a place.
fn push_begin(marks: &mut Vec<Mark>, at: u32) -> Result<(), AllocError>
    ensures { OnOk result (marks.new.items ≡ marks.old.items ++ Begun at ∷ []) }
{
    Ok(marks.push(Mark::Begins(at))?)
}

/// Appends the mark of a transition's end.
fn push_end(marks: &mut Vec<Mark>, end: Option<End>) -> Result<(), AllocError>
    ensures { OnOk result (marks.new.items ≡ marks.old.items ++ text_marks (end_text end)) }
{
    match end {
        Some(end) => push_begin(marks, end_place(&end)),
        None => Ok(()),
    }
}

/// Appends the marks of a transition, or of a body of a DECISION.
#[cycle(marking)]
fn push_text(marks: &mut Vec<Mark>, transition: &Transition) -> Result<(), AllocError>
    ensures { OnOk result (marks.new.items ≡ marks.old.items ++ text_marks (text_of transition.now)) }
{
    for statement in &transition.statements {
        push_statement(marks, statement)?;
    }
    push_end(marks, transition.end)
}

/// Appends the marks of a statement.
#[cycle(marking)]
fn push_statement(marks: &mut Vec<Mark>, statement: &Statement) -> Result<(), AllocError>
    ensures { OnOk result ((rest : Text) → marks.new.items ++ text_marks rest ≡ marks.old.items ++ text_marks (statement_of statement.now rest)) }
{
    match statement {
        Statement::Act(action) => push_begin(marks, action_place(action)),
        Statement::Decide(decision) => {
            push_begin(marks, decision.at)?;
            push_answers(marks, decision)
        }
    }
}

/// Appends the marks of a DECISION's answers.
#[cycle(marking)]
fn push_answers(marks: &mut Vec<Mark>, decision: &Decision) -> Result<(), AllocError>
    ensures { OnOk result (marks.new.items ≡ marks.old.items ++ choice_marks (out-Decision decision.now).at 0 (choice_of decision.now)) }
{
    let mut number = 0;
    for answer in &decision.answers {
        marks.push(Mark::Answer {
            at: answer.at,
            decision: decision.at,
            number,
        })?;
        push_text(marks, &answer.body)?;
        number += 1;
    }
    match &decision.otherwise {
        Some(body) => {
            marks.push(Mark::Else {
                decision: decision.at,
                number,
            })?;
            push_text(marks, body)
        }
        None => Ok(()),
    }
}

/// Appends the marks of INPUTs and their transitions.
fn push_inputs(marks: &mut Vec<Mark>, parts: &[&InputPart]) -> Result<(), AllocError>
    ensures { OnOk result (marks.new.items ≡ marks.old.items ++ flat_map input_marks (map (λ i. input_of i.now) parts.now)) }
{
    for part in parts {
        push_begin(marks, part.at)?;
        push_text(marks, &part.transition)?;
    }
    Ok(())
}

/// Appends the marks of the transitions of CONNECTIONs.
fn push_connections(marks: &mut Vec<Mark>, connections: &[Connection]) -> Result<(), AllocError>
    ensures { OnOk result (marks.new.items ≡ marks.old.items ++ flat_map connection_marks (map connection_of connections.now)) }
{
    for connection in connections {
        push_text(marks, &connection.transition)?;
    }
    Ok(())
}

/// Appends the marks of a process.
fn push_process(marks: &mut Vec<Mark>, process: &ProcessTable<'_>) -> Result<(), AllocError>
    ensures { OnOk result (marks.new.items ≡ marks.old.items ++ process_marks (process_of process.now)) }
{
    let start = &process.process().start;
    push_begin(marks, start.at)?;
    push_text(marks, &start.transition)?;
    push_inputs(marks, process.parts())?;
    push_connections(marks, &process.process().connections)
}

/// Appends the marks of processes.
fn push_processes(marks: &mut Vec<Mark>, processes: &[ProcessTable<'_>]) -> Result<(), AllocError>
    ensures { OnOk result (marks.new.items ≡ marks.old.items ++ flat_map process_marks (map process_of processes.now)) }
{
    for process in processes {
        push_process(marks, process)?;
    }
    Ok(())
}

/// Returns the marks of a block, process by process.
pub(crate) fn block_marks(alloc: Global, block: &BlockTable<'_>) -> Result<Vec<Mark>, AllocError>
    ensures { IfOk result (λ v. v.items ≡ block_marks (block_of block.now)) }
{
    let mut marks = Vec::new(alloc);
    push_processes(&mut marks, block.tables())?;
    Ok(marks)
}
