//! The answers at which a transition runs off its end (S4).

use script_point::{Explained, Reading};
use sdl_lex::Word;
use sdl_tables::ProcessTable;
use sdl_tree::{Decision, Process, StateClause, Statement, Transition};
use std::alloc::AllocError;

/// Whether control can pass to whatever follows a statement.
#[cycle(passing)]
fn passes(statement: &Statement) -> bool {
    match statement {
        Statement::Act(_) => true,
        Statement::Decide(decision) => is_passed(decision),
    }
}

/// Whether some body of a DECISION runs off its end.
#[cycle(passing)]
fn is_passed(decision: &Decision) -> bool {
    for answer in &decision.answers {
        if runs_off(&answer.body) {
            return true;
        }
    }
    match &decision.otherwise {
        Some(body) => runs_off(body),
        None => false,
    }
}

/// Whether a transition runs off its end.
#[cycle(passing)]
fn runs_off(transition: &Transition) -> bool {
    for statement in &transition.statements {
        if !passes(statement) {
            return false;
        }
    }
    transition.end.is_none()
}

/// The place of the ELSE of a DECISION that begins at a place.
fn else_of(read: &Reading<'_>, at: u32) -> Option<u32> {
    let mut depth: usize = 0;
    for index in read.index_at(at)..read.tokens.len() {
        match read.word(index) {
            Some(Word::Decision) => depth = depth.saturating_add(1),
            Some(Word::EndDecision) => depth = depth.saturating_sub(1),
            Some(Word::Else) if depth == 1 => {
                return match read.tokens.get(index) {
                    Some(token) => Some(token.start),
                    None => None,
                };
            }
            _ => {}
        }
        if depth == 0 {
            return None;
        }
    }
    None
}

/// The first answer of a DECISION that runs off, or the innermost such answer in it.
#[cycle(finding)]
fn in_decision(read: &Reading<'_>, decision: &Decision) -> Option<u32> {
    for answer in &decision.answers {
        if runs_off(&answer.body) {
            return Some(in_transition(read, &answer.body).unwrap_or(answer.at));
        }
    }
    match &decision.otherwise {
        Some(body) if runs_off(body) => match in_transition(read, body) {
            Some(place) => Some(place),
            None => else_of(read, decision.at),
        },
        _ => None,
    }
}

/// The answer at which a statement runs off, if it is a DECISION that does.
#[cycle(finding)]
fn in_statement(read: &Reading<'_>, statement: &Statement) -> Option<u32> {
    match statement {
        Statement::Act(_) => None,
        Statement::Decide(decision) => in_decision(read, decision),
    }
}

/// The answer at which a transition runs off, in its last statement; none if it runs off after that statement.
#[cycle(finding)]
fn in_transition(read: &Reading<'_>, transition: &Transition) -> Option<u32> {
    let mut found = None;
    for statement in &transition.statements {
        found = in_statement(read, statement);
    }
    found
}

/// The transition of the INPUT at a place of a state's clauses.
fn of_clauses<'a>(clauses: &'a [StateClause], place: u32) -> Option<&'a Transition> {
    for clause in clauses {
        if let StateClause::Input(input) = clause {
            if input.at == place {
                return Some(&input.transition);
            }
        }
    }
    None
}

/// The transition that begins at a place of a process.
fn transition_at<'a>(process: &'a Process, place: u32) -> Option<&'a Transition> {
    if process.start.at == place {
        return Some(&process.start.transition);
    }
    for connection in &process.connections {
        if connection.at == place {
            return Some(&connection.transition);
        }
    }
    for part in &process.states {
        if let Some(transition) = of_clauses(&part.clauses, place) {
            return Some(transition);
        }
    }
    None
}

/// Notes the answer at which the transition that begins at a place runs off, if it runs off at one.
pub(crate) fn no_end(
    told: &mut Explained,
    process: &ProcessTable,
    read: &Reading<'_>,
    at: u32,
) -> Result<(), AllocError> {
    let Some(transition) = transition_at(process.process(), at) else {
        return Ok(());
    };
    let Some(place) = in_transition(read, transition) else {
        return Ok(());
    };
    told.found = Some(place);
    told.notes.said.clear();
    told.notes.hint.clear();
    told.notes
        .said
        .push_str("this answer has no end, and nothing follows its DECISION")?;
    told.notes.hint.push_str("write NEXTSTATE, STOP or JOIN in it, or after the DECISION")
}
