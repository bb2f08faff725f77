//! The statement of a process that contains a place.
use sdl_tables::{BlockTable, ProcessTable};
use sdl_tree::{Action, Answer, Decision, Process, StateClause, Statement, Transition};

/// What contains a place: an action, a question, or an answer of a DECISION.
#[derive(Clone, Copy)]
pub enum PlacedPart<'a> {
    Action(&'a Action),
    Question(&'a Decision),
    Answer(&'a Decision, &'a Answer),
}

/// A part of a process and where it begins.
#[derive(Clone, Copy)]
pub struct Found<'a> {
    pub at: u32,
    pub standing: PlacedPart<'a>,
}

/// The later of two parts, if the second begins no later than the place; else the first.
fn later<'a>(one: Option<Found<'a>>, other: Option<Found<'a>>, place: u32) -> Option<Found<'a>> {
    let Some(second) = other else {
        return one;
    };
    if second.at > place {
        return one;
    }
    match one {
        Some(first) if first.at > second.at => one,
        _ => other,
    }
}

/// Where an action begins.
fn action_at(action: &Action) -> u32 {
    match action {
        Action::Task(task) => task.at,
        Action::Output(output) => output.at,
        Action::Set(set) => set.at,
        Action::Reset(reset) => reset.at,
    }
}

/// The part of a statement at a place, given that the statement begins no later than the place.
#[cycle(standing)]
fn in_statement<'a>(statement: &'a Statement, place: u32) -> Option<Found<'a>> {
    match statement {
        Statement::Act(action) => Some(Found {
            at: action_at(action),
            standing: PlacedPart::Action(action),
        }),
        Statement::Decide(decision) => in_decision(decision, place),
    }
}

/// The part of a DECISION at a place, given that the DECISION begins no later than the place.
#[cycle(standing)]
fn in_decision<'a>(decision: &'a Decision, place: u32) -> Option<Found<'a>> {
    let mut found = Some(Found {
        at: decision.at,
        standing: PlacedPart::Question(decision),
    });
    for answer in &decision.answers {
        let here = Some(Found {
            at: answer.at,
            standing: PlacedPart::Answer(decision, answer),
        });
        found = later(found, here, place);
        found = later(found, in_transition(&answer.body, place), place);
    }
    match &decision.otherwise {
        Some(body) => later(found, in_transition(body, place), place),
        None => found,
    }
}

/// The last part of a transition that begins no later than a place.
#[cycle(standing)]
fn in_transition<'a>(transition: &'a Transition, place: u32) -> Option<Found<'a>> {
    let mut found = None;
    for statement in &transition.statements {
        found = later(found, in_statement(statement, place), place);
    }
    found
}

/// The last part of a state's clauses that begins no later than a place.
fn in_clauses<'a>(clauses: &'a [StateClause], place: u32) -> Option<Found<'a>> {
    let mut found = None;
    for clause in clauses {
        if let StateClause::Input(input) = clause {
            found = later(found, in_transition(&input.transition, place), place);
        }
    }
    found
}

/// The part of a process that contains a place: the last one that begins no later than the place.
pub fn standing_at<'a>(process: &'a Process, place: u32) -> Option<Found<'a>> {
    let mut found = in_transition(&process.start.transition, place);
    for part in &process.states {
        found = later(found, in_clauses(&part.clauses, place), place);
    }
    for connection in &process.connections {
        found = later(found, in_transition(&connection.transition, place), place);
    }
    found
}

/// The process that contains a place: the last one whose name begins no later than the place.
pub fn process_at<'t, 'a>(table: &'t BlockTable<'a>, place: u32) -> Option<&'t ProcessTable<'a>> {
    let mut found = None;
    for process in table.tables() {
        if process.process().name.at <= place {
            found = Some(process);
        }
    }
    found
}
