//! Why a value, an answer or a place of an INPUT has the wrong sort, or why their number is wrong (S3).
use crate::operands::{Side, first_of, in_expression, place};
use script_point::{PlacedPart, standing_at};
use sdl_lex::Name;
use sdl_scopes::{is_truth, sort_in};
use sdl_tables::{BlockTable, ProcessTable};
use sdl_tree::{
    Action, Answer, Assignment, Expression, Identifier, Literal, Range, Sending, Sort, Stimulus,
};

/// Why a sort is wrong.
#[derive(Clone, Copy)]
pub(crate) enum Cause {
    /// An operand of an operator.
    Operand {
        side: Side,
        want: Option<Sort>,
        found: Option<Sort>,
        is_denied: bool,
    },
    /// A parameter of a signal, by its number from 1.
    Parameter {
        signal: Name,
        number: usize,
        want: Sort,
        found: Option<Sort>,
    },
    /// A variable whose value has another sort.
    Value {
        variable: Name,
        want: Option<Sort>,
        found: Option<Sort>,
    },
    /// The initial value of a variable.
    Initial {
        variable: Name,
        want: Sort,
        found: Sort,
    },
    /// A signal or a timer with the wrong number of parameters.
    Number {
        signal: Name,
        wanted: usize,
        given: usize,
    },
    /// A time of a SET that isn't an Integer.
    Time,
    /// A value in an answer to a question of Booleans, or of Integers.
    Answer {
        is_truth: bool,
        here: Here,
    },
}

/// The kind of value at the faulty place of an answer.
#[derive(Clone, Copy)]
pub(crate) enum Here {
    Integer,
    Boolean,
    Relation,
    Range,
    Nothing,
}

/// The sort of a variable, if it is declared.
fn variable_sort(process: &ProcessTable, name: Name) -> Option<Sort> {
    match process.variables().number(name) {
        None => None,
        Some(number) => match process.rows().get(number) {
            Some(row) => Some(row.sort),
            None => None,
        },
    }
}

/// The sorts of a signal's parameters; none for a timer.
fn parameters_of<'a>(block: &BlockTable<'a>, name: Name) -> &'a [Sort] {
    match block.signal(name) {
        Some(signal) => &signal.parameters,
        None => &[],
    }
}

/// The cause of S3 at a place of an assignment.
fn in_assignment(process: &ProcessTable, assignment: &Assignment, at: u32) -> Option<Cause> {
    if assignment.variable.at == at {
        return Some(Cause::Value {
            variable: assignment.variable.name,
            want: variable_sort(process, assignment.variable.name),
            found: sort_in(process, &assignment.value),
        });
    }
    in_expression(process, &assignment.value, at)
}

/// The cause of S3 at a place of assignments.
fn in_assignments(process: &ProcessTable, assignments: &[Assignment], at: u32) -> Option<Cause> {
    let mut cause = None;
    for assignment in assignments {
        cause = first_of(cause, in_assignment(process, assignment, at));
    }
    cause
}

/// The cause of S3 at a place of a parameter of a sent signal.
fn in_parameter(
    process: &ProcessTable,
    signal: Name,
    number: usize,
    want: Option<Sort>,
    parameter: &Expression,
    at: u32,
) -> Option<Cause> {
    let found = sort_in(process, parameter);
    match want {
        Some(want) if place(parameter) == at && found != Some(want) => Some(Cause::Parameter {
            signal,
            number,
            want,
            found,
        }),
        _ => in_expression(process, parameter, at),
    }
}

/// The cause of S3 at a place of a sent signal.
fn in_sending(
    block: &BlockTable,
    process: &ProcessTable,
    sending: &Sending,
    at: u32,
) -> Option<Cause> {
    let signal = sending.signal.name;
    let sorts = parameters_of(block, signal);
    if sending.signal.at == at {
        return Some(Cause::Number {
            signal,
            wanted: sorts.len(),
            given: sending.parameters.len(),
        });
    }
    let mut cause = None;
    for (index, parameter) in sending.parameters.iter().enumerate() {
        let want = sorts.get(index).copied();
        let number = index.saturating_add(1);
        cause = first_of(
            cause,
            in_parameter(process, signal, number, want, parameter, at),
        );
    }
    cause
}

/// The cause of S3 at a place of the sent signals.
fn in_sendings(
    block: &BlockTable,
    process: &ProcessTable,
    sendings: &[Sending],
    at: u32,
) -> Option<Cause> {
    let mut cause = None;
    for sending in sendings {
        cause = first_of(cause, in_sending(block, process, sending, at));
    }
    cause
}

/// The cause of S3 at a place of the time of a SET.
fn in_time(process: &ProcessTable, delay: &Expression, at: u32) -> Option<Cause> {
    if place(delay) == at && sort_in(process, delay) != Some(Sort::Integer) {
        return Some(Cause::Time);
    }
    in_expression(process, delay, at)
}

/// The cause of S3 at a place of an action.
fn in_action(
    block: &BlockTable,
    process: &ProcessTable,
    action: &Action,
    at: u32,
) -> Option<Cause> {
    match action {
        Action::Task(task) => in_assignments(process, &task.assignments, at),
        Action::Output(output) => in_sendings(block, process, &output.sendings, at),
        Action::Set(set) => in_time(process, &set.delay, at),
        Action::Reset(_) => None,
    }
}

/// The cause of S3 at an INPUT's place that stands for a parameter.
fn in_place(
    process: &ProcessTable,
    signal: Name,
    number: usize,
    want: Option<Sort>,
    place: Option<Identifier>,
    at: u32,
) -> Option<Cause> {
    match (want, place) {
        (Some(want), Some(id)) if id.at == at => Some(Cause::Parameter {
            signal,
            number,
            want,
            found: variable_sort(process, id.name),
        }),
        _ => None,
    }
}

/// The cause of S3 at a place of a signal or timer that an INPUT takes.
fn in_stimulus(
    block: &BlockTable,
    process: &ProcessTable,
    stimulus: &Stimulus,
    at: u32,
) -> Option<Cause> {
    let signal = stimulus.name.name;
    let sorts = parameters_of(block, signal);
    if stimulus.name.at == at {
        return Some(Cause::Number {
            signal,
            wanted: sorts.len(),
            given: stimulus.places.len(),
        });
    }
    let mut cause = None;
    for (index, place) in stimulus.places.iter().enumerate() {
        let want = sorts.get(index).copied();
        let number = index.saturating_add(1);
        cause = first_of(cause, in_place(process, signal, number, want, *place, at));
    }
    cause
}

/// The cause of S3 at a place of the signals and timers that an INPUT takes.
fn in_stimuli(
    block: &BlockTable,
    process: &ProcessTable,
    stimuli: &[Stimulus],
    at: u32,
) -> Option<Cause> {
    let mut cause = None;
    for stimulus in stimuli {
        cause = first_of(cause, in_stimulus(block, process, stimulus, at));
    }
    cause
}

/// The cause of S3 at a place of the INPUTs of a process.
fn in_inputs(block: &BlockTable, process: &ProcessTable, at: u32) -> Option<Cause> {
    let mut cause = None;
    for part in process.parts() {
        cause = first_of(cause, in_stimuli(block, process, &part.stimuli, at));
    }
    cause
}

/// The sort of a constant.
fn literal_sort(literal: Literal) -> Sort {
    match literal {
        Literal::Integer(_) => Sort::Integer,
        Literal::Boolean(_) => Sort::Boolean,
    }
}

/// The cause of S3 at the initial value of a variable at a place.
fn in_initials(process: &ProcessTable, at: u32) -> Option<Cause> {
    for row in process.rows() {
        match row.initial {
            Some(initial) if initial.at == at => {
                return Some(Cause::Initial {
                    variable: row.name.name,
                    want: row.sort,
                    found: literal_sort(initial.value),
                });
            }
            _ => {}
        }
    }
    None
}

/// The kind of value at a place of an answer.
fn standing_in(answer: &Answer, at: u32) -> Here {
    for range in &answer.ranges {
        match range {
            Range::Value(constant) if constant.at == at => {
                return match constant.value {
                    Literal::Integer(_) => Here::Integer,
                    Literal::Boolean(_) => Here::Boolean,
                };
            }
            Range::Compared { at: place, .. } if *place == at => return Here::Relation,
            Range::Between(least, _) if least.at == at => return Here::Range,
            _ => {}
        }
    }
    Here::Nothing
}

/// The cause of S3 at a place of a process.
pub(crate) fn wrong_sort(block: &BlockTable, process: &ProcessTable, at: u32) -> Option<Cause> {
    let declared = first_of(in_initials(process, at), in_inputs(block, process, at));
    if declared.is_some() {
        return declared;
    }
    match standing_at(process.process(), at) {
        None => None,
        Some(found) => match found.standing {
            PlacedPart::Action(action) => in_action(block, process, action, at),
            PlacedPart::Question(decision) => in_expression(process, &decision.question, at),
            PlacedPart::Answer(decision, answer) => Some(Cause::Answer {
                is_truth: is_truth(process, &decision.question),
                here: standing_in(answer, at),
            }),
        },
    }
}
