//! The operands at once and the effects of a transition (S10), given those of the connections of its process.
use sdl_measures::{Measure, code_size, find_links, reached_in};
use sdl_sound::is_division;
use sdl_tables::ProcessTable;
use sdl_tree::{
    Action, Assignment, Decision, End, Expression, Identifier, Sending, Statement, Transition,
};
use std::alloc::{AllocError, Global};

/// The most operands at once, and the most effects on a path; up to 4,294,967,295 each.
#[derive(Clone, Copy)]
pub(crate) struct Extent {
    pub(crate) depth: u32,
    pub(crate) effects: u32,
}

/// The most operands of an expression at once; the left side waits for the right side, except in a division.
fn tree_depth(expression: &Expression) -> u32 {
    match expression {
        Expression::Number { .. } => 1,
        Expression::Truth { .. } => 1,
        Expression::Variable { .. } => 1,
        Expression::Unary { operand, .. } => tree_depth(operand),
        Expression::Binary {
            operator,
            left,
            right,
            ..
        } => {
            let below = tree_depth(right).saturating_add(1);
            let first = tree_depth(left);
            if is_division(*operator) {
                first
            } else {
                first.max(below)
            }
        }
    }
}

/// The most operands of a signal's parameters at once: earlier parameters wait.
fn parameters_depth(parameters: &[Expression]) -> u32 {
    let mut depth: u32 = 0;
    let mut waiting: u32 = 0;
    for parameter in parameters {
        depth = depth.max(tree_depth(parameter).saturating_add(waiting));
        waiting = waiting.saturating_add(1);
    }
    depth
}

/// The most operands at once in the signals of an OUTPUT, and the number of signals.
fn sendings_extent(sendings: &[Sending]) -> Extent {
    let mut extent = Extent {
        depth: 0,
        effects: 0,
    };
    for sending in sendings {
        extent.depth = extent.depth.max(parameters_depth(&sending.parameters));
        extent.effects = extent.effects.saturating_add(1);
    }
    extent
}

/// The most operands of assignments at once.
fn assignments_depth(assignments: &[Assignment]) -> u32 {
    let mut depth: u32 = 0;
    for assignment in assignments {
        depth = depth.max(tree_depth(&assignment.value));
    }
    depth
}

/// The extent of an action.
fn action_extent(action: &Action) -> Extent {
    match action {
        Action::Task(task) => Extent {
            depth: assignments_depth(&task.assignments),
            effects: 0,
        },
        Action::Output(output) => sendings_extent(&output.sendings),
        Action::Set(set) => Extent {
            depth: tree_depth(&set.delay),
            effects: 1,
        },
        Action::Reset(_) => Extent {
            depth: 0,
            effects: 1,
        },
    }
}

/// The extent of the end of a transition; without an end, `behind` effects follow.
fn end_extent(
    process: &ProcessTable,
    measures: &[Measure],
    end: Option<End>,
    behind: u32,
) -> Extent {
    match end {
        None => Extent {
            depth: 0,
            effects: behind,
        },
        Some(End::Join(join)) => match process.connectors().number(join.connector.name) {
            Some(number) => joined_extent(measures, number),
            None => Extent {
                depth: 0,
                effects: 0,
            },
        },
        Some(_) => Extent {
            depth: 0,
            effects: 0,
        },
    }
}

/// The extent of the connection with this number.
fn joined_extent(measures: &[Measure], number: usize) -> Extent {
    match measures.get(number) {
        Some(measure) => Extent {
            depth: measure.depth,
            effects: measure.effects,
        },
        None => Extent {
            depth: 0,
            effects: 0,
        },
    }
}

/// The extent of a transition; if it runs off its end, `behind` effects follow.
#[cycle(extending)]
pub(crate) fn extent_of(
    process: &ProcessTable,
    measures: &[Measure],
    transition: &Transition,
    behind: u32,
) -> Extent {
    let mut total = end_extent(process, measures, transition.end, behind);
    let mut left = transition.statements.len();
    while left > 0 {
        left -= 1;
        total = statement_extent(process, measures, &transition.statements[left], total);
    }
    total
}

/// The extent of a statement and the rest after it.
#[cycle(extending)]
fn statement_extent(
    process: &ProcessTable,
    measures: &[Measure],
    statement: &Statement,
    rest: Extent,
) -> Extent {
    match statement {
        Statement::Act(action) => {
            let own = action_extent(action);
            Extent {
                depth: own.depth.max(rest.depth),
                effects: own.effects.saturating_add(rest.effects),
            }
        }
        Statement::Decide(decision) => {
            let bodies = bodies_extent(process, measures, decision, rest.effects);
            let question = tree_depth(&decision.question);
            Extent {
                depth: question.max(bodies.depth).max(rest.depth),
                effects: bodies.effects,
            }
        }
    }
}

/// The greater depth and the greater effects of two extents.
fn greater(one: Extent, other: Extent) -> Extent {
    Extent {
        depth: one.depth.max(other.depth),
        effects: one.effects.max(other.effects),
    }
}

/// The extent of the bodies of a DECISION, after which `behind` effects follow.
#[cycle(extending)]
fn bodies_extent(
    process: &ProcessTable,
    measures: &[Measure],
    decision: &Decision,
    behind: u32,
) -> Extent {
    let mut total = match &decision.otherwise {
        None => Extent {
            depth: 0,
            effects: 0,
        },
        Some(body) => extent_of(process, measures, body, behind),
    };
    for answer in &decision.answers {
        total = greater(total, extent_of(process, measures, &answer.body, behind));
    }
    total
}

/// The number of variables among an INPUT's places.
pub(crate) fn count_places(places: &[Option<Identifier>]) -> u32 {
    let mut count: u32 = 0;
    for place in places {
        if place.is_some() {
            count = count.saturating_add(1);
        }
    }
    count
}

/// The total size of the marked connections.
fn marked_size(marks: &[bool], measures: &[Measure]) -> u32 {
    let mut total: u32 = 0;
    for (measure, mark) in measures.iter().zip(marks.iter()) {
        if *mark {
            total = total.saturating_add(measure.size);
        }
    }
    total
}

/// The number of instructions of a transition of a process, with its connections.
pub(crate) fn size_of(
    alloc: Global,
    process: &ProcessTable,
    measures: &[Measure],
    transition: &Transition,
) -> Result<u32, AllocError> {
    let links = find_links(alloc, process)?;
    let marks = reached_in(alloc, process, &links, transition)?;
    let own = code_size(process, transition);
    Ok(own.saturating_add(marked_size(&marks, measures)))
}
