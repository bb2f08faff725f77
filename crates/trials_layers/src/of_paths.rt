//! Graphs written by hand, with the path that the rule names, or the states that may be entered with a variable unset.
use sdl_unset::{Graph, Passage, Summary, first_unset};
use std::alloc::{AllocError, Global};

/// A transition with one path: the variables it reads, the state it leads to, and the variables it doesn't set.
#[derive(Clone, Copy)]
struct Way(u32, usize, u32);

/// START, and the inputs of each state.
#[derive(Clone, Copy)]
struct Plan(Way, &'static [&'static [Way]]);

/// Input 0 of state 0 sets variable 0, input 1 doesn't; both lead to state 1, where input 0 reads the variable.
const TWO_ROWS: &[&[Way]] = &[&[Way(0, 1, 0), Way(0, 1, 1)], &[Way(1, 1, 0)]];

/// START leads to state 0.
const TWO_STATES: Plan = Plan(Way(0, 0, 1), TWO_ROWS);

/// START leads to state 1. Its inputs lead to states 0 and 2. State 2 reads the variable on its second input, state 0
/// on its first. State 3 reads it too, but nothing leads there.
const FOUR_STATES: Plan = Plan(
    Way(0, 1, 3),
    &[
        &[Way(1, 0, 1)],
        &[Way(0, 2, 1), Way(0, 0, 1)],
        &[Way(0, 1, 1), Way(1, 1, 1)],
        &[Way(2, 3, 3)],
    ],
);

/// A graph, a variable, and its fate as `Debug` prints it: the path by which it is read unset, or marks of the states
/// that may be entered with it unset.
const ROWS: [(Plan, u32, &str); 7] = [
    // the path without a setting of the variable
    (TWO_STATES, 0, "Unset([Start, Input(0, 1), Input(1, 0)])"),
    (TWO_STATES, 1, "Set([false, false])"),
    // START sets neither of two variables, and each input of state 0 sets variable 1
    (Plan(Way(0, 0, 3), TWO_ROWS), 1, "Set([true, false])"),
    (Plan(Way(0, 0, 3), TWO_ROWS), 2, "Set([false, false])"),
    // the first transition reads it
    (Plan(Way(2, 0, 1), TWO_ROWS), 1, "Unset([Start])"),
    // of paths of equal length the first in the text
    (FOUR_STATES, 0, "Unset([Start, Input(1, 0), Input(2, 1)])"),
    // a state to which nothing leads doesn't count
    (FOUR_STATES, 1, "Set([false, true, false, false])"),
];

fn summary(alloc: Global, way: &Way) -> Result<Summary, AllocError> {
    let Way(reads, state, keeps) = *way;
    let mut passages = Vec::new(alloc);
    passages.push(Passage { state, keeps })?;
    Ok(Summary { reads, passages })
}

fn summaries(alloc: Global, ways: &[Way]) -> Result<Vec<Summary>, AllocError> {
    let mut all = Vec::new(alloc);
    for way in ways {
        all.push(summary(alloc, way)?)?;
    }
    Ok(all)
}

fn states(alloc: Global, rows: &[&[Way]]) -> Result<Vec<Vec<Summary>>, AllocError> {
    let mut all = Vec::new(alloc);
    for ways in rows {
        all.push(summaries(alloc, ways)?)?;
    }
    Ok(all)
}

fn graph(alloc: Global, plan: &Plan) -> Result<Graph, AllocError> {
    Ok(Graph {
        start: summary(alloc, &plan.0)?,
        states: states(alloc, plan.1)?,
    })
}

/// The printed fate of a variable, if there may be such a variable.
fn shown(alloc: Global, plan: &Plan, variable: u32) -> Option<String> {
    if variable >= 32 {
        return None;
    }
    let graph = graph(alloc, plan).ok()?;
    let fate = first_unset(alloc, &graph, variable).ok()?;
    format!(in alloc; "{fate:?}").ok()
}

/// Whether this is printed.
fn is_shown(alloc: Global, plan: &Plan, variable: u32, wanted: &str) -> bool {
    match shown(alloc, plan, variable) {
        Some(found) => found.as_str() == wanted,
        None => false,
    }
}

/// The index of the first row for which something else is printed.
fn first_other(alloc: Global, rows: &[(Plan, u32, &str)]) -> Option<usize> {
    for (number, (plan, variable, wanted)) in rows.iter().enumerate() {
        if !is_shown(alloc, plan, *variable, wanted) {
            return Some(number);
        }
    }
    None
}

#[test]
fn the_first_of_the_shortest_paths_is_found(rt: HostRuntime) {
    assert_eq!(rt; first_other(rt.alloc(), &ROWS), None);
}
