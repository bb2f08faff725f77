//! Where the last transition of a path reads a variable unset; of several variables, the one read first is named.
ghost use Rattle.std.specs.Prelude.{◌≡◌, IfOk, length};
ghost use Rattle.sdl_ast.specs.Views.{process_of};
ghost use Rattle.sdl_tables.specs.Names.{variables_of};

use crate::paths::{Fate, Step};
use crate::search::path_at;
use crate::summaries::text_walker;
use crate::walker::Walker;
use sdl_ast::Transition;
use sdl_tables::{InputRow, ProcessTable};
use std::alloc::{AllocError, Global};

/// The transition of an input of a state, by their numbers.
fn transition_at<'a>(
    inputs: &[Vec<InputRow<'a>>],
    state: usize,
    number: usize,
) -> Option<&'a Transition> {
    match inputs.get(state) {
        None => None,
        Some(rows) => match rows.get(number) {
            None => None,
            Some(row) => Some(&row.input.transition),
        },
    }
}

/// The last transition of a path, given the inputs of the states.
fn last_transition<'a>(
    table: &ProcessTable<'a>,
    inputs: &[Vec<InputRow<'a>>],
    path: &[Step],
) -> Option<&'a Transition> {
    match path.last() {
        None => None,
        Some(Step::Start) => Some(&table.process().start.transition),
        Some(Step::Input(state, number)) => transition_at(inputs, *state, *number),
    }
}

/// The least place where the last transition of a path reads a variable unset, if it does so.
fn read_place(
    alloc: Global,
    table: &ProcessTable,
    walkers: &[Walker],
    last: Option<&Transition>,
    variable: usize,
) -> Result<Option<u32>, AllocError> {
    match last {
        None => Ok(None),
        Some(transition) => {
            let walked = text_walker(alloc, table, walkers, transition)?;
            Ok(walked.firsts.place(variable))
        }
    }
}

/// For each variable, by number, the least place where the last transition of its path reads it unset, or `None` if no
/// path does. The walkers are those of the connections.
pub(crate) fn read_places(
    alloc: Global,
    table: &ProcessTable,
    walkers: &[Walker],
    fates: &[Fate],
) -> Result<Vec<Option<u32>>, AllocError> {
    let inputs = table.inputs(alloc)?;
    let mut places = Vec::new(alloc);
    for variable in 0..fates.len() {
        let last = last_transition(table, &inputs, path_at(fates, variable));
        places.push(read_place(alloc, table, walkers, last, variable)?)?;
    }
    Ok(places)
}
