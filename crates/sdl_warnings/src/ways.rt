//! The ways among the states of a process.
ghost use Rattle.std.specs.Prelude.{◌≡◌, ◌||◌, ◌<◌, ◌&&◌, ℕ, [], map, filter, length, IfOk, OnOk};
ghost use Rattle.std.specs.List.{list_any};
ghost use Rattle.sdl_ast.specs.Views.{text_of, process_of};
ghost use Rattle.sdl_tables.specs.Names.{states_of, is_state, connector_names, inputs_of, inputs_by_state};
ghost use Rattle.sdl_tables.specs.Scopes.{repeats};
ghost use Rattle.sdl_sound.specs.Orders.{links_of};
ghost use Rattle.sdl_measures.specs.Links.{graph_in, IsGraph};
ghost use Rattle.sdl_tables.specs.Rows.{row_input, rows_inputs};
ghost use Rattle.sdl_warnings.specs.Marked.{is_marked};
ghost use Rattle.sdl_warnings.specs.Standing.{AreWays};
ghost use Rattle.sdl_warnings.specs.Reaches.{is_way_in};
ghost use Rattle.sdl_warnings.specs.Ways.{enters, leads, upto, state_numbers, state_links, is_way};

use crate::exits::{exits_of, is_marked, mark_states};
use crate::reaching::find_ways;
use sdl_ast::Transition;
use sdl_measures::find_links;
use sdl_tables::{InputRow, ProcessTable};
use std::alloc::{AllocError, Global};

/// Also marks each state in which a transition may end.
fn mark_exits(
    alloc: Global,
    process: &ProcessTable,
    links: &[Vec<usize>],
    transition: &Transition,
    marks: &mut Vec<bool>,
) -> Result<(), AllocError>
    requires links { graph_in links.now ≡ links_of (process_of process.now) }
    requires graph { IsGraph (graph_in links.now) }
    requires distinct { repeats [] (connector_names (process_of process.now)) ≡ [] }
    requires len { length marks.old.items ≡ length (states_of (process_of process.now)) }
    ensures len { OnOk result (length marks.new.items ≡ length marks.old.items) }
    ensures marks { OnOk result ((n : ℕ) → is_marked marks.new.items n ≡ (is_marked marks.old.items n || enters (process_of process.now) (text_of transition.now) n)) }
{
    let ids = exits_of(alloc, process, links, transition)?;
    mark_states(marks, process.states(), &ids);
    Ok(())
}

/// Marks each state to which these inputs lead.
fn marks_of_inputs(
    alloc: Global,
    process: &ProcessTable,
    links: &[Vec<usize>],
    inputs: &[InputRow<'_>],
) -> Result<Vec<bool>, AllocError>
    requires links { graph_in links.now ≡ links_of (process_of process.now) }
    requires graph { IsGraph (graph_in links.now) }
    requires distinct { repeats [] (connector_names (process_of process.now)) ≡ [] }
    ensures len { IfOk result (λ v. length v.items ≡ length (states_of (process_of process.now))) }
    ensures marks { IfOk result (λ v. (n : ℕ) → is_marked v.items n ≡ list_any (λ i. enters (process_of process.now) i.text n) (map row_input inputs.now)) }
{
    let mut marks = vec![in alloc; false; process.states().len()]?;
    for row in inputs {
        mark_exits(alloc, process, links, &row.input.transition, &mut marks)?;
    }
    Ok(marks)
}

/// The numbers that have a mark.
fn marked_numbers(alloc: Global, marks: &[bool]) -> Result<Vec<usize>, AllocError>
    ensures { IfOk result (λ v. v.items ≡ filter (is_marked marks.now) (upto (length marks.now))) }
{
    let mut numbers = Vec::new(alloc);
    for number in 0..marks.len() {
        if is_marked(marks, number) {
            numbers.push(number)?;
        }
    }
    Ok(numbers)
}

/// The states to which these inputs lead.
fn targets_of_inputs(
    alloc: Global,
    process: &ProcessTable,
    links: &[Vec<usize>],
    inputs: &[InputRow<'_>],
) -> Result<Vec<usize>, AllocError>
    requires links { graph_in links.now ≡ links_of (process_of process.now) }
    requires graph { IsGraph (graph_in links.now) }
    requires distinct { repeats [] (connector_names (process_of process.now)) ≡ [] }
    ensures { IfOk result (λ v. v.items ≡ filter (λ n. list_any (λ i. enters (process_of process.now) i.text n) (map row_input inputs.now)) (state_numbers (process_of process.now))) }
{
    let marks = marks_of_inputs(alloc, process, links, inputs)?;
    let numbers = marked_numbers(alloc, &marks)?;
    Ok(numbers)
}

/// For each state, the states to which its inputs lead.
fn graph_of(
    alloc: Global,
    process: &ProcessTable,
    links: &[Vec<usize>],
    states: &[Vec<InputRow<'_>>],
) -> Result<Vec<Vec<usize>>, AllocError>
    requires links { graph_in links.now ≡ links_of (process_of process.now) }
    requires graph { IsGraph (graph_in links.now) }
    requires distinct { repeats [] (connector_names (process_of process.now)) ≡ [] }
    requires inputs { map rows_inputs states.now ≡ inputs_by_state (process_of process.now) }
    ensures { IfOk result (λ v. graph_in v.items ≡ state_links (process_of process.now)) }
{
    let mut graph = Vec::new(alloc);
    for inputs in states {
        graph.push(targets_of_inputs(alloc, process, links, inputs)?)?;
    }
    Ok(graph)
}

/// The ways among the states of a process, and the states in which START may end.
#[derive(Drop)]
pub(crate) struct Ways {
    /// For each state, those from which a way leads to it.
    to: Vec<Vec<bool>>,
    /// A mark for each state in which START's transition may end.
    first: Vec<bool>,
}

/// The ways of a process.
pub(crate) fn ways_of(
    alloc: Global,
    process: &ProcessTable,
    states: &[Vec<InputRow<'_>>],
) -> Result<Ways, AllocError>
    requires inputs { map rows_inputs states.now ≡ inputs_by_state (process_of process.now) }
    ensures ways { IfOk result (AreWays (process_of process.now)) }
{
    let links = find_links(alloc, process)?;
    let graph = graph_of(alloc, process, &links, states)?;
    let to = find_ways(alloc, &graph)?;
    let mut first = vec![in alloc; false; process.states().len()]?;
    let start = &process.process().start.transition;
    mark_exits(alloc, process, &links, start, &mut first)?;
    Ok(Ways { to, first })
}

/// Whether a way leads from one state to another.
fn is_way(ways: &[Vec<bool>], from: usize, to: usize) -> bool
    ensures { result ≡ is_way_in ways.now from to }
{
    match ways.get(to) {
        Some(row) => is_marked(row, from),
        None => false,
    }
}

/// Whether a way leads from START to a state.
pub(crate) fn is_entered(ways: &Ways, number: usize) -> bool
    ensures { result ≡ list_any (λ s. is_marked ways.now.first.items s && is_way_in ways.now.to.items s number) (upto (length ways.now.first.items)) }
{
    let mut any = false;
    for first in 0..ways.first.len() {
        any |= is_marked(&ways.first, first) && is_way(&ways.to, first, number);
    }
    any
}

/// Whether a way leads from a state to a marked one.
pub(crate) fn comes_to(ways: &Ways, marks: &[bool], number: usize) -> bool
    ensures { result ≡ list_any (λ n. is_way_in ways.now.to.items number n && is_marked marks.now n) (upto (length marks.now)) }
{
    let mut any = false;
    for last in 0..marks.len() {
        any |= is_way(&ways.to, number, last) && is_marked(marks, last);
    }
    any
}
