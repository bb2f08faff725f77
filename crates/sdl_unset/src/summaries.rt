//! Which variables each transition of a process reads and leaves unset, as a graph by numbers.
ghost use Rattle.std.specs.Prelude.{◌≡◌, ◌≤◌, ◌++◌, [], ℕ, List, map, length, IfOk, OnOk};
ghost use Rattle.std.specs.List.{flat_map, AllZip};
ghost use Rattle.sdl_unset.specs.Order.{AreSorted, IsSorted};
ghost use Rattle.sdl_ast.specs.Plain.{Text, PlainBlock};
ghost use Rattle.sdl_ast.specs.Views.{text_of, stimulus_of, input_of, process_of};
ghost use Rattle.sdl_tables.specs.Names.{variables_of, Input};
ghost use Rattle.sdl_tables.specs.Rows.{stimulus_inputs};
ghost use Rattle.sdl_sound.specs.Paths.{Event, start_transition};
ghost use Rattle.sdl_sound.specs.Chances.{joined_chances};
ghost use Rattle.sdl_sound.specs.Names.{process_unknown};
ghost use Rattle.sdl_sound.specs.Actions.{in_statements};
ghost use Rattle.sdl_sound.specs.Decisions.{statement_unanswered};
ghost use Rattle.sdl_sound.specs.Orders.{IsOrder};
ghost use Rattle.sdl_sound.specs.Standing.{taken_by, taken_in};
ghost use Rattle.sdl_unset.specs.Graphs.{IsGraphOf};
ghost use Rattle.sdl_unset.specs.Flows.{Does, Stands, AreTold, AreJoined, text_doings, ArePassages, IsSummaryBy, AreSummariesBy};
ghost use Rattle.plain_laws.specs.Limits.{MOST_VARIABLES};

use crate::flow::{Flow, initials_flow, places_flow};
use crate::paths::{Graph, Passage, Summary};
use crate::walker::Walker;
use crate::walks::walk_transition;
use sdl_ast::{InputPart, Stimulus, Transition};
use sdl_sound::standing_inputs;
use sdl_tables::ProcessTable;
use std::alloc::{AllocError, Global};

/// A passage for each state that some walk enters with a variable unset.
fn passages(alloc: Global, masks: &[u32]) -> Result<Vec<Passage>, AllocError>
    ensures passages { IfOk result (λ v. ArePassages masks.now v.items) }
    ensures sorted { IfOk result (λ v. AreSorted v.items) }
{
    let mut passages = Vec::new(alloc);
    for (state, mask) in masks.iter().enumerate() {
        if *mask != 0 {
            passages.push(Passage {
                state,
                keeps: *mask,
            })?;
        }
    }
    Ok(passages)
}

/// The walker at the end of a transition, which is the same for each signal that its INPUT names.
pub(crate) fn text_walker(
    alloc: Global,
    table: &ProcessTable,
    walkers: &[Walker],
    transition: &Transition,
) -> Result<Walker, AllocError>
    ensures { IfOk result (λ w. (told : _) → AreTold (process_of table.now) told walkers.now
        → Stands (process_of table.now) (text_doings (process_of table.now) told (text_of transition.now)) w) }
{
    let mut walker = Walker::at_start(alloc, table.states().len())?;
    walk_transition(table, walkers, &mut walker, transition);
    Ok(walker)
}

/// The summary of a transition after `first`, given the walker at the end of its text.
fn summary(
    alloc: Global,
    table: &ProcessTable,
    first: Flow,
    walked: &Walker,
) -> Result<Summary, AllocError>
    requires few { length (variables_of (process_of table.now)) ≤ MOST_VARIABLES }
    ensures { (events : List Event) (text : Text) → Does (process_of table.now) events first
        → Stands (process_of table.now) (text_doings (process_of table.now) (λ x q y. joined_chances (process_of table.now) x q y) text) walked.now
        → IfOk result (λ s. IsSummaryBy (process_of table.now) (record { first = events; text = text }) s) }
{
    let mut walker = Walker::at_start(alloc, table.states().len())?;
    walker.pass(first);
    walker.join(walked);
    let passages = passages(alloc, &walker.enters)?;
    Ok(Summary {
        reads: walker.reads,
        passages,
    })
}

/// The summary of the transition of START, after the initial values.
fn start_summary(
    alloc: Global,
    table: &ProcessTable,
    walkers: &[Walker],
) -> Result<Summary, AllocError>
    requires few { length (variables_of (process_of table.now)) ≤ MOST_VARIABLES }
    requires joined { AreJoined (process_of table.now) walkers.now }
    ensures { IfOk result (λ s. IsSummaryBy (process_of table.now) (start_transition (process_of table.now)) s) }
{
    let first = initials_flow(table, table.rows());
    let start = &table.process().start.transition;
    let walked = text_walker(alloc, table, walkers, start)?;
    summary(alloc, table, first, &walked)
}

/// Adds the summaries for the signals of an INPUT, given the walker at the end of its transition.
fn push_stimuli(
    alloc: Global,
    table: &ProcessTable,
    summaries: &mut Vec<Summary>,
    walked: &Walker,
    stimuli: &[Stimulus],
) -> Result<(), AllocError>
    requires few { length (variables_of (process_of table.now)) ≤ MOST_VARIABLES }
    ensures { (before : List Input) (at : ℕ) (text : Text)
        → Stands (process_of table.now) (text_doings (process_of table.now) (λ x q y. joined_chances (process_of table.now) x q y) text) walked.now
        → AreSummariesBy (process_of table.now) before summaries.old
        → OnOk result (AreSummariesBy (process_of table.now) (before ++ map (λ s. record { at = at; stimulus = stimulus_of s; text = text }) stimuli.now) summaries.new) }
{
    for stimulus in stimuli {
        let places = places_flow(table, &stimulus.places);
        summaries.push(summary(alloc, table, places, walked)?)?;
    }
    Ok(())
}

/// Adds the summaries for the signals of an INPUT.
fn push_input(
    alloc: Global,
    table: &ProcessTable,
    walkers: &[Walker],
    summaries: &mut Vec<Summary>,
    input: &InputPart,
) -> Result<(), AllocError>
    requires few { length (variables_of (process_of table.now)) ≤ MOST_VARIABLES }
    requires joined { AreJoined (process_of table.now) walkers.now }
    ensures { (before : List Input) → AreSummariesBy (process_of table.now) before summaries.old
        → OnOk result (AreSummariesBy (process_of table.now) (before ++ stimulus_inputs (input_of input.now)) summaries.new) }
{
    let walked = text_walker(alloc, table, walkers, &input.transition)?;
    push_stimuli(alloc, table, summaries, &walked, &input.stimuli)
}

/// The summaries of a state's inputs, given its INPUTs.
fn input_summaries(
    alloc: Global,
    table: &ProcessTable,
    walkers: &[Walker],
    inputs: &[&InputPart],
) -> Result<Vec<Summary>, AllocError>
    requires few { length (variables_of (process_of table.now)) ≤ MOST_VARIABLES }
    requires joined { AreJoined (process_of table.now) walkers.now }
    ensures { IfOk result (λ v. AreSummariesBy (process_of table.now) (flat_map taken_by inputs.now) v) }
{
    let mut summaries = Vec::new(alloc);
    for input in inputs {
        push_input(alloc, table, walkers, &mut summaries, input)?;
    }
    Ok(summaries)
}

/// The summaries of the inputs of each of these states.
fn state_summaries(
    alloc: Global,
    table: &ProcessTable,
    walkers: &[Walker],
    states: &[Vec<&InputPart>],
) -> Result<Vec<Vec<Summary>>, AllocError>
    requires few { length (variables_of (process_of table.now)) ≤ MOST_VARIABLES }
    requires joined { AreJoined (process_of table.now) walkers.now }
    ensures { IfOk result (λ v. AllZip (AreSummariesBy (process_of table.now)) (map taken_in states.now) v.items) }
{
    let mut states_summaries = Vec::new(alloc);
    for inputs in states {
        states_summaries.push(input_summaries(alloc, table, walkers, inputs)?)?;
    }
    Ok(states_summaries)
}

/// The graph of a process: the variables, by number, that the walks of each transition read and leave unset. The
/// walkers are those of its connections.
pub(crate) fn graph_of(
    alloc: Global,
    table: &ProcessTable,
    walkers: &[Walker],
) -> Result<Graph, AllocError>
    requires few { length (variables_of (process_of table.now)) ≤ MOST_VARIABLES }
    requires known { (b : PlainBlock) × (process_unknown b (process_of table.now) ≡ []) }
    requires answered { in_statements (λ from. statement_unanswered (variables_of (process_of table.now))) (process_of table.now) ≡ [] }
    requires order { (order : List ℕ) × IsOrder (process_of table.now) order }
    requires joined { AreJoined (process_of table.now) walkers.now }
    ensures graph { IfOk result (λ g. IsGraphOf (process_of table.now) g) }
    ensures sorted { IfOk result (λ g. IsSorted g) }
{
    let start = start_summary(alloc, table, walkers)?;
    let inputs = standing_inputs(alloc, table)?;
    let states = state_summaries(alloc, table, walkers, &inputs)?;
    Ok(Graph { start, states })
}
