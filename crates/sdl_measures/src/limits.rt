//! The limits of a block: how long and how deep its transitions are, and how many things of each kind it has.
ghost use Rattle.std.specs.Prelude.{◌≡◌, ◌++◌, ◌∷◌, [], ℕ, List, map, min, nat_lt, length, sum_by, find, IfOk};
ghost use Rattle.std.specs.List.{flat_map, list_any};
ghost use Rattle.plain_laws.specs.Limits.{MOST_PARAMETERS, MOST_STATES, MOST_TIMERS_EACH, MOST_VARIABLES};
ghost use Rattle.sdl_ast.specs.Views.{text_of, stimulus_of, input_of, process_of, block_of, signal_of};
ghost use Rattle.sdl_tables.specs.Names.{connector_names, processes_of, signals_of, states_of, variables_of, timers_of};
ghost use Rattle.sdl_tables.specs.Rows.{rows_inputs, stimulus_inputs};
ghost use Rattle.sdl_tables.specs.Scopes.{repeats};
ghost use Rattle.sdl_measures.specs.Links.{graph_in, IsGraph};
ghost use Rattle.sdl_sound.specs.Orders.{links_of};
ghost use Rattle.sdl_sound.specs.Longest.{Piece, pieces_of, start_piece, input_piece};
ghost use Rattle.sdl_measures.specs.Measures.{capped, AreMeasures, AllMeasures};
ghost use Rattle.sdl_measures.specs.Rows.{marked_size, stimulus_piece, IsExtent, IsPassed, ArePassed, AllPassed, IsEither};
ghost use Rattle.sdl_sound.specs.Standing.{taken_by, taken_in};
ghost use Rattle.sdl_ast.specs.Plain.{Text, PlainProcess, PlainBlock};
ghost use Rattle.sdl_measures.specs.Counting.{measure_at};
ghost use Rattle.sdl_sound.specs.declared.fault.Limit.TheVariants.{Instances};
ghost use Rattle.sdl_sound.specs.Limits.{exceeds, wrong_instances, number_limits, later_limits, first_limit};

use crate::counts::{places_cost, places_depth};
use crate::joins::{find_links, reached_in};
use crate::measures::{Measure, NOTHING, measure_transition};
use sdl_ast::{Identifier, InputPart, SignalDeclaration, Stimulus, Transition};
use sdl_sound::{Limit, standing_inputs};
use sdl_tables::{BlockTable, InputRow, ProcessTable};
use std::alloc::{AllocError, Global};

/// Whether a transition passes the limit on its size, on its depth, or on its effects.
#[derive(Clone, Copy, Debug)]
struct Passed {
    size: bool,
    depth: bool,
    effects: bool,
}

const NONE_PASSED: Passed = Passed {
    size: false,
    depth: false,
    effects: false,
};

/// The limits that at least one of two transitions passes.
fn either(one: Passed, other: Passed) -> Passed
    ensures { IsEither one other result }
{
    Passed {
        size: one.size || other.size,
        depth: one.depth || other.depth,
        effects: one.effects || other.effects,
    }
}

/// The total size of the marked connections.
fn marked_size(marks: &[bool], measures: &[Measure]) -> u32
    ensures { result ≡ capped (marked_size marks.now measures.now) }
{
    let mut total: u32 = 0;
    for (number, mark) in marks.iter().enumerate() {
        if *mark {
            total = total.saturating_add(size_at(measures, number));
        }
    }
    total
}

/// The size of the connection with this number, or 0 if it has no measure.
fn size_at(measures: &[Measure], number: usize) -> u32
    ensures { result ≡ (measure_at measures.now number).size }
{
    match measures.get(number) {
        None => 0,
        Some(measure) => measure.size,
    }
}

/// What a transition has with its connections, each up to 4,294,967,295: instructions, operands at once, effects.
/// It leaves out the places of the signals of its INPUT, and so is the same for each of these signals.
#[derive(Clone, Copy, Debug)]
struct Extent {
    size: u32,
    depth: u32,
    effects: u32,
}

/// The extent of a transition, given the links and the measures of the connections.
fn measure_extent(
    alloc: Global,
    process: &ProcessTable,
    links: &[Vec<usize>],
    measures: &[Measure],
    transition: &Transition,
) -> Result<Extent, AllocError>
    requires links { graph_in links.now ≡ links_of (process_of process.now) }
    requires graph { IsGraph (graph_in links.now) }
    requires distinct { repeats [] (connector_names (process_of process.now)) ≡ [] }
    requires measures { AreMeasures (process_of process.now) measures.now }
    ensures { IfOk result (IsExtent (process_of process.now) (text_of transition.now)) }
{
    let marks = reached_in(alloc, process, links, transition)?;
    let own = measure_transition(process, measures, transition, NOTHING);
    Ok(Extent {
        size: own.size.saturating_add(marked_size(&marks, measures)),
        depth: own.depth,
        effects: own.effects,
    })
}

/// The limits that a transition of this extent passes, together with the places that come before it.
fn pass_places(extent: Extent, places: &[Option<Identifier>]) -> Passed
    ensures { (p : PlainProcess) (t : Text) → IsExtent p t extent → IsPassed p (record { places = places.now; text = t }) result }
{
    Passed {
        size: places_cost(places).saturating_add(extent.size) > 512,
        depth: places_depth(places).max(extent.depth) > 16,
        effects: extent.effects > 32,
    }
}

/// The limits that a transition of this extent passes, together with the places of any of these signals.
fn pass_stimuli(extent: Extent, stimuli: &[Stimulus]) -> Passed
    ensures { (p : PlainProcess) (t : Text) → IsExtent p t extent → ArePassed p (map (stimulus_piece t) (map stimulus_of stimuli.now)) result }
{
    let mut passed = NONE_PASSED;
    for stimulus in stimuli {
        passed = either(passed, pass_places(extent, &stimulus.places));
    }
    passed
}

/// Adds the limits that one more INPUT passes, unless a transition is already too long: that limit comes first.
fn pass_input(
    alloc: Global,
    process: &ProcessTable,
    links: &[Vec<usize>],
    measures: &[Measure],
    passed: Passed,
    input: &InputPart,
) -> Result<Passed, AllocError>
    requires links { graph_in links.now ≡ links_of (process_of process.now) }
    requires graph { IsGraph (graph_in links.now) }
    requires distinct { repeats [] (connector_names (process_of process.now)) ≡ [] }
    requires measures { AreMeasures (process_of process.now) measures.now }
    ensures { (qs : List Piece) → ArePassed (process_of process.now) qs passed
        → IfOk result (ArePassed (process_of process.now) (qs ++ map input_piece (stimulus_inputs (input_of input.now)))) }
{
    if passed.size {
        return Ok(passed);
    }
    let extent = measure_extent(alloc, process, links, measures, &input.transition)?;
    Ok(either(passed, pass_stimuli(extent, &input.stimuli)))
}

/// The limits that the INPUTs of a state pass.
fn pass_inputs(
    alloc: Global,
    process: &ProcessTable,
    links: &[Vec<usize>],
    measures: &[Measure],
    inputs: &[&InputPart],
) -> Result<Passed, AllocError>
    requires links { graph_in links.now ≡ links_of (process_of process.now) }
    requires graph { IsGraph (graph_in links.now) }
    requires distinct { repeats [] (connector_names (process_of process.now)) ≡ [] }
    requires measures { AreMeasures (process_of process.now) measures.now }
    ensures { IfOk result (ArePassed (process_of process.now) (map input_piece (flat_map taken_by inputs.now))) }
{
    let mut passed = NONE_PASSED;
    for input in inputs {
        passed = pass_input(alloc, process, links, measures, passed, input)?;
    }
    Ok(passed)
}

/// The limits that the INPUTs of all states pass.
fn pass_states(
    alloc: Global,
    process: &ProcessTable,
    links: &[Vec<usize>],
    measures: &[Measure],
    states: &[Vec<&InputPart>],
) -> Result<Passed, AllocError>
    requires links { graph_in links.now ≡ links_of (process_of process.now) }
    requires graph { IsGraph (graph_in links.now) }
    requires distinct { repeats [] (connector_names (process_of process.now)) ≡ [] }
    requires measures { AreMeasures (process_of process.now) measures.now }
    ensures { IfOk result (ArePassed (process_of process.now) (flat_map (map input_piece) (map taken_in states.now))) }
{
    let mut passed = NONE_PASSED;
    for inputs in states {
        passed = either(
            passed,
            pass_inputs(alloc, process, links, measures, inputs)?,
        );
    }
    Ok(passed)
}

/// The limits that the transition of START passes.
fn pass_start(
    alloc: Global,
    process: &ProcessTable,
    links: &[Vec<usize>],
    measures: &[Measure],
) -> Result<Passed, AllocError>
    requires links { graph_in links.now ≡ links_of (process_of process.now) }
    requires graph { IsGraph (graph_in links.now) }
    requires distinct { repeats [] (connector_names (process_of process.now)) ≡ [] }
    requires measures { AreMeasures (process_of process.now) measures.now }
    ensures { IfOk result (IsPassed (process_of process.now) (start_piece (process_of process.now))) }
{
    let start = &process.process().start.transition;
    let extent = measure_extent(alloc, process, links, measures, start)?;
    Ok(pass_places(extent, &[]))
}

/// The limits that the transitions of a process pass, given the measures of its connections.
fn pass_process(
    alloc: Global,
    process: &ProcessTable,
    measures: &[Measure],
) -> Result<Passed, AllocError>
    requires { AreMeasures (process_of process.now) measures.now }
    ensures { IfOk result (ArePassed (process_of process.now) (pieces_of (process_of process.now))) }
{
    let links = find_links(alloc, process)?;
    let first = pass_start(alloc, process, &links, measures)?;
    let inputs = standing_inputs(alloc, process)?;
    let others = pass_states(alloc, process, &links, measures, &inputs)?;
    Ok(either(first, others))
}

/// The limits that the transitions of all processes pass, given the measures of their connections.
fn pass_processes(
    alloc: Global,
    processes: &[ProcessTable],
    measures: &[Vec<Measure>],
) -> Result<Passed, AllocError>
    requires { AllMeasures (map process_of processes.now) measures.now }
    ensures { IfOk result (AllPassed (map process_of processes.now)) }
{
    let mut passed = NONE_PASSED;
    for (place, process) in processes.iter().enumerate() {
        passed = either(passed, pass_process(alloc, process, &measures[place])?);
    }
    Ok(passed)
}

/// Whether a process has more than 64 states.
fn has_many_states(tables: &[ProcessTable]) -> bool
    ensures { result ≡ list_any (λ p. nat_lt MOST_STATES (length (states_of p))) (map process_of tables.now) }
{
    let mut any = false;
    for table in tables {
        any |= table.states().len() > 64;
    }
    any
}

/// Whether a process has more than 32 variables.
fn has_many_variables(tables: &[ProcessTable]) -> bool
    ensures { result ≡ list_any (λ p. nat_lt MOST_VARIABLES (length (variables_of p))) (map process_of tables.now) }
{
    let mut any = false;
    for table in tables {
        any |= table.rows().len() > 32;
    }
    any
}

/// Whether a process has more than 8 timers.
fn has_many_timers(tables: &[ProcessTable]) -> bool
    ensures { result ≡ list_any (λ p. nat_lt MOST_TIMERS_EACH (length (timers_of p))) (map process_of tables.now) }
{
    let mut any = false;
    for table in tables {
        any |= table.timers().len() > 8;
    }
    any
}

/// Whether a process has more than 8 instances, or none.
fn has_wrong_instances(tables: &[ProcessTable]) -> bool
    ensures { result ≡ list_any (λ p. wrong_instances p.instances) (map process_of tables.now) }
{
    let mut any = false;
    for table in tables {
        any |= is_wrong_count(table.process().instances);
    }
    any
}

/// Whether a process can't have this number of instances.
fn is_wrong_count(instances: u32) -> bool
    ensures { result ≡ wrong_instances instances }
{
    instances < 1 || 8 < instances
}

/// Whether a signal has more than 4 parameters.
fn has_many_parameters(rows: &[&SignalDeclaration]) -> bool
    ensures { result ≡ list_any (λ s. nat_lt MOST_PARAMETERS (length s.parameters)) (map (λ s. signal_of s.now) rows.now) }
{
    let mut any = false;
    for row in rows {
        any |= row.parameters.len() > 4;
    }
    any
}

/// How many inputs states have, one for each signal that an INPUT names; the count stops at 2^64 - 1.
fn count_inputs(states: &[Vec<InputRow>]) -> usize
    ensures { result ≡ min (length (flat_map (map input_piece) (map rows_inputs states.now))) 18446744073709551615 }
{
    let mut count: usize = 0;
    for rows in states {
        count = count.saturating_add(rows.len());
    }
    count
}

/// How many pieces processes have, one for START and one for each input; the count stops at 2^64 - 1.
fn count_pieces(alloc: Global, tables: &[ProcessTable]) -> Result<usize, AllocError>
    ensures { IfOk result (λ n. n ≡ min (sum_by (λ p. length (pieces_of p)) (map process_of tables.now)) 18446744073709551615) }
{
    let mut count: usize = 0;
    for table in tables {
        let inputs = table.inputs(alloc)?;
        count = count.saturating_add(count_inputs(&inputs).saturating_add(1));
    }
    Ok(count)
}

/// The first limit on a number of things. Pieces come last, when states and signals are known to be few.
fn first_count(alloc: Global, block: &BlockTable) -> Result<Option<Limit>, AllocError>
    ensures { IfOk result (λ o. o ≡ find (exceeds (block_of block.now)) number_limits) }
{
    let tables = block.tables();
    if tables.len() > 16 {
        return Ok(Some(Limit::Processes));
    }
    if has_many_states(tables) {
        return Ok(Some(Limit::States));
    }
    if has_many_variables(tables) {
        return Ok(Some(Limit::Variables));
    }
    if has_many_timers(tables) {
        return Ok(Some(Limit::Timers));
    }
    if block.rows().len() > 128 {
        return Ok(Some(Limit::Signals));
    }
    if has_many_parameters(block.rows()) {
        return Ok(Some(Limit::Params));
    }
    if count_pieces(alloc, tables)? > 4096 {
        return Ok(Some(Limit::Pieces));
    }
    Ok(None)
}

/// The first limit that a transition passes, in the order size, depth, effects; after these the limit on instances.
fn first_passed(passed: Passed, instances: bool) -> Option<Limit>
    ensures { (b : PlainBlock) → AllPassed (processes_of b) passed → instances ≡ exceeds b Instances → result ≡ find (exceeds b) later_limits }
{
    if passed.size {
        return Some(Limit::Piece);
    }
    if passed.depth {
        return Some(Limit::Depth);
    }
    if passed.effects {
        return Some(Limit::Effects);
    }
    if instances {
        return Some(Limit::Instances);
    }
    None
}

/// The first limit that a block passes, or `None`, given the measures of its connections. (S10, of this profile.)
pub fn first_limit(
    alloc: Global,
    block: &BlockTable,
    measures: &[Vec<Measure>],
) -> Result<Option<Limit>, AllocError>
    requires { AllMeasures (processes_of (block_of block.now)) measures.now }
    ensures { IfOk result (λ o. o ≡ first_limit (block_of block.now)) }
{
    let counted = first_count(alloc, block)?;
    match counted {
        Some(which) => Ok(Some(which)),
        None => {
            let tables = block.tables();
            let passed = pass_processes(alloc, tables, measures)?;
            Ok(first_passed(passed, has_wrong_instances(tables)))
        }
    }
}
