//! The parts of a process.
ghost use Rattle.std.specs.Prelude.{◌≡◌, ◌++◌, ◌∷◌, [], map, OnOk, IfOk};
ghost use Rattle.std.specs.List.{flat_map};
ghost use Rattle.sdl_tables.specs.Names.{states_of};
ghost use Rattle.sdl_ast.specs.Views.{block_of, clause_of, connection_of, input_of, process_of, start_of, state_of};
ghost use Rattle.draw_text.specs.Parts.{part_of};
ghost use Rattle.draw_text.specs.Pieces.{first_place, input_parts, save_parts, clause_parts, state_head, state_parts, start_parts, connection_parts, process_parts};

use crate::parts::{Kind, Part, push_mark, push_symbol};
use crate::transitions::push_transition;
use crate::{Names, push_names, push_stimuli, push_triggers};
use sdl_ast::{Connection, Identifier, InputPart, Start, StateClause, StatePart};
use std::alloc::{AllocError, Global};

/// The place of the first of these names; 0 if there are none.
fn first_place(ids: &[Identifier]) -> u32
    ensures { result ≡ first_place ids.now }
{
    match ids {
        [first, ..] => first.at,
        [] => 0,
    }
}

/// Appends an INPUT to `parts`.
fn push_input(
    alloc: Global,
    parts: &mut Vec<Part>,
    names: &Names<'_, '_>,
    input: &InputPart,
) -> Result<(), AllocError>
    ensures { OnOk result (map part_of parts.new.items ≡ map part_of parts.old.items ++ input_parts (block_of names.now.block.now) (process_of names.now.process.now) (input_of input.now)) }
{
    let mut text = Vec::new(alloc);
    push_stimuli(&mut text, names, &input.stimuli)?;
    push_mark(alloc, parts, Kind::Branch)?;
    push_symbol(parts, Kind::Input, input.at, text)?;
    push_transition(alloc, parts, names, &input.transition)
}

/// Appends a SAVE to `parts`.
fn push_save(
    alloc: Global,
    parts: &mut Vec<Part>,
    names: &Names<'_, '_>,
    ids: &[Identifier],
) -> Result<(), AllocError>
    ensures { OnOk result (map part_of parts.new.items ≡ map part_of parts.old.items ++ save_parts (block_of names.now.block.now) (process_of names.now.process.now) ids.now) }
{
    let mut text = Vec::new(alloc);
    push_triggers(&mut text, names, ids)?;
    push_mark(alloc, parts, Kind::Branch)?;
    push_symbol(parts, Kind::Save, first_place(ids), text)
}

/// Appends an INPUT or a SAVE to `parts`.
fn push_clause(
    alloc: Global,
    parts: &mut Vec<Part>,
    names: &Names<'_, '_>,
    clause: &StateClause,
) -> Result<(), AllocError>
    ensures { OnOk result (map part_of parts.new.items ≡ map part_of parts.old.items ++ clause_parts (block_of names.now.block.now) (process_of names.now.process.now) (clause_of clause.now)) }
{
    match clause {
        StateClause::Input(input) => push_input(alloc, parts, names, input),
        StateClause::Save(ids) => push_save(alloc, parts, names, ids),
    }
}

/// Appends the INPUTs and SAVEs of a STATE part to `parts`.
fn push_clauses(
    alloc: Global,
    parts: &mut Vec<Part>,
    names: &Names<'_, '_>,
    clauses: &[StateClause],
) -> Result<(), AllocError>
    ensures { OnOk result (map part_of parts.new.items ≡ map part_of parts.old.items ++ flat_map (clause_parts (block_of names.now.block.now) (process_of names.now.process.now)) (map clause_of clauses.now)) }
{
    for clause in clauses {
        push_clause(alloc, parts, names, clause)?;
    }
    Ok(())
}

/// Appends the names of a STATE part, and the fork after them, to `parts`.
fn push_state_head(
    alloc: Global,
    parts: &mut Vec<Part>,
    names: &Names<'_, '_>,
    ids: &[Identifier],
) -> Result<(), AllocError>
    ensures { OnOk result (map part_of parts.new.items ≡ map part_of parts.old.items ++ state_head (process_of names.now.process.now) ids.now) }
{
    let mut text = Vec::new(alloc);
    push_names(&mut text, names.process.states(), ids, b",\n")?;
    push_symbol(parts, Kind::State, first_place(ids), text)?;
    push_mark(alloc, parts, Kind::Fork)
}

/// Appends a STATE part to `parts`.
pub fn push_state(
    alloc: Global,
    parts: &mut Vec<Part>,
    names: &Names<'_, '_>,
    state: &StatePart,
) -> Result<(), AllocError>
    ensures { OnOk result (map part_of parts.new.items ≡ map part_of parts.old.items ++ state_parts (block_of names.now.block.now) (process_of names.now.process.now) (state_of state.now)) }
{
    push_state_head(alloc, parts, names, &state.names)?;
    push_clauses(alloc, parts, names, &state.clauses)?;
    push_mark(alloc, parts, Kind::Meet)
}

/// Appends START to `parts`.
pub fn push_start(
    alloc: Global,
    parts: &mut Vec<Part>,
    names: &Names<'_, '_>,
    start: &Start,
) -> Result<(), AllocError>
    ensures { OnOk result (map part_of parts.new.items ≡ map part_of parts.old.items ++ start_parts (block_of names.now.block.now) (process_of names.now.process.now) (start_of start.now)) }
{
    push_symbol(parts, Kind::Start, start.at, Vec::new(alloc))?;
    push_transition(alloc, parts, names, &start.transition)
}

/// Appends a CONNECTION to `parts`.
pub fn push_connection(
    alloc: Global,
    parts: &mut Vec<Part>,
    names: &Names<'_, '_>,
    connection: &Connection,
) -> Result<(), AllocError>
    ensures { OnOk result (map part_of parts.new.items ≡ map part_of parts.old.items ++ connection_parts (block_of names.now.block.now) (process_of names.now.process.now) (connection_of connection.now)) }
{
    let text = Vec::from_slice(alloc, connection.name.name.as_bytes())?;
    push_symbol(parts, Kind::Connector, connection.at, text)?;
    push_transition(alloc, parts, names, &connection.transition)
}

/// Appends the STATE parts of a process to `parts`.
fn push_states(
    alloc: Global,
    parts: &mut Vec<Part>,
    names: &Names<'_, '_>,
    states: &[StatePart],
) -> Result<(), AllocError>
    ensures { OnOk result (map part_of parts.new.items ≡ map part_of parts.old.items ++ flat_map (state_parts (block_of names.now.block.now) (process_of names.now.process.now)) (map state_of states.now)) }
{
    for state in states {
        push_state(alloc, parts, names, state)?;
    }
    Ok(())
}

/// Appends the CONNECTIONs of a process to `parts`.
fn push_connections(
    alloc: Global,
    parts: &mut Vec<Part>,
    names: &Names<'_, '_>,
    connections: &[Connection],
) -> Result<(), AllocError>
    ensures { OnOk result (map part_of parts.new.items ≡ map part_of parts.old.items ++ flat_map (connection_parts (block_of names.now.block.now) (process_of names.now.process.now)) (map connection_of connections.now)) }
{
    for connection in connections {
        push_connection(alloc, parts, names, connection)?;
    }
    Ok(())
}

/// Returns the parts of a process: START, the STATE parts and the CONNECTIONs, each group in the order of the text.
pub fn process_parts(alloc: Global, names: &Names<'_, '_>) -> Result<Vec<Part>, AllocError>
    ensures { IfOk result (λ v. map part_of v.items ≡ process_parts (block_of names.now.block.now) (process_of names.now.process.now)) }
{
    let process = names.process.process();
    let mut parts = Vec::new(alloc);
    push_start(alloc, &mut parts, names, &process.start)?;
    push_states(alloc, &mut parts, names, &process.states)?;
    push_connections(alloc, &mut parts, names, &process.connections)?;
    Ok(parts)
}
