//! The transitions of a text, with their names and numbers of turns.
ghost use Rattle.std.specs.Prelude.{◌≡◌, ◌++◌, [], Some, unwrap_or, map, IfOk, OnOk};
ghost use Rattle.sdl_ast.specs.Views.{block_of, process_of};
ghost use Rattle.sdl_tables.specs.Names.{number_of, signal_names, processes_of};
ghost use Rattle.sdl_tables.specs.Rows.{row_input, rows_inputs};
ghost use Rattle.script_covered.specs.Covered.{known_turns};
ghost use Rattle.script_covered.specs.Lcov.{row_of, named_as, declared_name, start_name, input_name, state_rows, states_rows, process_rows, all_rows};

use crate::coverage::TurnCounts;
use sdl_ast::Identifier;
use sdl_lex::Name;
use sdl_tables::{BlockTable, InputRow, NameTable, ProcessTable};
use std::alloc::{AllocError, Global};

/// A transition: the place of its START or INPUT, its name, and the number of its turns.
#[derive(Drop)]
pub(crate) struct Row {
    pub(crate) at: u32,
    pub(crate) name: Vec<u8>,
    pub(crate) turns: u64,
}

/// A state by the numbers of its process and of itself.
#[derive(Clone, Copy)]
struct StatePlace {
    owner: usize,
    state: usize,
}

/// A name as it is declared, if it is declared.
fn named_as(names: &NameTable, name: Name) -> Option<Name>
    ensures { result ≡ named_as (number_of names.now name) names.now }
{
    match names.number(name) {
        Some(number) => match names.get(number) {
            Some(identifier) => Some(identifier.name),
            None => None,
        },
        None => None,
    }
}

/// The name of a signal or of a timer as it is declared.
fn declared_name(signals: &NameTable, timers: &NameTable, written: &Identifier) -> Name
    ensures { result ≡ declared_name signals.now timers.now written.now }
{
    match named_as(signals, written.name) {
        Some(name) => name,
        None => match named_as(timers, written.name) {
            Some(name) => name,
            None => written.name,
        },
    }
}

/// `PROCESS START`.
fn start_name(alloc: Global, process: &ProcessTable<'_>) -> Result<Vec<u8>, AllocError>
    ensures { IfOk result (λ v. v.items ≡ start_name (process_of process.now)) }
{
    let mut name = Vec::new(alloc);
    name.extend_from_slice(process.process().name.name.as_bytes())?;
    name.extend_from_slice(b" START")?;
    Ok(name)
}

/// Appends the name of a state.
fn push_state(name: &mut Vec<u8>, states: &NameTable, state: usize) -> Result<(), AllocError>
    ensures { OnOk result (name.new.items ≡ name.old.items ++ unwrap_or (named_as (Some state) states.now) []) }
{
    match states.get(state) {
        Some(identifier) => Ok(name.extend_from_slice(identifier.name.as_bytes())?),
        None => Ok(()),
    }
}

/// `PROCESS STATE/INPUT`, as `check` prints it.
fn input_name(
    alloc: Global,
    signals: &NameTable,
    process: &ProcessTable<'_>,
    state: usize,
    row: &InputRow<'_>,
) -> Result<Vec<u8>, AllocError>
    ensures { IfOk result (λ v. v.items ≡ input_name signals.now (process_of process.now) state (row_input row.now)) }
{
    let mut name = Vec::new(alloc);
    name.extend_from_slice(process.process().name.name.as_bytes())?;
    name.push(b' ')?;
    push_state(&mut name, process.states(), state)?;
    name.push(b'/')?;
    let declared = declared_name(signals, process.timers(), &row.stimulus.name);
    name.extend_from_slice(declared.as_bytes())?;
    Ok(name)
}

/// Appends the rows of the inputs of a state.
fn push_state_rows(
    alloc: Global,
    rows: &mut Vec<Row>,
    turns: &TurnCounts,
    signals: &NameTable,
    process: &ProcessTable<'_>,
    place: StatePlace,
    inputs: &[InputRow<'_>],
) -> Result<(), AllocError>
    ensures { OnOk result (map row_of rows.new.items
        ≡ map row_of rows.old.items ++ state_rows (known_turns turns.now.turns.items) signals.now (process_of process.now) place.owner place.state 0 (map row_input inputs.now)) }
{
    for (number, input) in inputs.iter().enumerate() {
        let name = input_name(alloc, signals, process, place.state, input)?;
        rows.push(Row {
            at: input.input.at,
            name,
            turns: turns.times(place.owner, Some(place.state), number),
        })?;
    }
    Ok(())
}

/// Appends the rows of the inputs of each state of a process.
fn push_states_rows(
    alloc: Global,
    rows: &mut Vec<Row>,
    turns: &TurnCounts,
    signals: &NameTable,
    process: &ProcessTable<'_>,
    owner: usize,
    inputs: &[Vec<InputRow<'_>>],
) -> Result<(), AllocError>
    ensures { OnOk result (map row_of rows.new.items
        ≡ map row_of rows.old.items ++ states_rows (known_turns turns.now.turns.items) signals.now (process_of process.now) owner 0 (map rows_inputs inputs.now)) }
{
    for (state, of_state) in inputs.iter().enumerate() {
        let place = StatePlace { owner, state };
        push_state_rows(alloc, rows, turns, signals, process, place, of_state)?;
    }
    Ok(())
}

/// Appends the rows of START and of the inputs of each state.
fn push_process_rows(
    alloc: Global,
    rows: &mut Vec<Row>,
    turns: &TurnCounts,
    signals: &NameTable,
    process: &ProcessTable<'_>,
    owner: usize,
) -> Result<(), AllocError>
    ensures { OnOk result (map row_of rows.new.items
        ≡ map row_of rows.old.items ++ process_rows (known_turns turns.now.turns.items) signals.now owner (process_of process.now)) }
{
    let name = start_name(alloc, process)?;
    rows.push(Row {
        at: process.process().start.at,
        name,
        turns: turns.times(owner, None, 0),
    })?;
    let inputs = process.inputs(alloc)?;
    push_states_rows(alloc, rows, turns, signals, process, owner, &inputs)
}

/// Appends the rows of the transitions of processes.
fn push_processes_rows(
    alloc: Global,
    rows: &mut Vec<Row>,
    turns: &TurnCounts,
    signals: &NameTable,
    processes: &[ProcessTable<'_>],
) -> Result<(), AllocError>
    ensures { OnOk result (map row_of rows.new.items
        ≡ map row_of rows.old.items ++ all_rows (known_turns turns.now.turns.items) signals.now 0 (map process_of processes.now)) }
{
    for (owner, process) in processes.iter().enumerate() {
        push_process_rows(alloc, rows, turns, signals, process, owner)?;
    }
    Ok(())
}

/// Returns the rows of the transitions of a block, process by process.
pub(crate) fn block_rows(
    alloc: Global,
    block: &BlockTable<'_>,
    turns: &TurnCounts,
) -> Result<Vec<Row>, AllocError>
    ensures { IfOk result (λ v. map row_of v.items
        ≡ all_rows (known_turns turns.now.turns.items) (signal_names (block_of block.now)) 0 (processes_of (block_of block.now))) }
{
    let mut rows = Vec::new(alloc);
    push_processes_rows(alloc, &mut rows, turns, block.signals(), block.tables())?;
    Ok(rows)
}
