//! A6: signals and timers saved in a state from which no way leads to one that takes them.
ghost use Rattle.std.specs.Prelude.{◌≡◌, ◌++◌, ℕ, not, map, find, length, slice_get, IfOk, OnOk};
ghost use Rattle.std.specs.List.{list_any, flat_map};
ghost use Rattle.std.specs.Option.{option_map_or};
ghost use Rattle.sdl_ast.specs.Views.{clause_of, state_of, process_of};
ghost use Rattle.sdl_tables.specs.Names.{same_name, inputs_by_state, states_of, clause_saves};
ghost use Rattle.sdl_tables.specs.Rows.{row_input, rows_inputs};
ghost use Rattle.sdl_warnings.specs.Standing.{AreWays, AreTakers};
ghost use Rattle.sdl_warnings.specs.Marked.{is_marked};
ghost use Rattle.sdl_warnings.specs.Warned.{takes_in, takes, saves_vainly, vain_at, vain_save, vain_in_clause, vain_in_part, vain_saves};

use crate::reads::same_name;
use crate::warning::{Kind, Warning};
use crate::ways::{Ways, comes_to};
use sdl_ast::{Identifier, Name, StateClause, StatePart};
use sdl_tables::{InputRow, ProcessTable};
use std::alloc::{AllocError, Global};

/// A process with the inputs of its states and its ways.
#[derive(Clone, Copy)]
pub(crate) struct Standing<'p, 'a> {
    pub(crate) process: &'p ProcessTable<'a>,
    pub(crate) inputs: &'p [Vec<InputRow<'a>>],
    pub(crate) ways: &'p Ways,
}

/// Whether one of these inputs takes a signal or timer.
fn takes_one(inputs: &[InputRow<'_>], name: Name) -> bool
    ensures { result ≡ takes_in name (map row_input inputs.now) }
{
    let mut any = false;
    for row in inputs {
        any |= same_name(name, row.stimulus.name.name);
    }
    any
}

/// Which states take a signal or timer, and its name.
#[derive(Drop)]
struct Takers {
    name: Name,
    marks: Vec<bool>,
}

/// The states that take a signal or timer. `inputs` are those of each state.
fn find_takers(
    alloc: Global,
    process: &ProcessTable,
    inputs: &[Vec<InputRow<'_>>],
    name: Name,
) -> Result<Takers, AllocError>
    requires { map rows_inputs inputs.now ≡ inputs_by_state (process_of process.now) }
    ensures name { IfOk result (λ t. t.name ≡ name) }
    ensures takers { IfOk result (AreTakers (process_of process.now)) }
{
    let marks = taker_marks(alloc, inputs, name)?;
    Ok(Takers { name, marks })
}

/// A mark for each of these states that takes a signal or timer.
fn taker_marks(
    alloc: Global,
    inputs: &[Vec<InputRow<'_>>],
    name: Name,
) -> Result<Vec<bool>, AllocError>
    ensures { IfOk result (λ v. v.items ≡ map (takes_in name) (map rows_inputs inputs.now)) }
{
    let mut marks = Vec::new(alloc);
    for rows in inputs {
        marks.push(takes_one(rows, name))?;
    }
    Ok(marks)
}

/// Whether no way leads from a state to a taker.
fn is_vain(process: &ProcessTable, ways: &Ways, takers: &Takers, state: Identifier) -> bool
    requires ways { AreWays (process_of process.now) ways.now }
    requires takers { AreTakers (process_of process.now) takers.now }
    ensures { result ≡ saves_vainly (process_of process.now) takers.now.name state }
{
    match process.states().number(state.name) {
        Some(number) => !comes_to(ways, &takers.marks, number),
        None => false,
    }
}

/// The first of these states from which no way leads to a taker.
fn first_vain(
    process: &ProcessTable,
    ways: &Ways,
    takers: &Takers,
    states: &[Identifier],
) -> Option<Identifier>
    requires ways { AreWays (process_of process.now) ways.now }
    requires takers { AreTakers (process_of process.now) takers.now }
    ensures { result ≡ find (saves_vainly (process_of process.now) takers.now.name) states.now }
{
    for state in states {
        if is_vain(process, ways, takers, *state) {
            return Some(*state);
        }
    }
    None
}

/// Appends the warning of a vain save in this state, if there is one.
fn push_vain(
    found: &mut Vec<Warning>,
    id: Identifier,
    state: Option<Identifier>,
) -> Result<(), AllocError>
    ensures { OnOk result (found.new.items ≡ found.old.items ++ vain_at id state) }
{
    match state {
        None => Ok(()),
        Some(state) => Ok(found.push(Warning {
            at: id.at,
            kind: Kind::VainSave(id.name, state.name),
        })?),
    }
}

/// Appends the warning of a name that a part saves.
fn push_save(
    alloc: Global,
    found: &mut Vec<Warning>,
    process: &ProcessTable,
    inputs: &[Vec<InputRow<'_>>],
    ways: &Ways,
    states: &[Identifier],
    id: Identifier,
) -> Result<(), AllocError>
    requires ways { AreWays (process_of process.now) ways.now }
    requires inputs { map rows_inputs inputs.now ≡ inputs_by_state (process_of process.now) }
    ensures { OnOk result (found.new.items ≡ found.old.items ++ vain_at id (find (saves_vainly (process_of process.now) id.name) states.now)) }
{
    let takers = find_takers(alloc, process, inputs, id.name)?;
    let state = first_vain(process, ways, &takers, states);
    push_vain(found, id, state)
}

/// Appends the warnings of names that a part saves.
fn push_names(
    alloc: Global,
    found: &mut Vec<Warning>,
    standing: &Standing<'_, '_>,
    states: &[Identifier],
    names: &[Identifier],
) -> Result<(), AllocError>
    requires ways { AreWays (process_of standing.now.process.now) standing.now.ways.now }
    requires inputs { map rows_inputs standing.now.inputs.now ≡ inputs_by_state (process_of standing.now.process.now) }
    ensures { OnOk result (found.new.items ≡ found.old.items
        ++ flat_map (λ x. vain_at x (find (saves_vainly (process_of standing.now.process.now) x.name) states.now)) names.now) }
{
    for id in names {
        push_save(
            alloc,
            found,
            standing.process,
            standing.inputs,
            standing.ways,
            states,
            *id,
        )?;
    }
    Ok(())
}

/// Appends the warnings of a clause of a part.
fn push_clause(
    alloc: Global,
    found: &mut Vec<Warning>,
    standing: &Standing<'_, '_>,
    part: &StatePart,
    clause: &StateClause,
) -> Result<(), AllocError>
    requires ways { AreWays (process_of standing.now.process.now) standing.now.ways.now }
    requires inputs { map rows_inputs standing.now.inputs.now ≡ inputs_by_state (process_of standing.now.process.now) }
    ensures { OnOk result (found.new.items ≡ found.old.items ++ vain_in_clause (process_of standing.now.process.now) (state_of part.now) (clause_of clause.now)) }
{
    match clause {
        StateClause::Input(_) => Ok(()),
        StateClause::Save(names) => push_names(alloc, found, standing, &part.names, names),
    }
}

/// Appends the warnings of a part's saves.
fn push_part(
    alloc: Global,
    found: &mut Vec<Warning>,
    standing: &Standing<'_, '_>,
    part: &StatePart,
) -> Result<(), AllocError>
    requires ways { AreWays (process_of standing.now.process.now) standing.now.ways.now }
    requires inputs { map rows_inputs standing.now.inputs.now ≡ inputs_by_state (process_of standing.now.process.now) }
    ensures { OnOk result (found.new.items ≡ found.old.items ++ vain_in_part (process_of standing.now.process.now) (state_of part.now)) }
{
    for clause in &part.clauses {
        push_clause(alloc, found, standing, part, clause)?;
    }
    Ok(())
}

/// Appends the warnings of these parts' saves.
pub(crate) fn push_saves(
    alloc: Global,
    found: &mut Vec<Warning>,
    standing: &Standing<'_, '_>,
    parts: &[StatePart],
) -> Result<(), AllocError>
    requires ways { AreWays (process_of standing.now.process.now) standing.now.ways.now }
    requires inputs { map rows_inputs standing.now.inputs.now ≡ inputs_by_state (process_of standing.now.process.now) }
    ensures { OnOk result (found.new.items ≡ found.old.items ++ flat_map (vain_in_part (process_of standing.now.process.now)) (map state_of parts.now)) }
{
    for part in parts {
        push_part(alloc, found, standing, part)?;
    }
    Ok(())
}
