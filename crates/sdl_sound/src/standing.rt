//! The INPUTs of each state. Each is listed once, however many signals it names, so checks are made once per INPUT.
ghost use Rattle.std.specs.Prelude.{◌≡◌, ◌++◌, [], ℕ, ◌<◌, ◌==◌, if◌then◌else◌, map, length, IfOk, OnOk, vec_len};
ghost use Rattle.std.specs.List.{flat_map};
ghost use Rattle.sdl_tables.specs.Views.{state_of, input_of, process_of};
ghost use Rattle.sdl_tables.specs.Names.{states_of, given_to, part_inputs, inputs_by_state};
ghost use Rattle.sdl_tables.specs.Rows.{row_at, stimulus_inputs};
ghost use Rattle.sdl_sound.specs.Standing.{taken_in};

use sdl_tables::{InputPart, NameTable, ProcessTable, StateClause, StatePart};
use std::alloc::{AllocError, Global};

/// Appends an INPUT.
fn push_input<'a>(inputs: &mut Vec<&'a InputPart>, input: &'a InputPart) -> Result<(), AllocError>
    ensures { OnOk result (taken_in inputs.new ≡ taken_in inputs.old ++ stimulus_inputs (input_of input.now)) }
{
    inputs.push(input)?;
    Ok(())
}

/// Appends the INPUTs of a STATE part.
fn push_part<'a>(inputs: &mut Vec<&'a InputPart>, part: &'a StatePart) -> Result<(), AllocError>
    ensures { OnOk result (taken_in inputs.new ≡ taken_in inputs.old ++ part_inputs (state_of part.now)) }
{
    for clause in &part.clauses {
        match clause {
            StateClause::Input(input) => push_input(inputs, input)?,
            StateClause::Save(_) => {}
        }
    }
    Ok(())
}

/// An empty list of INPUTs for each of `count` states.
fn no_inputs<'a>(alloc: Global, count: usize) -> Result<Vec<Vec<&'a InputPart>>, AllocError>
    ensures len { IfOk result (λ v. vec_len v ≡ count) }
    ensures empty { IfOk result (λ v. (s : ℕ) → row_at taken_in v.items s ≡ []) }
{
    let mut states = Vec::new(alloc);
    for _state in 0..count {
        states.push(Vec::new(alloc))?;
    }
    Ok(states)
}

/// Appends the INPUTs of a part to one state.
fn push_state<'a>(
    states: &mut Vec<Vec<&'a InputPart>>,
    number: usize,
    part: &'a StatePart,
) -> Result<(), AllocError>
    requires { number < vec_len states.old }
    ensures len { OnOk result (vec_len states.new ≡ vec_len states.old) }
    ensures rows { OnOk result ((s : ℕ) → row_at taken_in states.new.items s
        ≡ row_at taken_in states.old.items s ++ (if number == s then part_inputs (state_of part.now) else [])) }
{
    let inputs = &mut states[number];
    push_part(inputs, part)?;
    Ok(())
}

/// Appends the INPUTs of a part to each state that it names.
fn push_states<'a>(
    states: &mut Vec<Vec<&'a InputPart>>,
    names: &NameTable,
    part: &'a StatePart,
) -> Result<(), AllocError>
    requires { vec_len states.old ≡ length names.now }
    ensures len { OnOk result (vec_len states.new ≡ vec_len states.old) }
    ensures rows { OnOk result ((s : ℕ) → s < vec_len states.old
        → row_at taken_in states.new.items s ≡ row_at taken_in states.old.items s ++ given_to part_inputs names.now s (state_of part.now)) }
{
    for id in &part.names {
        if let Some(number) = names.number(id.name) {
            push_state(states, number, part)?;
        }
    }
    Ok(())
}

/// Collects the INPUTs of each of these states by number, in the order of the text.
fn collect_states<'a>(
    alloc: Global,
    parts: &'a [StatePart],
    names: &NameTable,
) -> Result<Vec<Vec<&'a InputPart>>, AllocError>
    ensures len { IfOk result (λ v. vec_len v ≡ length names.now) }
    ensures rows { IfOk result (λ v. (s : ℕ) → s < length names.now
        → row_at taken_in v.items s ≡ flat_map (given_to part_inputs names.now s) (map state_of parts.now)) }
{
    let mut states = no_inputs(alloc, names.len())?;
    for part in parts {
        push_states(&mut states, names, part)?;
    }
    Ok(states)
}

/// The INPUTs of each state of a process by number, in the order of the text.
pub fn standing_inputs<'a>(
    alloc: Global,
    process: &ProcessTable<'a>,
) -> Result<Vec<Vec<&'a InputPart>>, AllocError>
    ensures { IfOk result (λ v. map taken_in v.items ≡ inputs_by_state (process_of process.now)) }
{
    let states = collect_states(alloc, &process.process().states, process.states())?;
    Ok(states)
}
