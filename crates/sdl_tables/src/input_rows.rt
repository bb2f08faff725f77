//! Collects the inputs of each state.
ghost use Rattle.std.specs.Prelude.{◌≡◌, ◌++◌, [], ℕ, ◌<◌, ◌==◌, if◌then◌else◌, map, length, IfOk, OnOk, vec_len};
ghost use Rattle.sdl_ast.specs.Views.{state_of, input_of, process_of};
ghost use Rattle.sdl_tables.specs.Names.{states_of, given_to, part_inputs, inputs_by_state};
ghost use Rattle.sdl_tables.specs.Rows.{row_input, rows_inputs, stimulus_inputs, rows_at};

use crate::name_table::NameTable;
use crate::process_table::InputRow;
use sdl_ast::{InputPart, Process, StateClause, StatePart};
use std::alloc::{AllocError, Global};

/// Appends a row for each signal of an INPUT.
fn push_input<'a>(rows: &mut Vec<InputRow<'a>>, input: &'a InputPart) -> Result<(), AllocError>
    ensures { OnOk result (map row_input rows.new.items ≡ map row_input rows.old.items ++ stimulus_inputs (input_of input.now)) }
{
    for stimulus in &input.stimuli {
        rows.push(InputRow { input, stimulus })?;
    }
    Ok(())
}

/// Appends the rows of the INPUTs of a STATE part.
fn push_part<'a>(rows: &mut Vec<InputRow<'a>>, part: &'a StatePart) -> Result<(), AllocError>
    ensures { OnOk result (map row_input rows.new.items ≡ map row_input rows.old.items ++ part_inputs (state_of part.now)) }
{
    for clause in &part.clauses {
        match clause {
            StateClause::Input(input) => push_input(rows, input)?,
            StateClause::Save(_) => {}
        }
    }
    Ok(())
}

/// An empty row for each of `count` states.
fn empty_rows<'a>(alloc: Global, count: usize) -> Result<Vec<Vec<InputRow<'a>>>, AllocError>
    ensures len { IfOk result (λ v. vec_len v ≡ count) }
    ensures empty { IfOk result (λ v. (s : ℕ) → rows_at v.items s ≡ []) }
{
    let mut inputs = Vec::new(alloc);
    for _i in 0..count {
        inputs.push(Vec::new(alloc))?;
    }
    Ok(inputs)
}

/// Appends the inputs of a part to one state.
fn push_state<'a>(
    inputs: &mut Vec<Vec<InputRow<'a>>>,
    number: usize,
    part: &'a StatePart,
) -> Result<(), AllocError>
    requires { number < vec_len inputs.old }
    ensures len { OnOk result (vec_len inputs.new ≡ vec_len inputs.old) }
    ensures rows { OnOk result ((s : ℕ) → rows_at inputs.new.items s
        ≡ rows_at inputs.old.items s ++ (if number == s then part_inputs (state_of part.now) else [])) }
{
    let rows = &mut inputs[number];
    push_part(rows, part)?;
    Ok(())
}

/// Appends the inputs of a part to each state that it names.
fn push_states<'a>(
    inputs: &mut Vec<Vec<InputRow<'a>>>,
    states: &NameTable,
    part: &'a StatePart,
) -> Result<(), AllocError>
    requires { vec_len inputs.old ≡ length states.now }
    ensures len { OnOk result (vec_len inputs.new ≡ vec_len inputs.old) }
    ensures rows { OnOk result ((s : ℕ) → s < vec_len inputs.old
        → rows_at inputs.new.items s ≡ rows_at inputs.old.items s ++ given_to part_inputs states.now s (state_of part.now)) }
{
    for id in &part.names {
        if let Some(number) = states.number(id.name) {
            push_state(inputs, number, part)?;
        }
    }
    Ok(())
}

/// Collects the inputs of each state by number; the inputs of one state are in the order of the text.
pub(crate) fn collect_inputs<'a>(
    alloc: Global,
    process: &'a Process,
    states: &NameTable,
) -> Result<Vec<Vec<InputRow<'a>>>, AllocError>
    requires { states.now ≡ states_of (process_of process.now) }
    ensures { IfOk result (λ v. map rows_inputs v.items ≡ inputs_by_state (process_of process.now)) }
{
    let mut inputs = empty_rows(alloc, states.len())?;
    for part in &process.states {
        push_states(&mut inputs, states, part)?;
    }
    Ok(inputs)
}
