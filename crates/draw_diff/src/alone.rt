//! The lines of what only one set has.
ghost use Rattle.std.specs.Prelude.{◌≡◌, ◌++◌, OnOk};
ghost use Rattle.std.specs.List.{flat_map};
ghost use Rattle.draw_diff.specs.Ways.{alone_input, alone_process, alone_state};

use crate::ways::{input_title, push_alone, start_title};
use std::alloc::{AllocError, Global};
use turn_code::{Draft, DraftInput, DraftProcess, DraftState};

/// Appends the line of an input that only one set has to `text`.
pub(crate) fn push_alone_input(
    alloc: Global,
    text: &mut Vec<u8>,
    sign: &[u8],
    draft: &Draft,
    process: &DraftProcess,
    state: &DraftState,
    input: &DraftInput,
) -> Result<(), AllocError>
    ensures { OnOk result (text.new.items ≡ text.old.items ++ alone_input sign.now draft.now process.now state.now input.now) }
{
    let title = input_title(alloc, draft, process, state, input)?;
    push_alone(alloc, text, sign, &title, &input.piece)
}

/// Appends the lines of inputs that only one set has to `text`.
fn push_alone_inputs(
    alloc: Global,
    text: &mut Vec<u8>,
    sign: &[u8],
    draft: &Draft,
    process: &DraftProcess,
    state: &DraftState,
    inputs: &[DraftInput],
) -> Result<(), AllocError>
    ensures { OnOk result (text.new.items ≡ text.old.items ++ flat_map (alone_input sign.now draft.now process.now state.now) inputs.now) }
{
    for input in inputs {
        push_alone_input(alloc, text, sign, draft, process, state, input)?;
    }
    Ok(())
}

/// Appends the lines of a state that only one set has to `text`.
pub(crate) fn push_alone_state(
    alloc: Global,
    text: &mut Vec<u8>,
    sign: &[u8],
    draft: &Draft,
    process: &DraftProcess,
    state: &DraftState,
) -> Result<(), AllocError>
    ensures { OnOk result (text.new.items ≡ text.old.items ++ alone_state sign.now draft.now process.now state.now) }
{
    let inputs = state.inputs.as_slice();
    push_alone_inputs(alloc, text, sign, draft, process, state, inputs)
}

/// Appends the lines of the states of a process that only one set has to `text`.
fn push_alone_states(
    alloc: Global,
    text: &mut Vec<u8>,
    sign: &[u8],
    draft: &Draft,
    process: &DraftProcess,
    states: &[DraftState],
) -> Result<(), AllocError>
    ensures { OnOk result (text.new.items ≡ text.old.items ++ flat_map (alone_state sign.now draft.now process.now) states.now) }
{
    for state in states {
        push_alone_state(alloc, text, sign, draft, process, state)?;
    }
    Ok(())
}

/// Appends the lines of a process that only one set has to `text`.
pub(crate) fn push_alone_process(
    alloc: Global,
    text: &mut Vec<u8>,
    sign: &[u8],
    draft: &Draft,
    process: &DraftProcess,
) -> Result<(), AllocError>
    ensures { OnOk result (text.new.items ≡ text.old.items ++ alone_process sign.now draft.now process.now) }
{
    let title = start_title(alloc, process)?;
    push_alone(alloc, text, sign, &title, &process.start)?;
    let states = process.states.as_slice();
    push_alone_states(alloc, text, sign, draft, process, states)
}
