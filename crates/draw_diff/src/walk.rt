//! The lines for the transitions in which two sets differ.
ghost use Rattle.std.specs.Prelude.{◌≡◌, ◌++◌, OnOk};
ghost use Rattle.std.specs.List.{flat_map};
ghost use Rattle.draw_diff.specs.Ways.{both_line, input_lines, other_process, pair_line, pair_lines, process_lines, process_of, set_of, sides_of, start_line, state_lines, takes_as, takes_same, way_lines};

use crate::alone::{push_alone_input, push_alone_process, push_alone_state};
use crate::names::{Pair, moved_signal, moved_timer, same_name};
use crate::renaming::are_renamed;
use crate::side::Side;
use crate::ways::{input_title, push_differs, start_title};
use std::alloc::{AllocError, Global};
use turn_code::{Draft, DraftInput, DraftPiece, DraftProcess, DraftState, Trigger};

/// A process of one side and a process of the other side, as a pair of old and new.
fn pair_of<'a>(
    side: Side,
    set: &'a Draft,
    process: &'a DraftProcess,
    other_set: &'a Draft,
    other: &'a DraftProcess,
) -> Pair<'a>
    ensures { result ≡ sides_of side set.now process.now other_set.now other.now }
{
    match side {
        Side::Old => Pair {
            old: set,
            old_process: process,
            new: other_set,
            new_process: other,
        },
        Side::New => Pair {
            old: other_set,
            old_process: other,
            new: set,
            new_process: process,
        },
    }
}

/// The set of a side.
fn set_of<'a>(side: Side, pair: &Pair<'a>) -> &'a Draft
    ensures { result.now ≡ set_of side pair.now }
{
    match side {
        Side::Old => pair.old,
        Side::New => pair.new,
    }
}

/// The process of a side.
fn process_of<'a>(side: Side, pair: &Pair<'a>) -> &'a DraftProcess
    ensures { result.now ≡ process_of side pair.now }
{
    match side {
        Side::Old => pair.old_process,
        Side::New => pair.new_process,
    }
}

/// The process of the other side.
fn other_process<'a>(side: Side, pair: &Pair<'a>) -> &'a DraftProcess
    ensures { result.now ≡ other_process side pair.now }
{
    match side {
        Side::Old => pair.new_process,
        Side::New => pair.old_process,
    }
}

/// Appends the line of a transition that both sets have to `text`, if its code differs.
fn push_pair(
    alloc: Global,
    text: &mut Vec<u8>,
    pair: &Pair<'_>,
    title: &[u8],
    old: &DraftPiece,
    new: &DraftPiece,
) -> Result<(), AllocError>
    ensures { OnOk result (text.new.items ≡ text.old.items ++ pair_line pair.now title.now old.now new.now) }
{
    if are_renamed(pair, old.code.as_slice(), new.code.as_slice()) {
        return Ok(());
    }
    push_differs(alloc, text, title, old, new)
}

/// Whether two inputs wait for the same signal or timer, compared by name.
fn takes_same(pair: &Pair<'_>, old: Trigger, new: Trigger) -> bool
    ensures { result ≡ takes_same pair.now old new }
{
    match old {
        Trigger::Signal(old) => match new {
            Trigger::Signal(new) => match moved_signal(pair, old) {
                Some(moved) => moved == new.0,
                None => false,
            },
            Trigger::Timer(_) => false,
        },
        Trigger::Timer(old) => match new {
            Trigger::Signal(_) => false,
            Trigger::Timer(new) => match moved_timer(pair, old) {
                Some(moved) => moved == new.0,
                None => false,
            },
        },
    }
}

/// Whether an input of one side waits for the same signal or timer as one of the other side.
fn takes_as(side: Side, pair: &Pair<'_>, trigger: Trigger, other: Trigger) -> bool
    ensures { result ≡ takes_as side pair.now trigger other }
{
    match side {
        Side::Old => takes_same(pair, trigger, other),
        Side::New => takes_same(pair, other, trigger),
    }
}

/// Appends the line of an input that both sets have to `text`; only the old side writes it.
fn push_both(
    alloc: Global,
    text: &mut Vec<u8>,
    side: Side,
    pair: &Pair<'_>,
    state: &DraftState,
    input: &DraftInput,
    other: &DraftInput,
) -> Result<(), AllocError>
    ensures { OnOk result (text.new.items ≡ text.old.items ++ both_line side pair.now state.now input.now other.now) }
{
    match side {
        Side::Old => {
            let title = input_title(alloc, pair.old, pair.old_process, state, input)?;
            push_pair(alloc, text, pair, &title, &input.piece, &other.piece)
        }
        Side::New => Ok(()),
    }
}

/// Appends the line of an input of one side to `text`, compared with those of the same state on the other side.
fn push_input(
    alloc: Global,
    text: &mut Vec<u8>,
    side: Side,
    pair: &Pair<'_>,
    state: &DraftState,
    input: &DraftInput,
    others: &[DraftInput],
) -> Result<(), AllocError>
    ensures { OnOk result (text.new.items ≡ text.old.items ++ input_lines side pair.now state.now input.now others.now) }
{
    match others {
        [] => {
            let set = set_of(side, pair);
            let process = process_of(side, pair);
            push_alone_input(alloc, text, side.sign(), set, process, state, input)
        }
        [other, rest @ ..] => {
            if takes_as(side, pair, input.trigger, other.trigger) {
                push_both(alloc, text, side, pair, state, input, other)
            } else {
                push_input(alloc, text, side, pair, state, input, rest)
            }
        }
    }
}

/// Appends the lines of a state's inputs to `text`, compared with those of the same state on the other side.
fn push_inputs(
    alloc: Global,
    text: &mut Vec<u8>,
    side: Side,
    pair: &Pair<'_>,
    state: &DraftState,
    inputs: &[DraftInput],
    others: &[DraftInput],
) -> Result<(), AllocError>
    ensures { OnOk result (text.new.items ≡ text.old.items ++ flat_map (λ i. input_lines side pair.now state.now i others.now) inputs.now) }
{
    for input in inputs {
        push_input(alloc, text, side, pair, state, input, others)?;
    }
    Ok(())
}

/// Appends the lines of a state of one side to `text`, compared with the states of the other side.
fn push_state(
    alloc: Global,
    text: &mut Vec<u8>,
    side: Side,
    pair: &Pair<'_>,
    state: &DraftState,
    others: &[DraftState],
) -> Result<(), AllocError>
    ensures { OnOk result (text.new.items ≡ text.old.items ++ state_lines side pair.now state.now others.now) }
{
    match others {
        [] => {
            let set = set_of(side, pair);
            let process = process_of(side, pair);
            push_alone_state(alloc, text, side.sign(), set, process, state)
        }
        [other, rest @ ..] => {
            if same_name(state.name.as_bytes(), other.name.as_bytes()) {
                let inputs = state.inputs.as_slice();
                push_inputs(
                    alloc,
                    text,
                    side,
                    pair,
                    state,
                    inputs,
                    other.inputs.as_slice(),
                )
            } else {
                push_state(alloc, text, side, pair, state, rest)
            }
        }
    }
}

/// Appends the lines of the states of a process to `text`; both sides have the process.
fn push_states(
    alloc: Global,
    text: &mut Vec<u8>,
    side: Side,
    pair: &Pair<'_>,
    states: &[DraftState],
    others: &[DraftState],
) -> Result<(), AllocError>
    ensures { OnOk result (text.new.items ≡ text.old.items ++ flat_map (λ q. state_lines side pair.now q others.now) states.now) }
{
    for state in states {
        push_state(alloc, text, side, pair, state, others)?;
    }
    Ok(())
}

/// Appends the line of the START of a process that both sides have to `text`; only the old side writes it.
fn push_start(
    alloc: Global,
    text: &mut Vec<u8>,
    side: Side,
    pair: &Pair<'_>,
) -> Result<(), AllocError>
    ensures { OnOk result (text.new.items ≡ text.old.items ++ start_line side pair.now) }
{
    match side {
        Side::Old => {
            let title = start_title(alloc, pair.old_process)?;
            let (old, new) = (&pair.old_process.start, &pair.new_process.start);
            push_pair(alloc, text, pair, &title, old, new)
        }
        Side::New => Ok(()),
    }
}

/// Appends the lines of a process that both sides have to `text`.
fn push_both_processes(
    alloc: Global,
    text: &mut Vec<u8>,
    side: Side,
    pair: &Pair<'_>,
) -> Result<(), AllocError>
    ensures { OnOk result (text.new.items ≡ text.old.items ++ pair_lines side pair.now) }
{
    push_start(alloc, text, side, pair)?;
    let states = process_of(side, pair).states.as_slice();
    let others = other_process(side, pair).states.as_slice();
    push_states(alloc, text, side, pair, states, others)
}

/// Appends the lines of a process of one side to `text`, compared with the processes of the other set.
fn push_process(
    alloc: Global,
    text: &mut Vec<u8>,
    side: Side,
    set: &Draft,
    other_set: &Draft,
    process: &DraftProcess,
    others: &[DraftProcess],
) -> Result<(), AllocError>
    ensures { OnOk result (text.new.items ≡ text.old.items ++ process_lines side set.now other_set.now process.now others.now) }
{
    match others {
        [] => push_alone_process(alloc, text, side.sign(), set, process),
        [other, rest @ ..] => {
            if same_name(process.name.as_bytes(), other.name.as_bytes()) {
                let pair = pair_of(side, set, process, other_set, other);
                push_both_processes(alloc, text, side, &pair)
            } else {
                push_process(alloc, text, side, set, other_set, process, rest)
            }
        }
    }
}

/// Appends the lines of transitions that the other set lacks; for the old side also of those whose code differs.
pub(crate) fn push_ways(
    alloc: Global,
    text: &mut Vec<u8>,
    side: Side,
    set: &Draft,
    other_set: &Draft,
) -> Result<(), AllocError>
    ensures { OnOk result (text.new.items ≡ text.old.items ++ way_lines side set.now other_set.now) }
{
    let others = other_set.processes.as_slice();
    for process in set.processes.as_slice() {
        push_process(alloc, text, side, set, other_set, process, others)?;
    }
    Ok(())
}
