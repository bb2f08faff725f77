//! The limits of a whole draft.

ghost use Rattle.std.specs.Prelude.{◌≡◌, ◌<◌, ◌≤◌, ◌+◌, ◌↔◌, length, All, sum_by, IsTrue, IfSome, IfNone};
ghost use Rattle.turn_code.specs.Rules.{pieces_of, inputs_of, KeepsSetLimits};
ghost use Rattle.turn_code.specs.declared.draft.DraftSignal.{DraftSignal};
ghost use Rattle.turn_code.specs.Limits.{MOST_PARAMETERS};

use turn_code::{Draft, DraftProcess, DraftSignal, DraftState};

/// Whether a draft is within the limits of a set.
pub(crate) fn keeps_set_limits(draft: &Draft) -> bool
    ensures { IsTrue result ↔ KeepsSetLimits draft.now }
{
    draft.processes.len() <= 16
        && draft.signals.len() <= 128
        && have_few_parameters(draft.signals.as_slice())
        && have_room(draft.processes.as_slice(), 4096)
}

/// Whether no signal has more parameters than a signal may have.
fn have_few_parameters(signals: &[DraftSignal]) -> bool
    ensures { IsTrue result ↔ All (λ (s : DraftSignal). length s.parameters ≤ MOST_PARAMETERS) signals.now }
{
    signals.iter().all(|signal| signal.parameters.len() <= 4)
}

/// Whether the processes have at most `room` pieces.
fn have_room(processes: &[DraftProcess], room: usize) -> bool
    ensures { IsTrue result ↔ (sum_by pieces_of processes.now ≤ room) }
{
    match processes {
        [] => true,
        [first, others @ ..] => match room_behind(first, room) {
            Some(left) => have_room(others, left),
            None => false,
        },
    }
}

/// The room left after the pieces of a process; none if there isn't enough.
fn room_behind(process: &DraftProcess, room: usize) -> Option<usize>
    ensures some { IfSome result (λ left. left + pieces_of process.now ≡ room) }
    ensures none { IfNone result (room < pieces_of process.now) }
{
    room_behind_inputs(process.states.as_slice(), room.checked_sub(1)?)
}

/// The room left after the inputs of these states, of which there may be any number; none if there isn't enough.
fn room_behind_inputs(states: &[DraftState], room: usize) -> Option<usize>
    ensures some { IfSome result (λ left. left + inputs_of states.now ≡ room) }
    ensures none { IfNone result (room < inputs_of states.now) }
{
    let mut left = room;
    for state in states {
        left = left.checked_sub(state.inputs.len())?;
    }
    Some(left)
}
