//! The check of a whole draft, transition by transition.

ghost use Rattle.std.specs.Prelude.{◌≡◌, ◌≤◌, length, IfOk, IfErr, Some, slice_get};
ghost use Rattle.turn_code.specs.Transitions.{transition_at};
ghost use Rattle.turn_code.specs.Rules.{KeepsSetLimits, KeepsProcessLimits};
ghost use Rattle.turn_code.specs.Valid.{IsValid};
ghost use Rattle.turn_code.specs.declared.input.Place.TheVariants.{Start, State};
ghost use Rattle.turn_rules.specs.Seen.{seen};
ghost use Rattle.turn_check.specs.Faults.{IsBroken};
ghost use Rattle.turn_check.specs.Earliest.{IsFirstFault, IsFirstAt, IsFirstOfState, IsFirstOfProcess};
ghost use Rattle.turn_check.specs.Walk.{IsValidAt, IsValidState, IsValidProcess};
ghost use Rattle.turn_code.specs.Limits.{MOST_VARIABLES};

use crate::fault::{Spot, VerifyFault};
use crate::limits::keeps_set_limits;
use turn_code::{Draft, DraftProcess, DraftState, Place, ProcessNumber, StateNumber};
use turn_rules::{
    Broken, IndexedDraft, Transition, check_transition, input_transition, process_keeps_limits,
    start_transition,
};

/// The first rule that a draft breaks.
pub(crate) fn check_draft(draft: &Draft) -> Result<(), VerifyFault>
    ensures ok { IfOk result (λ _. IsValid draft.now) }
    ensures err { IfErr result (λ e. IsBroken draft.now e) }
    ensures first { IfErr result (λ e. IsFirstFault draft.now e) }
{
    if keeps_set_limits(draft) {
        check_processes(&IndexedDraft::new(draft))
    } else {
        Err(VerifyFault::Limit(Spot {
            process: ProcessNumber(0),
            state: Place::Start,
            input: 0,
            place: 0,
        }))
    }
}

/// The first rule that a process of the draft breaks.
fn check_processes(draft: &IndexedDraft<'_>) -> Result<(), VerifyFault>
    requires { KeepsSetLimits draft.now }
    ensures ok { IfOk result (λ _. IsValid draft.now) }
    ensures err { IfErr result (λ e. IsBroken draft.now e) }
    ensures first { IfErr result (λ e. IsFirstFault draft.now e) }
{
    for number in 0..draft.plain().processes.len() {
        check_process_at(draft, ProcessNumber(number as u8))?;
    }
    Ok(())
}

/// The first rule that the process of this number breaks, if there is one.
fn check_process_at(draft: &IndexedDraft<'_>, number: ProcessNumber) -> Result<(), VerifyFault>
    requires set_limits { KeepsSetLimits draft.now }
    ensures ok { IfOk result (λ _. IsValidProcess draft.now number.0) }
    ensures err { IfErr result (λ e. IsBroken draft.now e) }
    ensures first { IfErr result (λ e. IsFirstOfProcess draft.now number.0 e) }
{
    match draft
        .plain()
        .processes
        .as_slice()
        .get(usize::from(number.0))
    {
        Some(process) => check_process(draft, number, process),
        None => Ok(()),
    }
}

/// The first rule that a process breaks.
fn check_process(
    draft: &IndexedDraft<'_>,
    number: ProcessNumber,
    process: &DraftProcess,
) -> Result<(), VerifyFault>
    requires set_limits { KeepsSetLimits draft.now }
    requires process { slice_get draft.now.processes number.0 ≡ Some process.now }
    ensures ok { IfOk result (λ _. IsValidProcess draft.now number.0) }
    ensures err { IfErr result (λ e. IsBroken draft.now e) }
    ensures first { IfErr result (λ e. IsFirstOfProcess draft.now number.0 e) }
{
    check_start(draft, number, process)?;
    check_states(draft, number, process)
}

/// The first rule that a state of a process breaks.
fn check_states(
    draft: &IndexedDraft<'_>,
    number: ProcessNumber,
    process: &DraftProcess,
) -> Result<(), VerifyFault>
    requires set_limits { KeepsSetLimits draft.now }
    requires process { slice_get draft.now.processes number.0 ≡ Some process.now }
    requires limits { KeepsProcessLimits process.now }
    requires start { IsValidState draft.now number.0 Start }
    ensures ok { IfOk result (λ _. IsValidProcess draft.now number.0) }
    ensures err { IfErr result (λ e. IsBroken draft.now e) }
    ensures first { IfErr result (λ e. IsFirstOfProcess draft.now number.0 e) }
{
    for place in 0..process.states.len() {
        check_state_at(draft, number, process, StateNumber(place as u8))?;
    }
    Ok(())
}

/// The first rule that the state of this number breaks, if there is one.
fn check_state_at(
    draft: &IndexedDraft<'_>,
    number: ProcessNumber,
    process: &DraftProcess,
    place: StateNumber,
) -> Result<(), VerifyFault>
    requires set_limits { KeepsSetLimits draft.now }
    requires process { slice_get draft.now.processes number.0 ≡ Some process.now }
    requires limits { KeepsProcessLimits process.now }
    ensures ok { IfOk result (λ _. IsValidState draft.now number.0 (State place)) }
    ensures err { IfErr result (λ e. IsBroken draft.now e) }
    ensures first { IfErr result (λ e. IsFirstOfState draft.now number.0 (State place) e) }
{
    match process.states.as_slice().get(usize::from(place.0)) {
        Some(state) => check_state(draft, number, process, place, state),
        None => Ok(()),
    }
}

/// The first rule that the START of a process breaks, or its limits.
fn check_start(
    draft: &IndexedDraft<'_>,
    number: ProcessNumber,
    process: &DraftProcess,
) -> Result<(), VerifyFault>
    requires set_limits { KeepsSetLimits draft.now }
    requires process { slice_get draft.now.processes number.0 ≡ Some process.now }
    ensures ok { IfOk result (λ _. IsValidState draft.now number.0 Start) }
    ensures limits { IfOk result (λ _. KeepsProcessLimits process.now) }
    ensures err { IfErr result (λ e. IsBroken draft.now e) }
    ensures first { IfErr result (λ e. IsFirstOfState draft.now number.0 Start e) }
{
    let state = Place::Start;
    if !process_keeps_limits(process) {
        return Err(VerifyFault::Limit(Spot {
            process: number,
            state,
            input: 0,
            place: 0,
        }));
    }
    let transition = start_transition(number, process);
    match check_transition(draft, &transition) {
        Ok(()) => Ok(()),
        Err(Broken { rule, place }) => Err(VerifyFault::new(
            rule,
            Spot {
                process: number,
                state,
                input: 0,
                place,
            },
        )),
    }
}

/// The first rule that a state breaks.
fn check_state(
    draft: &IndexedDraft<'_>,
    number: ProcessNumber,
    process: &DraftProcess,
    place: StateNumber,
    state: &DraftState,
) -> Result<(), VerifyFault>
    requires set_limits { KeepsSetLimits draft.now }
    requires process { slice_get draft.now.processes number.0 ≡ Some process.now }
    requires state { slice_get process.now.states place.0 ≡ Some state.now }
    requires variables { length process.now.variables ≤ MOST_VARIABLES }
    ensures ok { IfOk result (λ _. IsValidState draft.now number.0 (State place)) }
    ensures err { IfErr result (λ e. IsBroken draft.now e) }
    ensures first { IfErr result (λ e. IsFirstOfState draft.now number.0 (State place) e) }
{
    for input in 0..state.inputs.len() {
        check_input_at(draft, number, process, place, state, input)?;
    }
    Ok(())
}

/// The first rule that the input of this number breaks, if there is one.
fn check_input_at(
    draft: &IndexedDraft<'_>,
    number: ProcessNumber,
    process: &DraftProcess,
    place: StateNumber,
    state: &DraftState,
    input: usize,
) -> Result<(), VerifyFault>
    requires set_limits { KeepsSetLimits draft.now }
    requires process { slice_get draft.now.processes number.0 ≡ Some process.now }
    requires state { slice_get process.now.states place.0 ≡ Some state.now }
    requires variables { length process.now.variables ≤ MOST_VARIABLES }
    ensures ok { IfOk result (λ _. IsValidAt draft.now number.0 (State place) input) }
    ensures err { IfErr result (λ e. IsBroken draft.now e) }
    ensures first { IfErr result (λ e. IsFirstAt draft.now number.0 (State place) input e) }
{
    match state.inputs.as_slice().get(input) {
        Some(found) => {
            let transition = input_transition(
                draft.plain().signals.as_slice(),
                number,
                process,
                state,
                found,
            );
            check_input(draft, number, place, input, &transition)
        }
        None => Ok(()),
    }
}

/// The first rule that an input of a state breaks.
fn check_input(
    draft: &IndexedDraft<'_>,
    number: ProcessNumber,
    place: StateNumber,
    input: usize,
    transition: &Transition<'_>,
) -> Result<(), VerifyFault>
    requires set_limits { KeepsSetLimits draft.now }
    requires there { transition_at draft.now number.0 (State place) input ≡ Some (seen transition.now) }
    requires variables { length transition.now.process.now.variables ≤ MOST_VARIABLES }
    ensures ok { IfOk result (λ _. IsValidAt draft.now number.0 (State place) input) }
    ensures err { IfErr result (λ e. IsBroken draft.now e) }
    ensures first { IfErr result (λ e. IsFirstAt draft.now number.0 (State place) input e) }
{
    match check_transition(draft, transition) {
        Ok(()) => Ok(()),
        Err(Broken { rule, place: at }) => Err(VerifyFault::new(
            rule,
            Spot {
                process: number,
                state: Place::State(place),
                input,
                place: at,
            },
        )),
    }
}
