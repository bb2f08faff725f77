//! What a valid set returns by numbers and by names, and its copy.
use crate::drafts::made;
use crate::plans::*;
use std::alloc::Global;
use turn_check::Verified;
use turn_code::{
    Cert, Name, Party, Place, ProcessNumber, SignalNumber, Sort, StateNumber, TimerNumber, Trigger,
    VariableNumber,
};

/// A process that doesn't exist.
const Q: ProcessNumber = ProcessNumber(1);

/// How many processes, signals, states, variables, timers, inputs and saves the counter has.
const COUNTS: [usize; 7] = [1, 1, 1, 2, 1, 1, 1];

/// How many processes and signals a set has, and a process states, variables, timers, inputs and saves of Run.
fn counts(set: &Verified, process: ProcessNumber) -> [usize; 7] {
    [
        set.process_count(),
        set.signal_count(),
        set.state_count(process),
        set.variable_count(process),
        set.timer_count(process),
        set.input_count(process, RUN),
        set.saves(process, RUN).len(),
    ]
}

/// Whether there is a name with these bytes.
fn is_spelled(name: Option<&Name>, text: &str) -> bool {
    match name {
        Some(name) => name.as_bytes() == text.as_bytes(),
        None => false,
    }
}

/// Whether each thing of the counter has its name.
fn named_right(set: &Verified) -> [bool; 6] {
    [
        is_spelled(set.process_name(P), "P"),
        is_spelled(set.signal_name(UP), "Up"),
        is_spelled(set.state_name(P, RUN), "Run"),
        is_spelled(set.variable_name(P, TOTAL), "total"),
        is_spelled(set.timer_name(P, TICK), "Tick"),
        is_spelled(set.input_name(P, RUN, 0), "Up"),
    ]
}

/// Whether things that don't exist have no name.
fn unnamed(set: &Verified) -> [bool; 6] {
    [
        set.process_name(Q).is_none(),
        set.signal_name(SignalNumber(1)).is_none(),
        set.state_name(P, StateNumber(1)).is_none(),
        set.variable_name(P, VariableNumber(2)).is_none(),
        set.timer_name(P, TimerNumber(1)).is_none(),
        set.input_name(P, RUN, 1).is_none(),
    ]
}

/// Whether names have their numbers, in upper and lower case, and whether other words have none.
fn numbered_right(set: &Verified) -> [bool; 6] {
    [
        set.process_of("p") == Some(P),
        set.signal_of("UP") == Some(UP),
        set.variable_of(P, "Total") == Some(TOTAL),
        set.variable_of(P, "tota").is_none(),
        set.timer_of(P, "TICK") == Some(TICK),
        set.timer_of(Q, "Tick").is_none(),
    ]
}

const START_CERTIFICATE: Cert = Cert {
    budget: 3,
    depth: 1,
    effects: 0,
};

const UP_CERTIFICATE: Cert = Cert {
    budget: 7,
    depth: 2,
    effects: 0,
};

/// Whether START and Run's input have their certificates, and no second input, other state or other process has one.
fn certified_right(set: &Verified) -> [bool; 6] {
    [
        set.certificate(P, Place::Start, 0) == Some(START_CERTIFICATE),
        set.certificate(P, Place::State(RUN), 0) == Some(UP_CERTIFICATE),
        set.certificate(P, Place::Start, 1).is_none(),
        set.certificate(P, Place::State(RUN), 1).is_none(),
        set.certificate(P, Place::State(StateNumber(1)), 0)
            .is_none(),
        set.certificate(Q, Place::Start, 0).is_none(),
    ]
}

/// Whether routes carry Up only to P and to ENV, and no other signal; whether P exists, and no other process.
fn carried_right(set: &Verified) -> [bool; 6] {
    let own = Party::Process(P);
    [
        set.carries(Party::Environment, own, UP),
        set.carries(own, Party::Environment, UP),
        !set.carries(own, own, UP),
        !set.carries(Party::Environment, own, SignalNumber(1)),
        set.has_party(own),
        !set.has_party(Party::Process(Q)),
    ]
}

/// Whether Run waits for Up and not for Tick; whether Up has an Integer; whether there are initial values for n and total.
fn waits_right(set: &Verified) -> [bool; 6] {
    [
        set.trigger(P, RUN, 0) == Some(Trigger::Signal(UP)),
        set.input_for(P, RUN, Trigger::Signal(UP)) == Some(0),
        set.input_for(P, RUN, Trigger::Timer(TICK)).is_none(),
        set.parameters(UP) == [Sort::Integer].as_slice(),
        set.initial_values(P).as_slice() == [None, None].as_slice(),
        set.transition(P, Place::State(RUN), 0).is_some(),
    ]
}

/// What the counter returns; `None` if memory runs out.
fn answers(alloc: Global) -> Option<[[bool; 6]; 6]> {
    match made(alloc, &counter()) {
        Some(set) => Some([
            named_right(&set),
            unnamed(&set),
            numbered_right(&set),
            certified_right(&set),
            carried_right(&set),
            waits_right(&set),
        ]),
        None => None,
    }
}

#[test]
fn a_set_answers_by_names_and_numbers(rt: HostRuntime) {
    assert_eq!(rt; answers(rt.alloc()), Some([[true; 6]; 6]));
}

/// The counts of the counter's process, and of one that doesn't exist.
fn counts_of_counter(alloc: Global) -> Option<[[usize; 7]; 2]> {
    match made(alloc, &counter()) {
        Some(set) => Some([counts(&set, P), counts(&set, Q)]),
        None => None,
    }
}

#[test]
fn a_set_counts_what_it_has(rt: HostRuntime) {
    assert_eq!(rt;
        counts_of_counter(rt.alloc()),
        Some([COUNTS, [1, 1, 0, 0, 0, 0, 0]])
    );
}

/// Whether a copy has what the counter has; `None` if memory for it runs out.
fn copied_right(set: &Verified) -> Option<bool> {
    match set.copy() {
        Ok(copy) => Some(counts(&copy, P) == COUNTS),
        Err(_) => None,
    }
}

/// As `copied_right`, for the counter, and whether it still has all that after copying; `None` if memory runs out.
fn copied_counter(alloc: Global) -> Option<(Option<bool>, bool)> {
    match made(alloc, &counter()) {
        Some(set) => {
            let copied = copied_right(&set);
            Some((copied, counts(&set, P) == COUNTS))
        }
        None => None,
    }
}

#[test]
fn a_copy_is_made(rt: HostRuntime) {
    assert_eq!(rt; copied_counter(rt.alloc()), Some((Some(true), true)));
}

/// Whichever request for memory is refused: there is no set, or no copy of it, and the set is unchanged.
#[test]
fn want_of_memory_changes_nothing(rt: HostRuntime) {
    if let Some((copied, stays)) = copied_counter(rt.alloc()) {
        assert!(rt; copied != Some(false));
        assert!(rt; stays);
    }
}
