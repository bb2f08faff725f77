//! Tests of whole texts, from their bytes to their draft.
use crate::texts::{COUNTER, read};
use sdl_ast::Block;
use sdl_compile::compile;
use sdl_rules::resolve;
use std::alloc::Global;
use turn_code::{
    Cert, Draft, DraftInput, DraftPiece, DraftProcess, DraftState, DraftVariable, Instruction,
    Party, ProcessNumber, Receiver, SignalNumber, Sort, StateNumber, TimerNumber, Trigger, Value,
    VariableNumber,
};

const ALARM: &str = "BLOCK B; SIGNAL Hold, Told(Boolean);
SIGNALROUTE r FROM ENV TO P WITH Hold; FROM P TO ENV WITH Told;
PROCESS P (1,1); DCL late Boolean := FALSE; TIMER t;
START; SET(NOW + 5, t); NEXTSTATE Wait;
STATE Wait; SAVE Hold; INPUT t; OUTPUT Told(NOT late); STOP;
ENDSTATE Wait; ENDPROCESS P; ENDBLOCK B;
";

/// Both answers of a question lead to one connection.
const TWICE: &str = "BLOCK B; PROCESS P; DCL b Boolean := TRUE;
START; DECISION b; (TRUE): JOIN c; (FALSE): JOIN c; ENDDECISION;
CONNECTION c: STOP; ENDCONNECTION; ENDPROCESS; ENDBLOCK;
";

/// The draft of a sound block.
fn compiled(alloc: Global, block: &Block) -> Option<Draft> {
    let resolved = resolve(alloc, block).ok()?;
    compile(alloc, &resolved).ok()
}

/// The draft of a sound text.
fn draft_of(alloc: Global, text: &str) -> Option<Draft> {
    compiled(alloc, &read(alloc, text)?)
}

/// Whether the only signal is Up, with an Integer.
fn has_up(draft: &Draft) -> bool {
    match draft.signals.as_slice() {
        [signal] => {
            signal.name.as_bytes() == b"Up".as_slice()
                && signal.parameters.as_slice() == [Sort::Integer].as_slice()
        }
        _ => false,
    }
}

/// Whether the only route has only signal 0, from the environment to process 0.
fn has_way_in(draft: &Draft) -> bool {
    match draft.routes.as_slice() {
        [route] => {
            route.from == Party::Environment
                && route.to == Party::Process(ProcessNumber(0))
                && route.signals.as_slice() == [SignalNumber(0)].as_slice()
        }
        _ => false,
    }
}

/// Whether the process is P, with the variables n and total.
fn is_counter(process: &DraftProcess) -> bool {
    match process.variables.as_slice() {
        [n, total] => {
            process.name.as_bytes() == b"P".as_slice()
                && n.name.as_bytes() == b"n".as_slice()
                && total.name.as_bytes() == b"total".as_slice()
        }
        _ => false,
    }
}

/// Whether the certificate of a piece has this budget, depth and number of effects.
fn needs(piece: &DraftPiece, budget: u32, depth: u32, effects: u32) -> bool {
    let wanted = Cert {
        budget,
        depth,
        effects,
    };
    piece.certificate == wanted
}

/// The first input of a state.
fn first_input(state: &DraftState) -> Option<&DraftInput> {
    state.inputs.as_slice().first()
}

/// Whether the first input of a state has this trigger and this code.
fn waits_for(state: &DraftState, trigger: Trigger, code: &[Instruction]) -> bool {
    match first_input(state) {
        Some(input) => input.trigger == trigger && input.piece.code.as_slice() == code,
        None => false,
    }
}

const ADDS: [Instruction; 7] = [
    Instruction::Param(0),
    Instruction::Store(VariableNumber(0)),
    Instruction::Load(VariableNumber(1)),
    Instruction::Load(VariableNumber(0)),
    Instruction::Add,
    Instruction::Store(VariableNumber(1)),
    Instruction::Next(StateNumber(0)),
];

/// Whether the first state is Run, and its first input has the counter's code and certificate.
fn runs(process: &DraftProcess) -> [bool; 3] {
    match process.states.as_slice().first() {
        Some(state) => [
            state.name.as_bytes() == b"Run".as_slice(),
            waits_for(state, Trigger::Signal(SignalNumber(0)), &ADDS),
            match first_input(state) {
                Some(input) => needs(&input.piece, 7, 2, 0),
                None => false,
            },
        ],
        None => [false; 3],
    }
}

/// Checks of the counter's draft: its signal, its route, its process, the certificate of START, and its state.
fn counter(alloc: Global) -> Option<([bool; 4], [bool; 3])> {
    let draft = draft_of(alloc, COUNTER)?;
    match draft.processes.as_slice() {
        [process] => Some((
            [
                has_up(&draft),
                has_way_in(&draft),
                is_counter(process),
                needs(&process.start, 3, 1, 0),
            ],
            runs(process),
        )),
        _ => None,
    }
}

#[test]
fn the_counter_keeps_its_names_and_has_its_code(rt: HostRuntime) {
    assert_eq!(rt; counter(rt.alloc()), Some(([true; 4], [true; 3])));
}

/// Whether the only variable is late, a Boolean with the initial value FALSE.
fn is_late(variables: &[DraftVariable]) -> bool {
    match variables {
        [late] => {
            late.name.as_bytes() == b"late".as_slice()
                && late.sort == Sort::Boolean
                && late.initial == Some(Value::Bool(false))
        }
        _ => false,
    }
}

const TELLS: [Instruction; 4] = [
    Instruction::Load(VariableNumber(0)),
    Instruction::Not,
    Instruction::Output(SignalNumber(1), Receiver::Party(Party::Environment), 1),
    Instruction::Stop,
];

/// Whether the first state saves only the first signal, and its first input is the timer.
fn alarms(process: &DraftProcess) -> [bool; 2] {
    match process.states.as_slice().first() {
        Some(state) => [
            state.saves.as_slice() == [Trigger::Signal(SignalNumber(0))].as_slice(),
            waits_for(state, Trigger::Timer(TimerNumber(0)), &TELLS),
        ],
        None => [false; 2],
    }
}

/// Checks of the alarm's draft: its variable, the certificate of START, and its state.
fn alarm(alloc: Global) -> Option<([bool; 2], [bool; 2])> {
    let draft = draft_of(alloc, ALARM)?;
    let process = draft.processes.as_slice().first()?;
    Some((
        [
            is_late(process.variables.as_slice()),
            needs(&process.start, 3, 1, 1),
        ],
        alarms(process),
    ))
}

#[test]
fn the_alarm_has_its_timer_and_what_it_saves(rt: HostRuntime) {
    assert_eq!(rt; alarm(rt.alloc()), Some(([true; 2], [true; 2])));
}

/// The length of START's code if both answers lead to one connection, and whether its certificate counts that once.
fn twice(alloc: Global) -> Option<(usize, bool)> {
    let draft = draft_of(alloc, TWICE)?;
    let start = &draft.processes.as_slice().first()?.start;
    Some((start.code.len(), needs(start, 4, 1, 0)))
}

#[test]
fn a_connection_stands_once_behind_both_answers(rt: HostRuntime) {
    assert_eq!(rt; twice(rt.alloc()), Some((5, true)));
}
