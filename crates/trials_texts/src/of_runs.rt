//! Tests of turns of loaded texts: the signals that they send, where they end, and how many instructions they run.
use arrayvec::ArrayVec;
use mtp2_text::load;
use std::alloc::Global;
use turn_check::Verified;
use turn_code::{Address, Effect, End, Party, Place, ProcessNumber, StateNumber, Value};
use turn_machine::{Done, Job, Received, TurnHead, fits, run};

/// A process that sends two numbers: a sum that wraps, and a remainder that isn't negative.
const NUMBERS: &str = "BLOCK B; SIGNAL N(Integer); SIGNALROUTE r FROM Z TO ENV WITH N;
PROCESS Z; DCL x Integer; START; TASK x := 2147483647 + 1; OUTPUT N(x); TASK x := -1 MOD 128; OUTPUT N(x); STOP;
ENDPROCESS; ENDBLOCK;";

/// A DECISION with values, a relation and ELSE.
const CHOICE: &str = "BLOCK B; SIGNAL A; SIGNALROUTE r FROM ENV TO P WITH A;
PROCESS P; DCL x Integer := 0; START; NEXTSTATE W;
STATE W; INPUT A; DECISION x; (1, 2): TASK x := 5; (> 9): STOP; ELSE: ENDDECISION; NEXTSTATE W;
ENDPROCESS; ENDBLOCK;";

/// A Boolean DECISION, with an answer that joins a connection through another.
const SWITCH: &str = "BLOCK B; SIGNAL A(Boolean); SIGNALROUTE r FROM ENV TO P WITH A;
PROCESS P; DCL b Boolean := FALSE, n Integer := 0; START; NEXTSTATE W;
STATE W; INPUT A(b); DECISION b; (FALSE): TASK n := n - 1; (TRUE): JOIN up; ENDDECISION; NEXTSTATE W;
CONNECTION end: NEXTSTATE W; CONNECTION up: TASK n := n + 1; JOIN end; ENDPROCESS; ENDBLOCK;";

const FIRST: ProcessNumber = ProcessNumber(0);

const WAITING: Place = Place::State(StateNumber(0));

const WAITS: End = End::State(StateNumber(0));

/// A place, and the input for its first transition: the variables, a parameter or none, and the sender.
#[derive(Clone, Copy)]
struct Given(
    Place,
    &'static [Option<Value>],
    Option<Value>,
    Option<Address>,
);

/// The result of a turn: its end, its number of instructions, and the variables after it.
#[derive(Clone, Copy)]
struct Turn(End, u32, &'static [Option<Value>]);

/// Turns of [`CHOICE`]: the resulting value of x, and the number of instructions.
const CHOICES: [(Given, Turn); 4] = [
    (
        Given(WAITING, &[Some(Value::Int(1))], None, OUTSIDE),
        Turn(WAITS, 6, &[Some(Value::Int(5))]),
    ),
    (
        Given(WAITING, &[Some(Value::Int(2))], None, OUTSIDE),
        Turn(WAITS, 7, &[Some(Value::Int(5))]),
    ),
    (
        Given(WAITING, &[Some(Value::Int(9))], None, OUTSIDE),
        Turn(WAITS, 7, &[Some(Value::Int(9))]),
    ),
    (
        Given(WAITING, &[Some(Value::Int(10))], None, OUTSIDE),
        Turn(End::Stop, 5, &[Some(Value::Int(10))]),
    ),
];

const OUTSIDE: Option<Address> = Some(Address {
    party: Party::Environment,
    instance: None,
});

/// FALSE and 7.
const BEFORE: &[Option<Value>] = &[Some(Value::Bool(false)), Some(Value::Int(7))];

/// Turns of [`SWITCH`].
const SWITCHES: [(Given, Turn); 2] = [
    (
        Given(WAITING, BEFORE, Some(Value::Bool(false)), OUTSIDE),
        Turn(WAITS, 10, &[Some(Value::Bool(false)), Some(Value::Int(6))]),
    ),
    (
        Given(WAITING, BEFORE, Some(Value::Bool(true)), OUTSIDE),
        Turn(WAITS, 11, &[Some(Value::Bool(true)), Some(Value::Int(8))]),
    ),
];

/// The set of a text.
fn loaded(alloc: Global, text: &str) -> Option<Verified> {
    match load(alloc, text) {
        Ok(set) => Some(set),
        Err(_) => None,
    }
}

fn variables(values: &[Option<Value>]) -> ArrayVec<Option<Value>, 32> {
    let mut all = ArrayVec::new();
    for value in values {
        if !all.is_full() {
            all.push(*value);
        }
    }
    all
}

fn received(parameter: Option<Value>, sender: Option<Address>) -> Received {
    let mut parameters = ArrayVec::new();
    if let Some(value) = parameter {
        parameters.push(value);
    }
    Received { parameters, sender }
}

/// Runs the first input of a place, if the input fits.
fn ran(set: &Verified, given: Given) -> Option<Done> {
    let variables = variables(given.1);
    let received = received(given.2, given.3);
    if fits(set, FIRST, given.0, 0, &variables, &received) {
        let head = TurnHead {
            actor: 0,
            turn: 0,
            process: FIRST,
            place: given.0,
            input_number: 0,
        };
        Some(run(Job::new(set, head, variables, received)))
    } else {
        None
    }
}

/// Whether a turn has this result.
fn gives(set: &Verified, given: Given, turn: Turn) -> bool {
    match ran(set, given) {
        Some(done) => done.end() == turn.0 && done.count() == turn.1 && done.variables() == turn.2,
        None => false,
    }
}

/// The number of the first turn of a set with another result.
fn first_other(set: &Verified, turns: &[(Given, Turn)]) -> Option<usize> {
    for (number, (given, turn)) in turns.iter().enumerate() {
        if !gives(set, *given, *turn) {
            return Some(number);
        }
    }
    None
}

/// As `first_other`, for a text; `None` if it isn't accepted.
fn first_other_of(alloc: Global, text: &str, turns: &[(Given, Turn)]) -> Option<Option<usize>> {
    let set = loaded(alloc, text)?;
    Some(first_other(&set, turns))
}

#[test]
fn the_first_range_that_holds_is_taken(rt: HostRuntime) {
    assert_eq!(rt; first_other_of(rt.alloc(), CHOICE, &CHOICES), Some(None));
}

#[test]
fn each_truth_value_has_its_answer(rt: HostRuntime) {
    assert_eq!(rt; first_other_of(rt.alloc(), SWITCH, &SWITCHES), Some(None));
}

/// The first value of the output at this index among the effects.
fn sent(done: &Done, place: usize) -> Option<Value> {
    match done.effects().get(place)? {
        Effect::Output(sending) => sending.parameters.as_slice().first().copied(),
        _ => None,
    }
}

/// The end of START, its number of instructions and of effects, and the values that the first two send.
fn numbers(alloc: Global) -> Option<(End, u32, usize, [Option<Value>; 2])> {
    let set = loaded(alloc, NUMBERS)?;
    let done = ran(&set, Given(Place::Start, &[None], None, None))?;
    let values = [sent(&done, 0), sent(&done, 1)];
    Some((done.end(), done.count(), done.effects().len(), values))
}

const WANTED: [Option<Value>; 2] = [Some(Value::Int(-2_147_483_648)), Some(Value::Int(127))];

#[test]
fn numbers_wrap_and_go_out_in_order(rt: HostRuntime) {
    assert_eq!(rt; numbers(rt.alloc()), Some((End::Stop, 13, 2, WANTED)));
}
