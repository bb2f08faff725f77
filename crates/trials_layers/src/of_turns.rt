//! Turns: their results, inputs that don't fit, and copies of their parts.
use crate::drafts::made;
use crate::plans::*;
use arrayvec::ArrayVec;
use std::alloc::{AllocError, Global};
use turn_check::Verified;
use turn_code::{
    Address, Cert, Effect, End, InstanceNumber, Instruction, Party, Place, ProcessNumber, Receiver,
    SignalNumber, Sort, TimerNumber, Value,
};
use turn_machine::{Done, Job, Received, TurnHead, fits, run};

/// `INPUT Up(n); TASK total := -(n * n) - 1; NEXTSTATE Run;`
const SQUARE: Plan = Plan {
    code: &[
        Instruction::Param(0),
        Instruction::Store(N),
        Instruction::Load(N),
        Instruction::Load(N),
        Instruction::Mul,
        Instruction::Neg,
        Instruction::Int(1),
        Instruction::Sub,
        Instruction::Store(TOTAL),
        Instruction::Next(RUN),
    ],
    claims: &[
        Claim(&[], 2, 10, 0),
        Claim(INTEGER, 2, 9, 0),
        Claim(&[], 3, 8, 0),
        Claim(INTEGER, 3, 7, 0),
        Claim(&[Sort::Integer, Sort::Integer], 3, 6, 0),
        Claim(INTEGER, 3, 5, 0),
        Claim(INTEGER, 3, 4, 0),
        Claim(&[Sort::Integer, Sort::Integer], 3, 3, 0),
        Claim(INTEGER, 3, 2, 0),
        Claim(&[], 3, 1, 0),
    ],
    counts: (10, 2, 0),
};

/// Up: Tick is set to the clock plus the parameter, 3 goes to the sender, Tick is reset, and P stops.
const EFFECTS: Plan = Plan {
    code: &[
        Instruction::Param(0),
        Instruction::Set(TICK),
        Instruction::Int(3),
        Instruction::Output(UP, Receiver::Sender, 1),
        Instruction::Reset(TICK),
        Instruction::Stop,
    ],
    claims: &[
        Claim(&[], 2, 6, 3),
        Claim(INTEGER, 2, 5, 3),
        Claim(&[], 2, 4, 2),
        Claim(INTEGER, 2, 3, 2),
        Claim(&[], 2, 2, 1),
        Claim(&[], 2, 1, 0),
    ],
    counts: (6, 1, 3),
};

const IN_RUN: Place = Place::State(RUN);

const OUTSIDE: Option<Address> = Some(Address {
    party: Party::Environment,
    instance: None,
});

/// The first instance of the process itself.
const OWN: Option<Address> = Some(Address {
    party: Party::Process(P),
    instance: Some(InstanceNumber(1)),
});

/// Values of n and total.
fn variables(n: Option<i32>, total: Option<i32>) -> ArrayVec<Option<Value>, 32> {
    let mut all = ArrayVec::new();
    all.push(n.map(Value::Int));
    all.push(total.map(Value::Int));
    all
}

/// An input with at most one value, with or without a sender.
fn received(value: Option<i32>, sender: Option<Address>) -> Received {
    let mut parameters = ArrayVec::new();
    if let Some(number) = value {
        parameters.push(Value::Int(number));
    }
    Received { parameters, sender }
}

/// The job of actor 4 in turn 9 that takes Up from ENV in Run, if that fits.
fn job(set: &Verified, total: i32, n: i32) -> Option<Job> {
    let variables = variables(None, Some(total));
    let received = received(Some(n), OUTSIDE);
    if fits(set, P, IN_RUN, 0, &variables, &received) {
        let head = TurnHead {
            actor: 4,
            turn: 9,
            process: P,
            place: IN_RUN,
            input_number: 0,
        };
        Some(Job::new(set, head, variables, received))
    } else {
        None
    }
}

/// A copy of a thing, made by its trait.
fn once_more<T: Clone>(thing: &T) -> Result<T, AllocError> {
    thing.clone()
}

/// The counter, with this code for Up, after it ran it on a total and a number from ENV.
fn ran(alloc: Global, up: Plan, total: i32, n: i32) -> Option<Done> {
    let set = made(alloc, &Recipe { up, ..counter() })?;
    Some(run(job(&set, total, n)?))
}

/// How a turn ends, with which n and total, after how many instructions and effects.
type Turn = (End, Option<Value>, Option<Value>, u32, usize);

fn value_at(values: &[Option<Value>], place: usize) -> Option<Value> {
    match values.get(place) {
        Some(value) => *value,
        None => None,
    }
}

fn turn(done: &Done) -> Turn {
    (
        done.end(),
        value_at(done.variables(), 0),
        value_at(done.variables(), 1),
        done.count(),
        done.effects().len(),
    )
}

/// Code for Up, the total before, the number received, and the turn.
const TURNS: [(Plan, i32, i32, Turn); 3] = [
    (
        ADD,
        5,
        7,
        (
            End::State(RUN),
            Some(Value::Int(7)),
            Some(Value::Int(12)),
            7,
            0,
        ),
    ),
    (
        SQUARE,
        0,
        65_536,
        (
            End::State(RUN),
            Some(Value::Int(65_536)),
            Some(Value::Int(-1)),
            10,
            0,
        ),
    ),
    (EFFECTS, 5, 7, (End::Stop, None, Some(Value::Int(5)), 6, 3)),
];

/// The result of a row's turn.
fn gives(alloc: Global, row: &(Plan, i32, i32, Turn)) -> Option<Turn> {
    match ran(alloc, row.0, row.1, row.2) {
        Some(done) => Some(turn(&done)),
        None => None,
    }
}

/// The index of the first row whose turn has another result.
fn first_other_turn(alloc: Global, rows: &[(Plan, i32, i32, Turn)]) -> Option<usize> {
    for (number, row) in rows.iter().enumerate() {
        if gives(alloc, row) != Some(row.3) {
            return Some(number);
        }
    }
    None
}

#[test]
fn a_turn_gives_what_its_text_says(rt: HostRuntime) {
    assert_eq!(rt; first_other_turn(rt.alloc(), &TURNS), None);
}

/// An effect with at most one parameter.
#[derive(Clone, Copy, PartialEq, Eq, Debug)]
enum Told {
    Output(SignalNumber, Party, Option<Value>),
    Set(TimerNumber, i32),
    Reset(TimerNumber),
}

fn seen_as(effect: &Effect) -> Told {
    match effect {
        Effect::Output(sending) => Told::Output(
            sending.signal,
            sending.receiver.party,
            sending.parameters.as_slice().first().copied(),
        ),
        Effect::Set(timer, delay) => Told::Set(*timer, *delay),
        Effect::Reset(timer) => Told::Reset(*timer),
    }
}

fn effect_at(done: &Done, place: usize) -> Option<Told> {
    match done.effects().get(place) {
        Some(effect) => Some(seen_as(effect)),
        None => None,
    }
}

fn three_effects(done: &Done) -> [Option<Told>; 3] {
    [effect_at(done, 0), effect_at(done, 1), effect_at(done, 2)]
}

const IN_ORDER: [Option<Told>; 3] = [
    Some(Told::Set(TICK, 7)),
    Some(Told::Output(UP, Party::Environment, Some(Value::Int(3)))),
    Some(Told::Reset(TICK)),
];

/// The effects of Up with the number 7, and of an equal turn; `None` if memory for the set runs out.
fn effects_twice(alloc: Global) -> Option<[[Option<Told>; 3]; 2]> {
    let done = ran(alloc, EFFECTS, 5, 7)?;
    let again = once_more(&done).ok()?;
    Some([three_effects(&done), three_effects(&again)])
}

#[test]
fn effects_stand_in_order(rt: HostRuntime) {
    assert_eq!(rt; effects_twice(rt.alloc()), Some([IN_ORDER; 2]));
}

/// The data of a job: actor, turn, process, place, number of the input, length of the code, and counts.
fn about(job: &Job) -> (u16, u64, ProcessNumber, Place, usize, usize, Cert) {
    (
        job.actor(),
        job.turn(),
        job.process(),
        job.place(),
        job.input_number(),
        job.code().len(),
        job.certificate(),
    )
}

/// The data of the counter's job.
const ABOUT: (u16, u64, ProcessNumber, Place, usize, usize, Cert) = (
    4,
    9,
    P,
    IN_RUN,
    0,
    7,
    Cert {
        budget: 7,
        depth: 2,
        effects: 0,
    },
);

/// The counter's job for Up with the number 7.
fn counter_job(alloc: Global) -> Option<Job> {
    job(&made(alloc, &counter())?, 5, 7)
}

/// Whether the counter's job and an equal one have the same data, with the same input.
fn told_twice(alloc: Global) -> Option<[bool; 3]> {
    let job = counter_job(alloc)?;
    let again = once_more(&job).ok()?;
    Some([
        about(&job) == ABOUT,
        about(&again) == ABOUT,
        job.input().same(again.input()),
    ])
}

#[test]
fn a_job_has_all_that_it_needs(rt: HostRuntime) {
    assert_eq!(rt; told_twice(rt.alloc()), Some([true; 3]));
}

/// A place, the number of an input, values of n and total, a parameter, a sender, and whether all that fits.
type Fit = (
    Place,
    usize,
    Option<i32>,
    Option<i32>,
    Option<i32>,
    Option<Address>,
    bool,
);

const FITS: [Fit; 8] = [
    (IN_RUN, 0, None, Some(0), Some(1), OUTSIDE, true),
    // total isn't set
    (IN_RUN, 0, Some(0), None, Some(1), OUTSIDE, false),
    // no such input
    (IN_RUN, 1, None, Some(0), Some(1), OUTSIDE, false),
    // no route
    (IN_RUN, 0, None, Some(0), Some(1), OWN, false),
    // no sender
    (IN_RUN, 0, None, Some(0), Some(1), None, false),
    // no parameter
    (IN_RUN, 0, None, Some(0), None, OUTSIDE, false),
    (Place::Start, 0, None, None, None, None, true),
    // START has no parameter
    (Place::Start, 0, None, None, Some(1), None, false),
];

fn does_fit(set: &Verified, row: &Fit) -> bool {
    let variables = variables(row.2, row.3);
    let received = received(row.4, row.5);
    fits(set, P, row.0, row.1, &variables, &received)
}

/// The index of the first row with another result.
fn first_other_fit(set: &Verified, rows: &[Fit]) -> Option<usize> {
    for (number, row) in rows.iter().enumerate() {
        if does_fit(set, row) != row.6 {
            return Some(number);
        }
    }
    None
}

/// Whether Up fits without variables.
fn bare_fit(set: &Verified) -> bool {
    let received = received(Some(1), OUTSIDE);
    fits(set, P, IN_RUN, 0, &ArrayVec::new(), &received)
}

/// The index of the first row with another result for the counter, and whether Up fits it without variables.
fn fits_of_counter(alloc: Global, rows: &[Fit]) -> Option<(Option<usize>, bool)> {
    match made(alloc, &counter()) {
        Some(set) => Some((first_other_fit(&set, rows), bare_fit(&set))),
        None => None,
    }
}

#[test]
fn a_wrong_input_does_not_fit(rt: HostRuntime) {
    assert_eq!(rt; fits_of_counter(rt.alloc(), &FITS), Some((None, false)));
}

/// Whether 1 from ENV equals its copy, and inputs that differ in value, in sender, or in both.
fn compared() -> Result<[bool; 4], AllocError> {
    let one = received(Some(1), OUTSIDE);
    Ok([
        one.same(&once_more(&one)?),
        one.same(&received(Some(2), OUTSIDE)),
        one.same(&received(Some(1), OWN)),
        one.same(&received(None, None)),
    ])
}

#[test]
fn what_comes_is_compared(rt: HostRuntime) {
    assert_eq!(rt; compared(), Ok([true, false, false, false]));
}
