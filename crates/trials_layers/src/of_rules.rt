//! For each rule, sets that break only that rule, and where; and sets that break no rule.
use crate::drafts::{facts, tried, tried_with};
use crate::plans::*;
use std::alloc::{AllocError, Global};
use turn_check::{Spot, VerifyFault};
use turn_code::{
    Cert, CodePlace, DraftPiece, Instruction, Place, PlaceFacts, ProcessNumber, Receiver, Rule,
    Sequence, SignalNumber, Sort, StateNumber, TimerNumber, Trigger, Value,
};

/// `STOP;` if n is set from the beginning.
const STOP_WITH_N: Plan = Plan {
    code: &[Instruction::Stop],
    claims: &[Claim(&[], 1, 1, 0)],
    counts: (1, 0, 0),
};

/// The answer to whoever sent Up.
const ANSWER: Plan = Plan {
    code: &[
        Instruction::Int(0),
        Instruction::Output(UP, Receiver::Sender, 1),
        Instruction::Stop,
    ],
    claims: &[
        Claim(&[], 2, 3, 1),
        Claim(INTEGER, 2, 2, 1),
        Claim(&[], 2, 1, 0),
    ],
    counts: (3, 1, 1),
};

/// What differs in a set from the counter.
#[derive(Clone, Copy)]
pub(crate) enum Change {
    Nothing,
    /// START has this code.
    Start(Plan),
    /// n has this initial value, and START stops.
    Initial(Value),
    /// Run saves these.
    Saves(&'static [Trigger]),
    /// Run saves nothing and waits for this, with this code.
    Input(Trigger, Plan),
    /// Both: START has this code, and Run saves nothing and waits for this, with that code.
    Both(Plan, Trigger, Plan),
    /// Up has these parameters.
    Parameters(&'static [Sort]),
    /// There are so many further states after Run.
    More(u32),
    /// So many instances run.
    Instances(u32),
}

pub(crate) fn changed(change: Change) -> Recipe {
    let mut recipe = counter();
    match change {
        Change::Nothing => {}
        Change::Start(start) => recipe.start = start,
        Change::Initial(value) => {
            recipe.initial = Some(value);
            recipe.start = STOP_WITH_N;
        }
        Change::Saves(saves) => recipe.saves = saves,
        Change::Input(trigger, up) => {
            recipe.saves = &[];
            recipe.trigger = trigger;
            recipe.up = up;
        }
        Change::Both(start, trigger, up) => {
            recipe.start = start;
            recipe.saves = &[];
            recipe.trigger = trigger;
            recipe.up = up;
        }
        Change::Parameters(parameters) => recipe.parameters = parameters,
        Change::More(more) => recipe.more = more,
        Change::Instances(count) => recipe.instances = count,
    }
    recipe
}

/// Place 1 of the transition for which Run waits: that of an answer to SENDER.
const INPUT_1: Spot = Spot {
    process: P,
    state: Place::State(RUN),
    input: 0,
    place: 1,
};

/// Changes, and the result for the counter with each.
const SETS: [(Change, Verdict); 17] = [
    (Change::Nothing, Verdict::Accepted),
    (Change::Initial(Value::Int(1)), Verdict::Accepted),
    (
        Change::Initial(Value::Bool(true)),
        Verdict::Refused(Rule::Sort, START_0),
    ),
    // START claims that total is set at its beginning
    (Change::Start(STOP), Verdict::Refused(Rule::Unset, START_0)),
    // no such signal
    (
        Change::Saves(&[Trigger::Timer(TICK), Trigger::Signal(SignalNumber(1))]),
        Verdict::Refused(Rule::Number, START_0),
    ),
    // no such timer
    (
        Change::Input(Trigger::Timer(TimerNumber(1)), STOP),
        Verdict::Refused(Rule::Number, INPUT_0),
    ),
    (Change::Input(Trigger::Timer(TICK), STOP), Verdict::Accepted),
    // an answer goes to the sender of a signal; a timer has none
    (
        Change::Input(Trigger::Signal(UP), ANSWER),
        Verdict::Accepted,
    ),
    (
        Change::Input(Trigger::Timer(TICK), ANSWER),
        Verdict::Refused(Rule::Number, INPUT_1),
    ),
    // the first of two broken rules is named: START is before Run, and place 0 before place 1
    (
        Change::Both(STOP, Trigger::Timer(TimerNumber(1)), STOP),
        Verdict::Refused(Rule::Unset, START_0),
    ),
    (
        Change::Input(Trigger::Timer(TimerNumber(1)), ANSWER),
        Verdict::Refused(Rule::Number, INPUT_0),
    ),
    // a signal has at most 4 parameters, a process at most 64 states and 8 instances
    (
        Change::Parameters(&[Sort::Integer; 5]),
        Verdict::Refused(Rule::Limit, START_0),
    ),
    (Change::More(63), Verdict::Accepted),
    (Change::Instances(8), Verdict::Accepted),
    (Change::Instances(0), Verdict::Refused(Rule::Limit, START_0)),
    (Change::Instances(9), Verdict::Refused(Rule::Limit, START_0)),
    (
        Change::More(100_000),
        Verdict::Refused(Rule::Limit, START_0),
    ),
];

/// The index of the first change with another result for the counter.
fn first_other_change(alloc: Global, rows: &[(Change, Verdict)]) -> Option<usize> {
    for (number, (change, wanted)) in rows.iter().enumerate() {
        if tried(alloc, &changed(*change)) != *wanted {
            return Some(number);
        }
    }
    None
}

#[test]
fn a_rule_of_the_whole_is_named(rt: HostRuntime) {
    assert_eq!(rt; first_other_change(rt.alloc(), &SETS), None);
}

/// A long START: so many steps of one kind, and STOP.
#[derive(Clone, Copy)]
enum Long {
    /// Each step continues at the next place.
    Jumps(u16),
    /// Each step stops the timer.
    Resets(u16),
    /// So many Integers are pushed and then popped.
    Piles(u16),
}

impl Long {
    /// The number of instructions before STOP.
    fn steps(self) -> u16 {
        match self {
            Long::Jumps(times) | Long::Resets(times) => times,
            Long::Piles(height) => height.saturating_mul(2),
        }
    }

    /// The instruction at a place before STOP.
    fn step(self, place: u16) -> Instruction {
        match self {
            Long::Jumps(_) => Instruction::Jump(CodePlace(place.saturating_add(1))),
            Long::Resets(_) => Instruction::Reset(TICK),
            Long::Piles(height) if place < height => Instruction::Int(0),
            Long::Piles(_) => Instruction::Drop,
        }
    }

    /// The claims about a place that is so many steps before STOP.
    fn claim(self, place: u16, left: u16) -> Claim {
        let count = u32::from(left) + 1;
        match self {
            Long::Jumps(_) => Claim(&[], 0, count, 0),
            Long::Resets(_) => Claim(&[], 0, count, u32::from(left)),
            Long::Piles(_) => Claim(integers(place.min(left)), 0, count, 0),
        }
    }

    /// The counts of the whole.
    fn certificate(self) -> Cert {
        let budget = u32::from(self.steps()) + 1;
        let (depth, effects) = match self {
            Long::Jumps(_) => (0, 0),
            Long::Resets(times) => (0, u32::from(times)),
            Long::Piles(height) => (u32::from(height), 0),
        };
        Cert {
            budget,
            depth,
            effects,
        }
    }
}

/// So many sorts, all Integer; empty if there are more than 17.
fn integers(count: u16) -> &'static [Sort] {
    INTEGERS.get(..usize::from(count)).unwrap_or(&[])
}

fn long_code(alloc: Global, long: Long) -> Result<Sequence<Instruction>, AllocError> {
    let mut code = Vec::new(alloc);
    for place in 0..long.steps() {
        code.push(long.step(place))?;
    }
    code.push(Instruction::Stop)?;
    Ok(Sequence::from(code))
}

fn long_facts(alloc: Global, long: Long) -> Result<Sequence<PlaceFacts>, AllocError> {
    let mut all = Vec::new(alloc);
    let steps = long.steps();
    for place in 0..=steps {
        all.push(facts(alloc, &long.claim(place, steps.saturating_sub(place)))?)?;
    }
    Ok(Sequence::from(all))
}

fn long_start(alloc: Global, long: Long) -> Result<DraftPiece, AllocError> {
    Ok(DraftPiece {
        code: long_code(alloc, long)?,
        facts: long_facts(alloc, long)?,
        certificate: long.certificate(),
    })
}

/// The result for the counter with a long START.
fn tried_long(alloc: Global, long: Long) -> Verdict {
    match long_start(alloc, long) {
        Ok(start) => tried_with(alloc, &counter(), start),
        Err(_) => Verdict::NotMade,
    }
}

/// A transition has at most 512 instructions, 32 effects and 16 operands.
const LONG: [(Long, Verdict); 6] = [
    (Long::Jumps(511), Verdict::Accepted),
    (Long::Jumps(512), Verdict::Refused(Rule::Limit, START_0)),
    (Long::Resets(32), Verdict::Accepted),
    (Long::Resets(33), Verdict::Refused(Rule::Limit, START_0)),
    (Long::Piles(16), Verdict::Accepted),
    (Long::Piles(17), Verdict::Refused(Rule::Limit, START_0)),
];

/// The index of the first row with another result.
fn first_other_long(alloc: Global, rows: &[(Long, Verdict)]) -> Option<usize> {
    for (number, (long, wanted)) in rows.iter().enumerate() {
        if tried_long(alloc, *long) != *wanted {
            return Some(number);
        }
    }
    None
}

#[test]
fn a_piece_has_its_limits(rt: HostRuntime) {
    assert_eq!(rt; first_other_long(rt.alloc(), &LONG), None);
}

/// Faults, and their printed text.
const LINES: [(VerifyFault, &str); 9] = [
    (
        VerifyFault::Jump(START_0),
        "V1 Jump process 0 START place 0",
    ),
    (
        VerifyFault::Shape(START_1),
        "V2 Shape process 0 START place 1",
    ),
    (
        VerifyFault::Under(START_2),
        "V3 Under process 0 START place 2",
    ),
    (
        VerifyFault::Sort(START_0),
        "V4 Sort process 0 START place 0",
    ),
    (
        VerifyFault::Unset(START_0),
        "V5 Unset process 0 START place 0",
    ),
    (
        VerifyFault::State(START_0),
        "V6 State process 0 START place 0",
    ),
    (
        VerifyFault::Number(ELSEWHERE),
        "V7 Number process 15 state 63 input 4095 place 511",
    ),
    (
        VerifyFault::Limit(START_0),
        "V8 Limit process 0 START place 0",
    ),
    (
        VerifyFault::Budget(INPUT_0),
        "V9 Budget process 0 state 0 input 0 place 0",
    ),
];

/// The last place of all, by the limits.
const ELSEWHERE: Spot = Spot {
    process: ProcessNumber(15),
    state: Place::State(StateNumber(63)),
    input: 4095,
    place: 511,
};

/// Whether this is the printed text of a fault.
fn is_printed(alloc: Global, fault: VerifyFault, line: &str) -> Result<bool, AllocError> {
    let printed = format!(in alloc; "{fault}")?;
    Ok(printed.as_str() == line)
}

/// The index of the first fault with another printed text.
fn first_other_line(alloc: Global, rows: &[(VerifyFault, &str)]) -> Option<usize> {
    for (number, (fault, line)) in rows.iter().enumerate() {
        if is_printed(alloc, *fault, line) != Ok(true) {
            return Some(number);
        }
    }
    None
}

#[test]
fn a_fault_is_printed(rt: HostRuntime) {
    assert_eq!(rt; first_other_line(rt.alloc(), &LINES), None);
}
