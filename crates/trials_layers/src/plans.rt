//! Sets as plain data.
use turn_check::Spot;
use turn_code::{
    Instruction, Place, ProcessNumber, Rule, SignalNumber, Sort, StateNumber, TimerNumber, Trigger,
    Value, VariableNumber,
};

pub const P: ProcessNumber = ProcessNumber(0);

pub const RUN: StateNumber = StateNumber(0);

pub const N: VariableNumber = VariableNumber(0);

pub const TOTAL: VariableNumber = VariableNumber(1);

pub const UP: SignalNumber = SignalNumber(0);

pub const TICK: TimerNumber = TimerNumber(0);

pub const INTEGER: &[Sort] = &[Sort::Integer];

pub const INTEGERS: &[Sort] = &[Sort::Integer; 17];

pub const BOOLEAN: &[Sort] = &[Sort::Boolean];

/// Claims about a place: the sorts of the operands, the set of variables, the instructions and the effects to an end.
#[derive(Clone, Copy)]
pub struct Claim(pub &'static [Sort], pub u32, pub u32, pub u32);

/// The code of a transition, the claims about each place, and the counts of the whole: instructions, operands, effects.
#[derive(Clone, Copy)]
pub struct Plan {
    pub code: &'static [Instruction],
    pub claims: &'static [Claim],
    pub counts: (u32, u32, u32),
}

/// A set with the process P, whose variables are n and total and whose timer is Tick. P waits for one thing in the
/// state Run. Up goes from ENV to P and from P to ENV.
#[derive(Clone, Copy)]
pub struct Recipe {
    /// The parameters of Up.
    pub parameters: &'static [Sort],
    /// The initial value of n.
    pub initial: Option<Value>,
    /// The code of START.
    pub start: Plan,
    /// What Run saves.
    pub saves: &'static [Trigger],
    /// What Run waits for.
    pub trigger: Trigger,
    /// The code of that transition; total is set as it begins.
    pub up: Plan,
    /// How many further states there are after Run, which wait for nothing.
    pub more: u32,
    /// How many instances of P run.
    pub instances: u32,
}

/// The result for a set.
#[derive(Clone, Copy, PartialEq, Eq, Debug)]
pub enum Verdict {
    /// Memory ran out.
    NotMade,
    Accepted,
    Refused(Rule, Spot),
}

/// `TASK total := 0; NEXTSTATE Run;`
pub const ZERO: Plan = Plan {
    code: &[
        Instruction::Int(0),
        Instruction::Store(TOTAL),
        Instruction::Next(RUN),
    ],
    claims: &[
        Claim(&[], 0, 3, 0),
        Claim(INTEGER, 0, 2, 0),
        Claim(&[], 2, 1, 0),
    ],
    counts: (3, 1, 0),
};

/// `INPUT Up(n); TASK total := total + n; NEXTSTATE Run;`
pub const ADD: Plan = Plan {
    code: &[
        Instruction::Param(0),
        Instruction::Store(N),
        Instruction::Load(TOTAL),
        Instruction::Load(N),
        Instruction::Add,
        Instruction::Store(TOTAL),
        Instruction::Next(RUN),
    ],
    claims: &[
        Claim(&[], 2, 7, 0),
        Claim(INTEGER, 2, 6, 0),
        Claim(&[], 3, 5, 0),
        Claim(INTEGER, 3, 4, 0),
        Claim(&[Sort::Integer, Sort::Integer], 3, 3, 0),
        Claim(INTEGER, 3, 2, 0),
        Claim(&[], 3, 1, 0),
    ],
    counts: (7, 2, 0),
};

/// `STOP;` if total is set.
pub const STOP: Plan = Plan {
    code: &[Instruction::Stop],
    claims: &[Claim(&[], 2, 1, 0)],
    counts: (1, 0, 0),
};

/// Up(Integer) adds to a total. It is a function, because a test that names a const has all of it in its proof.
pub fn counter() -> Recipe {
    Recipe {
        parameters: INTEGER,
        initial: None,
        start: ZERO,
        saves: &[Trigger::Timer(TICK)],
        trigger: Trigger::Signal(UP),
        up: ADD,
        more: 0,
        instances: 1,
    }
}

/// The places of START that tests name.
pub const START_0: Spot = Spot {
    process: P,
    state: Place::Start,
    input: 0,
    place: 0,
};

pub const START_1: Spot = Spot {
    process: P,
    state: Place::Start,
    input: 0,
    place: 1,
};

pub const START_2: Spot = Spot {
    process: P,
    state: Place::Start,
    input: 0,
    place: 2,
};

/// The first place of the transition for which Run waits.
pub const INPUT_0: Spot = Spot {
    process: P,
    state: Place::State(RUN),
    input: 0,
    place: 0,
};
