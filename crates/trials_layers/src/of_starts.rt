//! Codes of START that break only one rule, and where; and codes that break no rule.
use crate::drafts::tried;
use crate::of_rules::{Change, changed};
use crate::plans::*;
use std::alloc::Global;
use turn_code::{
    CodePlace, Instruction, Party, Receiver, Rule, Sort, StateNumber, TimerNumber, VariableNumber,
};

const BOTH_WAYS: Instruction = Instruction::Pick(CodePlace(2), CodePlace(3));

/// Codes of START that continue or leave operands where they may not, and the result for the counter with each.
const WAYS: [(Plan, Verdict); 7] = [
    // no code
    (
        Plan {
            code: &[],
            claims: &[],
            counts: (0, 0, 0),
        },
        Verdict::Refused(Rule::Jump, START_0),
    ),
    // the code runs past its end
    (
        Plan {
            code: &[Instruction::Reset(TICK)],
            claims: &[Claim(&[], 0, 1, 1)],
            counts: (1, 0, 1),
        },
        Verdict::Refused(Rule::Jump, START_0),
    ),
    // a place outside
    (
        Plan {
            code: &[Instruction::Jump(CodePlace(1))],
            claims: &[Claim(&[], 0, 1, 0)],
            counts: (1, 0, 0),
        },
        Verdict::Refused(Rule::Jump, START_0),
    ),
    // two paths to place 3 leave different operands there
    (
        Plan {
            code: &[
                Instruction::Bool(true),
                BOTH_WAYS,
                Instruction::Int(0),
                Instruction::Stop,
            ],
            claims: &[
                Claim(&[], 0, 4, 0),
                Claim(BOOLEAN, 0, 3, 0),
                Claim(&[], 0, 2, 0),
                Claim(&[], 0, 1, 0),
            ],
            counts: (4, 1, 0),
        },
        Verdict::Refused(Rule::Shape, START_2),
    ),
    // an operand as the code begins
    (
        Plan {
            code: &[Instruction::Stop],
            claims: &[Claim(INTEGER, 0, 1, 0)],
            counts: (1, 1, 0),
        },
        Verdict::Refused(Rule::Shape, START_0),
    ),
    // too few operands
    (
        Plan {
            code: &[
                Instruction::Add,
                Instruction::Store(TOTAL),
                Instruction::Next(RUN),
            ],
            ..ZERO
        },
        Verdict::Refused(Rule::Under, START_0),
    ),
    // an Integer is used as a Boolean
    (
        Plan {
            code: &[
                Instruction::Int(0),
                Instruction::Pick(CodePlace(2), CodePlace(2)),
                Instruction::Stop,
            ],
            claims: &[
                Claim(&[], 0, 3, 0),
                Claim(INTEGER, 0, 2, 0),
                Claim(&[], 0, 1, 0),
            ],
            counts: (3, 1, 0),
        },
        Verdict::Refused(Rule::Sort, START_1),
    ),
];

/// Codes of START that use unset variables or end in no state, and the result for the counter with each.
const UNSET: [(Plan, Verdict); 4] = [
    // n is read and not set
    (
        Plan {
            code: &[
                Instruction::Load(N),
                Instruction::Store(TOTAL),
                Instruction::Next(RUN),
            ],
            ..ZERO
        },
        Verdict::Refused(Rule::Unset, START_0),
    ),
    // total isn't set in Run
    (
        Plan {
            code: &[
                Instruction::Int(0),
                Instruction::Store(N),
                Instruction::Next(RUN),
            ],
            claims: &[
                Claim(&[], 0, 3, 0),
                Claim(INTEGER, 0, 2, 0),
                Claim(&[], 1, 1, 0),
            ],
            counts: (3, 1, 0),
        },
        Verdict::Refused(Rule::Unset, START_2),
    ),
    // total is set on one of two paths
    (
        Plan {
            code: &[
                Instruction::Bool(true),
                Instruction::Pick(CodePlace(2), CodePlace(4)),
                Instruction::Int(0),
                Instruction::Store(TOTAL),
                Instruction::Next(RUN),
            ],
            claims: &[
                Claim(&[], 0, 5, 0),
                Claim(BOOLEAN, 0, 4, 0),
                Claim(&[], 0, 3, 0),
                Claim(INTEGER, 0, 2, 0),
                Claim(&[], 2, 1, 0),
            ],
            counts: (5, 1, 0),
        },
        Verdict::Refused(Rule::Unset, START_1),
    ),
    // no such state
    (
        Plan {
            code: &[Instruction::Next(StateNumber(1))],
            claims: &[Claim(&[], 0, 1, 0)],
            counts: (1, 0, 0),
        },
        Verdict::Refused(Rule::State, START_0),
    ),
];

/// Codes of START whose counts are wrong, and the result for the counter with each.
const COUNTED: [(Plan, Verdict); 4] = [
    // a path that returns
    (
        Plan {
            code: &[Instruction::Jump(CodePlace(0))],
            claims: &[Claim(&[], 0, 1, 0)],
            counts: (1, 0, 0),
        },
        Verdict::Refused(Rule::Budget, START_0),
    ),
    // the shorter of two paths is counted
    (
        Plan {
            code: &[
                Instruction::Bool(true),
                BOTH_WAYS,
                Instruction::Jump(CodePlace(3)),
                Instruction::Stop,
            ],
            claims: &[
                Claim(&[], 0, 3, 0),
                Claim(BOOLEAN, 0, 2, 0),
                Claim(&[], 0, 2, 0),
                Claim(&[], 0, 1, 0),
            ],
            counts: (3, 1, 0),
        },
        Verdict::Refused(Rule::Budget, START_1),
    ),
    // a certificate with greater counts than the code has
    (
        Plan {
            counts: (512, 1, 0),
            ..ZERO
        },
        Verdict::Refused(Rule::Budget, START_0),
    ),
    (
        Plan {
            counts: (3, 1, 1),
            ..ZERO
        },
        Verdict::Refused(Rule::Budget, START_0),
    ),
];

/// An Integer, an effect that takes it, and STOP: the Integer goes out to ENV.
const EFFECT: Plan = Plan {
    code: &[
        Instruction::Int(0),
        Instruction::Output(UP, Receiver::Party(Party::Environment), 1),
        Instruction::Stop,
    ],
    claims: &[
        Claim(&[], 0, 3, 1),
        Claim(INTEGER, 0, 2, 1),
        Claim(&[], 0, 1, 0),
    ],
    counts: (3, 1, 1),
};

/// An Integer, an instruction that replaces it by an Integer, and STOP.
const QUOTIENT: Plan = Plan {
    code: &[
        Instruction::Int(7),
        Instruction::Div(1),
        Instruction::Drop,
        Instruction::Stop,
    ],
    claims: &[
        Claim(&[], 0, 4, 0),
        Claim(INTEGER, 0, 3, 0),
        Claim(INTEGER, 0, 2, 0),
        Claim(&[], 0, 1, 0),
    ],
    counts: (4, 1, 0),
};

/// A second instruction in place of that of [`EFFECT`] or [`QUOTIENT`], and the result for the counter with that START.
const SECONDS: [(Plan, Verdict); 10] = [
    (EFFECT, Verdict::Accepted),
    (QUOTIENT, Verdict::Accepted),
    // divisors below 1
    (
        Plan {
            code: &[
                Instruction::Int(7),
                Instruction::Div(0),
                Instruction::Drop,
                Instruction::Stop,
            ],
            ..QUOTIENT
        },
        Verdict::Refused(Rule::Number, START_1),
    ),
    (
        Plan {
            code: &[
                Instruction::Int(7),
                Instruction::Mod(0),
                Instruction::Drop,
                Instruction::Stop,
            ],
            ..QUOTIENT
        },
        Verdict::Refused(Rule::Number, START_1),
    ),
    (
        Plan {
            code: &[
                Instruction::Int(7),
                Instruction::Rem(-1),
                Instruction::Drop,
                Instruction::Stop,
            ],
            ..QUOTIENT
        },
        Verdict::Refused(Rule::Number, START_1),
    ),
    // no such variable
    (
        Plan {
            code: &[
                Instruction::Int(7),
                Instruction::Store(VariableNumber(2)),
                Instruction::Drop,
                Instruction::Stop,
            ],
            ..QUOTIENT
        },
        Verdict::Refused(Rule::Number, START_1),
    ),
    // no such timer
    (
        Plan {
            code: &[
                Instruction::Int(7),
                Instruction::Set(TimerNumber(1)),
                Instruction::Stop,
            ],
            ..EFFECT
        },
        Verdict::Refused(Rule::Number, START_1),
    ),
    // another number of parameters than the signal's
    (
        Plan {
            code: &[
                Instruction::Int(7),
                Instruction::Output(UP, Receiver::Party(Party::Environment), 2),
                Instruction::Stop,
            ],
            ..EFFECT
        },
        Verdict::Refused(Rule::Number, START_1),
    ),
    // no route there
    (
        Plan {
            code: &[
                Instruction::Int(7),
                Instruction::Output(UP, Receiver::Party(Party::Process(P)), 1),
                Instruction::Stop,
            ],
            ..EFFECT
        },
        Verdict::Refused(Rule::Number, START_1),
    ),
    // START has no sender
    (
        Plan {
            code: &[
                Instruction::Int(7),
                Instruction::Output(UP, Receiver::Sender, 1),
                Instruction::Stop,
            ],
            ..EFFECT
        },
        Verdict::Refused(Rule::Number, START_1),
    ),
];

/// The index of the first code of START with another result for the counter.
fn first_other_start(alloc: Global, rows: &[(Plan, Verdict)]) -> Option<usize> {
    for (number, (start, wanted)) in rows.iter().enumerate() {
        if tried(alloc, &changed(Change::Start(*start))) != *wanted {
            return Some(number);
        }
    }
    None
}

#[test]
fn code_goes_on_inside_with_its_operands(rt: HostRuntime) {
    assert_eq!(rt; first_other_start(rt.alloc(), &WAYS), None);
}

#[test]
fn what_is_read_is_set(rt: HostRuntime) {
    assert_eq!(rt; first_other_start(rt.alloc(), &UNSET), None);
}

#[test]
fn counts_are_those_of_the_longest_way(rt: HostRuntime) {
    assert_eq!(rt; first_other_start(rt.alloc(), &COUNTED), None);
}

#[test]
fn what_is_named_is_there(rt: HostRuntime) {
    assert_eq!(rt; first_other_start(rt.alloc(), &SECONDS), None);
}
