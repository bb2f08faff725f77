//! The effect of each instruction on operands, row by row.
ghost use Rattle.std.specs.Prelude.{◌≡◌, ◌≤◌, IsTrue};
ghost use Rattle.turn_code.specs.Code.{sends};

use arrayvec::ArrayVec;
use turn_code::*;

/// An instruction, the operands (the topmost last), how it continues, and the topmost operand after it.
#[derive(Clone, Copy)]
struct Does(Instruction, &'static [Value], After, Option<Value>);

const GOES: After = After::Goes(1);

const YES: Value = Value::Bool(true);

const NO: Value = Value::Bool(false);

const UNSET: After = After::Stuck(Trouble::Unset);

const UNDER: After = After::Stuck(Trouble::Underflow);

const WRONG: After = After::Stuck(Trouble::WrongSort);

const THERE: After = After::Goes(9);

const OVER_9: Instruction = Instruction::Case(Relation::Greater, 9, CodePlace(9));

const FROM_0_TO_3: Instruction = Instruction::CaseWithin(CodePlace(9), 0, 3);

const MOST: Value = Value::Int(2_147_483_647);

const LEAST: Value = Value::Int(-2_147_483_648);

const HALF: Value = Value::Int(65_536);

/// Instructions that continue, and the ends of a turn.
const GOES_ON: [Does; 10] = [
    Does(Instruction::Int(3), &[], GOES, Some(Value::Int(3))),
    Does(
        Instruction::Load(VariableNumber(0)),
        &[],
        GOES,
        Some(Value::Int(7)),
    ),
    Does(
        Instruction::Store(VariableNumber(1)),
        &[Value::Int(4)],
        GOES,
        None,
    ),
    Does(Instruction::Param(0), &[], GOES, Some(Value::Int(5))),
    Does(
        Instruction::Add,
        &[Value::Int(2), Value::Int(3)],
        GOES,
        Some(Value::Int(5)),
    ),
    Does(
        Instruction::Sub,
        &[Value::Int(5), Value::Int(7)],
        GOES,
        Some(Value::Int(-2)),
    ),
    Does(
        Instruction::Mul,
        &[Value::Int(-3), Value::Int(4)],
        GOES,
        Some(Value::Int(-12)),
    ),
    Does(
        Instruction::Neg,
        &[Value::Int(3)],
        GOES,
        Some(Value::Int(-3)),
    ),
    Does(
        Instruction::Next(StateNumber(2)),
        &[],
        After::Ends(End::State(StateNumber(2))),
        None,
    ),
    Does(Instruction::Stop, &[], After::Ends(End::Stop), None),
];

/// Divisions keep their signs.
const DIVIDES: [Does; 4] = [
    Does(
        Instruction::Div(2),
        &[Value::Int(-7)],
        GOES,
        Some(Value::Int(-3)),
    ),
    Does(
        Instruction::Mod(2),
        &[Value::Int(-7)],
        GOES,
        Some(Value::Int(1)),
    ),
    Does(
        Instruction::Rem(2),
        &[Value::Int(-7)],
        GOES,
        Some(Value::Int(-1)),
    ),
    Does(
        Instruction::Mod(0),
        &[Value::Int(-7)],
        WRONG,
        Some(Value::Int(-7)),
    ),
];

/// Truth values are combined and compared.
const JOINS: [Does; 6] = [
    Does(Instruction::Not, &[YES], GOES, Some(NO)),
    Does(Instruction::And, &[YES, NO], GOES, Some(NO)),
    Does(Instruction::Or, &[YES, NO], GOES, Some(YES)),
    Does(Instruction::Xor, &[YES, YES], GOES, Some(NO)),
    Does(Instruction::Same, &[NO, NO], GOES, Some(YES)),
    Does(
        Instruction::Compare(Relation::Less),
        &[Value::Int(-1), Value::Int(0)],
        GOES,
        Some(YES),
    ),
];

/// Branches jump to place 9, or continue.
const JUMPS: [Does; 7] = [
    Does(OVER_9, &[Value::Int(10)], THERE, None),
    Does(OVER_9, &[Value::Int(9)], GOES, Some(Value::Int(9))),
    Does(FROM_0_TO_3, &[Value::Int(3)], THERE, None),
    Does(FROM_0_TO_3, &[Value::Int(4)], GOES, Some(Value::Int(4))),
    Does(
        Instruction::Pick(CodePlace(8), CodePlace(9)),
        &[YES],
        THERE,
        None,
    ),
    Does(Instruction::Drop, &[Value::Int(1)], GOES, None),
    Does(
        Instruction::Jump(CodePlace(9)),
        &[Value::Int(1)],
        THERE,
        Some(Value::Int(1)),
    ),
];

/// Arithmetic wraps round.
const WRAPS: [Does; 4] = [
    Does(Instruction::Add, &[MOST, Value::Int(1)], GOES, Some(LEAST)),
    Does(Instruction::Sub, &[LEAST, Value::Int(1)], GOES, Some(MOST)),
    Does(Instruction::Mul, &[HALF, HALF], GOES, Some(Value::Int(0))),
    Does(Instruction::Neg, &[LEAST], GOES, Some(LEAST)),
];

/// Each trouble is named, and the operands are kept.
const TROUBLES: [Does; 10] = [
    Does(Instruction::Load(VariableNumber(1)), &[], UNSET, None),
    Does(Instruction::Load(VariableNumber(2)), &[], UNSET, None),
    Does(
        Instruction::Store(VariableNumber(2)),
        &[YES],
        UNSET,
        Some(YES),
    ),
    Does(Instruction::Store(VariableNumber(1)), &[], UNDER, None),
    Does(Instruction::Param(1), &[], UNDER, None),
    Does(
        Instruction::Add,
        &[Value::Int(1)],
        UNDER,
        Some(Value::Int(1)),
    ),
    Does(
        Instruction::Sub,
        &[YES, Value::Int(1)],
        WRONG,
        Some(Value::Int(1)),
    ),
    Does(Instruction::Mul, &[Value::Int(1), YES], WRONG, Some(YES)),
    Does(Instruction::Neg, &[], UNDER, None),
    Does(Instruction::Neg, &[YES], WRONG, Some(YES)),
];

/// A machine with these operands, the topmost last. Variable 0 is 7, variable 1 isn't set, and there is no other.
fn machine(values: &[Value]) -> Machine
    ensures { result.count ≡ 0 }
{
    let mut variables = ArrayVec::new();
    variables.push(Some(Value::Int(7)));
    variables.push(None);
    Machine {
        operands: operands(values),
        variables,
        effects: ArrayVec::new(),
        count: 0,
    }
}

fn operands(values: &[Value]) -> Operands {
    let mut operands = Operands::new();
    for value in values {
        if operands.len() < 16 {
            operands.push(*value);
        }
    }
    operands
}

/// The second instance of process 3.
const FROM: Address = Address {
    party: Party::Process(ProcessNumber(3)),
    instance: Some(InstanceNumber(2)),
};

/// An input from there, with the parameter 5.
fn input() -> Input {
    let mut parameters = ArrayVec::new();
    parameters.push(Value::Int(5));
    Input {
        variables: ArrayVec::new(),
        parameters,
        sender: Some(FROM),
    }
}

/// Whether an instruction sends at most 4 parameters.
fn sends_few(instruction: Instruction) -> bool
    ensures { IsTrue result → sends instruction ≤ 4 }
{
    match instruction {
        Instruction::Output(_, _, count) => count <= 4,
        _ => true,
    }
}

/// How an instruction with the parameter 5 continues, and the topmost operand after it.
fn done(instruction: Instruction, values: &[Value]) -> Option<(After, Option<Value>)> {
    let mut machine = machine(values);
    if machine.operands.len() >= 16 || machine.effects.len() >= 32 || !sends_few(instruction) {
        return None;
    }
    let follows = step_plain(&[instruction], &input(), 0, &mut machine);
    Some((follows, machine.operands.pop()))
}

/// The index of the first row with another result.
fn first_other(rows: &[Does]) -> Option<usize> {
    for (number, row) in rows.iter().enumerate() {
        let Does(instruction, values, after, top) = *row;
        if done(instruction, values) != Some((after, top)) {
            return Some(number);
        }
    }
    None
}

#[test]
fn each_instruction_goes_on(rt: HostRuntime) {
    assert_eq!(rt; first_other(&GOES_ON), None);
}

#[test]
fn divisions_keep_their_signs(rt: HostRuntime) {
    assert_eq!(rt; first_other(&DIVIDES), None);
}

#[test]
fn truth_values_are_joined(rt: HostRuntime) {
    assert_eq!(rt; first_other(&JOINS), None);
}

#[test]
fn branches_jump(rt: HostRuntime) {
    assert_eq!(rt; first_other(&JUMPS), None);
}

#[test]
fn arithmetic_wraps_round(rt: HostRuntime) {
    assert_eq!(rt; first_other(&WRAPS), None);
}

/// The result of an addition after the end of the code; `None` if there is no room for it.
fn outside() -> Option<After> {
    let mut machine = machine(&[]);
    if machine.operands.len() >= 16 {
        return None;
    }
    Some(step_plain(&[Instruction::Add], &input(), 1, &mut machine))
}

#[test]
fn each_trouble_is_named(rt: HostRuntime) {
    assert_eq!(rt; first_other(&TROUBLES), None);
    assert_eq!(rt; outside(), Some(After::Stuck(Trouble::Outside)));
}

/// The signal, receiver and parameters (at most three) of the only effect.
fn sent(effects: &[Effect]) -> Option<(SignalNumber, Address, [Option<Value>; 3])> {
    match effects {
        [Effect::Output(sending)] => {
            let values = sending.parameters.as_slice();
            let three = [
                values.get(0).copied(),
                values.get(1).copied(),
                values.get(2).copied(),
            ];
            Some((sending.signal, sending.receiver, three))
        }
        _ => None,
    }
}

const OUTPUT: Instruction = Instruction::Output(SignalNumber(4), Receiver::Sender, 2);

/// How an output of two of three operands continues, the topmost operand after it, and what was sent.
fn answered() -> Option<
    (
        After,
        Option<Value>,
        Option<(SignalNumber, Address, [Option<Value>; 3])>,
    ),
> {
    let mut machine = machine(&[Value::Int(1), Value::Int(2), Value::Int(3)]);
    if machine.effects.len() >= 32 {
        return None;
    }
    let follows = step_plain(&[OUTPUT], &input(), 0, &mut machine);
    let top = machine.operands.pop();
    Some((follows, top, sent(machine.effects.as_slice())))
}

const ANSWER: (SignalNumber, Address, [Option<Value>; 3]) = (
    SignalNumber(4),
    FROM,
    [Some(Value::Int(2)), Some(Value::Int(3)), None],
);

#[test]
fn an_answer_goes_to_its_sender(rt: HostRuntime) {
    assert_eq!(rt; answered(), Some((GOES, Some(Value::Int(1)), Some(ANSWER))));
}

/// How a store of 4 in variable 1 continues, whether the variables are then 7 and 4, and the count of instructions.
fn stored() -> Option<(After, bool, u32)> {
    let mut machine = machine(&[Value::Int(4)]);
    if machine.operands.len() >= 16 {
        return None;
    }
    let store = [Instruction::Store(VariableNumber(1))];
    let follows = step_plain(&store, &input(), 0, &mut machine);
    let wanted = [Some(Value::Int(7)), Some(Value::Int(4))];
    let is_kept = machine.variables.as_slice() == wanted.as_slice();
    Some((follows, is_kept, machine.count))
}

#[test]
fn a_store_is_kept(rt: HostRuntime) {
    assert_eq!(rt; stored(), Some((GOES, true, 1)));
}
