//! The code of a set as numbers, for a program in C.
//!
//! One thing a line; each list begins with its length. Signals: of each the number of parameters. Routes: of each the
//! sender and the receiver (a process's number, or -1 for the environment) and its signals. Processes: of each its
//! variables (0 0 without an initial value, or 1 or 2 and that value), the number of its timers, the piece of START,
//! and its states: of each the triggers that it saves, and its inputs. A trigger is 0 or 1 and the number of a signal
//! or timer; an input is a trigger and a piece. A piece is a list of instructions of four numbers: the kind, in the
//! order of the instruction set, and its operands.

use std::alloc::AllocError;
use turn_code::{
    Draft, DraftInput, DraftPiece, DraftProcess, DraftRoute, DraftState, Instruction, Party,
    Receiver, Relation, Trigger, Value,
};

/// A party's number.
fn party(party: Party) -> i64 {
    match party {
        Party::Environment => -1,
        Party::Process(process) => i64::from(process.0),
    }
}

/// A receiver's number: -2 for the sender of the signal.
fn receiver(receiver: Receiver) -> i64 {
    match receiver {
        Receiver::Party(to) => party(to),
        Receiver::Sender => -2,
    }
}

/// A comparison's number.
fn relation(relation: Relation) -> i64 {
    match relation {
        Relation::Equal => 0,
        Relation::NotEqual => 1,
        Relation::Less => 2,
        Relation::LessEqual => 3,
        Relation::Greater => 4,
        Relation::GreaterEqual => 5,
    }
}

/// The number of an instruction that works only on operands, if it is one.
fn plain(instruction: Instruction) -> Option<i64> {
    match instruction {
        Instruction::Add => Some(5),
        Instruction::Sub => Some(6),
        Instruction::Mul => Some(7),
        Instruction::Neg => Some(11),
        Instruction::Not => Some(12),
        Instruction::And => Some(13),
        Instruction::Or => Some(14),
        Instruction::Xor => Some(15),
        Instruction::Same => Some(16),
        Instruction::Drop => Some(21),
        Instruction::Stop => Some(27),
        _ => None,
    }
}

/// The two numbers of an instruction with one number, if it is one.
fn single(instruction: Instruction) -> Option<(i64, i64)> {
    match instruction {
        Instruction::Int(number) => Some((0, i64::from(number))),
        Instruction::Bool(truth) => Some((1, truth as i64)),
        Instruction::Load(variable) => Some((2, i64::from(variable.0))),
        Instruction::Store(variable) => Some((3, i64::from(variable.0))),
        Instruction::Param(place) => Some((4, i64::from(place))),
        Instruction::Div(divisor) => Some((8, i64::from(divisor))),
        Instruction::Mod(divisor) => Some((9, i64::from(divisor))),
        Instruction::Rem(divisor) => Some((10, i64::from(divisor))),
        Instruction::Compare(how) => Some((17, relation(how))),
        Instruction::Jump(place) => Some((22, i64::from(place.0))),
        Instruction::Set(timer) => Some((24, i64::from(timer.0))),
        Instruction::Reset(timer) => Some((25, i64::from(timer.0))),
        Instruction::Next(state) => Some((26, i64::from(state.0))),
        _ => None,
    }
}

/// The four numbers of an instruction.
fn numbers(instruction: Instruction) -> (i64, i64, i64, i64) {
    if let Some(which) = plain(instruction) {
        return (which, 0, 0, 0);
    }
    if let Some((which, number)) = single(instruction) {
        return (which, number, 0, 0);
    }
    match instruction {
        Instruction::Case(how, to, place) => {
            (18, relation(how), i64::from(to), i64::from(place.0))
        }
        Instruction::CaseWithin(place, least, most) => {
            (19, i64::from(place.0), i64::from(least), i64::from(most))
        }
        Instruction::Pick(no, yes) => (20, i64::from(no.0), i64::from(yes.0), 0),
        Instruction::Output(signal, to, count) => {
            (23, i64::from(signal.0), receiver(to), i64::from(count))
        }
        _ => (28, 0, 0, 0),
    }
}

/// Writes an instruction.
fn write_instruction(text: &mut String, instruction: Instruction) -> Result<(), AllocError> {
    let (which, one, two, three) = numbers(instruction);
    writeln!(text, "{which} {one} {two} {three}")
}

/// Writes the length of a list.
fn write_count(text: &mut String, count: usize) -> Result<(), AllocError> {
    writeln!(text, "{count}")
}

fn write_piece(text: &mut String, piece: &DraftPiece) -> Result<(), AllocError> {
    write_count(text, piece.code.len())?;
    for instruction in piece.code.as_slice() {
        write_instruction(text, *instruction)?;
    }
    Ok(())
}

fn write_trigger(text: &mut String, trigger: Trigger) -> Result<(), AllocError> {
    match trigger {
        Trigger::Signal(signal) => writeln!(text, "0 {}", signal.0),
        Trigger::Timer(timer) => writeln!(text, "1 {}", timer.0),
    }
}

fn write_input(text: &mut String, input: &DraftInput) -> Result<(), AllocError> {
    write_trigger(text, input.trigger)?;
    write_piece(text, &input.piece)
}

fn write_saves(text: &mut String, state: &DraftState) -> Result<(), AllocError> {
    write_count(text, state.saves.len())?;
    for trigger in state.saves.as_slice() {
        write_trigger(text, *trigger)?;
    }
    Ok(())
}

fn write_inputs(text: &mut String, state: &DraftState) -> Result<(), AllocError> {
    write_count(text, state.inputs.len())?;
    for input in state.inputs.as_slice() {
        write_input(text, input)?;
    }
    Ok(())
}

fn write_initial(text: &mut String, initial: Option<Value>) -> Result<(), AllocError> {
    match initial {
        None => text.push_str("0 0\n"),
        Some(Value::Int(number)) => writeln!(text, "1 {number}"),
        Some(Value::Bool(truth)) => writeln!(text, "2 {}", truth as u8),
    }
}

fn write_variables(text: &mut String, process: &DraftProcess) -> Result<(), AllocError> {
    write_count(text, process.variables.len())?;
    for variable in process.variables.as_slice() {
        write_initial(text, variable.initial)?;
    }
    write_count(text, process.timers.len())
}

fn write_states(text: &mut String, process: &DraftProcess) -> Result<(), AllocError> {
    write_count(text, process.states.len())?;
    for state in process.states.as_slice() {
        write_saves(text, state)?;
        write_inputs(text, state)?;
    }
    Ok(())
}

fn write_process(text: &mut String, process: &DraftProcess) -> Result<(), AllocError> {
    write_variables(text, process)?;
    write_piece(text, &process.start)?;
    write_states(text, process)
}

fn write_route(text: &mut String, route: &DraftRoute) -> Result<(), AllocError> {
    let from = party(route.from);
    let to = party(route.to);
    let count = route.signals.len();
    writeln!(text, "{from} {to} {count}")?;
    for signal in route.signals.as_slice() {
        writeln!(text, "{}", signal.0)?;
    }
    Ok(())
}

fn write_signals(text: &mut String, draft: &Draft) -> Result<(), AllocError> {
    write_count(text, draft.signals.len())?;
    for signal in draft.signals.as_slice() {
        write_count(text, signal.parameters.len())?;
    }
    Ok(())
}

fn write_routes(text: &mut String, draft: &Draft) -> Result<(), AllocError> {
    write_count(text, draft.routes.len())?;
    for route in draft.routes.as_slice() {
        write_route(text, route)?;
    }
    Ok(())
}

fn write_processes(text: &mut String, draft: &Draft) -> Result<(), AllocError> {
    write_count(text, draft.processes.len())?;
    for process in draft.processes.as_slice() {
        write_process(text, process)?;
    }
    Ok(())
}

/// Writes the code of a set.
pub fn write_set(text: &mut String, draft: &Draft) -> Result<(), AllocError> {
    write_signals(text, draft)?;
    write_routes(text, draft)?;
    write_processes(text, draft)
}
