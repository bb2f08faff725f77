//! One step on values with their sorts.

ghost use Rattle.std.specs.Prelude.{◌≤◌, IsTrue};
ghost use Rattle.turn_code.specs.Code.{sends};
ghost use Rattle.turn_code.specs.Machine.{HasRoom, HasRoomFor};

use arrayvec::ArrayVec;
use turn_code::{
    After, Input, Instruction, Machine, Operands, Value, copied_variables, step_plain,
};

/// Whether an instruction sends at most 4 parameters.
fn sends_few(instruction: Instruction) -> bool
    ensures { IsTrue result → sends instruction ≤ 4 }
{
    match instruction {
        Instruction::Output(_, _, count) => count <= 4,
        _ => true,
    }
}

/// Whether there is room for an instruction, whatever its effect.
fn has_room_for(instruction: Instruction, machine: &Machine) -> bool
    ensures { IsTrue result → HasRoomFor instruction machine.now.operands machine.now.effects.items }
{
    sends_few(instruction) && machine.operands.len() < 16 && machine.effects.len() < 32
}

/// Whether there is room for the instruction at a place, if there is one.
pub(crate) fn has_room(code: &[Instruction], place: usize, machine: &Machine) -> bool
    ensures { IsTrue result → HasRoom code.now place machine.now.operands machine.now.effects.items }
{
    match code.get(place) {
        Some(instruction) => has_room_for(*instruction, machine),
        None => true,
    }
}

/// Operands, given topmost first, in the form that a machine has. At most 16 are used.
fn laid(values: &[Value]) -> Operands {
    let mut operands = Operands::new();
    for value in values.iter().rev() {
        if operands.len() < 16 {
            operands.push(*value);
        }
    }
    operands
}

/// A machine with the variables of an input and with these operands, topmost first.
pub fn machine_with(input: &Input, operands: &[Value]) -> Machine {
    Machine {
        operands: laid(operands),
        variables: copied_variables(&input.variables),
        effects: ArrayVec::new(),
        count: 0,
    }
}

/// A step on values at a place of code; `None` if there may be no room for it.
pub fn step_sorted(
    code: &[Instruction],
    input: &Input,
    place: usize,
    machine: &mut Machine,
) -> Option<After> {
    if machine.count < 512 && has_room(code, place, machine) {
        Some(step_plain(code, input, place, machine))
    } else {
        None
    }
}
