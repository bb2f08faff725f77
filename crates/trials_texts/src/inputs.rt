//! Builds inputs and operands for the tests.

ghost use Rattle.std.specs.Prelude.{IfSome};
ghost use Rattle.turn_code.specs.Fits.{Fits};

use arrayvec::ArrayVec;
use turn_check::Verified;
use turn_code::{Address, DraftVariable, Input, Party, Place, ProcessNumber, Sort, Value};
use turn_machine::{Received, fits};

/// A value of a sort. The Integers include both ends of their range and values about 0; the Booleans alternate.
fn value_of(sort: Sort, turn: i32) -> Value {
    match sort {
        Sort::Boolean => Value::Bool(turn % 2 == 1),
        Sort::Integer => match turn % 8 {
            0 => Value::Int(i32::MIN),
            1 => Value::Int(i32::MAX),
            2 => Value::Int(0),
            3 => Value::Int(-1),
            4 => Value::Int(1),
            _ => Value::Int(turn.wrapping_mul(1_640_531_527)),
        },
    }
}

/// A value for each variable, at most 32.
fn variables_of(variables: &[DraftVariable], turn: i32) -> ArrayVec<Option<Value>, 32> {
    let mut values = ArrayVec::new();
    let mut next = turn;
    for variable in variables {
        if values.len() < 32 {
            values.push(Some(value_of(variable.sort, next)));
        }
        next = next.wrapping_add(1);
    }
    values
}

/// A value for each parameter, at most 4.
fn parameters_of(sorts: &[Sort], turn: i32) -> ArrayVec<Value, 4> {
    let mut values = ArrayVec::new();
    let mut next = turn;
    for sort in sorts {
        if values.len() < 4 {
            values.push(value_of(*sort, next));
        }
        next = next.wrapping_add(3);
    }
    values
}

/// An operand for each sort, at most 16.
pub fn operands_of(sorts: &[Sort], turn: i32) -> ArrayVec<Value, 16> {
    let mut values = ArrayVec::new();
    let mut next = turn;
    for sort in sorts {
        if values.len() < 16 {
            values.push(value_of(*sort, next));
        }
        next = next.wrapping_add(5);
    }
    values
}

/// The parties of a set by number: the environment first, then its processes.
fn sender_of(number: u8) -> Address {
    Address {
        party: match number {
            0 => Party::Environment,
            _ => Party::Process(ProcessNumber(number - 1)),
        },
        instance: None,
    }
}

/// An input of a transition in a turn, from the first party that may send it; `None` if there is no such transition.
pub fn input_of(
    set: &Verified,
    process: ProcessNumber,
    place: Place,
    number: usize,
    turn: i32,
) -> Option<Input>
    ensures { IfSome result (λ input. Fits set.now process.0 place number input) }
{
    let transition = set.transition(process, place, number)?;
    let variables = variables_of(transition.process.variables.as_slice(), turn);
    for sender in 0..17u8 {
        let received = Received {
            parameters: parameters_of(transition.parameters, turn),
            sender: Some(sender_of(sender)),
        };
        if fits(set, process, place, number, &variables, &received) {
            return Some(Input {
                variables,
                parameters: received.parameters,
                sender: received.sender,
            });
        }
    }
    None
}
