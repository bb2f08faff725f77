//! Runs of the long piece on borrowed code.

ghost use Rattle.std.specs.Prelude.{IfSome};
ghost use Rattle.turn_code.specs.Fits.{Fits};

use crate::calls::Stopped;
use crate::rounds::books::{Measured, RUNS};
use crate::rounds::clock::{now, since};
use arrayvec::ArrayVec;
use std::rt::Clock;
use turn_check::Verified;
use turn_code::{Address, Input, Party, Place, ProcessNumber, StateNumber, Value};
use turn_machine::{Received, fits, new_machine, run_in};

/// The process that has the long piece.
const PROCESS: ProcessNumber = ProcessNumber(0);

/// The only state of that process.
const STATE: Place = Place::State(StateNumber(0));

/// The input of the long piece: no number yet, a total of 0, and a 7 from the environment. None if it doesn't fit.
fn input_at(set: &Verified, process: ProcessNumber, place: Place) -> Option<Input>
    ensures { IfSome result (λ input. Fits set.now process.0 place 0 input) }
{
    let mut variables = ArrayVec::new();
    variables.push(None);
    variables.push(Some(Value::Int(0)));
    let mut parameters = ArrayVec::new();
    parameters.push(Value::Int(7));
    let received = Received {
        parameters,
        sender: Some(Address {
            party: Party::Environment,
            instance: None,
        }),
    };
    if fits(set, process, place, 0, &variables, &received) {
        return Some(Input {
            variables,
            parameters: received.parameters,
            sender: received.sender,
        });
    }
    None
}

/// Runs the first input of a place this many times on borrowed code, and returns the number of instructions.
fn run_times(set: &Verified, process: ProcessNumber, place: Place, input: &Input, times: u32) -> u64
    requires { Fits set.now process.0 place 0 input.now }
{
    let mut machine = new_machine();
    let mut instructions = 0u64;
    for _ in 0..times {
        let _end = run_in(set, process, place, 0, input, &mut machine);
        instructions = instructions.saturating_add(u64::from(machine.count));
    }
    instructions
}

/// Measures the instructions of the long piece without a job.
pub fn run_straight(rt: &impl Clock, set: &Verified, rounds: u32) -> Result<Measured, Stopped> {
    let Some(input) = input_at(set, PROCESS, STATE) else {
        return Err(Stopped::Refused);
    };
    let start = now(rt)?;
    let things = run_times(set, PROCESS, STATE, &input, rounds.saturating_mul(RUNS));
    let time = since(rt, start)?;
    Ok(Measured { things, time })
}
