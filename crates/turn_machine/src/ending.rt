//! Runs of code that is borrowed from its set.

ghost use Rattle.std.specs.Prelude.{◌≡◌, ◌≤◌, [], length};
ghost use Rattle.turn_code.specs.Fits.{Fits};
ghost use Rattle.turn_code.specs.Machine.{progress_of};
ghost use Rattle.turn_code.specs.Run.{run, ended};
ghost use Rattle.turn_machine.specs.Ends.{EndsSo};
ghost use Rattle.turn_machine.specs.Safety.{IsSafeWithin};

use crate::execute::execute;
use crate::values::set_variables;
use crate::wording::words_of;
use arrayvec::ArrayVec;
use turn_check::Verified;
use turn_code::laws::safe_law;
use turn_code::{
    Cert, End, Input, Instruction, Machine, Operands, Piece, Place, ProcessNumber, Sorts,
};

/// A machine that has run nothing yet. It can be reused: each run resets it.
pub fn new_machine() -> Machine
    ensures { result ≡ record { operands = []; variables = record { items = [] }; effects = record { items = [] }; count = 0 } }
{
    Machine {
        operands: Operands::new(),
        variables: ArrayVec::new(),
        effects: ArrayVec::new(),
        count: 0,
    }
}

/// Runs input `input_number` at a place of a process to its end, on an input that fits it, and returns the end. The
/// code is borrowed from the set: no job is made, and no code is copied. The machine may come from any earlier run; it
/// then has the variables, effects and count of this one. It allocates no memory and never fails.
pub fn run_in(
    verified: &Verified,
    process: ProcessNumber,
    place: Place,
    input_number: usize,
    input: &Input,
    machine: &mut Machine,
) -> End
    requires { Fits verified.now process.0 place input_number input.now }
    ensures { EndsSo verified.now process.0 place input_number input.now result machine.new }
{
    safe_law();
    let _ = verified.draft();
    match verified.transition(process, place, input_number) {
        Some(transition) => run_code(
            transition.piece.code.as_slice(),
            input,
            &verified.sorts(process),
            transition.piece.certificate,
            machine,
        ),
        None => unreachable!(),
    }
}

/// Runs code with these counts to its end, on words of an input. The machine gets the variables at the end.
pub(crate) fn run_code(
    code: &[Instruction],
    input: &Input,
    sorts: &Sorts,
    certificate: Cert,
    machine: &mut Machine,
) -> End
    requires { IsSafeWithin code.now input.now sorts.now certificate }
    ensures ran { run code.now input.now ≡ ended result (progress_of machine.new) }
    ensures within { machine.new.count ≤ certificate.budget }
    ensures few { length machine.new.effects.items ≤ certificate.effects }
{
    begin(machine);
    let _few = input.parameters.as_slice();
    let piece = Piece::new(code, input.sender, sorts);
    let mut words = words_of(input);
    let end = execute(&piece, input, certificate, &mut words, machine);
    let count = input.variables.len() as u8;
    set_variables(&mut machine.variables, &words, sorts.variables, count);
    end
}

/// Resets the machine for a new run.
fn begin(machine: &mut Machine)
    ensures { machine.new.effects.items ≡ [] }
{
    machine.effects.clear();
}
