//! The ends of turns.

ghost use Rattle.std.specs.Prelude.{◌≡◌};
ghost use Rattle.turn_machine.specs.Rooms.{IsEnded};
ghost use Rattle.turn_machine.specs.Turn.{IsRunnableBy};

use crate::ending::{new_machine, run_code};
use crate::work::Work;
use turn_code::laws::safe_law;
use turn_code::{End, Machine, Sorts};

/// The end of a turn, and the machine at that point with its variables, effects and count.
#[derive(Drop)]
pub struct Ended {
    /// The next state, or a stop.
    pub end: End,
    /// The machine.
    pub machine: Machine,
}

impl Ended {
    /// The initial contents, before any turn.
    pub(crate) fn none() -> Ended {
        Ended {
            end: End::Stop,
            machine: new_machine(),
        }
    }
}

/// Runs a turn that may run with these sorts to its end. It allocates no memory and never fails.
pub(crate) fn run_work(work: &Work, sorts: &Sorts, ended: &mut Ended)
    requires { IsRunnableBy work.now sorts.now }
    ensures { IsEnded work.now ended.new }
{
    safe_law();
    let certificate = work.certificate();
    ended.end = run_code(
        work.code(),
        work.input(),
        sorts,
        certificate,
        &mut ended.machine,
    );
}
