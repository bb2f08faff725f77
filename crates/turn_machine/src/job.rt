//! Jobs: transitions that are ready to run.

ghost use Rattle.std.specs.Prelude.{◌≡◌, ⊤};
ghost use Rattle.turn_code.specs.Fits.{Fits};
ghost use Rattle.turn_machine.specs.Given.{input_of};
ghost use Rattle.turn_machine.specs.Turn.{Begins, IsRunnable, IsRunnableBy};

use crate::copy::copied_code;
use crate::head::TurnHead;
use crate::received::Received;
use crate::work::Work;
use arrayvec::ArrayVec;
use std::alloc::AllocError;
use std::marker::Model;
use turn_check::Verified;
use turn_code::{Cert, Input, Instruction, Place, ProcessNumber, Sorts, Value};

/// A transition that is ready to run. It has, by value, its code, the sorts for it, and an input that fits it.
#[derive(Drop)]
pub struct Job {
    work: Work,
    sorts: Sorts,
}

impl Model for Job {
    ghost use Rattle.turn_machine.specs.Turn.{Turn, IsRunnableBy};

    ghost Value = { Turn };

    ghost view = { λ j. j.work };

    ghost invariant = { λ j. IsRunnableBy j.work j.sorts };
}

impl Job {
    /// The job of an actor in a turn, on an input that fits its transition.
    pub fn new(
        verified: &Verified,
        head: TurnHead,
        variables: ArrayVec<Option<Value>, 32>,
        received: Received,
    ) -> Job
        requires { Fits verified.now head.process.0 head.place head.input_number (input_of variables received) }
        ensures { Begins verified.now head.actor head.turn head.process head.place head.input_number (input_of variables received) result }
    {
        let input = Input {
            variables,
            parameters: received.parameters,
            sender: received.sender,
        };
        let _ = verified.draft();
        let TurnHead {
            actor,
            turn,
            process,
            place,
            input_number,
        } = head;
        match verified.transition(process, place, input_number) {
            Some(transition) => Job {
                work: Work {
                    actor,
                    turn,
                    process,
                    place,
                    input_number,
                    code: copied_code(transition.piece.code.as_slice()),
                    certificate: transition.piece.certificate,
                    input,
                },
                sorts: verified.sorts(process),
            },
            None => unreachable!(),
        }
    }

    /// The work of the job.
    pub fn work(&self) -> &Work
        ensures { result.now ≡ self.now }
    {
        &self.work
    }

    /// The actor whose turn it is.
    pub fn actor(&self) -> u16
        ensures { result ≡ self.now.actor }
    {
        self.work.actor
    }

    /// The number of the turn.
    pub fn turn(&self) -> u64
        ensures { result ≡ self.now.turn }
    {
        self.work.turn
    }

    /// The process.
    pub fn process(&self) -> ProcessNumber
        ensures { result ≡ self.now.process }
    {
        self.work.process
    }

    /// START, or the state.
    pub fn place(&self) -> Place
        ensures { result ≡ self.now.place }
    {
        self.work.place
    }

    /// The number of the input at that place; 0 at START.
    pub fn input_number(&self) -> usize
        ensures { result ≡ self.now.input_number }
    {
        self.work.input_number
    }

    /// The code of the transition.
    pub fn code(&self) -> &[Instruction]
        ensures { result.now ≡ self.now.code }
    {
        self.work.code.as_slice()
    }

    /// The counts of the transition.
    pub fn certificate(&self) -> Cert
        ensures { result ≡ self.now.certificate }
    {
        self.work.certificate
    }

    /// Which parameters of the set's signals, and which variables of the process, are Booleans.
    pub(crate) fn sorts(&self) -> &Sorts
        ensures { IsRunnableBy self.now result.now }
    {
        &self.sorts
    }

    /// The input.
    pub fn input(&self) -> &Input
        ensures value { result.now ≡ self.now.input }
        ensures runnable { IsRunnable self.now }
    {
        &self.work.input
    }

    /// A copy of the job. It allocates no memory.
    pub fn copy(&self) -> Job
        ensures { result ≡ self.now }
    {
        Job {
            work: self.work.copy(),
            sorts: self.sorts,
        }
    }
}

impl Clone for Job {
    ghost is_clone = { λ x y. y ≡ x };

    ghost is_infallible = { λ _. ⊤ };

    fn clone(&self) -> Result<Job, AllocError> {
        Ok(self.copy())
    }
}
