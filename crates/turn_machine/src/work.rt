//! The work of a turn.

ghost use Rattle.std.specs.Prelude.{◌≡◌, ◌≤◌, length};
ghost use Rattle.plain_laws.specs.Limits.{MOST_INSTRUCTIONS};
ghost use Rattle.turn_machine.specs.Turn.{turn_of};

use crate::copy::{copied_code, copy_code, copy_input};
use crate::head::TurnHead;
use arrayvec::ArrayVec;
use std::marker::Model;
use turn_code::{Cert, DraftPiece, Input, Instruction, Place, ProcessNumber};

/// A transition before or after its run: its actor, its turn, its code and counts by value, and its input.
#[derive(Drop)]
pub struct Work {
    pub(crate) actor: u16,
    pub(crate) turn: u64,
    pub(crate) process: ProcessNumber,
    pub(crate) place: Place,
    pub(crate) input_number: usize,
    pub(crate) code: ArrayVec<Instruction, 512>,
    pub(crate) certificate: Cert,
    pub(crate) input: Input,
}

impl Model for Work {
    ghost use Rattle.turn_machine.specs.Turn.{Turn, turn_of};

    ghost Value = { Turn };

    ghost view = { λ w. turn_of w.actor w.turn w.process w.place w.input_number w.code.items w.certificate w.input };
}

impl Work {
    /// Empty work: no code, and no input.
    pub(crate) fn none() -> Work {
        Work {
            actor: 0,
            turn: 0,
            process: ProcessNumber(0),
            place: Place::Start,
            input_number: 0,
            code: ArrayVec::new(),
            certificate: Cert {
                budget: 0,
                depth: 0,
                effects: 0,
            },
            input: Input {
                variables: ArrayVec::new(),
                parameters: ArrayVec::new(),
                sender: None,
            },
        }
    }

    /// Makes this the turn of an actor: the piece of its transition, on an input.
    pub(crate) fn become_turn(&mut self, head: TurnHead, piece: &DraftPiece, input: &Input)
        requires { length piece.now.code ≤ MOST_INSTRUCTIONS }
        ensures { self.new ≡ turn_of head.actor head.turn head.process head.place head.input_number piece.now.code piece.now.certificate input.now }
    {
        self.actor = head.actor;
        self.turn = head.turn;
        self.process = head.process;
        self.place = head.place;
        self.input_number = head.input_number;
        self.certificate = piece.certificate;
        copy_code(&mut self.code, piece.code.as_slice());
        copy_input(&mut self.input, input);
    }

    /// The actor whose turn it is.
    pub fn actor(&self) -> u16
        ensures { result ≡ self.now.actor }
    {
        self.actor
    }

    /// The number of the turn.
    pub fn turn(&self) -> u64
        ensures { result ≡ self.now.turn }
    {
        self.turn
    }

    /// The process.
    pub fn process(&self) -> ProcessNumber
        ensures { result ≡ self.now.process }
    {
        self.process
    }

    /// START, or the state.
    pub fn place(&self) -> Place
        ensures { result ≡ self.now.place }
    {
        self.place
    }

    /// The number of the input at that place; 0 at START.
    pub fn input_number(&self) -> usize
        ensures { result ≡ self.now.input_number }
    {
        self.input_number
    }

    /// The code of the transition.
    pub fn code(&self) -> &[Instruction]
        ensures { result.now ≡ self.now.code }
    {
        self.code.as_slice()
    }

    /// The counts of the transition.
    pub fn certificate(&self) -> Cert
        ensures { result ≡ self.now.certificate }
    {
        self.certificate
    }

    /// The input.
    pub fn input(&self) -> &Input
        ensures { result.now ≡ self.now.input }
    {
        &self.input
    }

    /// A copy. It allocates no memory.
    pub(crate) fn copy(&self) -> Work
        ensures { result ≡ self.now }
    {
        Work {
            actor: self.actor,
            turn: self.turn,
            process: self.process,
            place: self.place,
            input_number: self.input_number,
            code: copied_code(self.code.as_slice()),
            certificate: self.certificate,
            input: self.input.copy(),
        }
    }
}
