//! Rooms, where turns are made, run and ended.

ghost use Rattle.std.specs.Prelude.{◌≡◌, ◌↔◌, IsTrue, IfSome, IfNone};
ghost use Rattle.turn_code.specs.Fits.{Fits};
ghost use Rattle.turn_machine.specs.Rooms.{Free, Begun, Ran, ran, IsToRun, HasRun, EndedSo, LiesBegun};

use crate::ended::{Ended, run_work};
use crate::head::TurnHead;
use crate::work::Work;
use std::marker::Model;
use turn_check::Verified;
use turn_code::{Input, Sorts};

/// The contents of a room.
#[derive(Clone, Copy, PartialEq, Eq, Debug)]
pub enum Held {
    /// Nothing.
    Nothing,
    /// A turn that hasn't run yet.
    Begun,
    /// A turn that has run.
    Ran,
}

/// A worker's room for one turn after another. A turn is made, run and ended in place, without a move or an allocation.
#[derive(Drop)]
pub struct Room {
    held: Held,
    work: Work,
    sorts: Sorts,
    ended: Ended,
}

impl Model for Room {
    ghost use Rattle.turn_machine.specs.Rooms.{Lying, lying, IsRoom};

    ghost Value = { Lying };

    ghost view = { λ r. lying r.held r.work };

    ghost invariant = { λ r. IsRoom r.held r.work r.sorts r.ended };
}

impl Room {
    /// An empty room.
    pub fn new() -> Room
        ensures { result ≡ Free }
    {
        Room {
            held: Held::Nothing,
            work: Work::none(),
            sorts: Sorts {
                parameters: [0; 128],
                variables: 0,
            },
            ended: Ended::none(),
        }
    }

    /// Whether the room is empty.
    pub fn is_free(&self) -> bool
        ensures { IsTrue result ↔ (self.now ≡ Free) }
    {
        match self.held {
            Held::Nothing => true,
            Held::Begun => false,
            Held::Ran => false,
        }
    }

    /// Makes the job of an actor's turn in the empty room, on an input that fits its transition. The room keeps copies
    /// of the code, of its sorts and of the input.
    pub fn begin(&mut self, verified: &Verified, head: TurnHead, input: &Input)
        requires free { self.old ≡ Free }
        requires fits { Fits verified.now head.process.0 head.place head.input_number input.now }
        ensures { LiesBegun verified.now head.actor head.turn head.process head.place head.input_number input.now self.new }
    {
        let _ = verified.draft();
        match verified.transition(head.process, head.place, head.input_number) {
            Some(transition) => {
                self.work.become_turn(head, transition.piece, input);
                self.sorts = verified.sorts(head.process);
                self.held = Held::Begun;
            }
            None => unreachable!(),
        }
    }

    /// Runs the turn in the room to its end, if it hasn't run yet. It never fails.
    pub fn run(&mut self)
        ensures { self.new ≡ ran self.old }
    {
        match self.held {
            Held::Nothing => {}
            Held::Begun => {
                run_work(&self.work, &self.sorts, &mut self.ended);
                self.held = Held::Ran;
            }
            Held::Ran => {}
        }
    }

    /// The turn in the room, if it hasn't run yet.
    pub fn begun(&self) -> Option<&Work>
        ensures some { IfSome result (λ work. self.now ≡ Begun work.now) }
        ensures none { IfNone result (IsToRun self.now → ⊥) }
    {
        match self.held {
            Held::Nothing => None,
            Held::Begun => Some(&self.work),
            Held::Ran => None,
        }
    }

    /// The turn in the room, if it has run.
    pub fn ran(&self) -> Option<&Work>
        ensures some { IfSome result (λ work. self.now ≡ Ran work.now) }
        ensures none { IfNone result (HasRun self.now → ⊥) }
    {
        match self.held {
            Held::Nothing => None,
            Held::Begun => None,
            Held::Ran => Some(&self.work),
        }
    }

    /// The end of the turn in the room; meaningless if no turn has run.
    pub fn ended(&self) -> &Ended
        ensures { EndedSo self.now result.now }
    {
        &self.ended
    }

    /// Empties the room.
    pub fn clear(&mut self)
        ensures { self.new ≡ Free }
    {
        self.held = Held::Nothing;
    }
}
