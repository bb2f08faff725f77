//! The actors of a link: instances of processes.

ghost use Rattle.std.specs.Prelude.{◌≡◌};

use crate::name::ActorName;
use arrayvec::ArrayVec;
use input_port::Port;
use turn_code::{Input, Place, Value};

/// The state of an actor, or whether it has stopped.
#[derive(Clone, Copy, PartialEq, Eq, Debug)]
pub enum Standing {
    /// Before its START transition, or in a state.
    At(Place),
    /// The actor has executed STOP, for good.
    Stopped,
}

/// A turn that has begun and isn't finished yet: a turn that is out.
#[derive(Drop)]
pub struct Given {
    /// The number of the turn, from 0, over all actors of the link.
    pub turn: u64,
    /// The number of the input in the actor's state, from 0 in text order; 0 at START.
    pub number: usize,
    /// The variables, parameters and sender as the turn began.
    pub input: Input,
}

/// An instance of a process of a link.
#[derive(Drop)]
pub struct Actor {
    /// Its process and the number of the instance.
    pub name: ActorName,
    /// The state of the actor; while a turn is out, the state before that turn.
    pub standing: Standing,
    /// The value of each variable, none if it isn't set; while a turn is out, the values before that turn.
    pub variables: ArrayVec<Option<Value>, 32>,
    /// The signals that wait for it, including those of its own timers.
    pub port: Port,
    /// The turn that it has out, if it has one.
    pub given: Option<Given>,
}

impl Actor {
    ghost use Rattle.actor_machine.specs.Core.{is_out};

    /// Whether it has a turn out.
    pub fn is_out(&self) -> bool
        ensures { result ≡ is_out self.now }
    {
        self.given.is_some()
    }
}
