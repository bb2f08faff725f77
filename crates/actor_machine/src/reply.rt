//! Replies to the events of a link.

ghost use Rattle.std.specs.Prelude.{◌≡◌};
ghost use Rattle.actor_machine.specs.Printed.{refusal_text};

use crate::name::ActorName;
use arrayvec::ArrayVec;
use std::fmt;
use thiserror::Error;
use turn_code::{End, Place, SignalNumber, Trigger, Value, copied_values};

/// Why an event is refused. A refused event changes nothing.
#[derive(Clone, Copy, PartialEq, Eq, Debug, Error)]
pub enum Refusal {
    /// The actor's port has as many signals as its capacity allows.
    Full,
    /// The actor has stopped.
    Stopped,
    /// No route brings this signal with parameters of these sorts from the environment to the actor.
    NoRoute,
    /// The actor has a turn out.
    Busy,
    /// No item waits for the actor that its state doesn't save, or the actor has stopped.
    Nothing,
    /// The actor has no such turn out.
    Stranger,
    /// No signal waits for the environment.
    Empty,
    /// The journal has no room for the event, or all places are used up.
    JournalFull,
    /// The greatest number of turns has begun (2^40).
    CountFull,
    /// There is no such actor.
    NoActor,
    /// The first item that isn't saved is no input of the actor's state; it must be skipped first.
    SkipFirst,
    /// There is nothing to skip: the actor is at START, or the first item that isn't saved is an input of its state.
    NotIgnored,
    /// More than 65,535 ticks at once.
    TooFar,
    /// The clock would pass 2^62.
    ClockFull,
}

impl Refusal {
    /// Its code and its name, as they are printed.
    pub fn name<'a>(self) -> &'a str
        ensures { result.now ≡ refusal_text self }
    {
        match self {
            Self::Full => "B1 Full",
            Self::Stopped => "B2 Stopped",
            Self::NoRoute => "B3 NoRoute",
            Self::Busy => "B4 Busy",
            Self::Nothing => "B5 Nothing",
            Self::Stranger => "B6 Stranger",
            Self::Empty => "B7 Empty",
            Self::JournalFull => "B8 JournalFull",
            Self::CountFull => "B9 CountFull",
            Self::NoActor => "B10 NoActor",
            Self::SkipFirst => "B11 SkipFirst",
            Self::NotIgnored => "B12 NotIgnored",
            Self::TooFar => "W1 TooFar",
            Self::ClockFull => "W2 ClockFull",
        }
    }
}

impl fmt::Display for Refusal {
    ghost use Rattle.std.specs.Prelude.{Some};
    ghost use Rattle.actor_machine.specs.Printed.{refusal_text};

    ghost output = { λ r. Some (refusal_text r) };

    fn fmt<W: fmt::Write>(&self, f: &mut fmt::Formatter<W>) -> fmt::Result {
        f.write_str(self.name())
    }
}

/// Why an output is lost.
#[derive(Clone, Copy, PartialEq, Eq, Debug)]
pub enum Cause {
    /// The port of its receiver was full.
    Full,
    /// As many signals wait for the environment as its capacity allows.
    EnvFull,
    /// Its receiver has stopped.
    Stopped,
}

/// An output that is lost.
#[derive(Clone, Copy, PartialEq, Eq, Debug)]
pub struct Lost {
    /// Its place among the effects of the turn, from 0 and below 32.
    pub place: u8,
    pub cause: Cause,
}

/// The end of a turn.
#[derive(Drop)]
pub struct Report {
    /// The next state, or a stop.
    pub end: End,
    /// The number of instructions that it took.
    pub count: u32,
    /// The outputs that are lost, in text order.
    pub lost: ArrayVec<Lost, 32>,
}

/// A signal that an actor sent to the environment.
#[derive(Drop)]
pub struct Emitted {
    /// The actor that sent it.
    pub sender: ActorName,
    pub signal: SignalNumber,
    pub parameters: ArrayVec<Value, 4>,
}

/// A turn that has begun.
#[derive(Clone, Copy, PartialEq, Eq, Debug)]
pub struct Begun {
    /// The number of the turn, from 0, over all actors of the link.
    pub turn: u64,
    /// The state of the actor.
    pub place: Place,
    /// The number of the input there, from 0 in text order; 0 at START.
    pub number: usize,
}

/// The reply to an event.
#[derive(Drop)]
pub enum Reply {
    /// The signal is in the actor's port.
    Offered,
    /// The turn has begun.
    Begun(Begun),
    /// This signal, or the signal of this timer, was discarded.
    Skipped(Trigger),
    /// The turn has ended, and its effects are done.
    Finished(Report),
    /// This many timers were due.
    Passed(usize),
    /// The signal that waited longest for the environment.
    Taken(Emitted),
    /// The event was refused.
    Refused(Refusal),
}

impl Emitted {
    /// A copy. It can't fail.
    pub fn copy(&self) -> Emitted
        ensures { result ≡ self.now }
    {
        Emitted {
            sender: self.sender,
            signal: self.signal,
            parameters: copied_values(&self.parameters),
        }
    }
}

impl Default for Lost {
    ghost use Rattle.actor_machine.specs.declared.reply.Cause.TheVariants.{Full};

    ghost is_default = { λ lost. lost ≡ record { place = 0; cause = Full } };

    fn default() -> Self {
        Lost {
            place: 0,
            cause: Cause::Full,
        }
    }
}
