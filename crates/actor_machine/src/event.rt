//! The events of a link.

ghost use Rattle.std.specs.Prelude.{◌≡◌, ◌↔◌, IsTrue};

use arrayvec::ArrayVec;
use turn_code::{SignalNumber, Value, copied_values, same_values};

/// A signal that the environment sends to an actor.
#[derive(Drop)]
pub struct Offer {
    /// The number of the actor, from 0: by process in text order, then by instance.
    pub actor: u16,
    pub signal: SignalNumber,
    /// The values of its parameters.
    pub values: ArrayVec<Value, 4>,
}

/// An event of a link. Actors are named by their numbers.
#[derive(Drop)]
pub enum Event {
    /// The environment sends a signal.
    Offer(Offer),
    /// An actor begins a turn.
    Begin(u16),
    /// An actor discards a signal that its state has no input for.
    Skip(u16),
    /// An actor ends the turn that it has out.
    Finish(u16),
    /// This many ticks pass.
    Advance(u64),
    /// The environment takes the signal that has waited longest for it.
    TakeEnv,
}

impl Offer {
    /// A copy. It can't fail.
    pub fn copy(&self) -> Offer
        ensures { result ≡ self.now }
    {
        Offer {
            actor: self.actor,
            signal: self.signal,
            values: copied_values(&self.values),
        }
    }

    /// Whether it is the same signal with equal values, to the same actor.
    pub fn same(&self, other: &Offer) -> bool
        ensures { IsTrue result ↔ (self.now ≡ other.now) }
    {
        self.actor == other.actor
            && self.signal == other.signal
            && same_values(self.values.as_slice(), other.values.as_slice())
    }
}

impl Event {
    /// A copy of the event. It can't fail.
    pub fn copy(&self) -> Event
        ensures { result ≡ self.now }
    {
        match self {
            Event::Offer(offer) => Event::Offer(offer.copy()),
            Event::Begin(actor) => Event::Begin(*actor),
            Event::Skip(actor) => Event::Skip(*actor),
            Event::Finish(actor) => Event::Finish(*actor),
            Event::Advance(ticks) => Event::Advance(*ticks),
            Event::TakeEnv => Event::TakeEnv,
        }
    }

    /// Whether the two events are equal.
    pub fn same(&self, other: &Event) -> bool
        ensures { IsTrue result ↔ (self.now ≡ other.now) }
    {
        match self {
            Event::Offer(left) => match other {
                Event::Offer(right) => left.same(right),
                _ => false,
            },
            Event::Begin(left) => match other {
                Event::Begin(right) => *left == *right,
                _ => false,
            },
            Event::Skip(left) => match other {
                Event::Skip(right) => *left == *right,
                _ => false,
            },
            Event::Finish(left) => match other {
                Event::Finish(right) => *left == *right,
                _ => false,
            },
            Event::Advance(left) => match other {
                Event::Advance(right) => *left == *right,
                _ => false,
            },
            Event::TakeEnv => match other {
                Event::TakeEnv => true,
                _ => false,
            },
        }
    }
}
