//! The state of a link.

ghost use Rattle.std.specs.Prelude.{◌≡◌, ◌≤◌, ◌<◌, ◌+◌, [], length, map, slice_get, option_map, option_and_then, Option, Some, None, IfOk, IfSome};
ghost use Rattle.std.specs.Option.{option_copied};
ghost use Rattle.actor_machine.specs.Core.{names_in, outs};
ghost use Rattle.actor_machine.specs.declared.actor.Actor.{Actor as PlainActor};
ghost use Rattle.actor_machine.specs.declared.actor.Standing.{Standing as PlainStanding};
ghost use Rattle.plain_laws.specs.Limits.{MOST_ACTORS};

use crate::actors::count_outs;
use crate::ring::Ring;
use actor_machine::{Actor, ActorName, Emitted, Standing};
use std::marker::Model;
use tick_wheel::Wheel;
use turn_code::{Value, VariableNumber};

/// The state of a link: actors, timers with the clock, signals for the environment, and counts.
#[derive(Drop)]
pub struct LinkActors {
    pub(crate) actors: Vec<Actor>,
    pub(crate) wheel: Wheel,
    pub(crate) ring: Ring,
    pub(crate) turns: u64,
    pub(crate) finishes: u64,
    pub(crate) instructions: u64,
}

impl Model for LinkActors {
    ghost use Rattle.std.specs.Prelude.{◌≤◌, length};
    ghost use Rattle.std.specs.Coded.{codes};
    ghost use Rattle.tick_wheel.specs.Timers.{timers_code};
    ghost use Rattle.tick_wheel.specs.Turning.{timers_of};
    ghost use Rattle.actor_machine.specs.Core.{Core};
    ghost use Rattle.plain_laws.specs.Limits.{MOST_ACTORS};

    ghost Value = { Core };

    ghost coded = { Prim.hlevel (codes, timers_code) };

    ghost view = { λ l. record {
      actors = l.actors.items;
      timers = timers_of l.wheel;
      ring = l.ring;
      turns = l.turns;
      finishes = l.finishes;
      instructions = l.instructions;
    } };

    ghost invariant = { λ l. length l.actors.items ≤ MOST_ACTORS };
}

impl LinkActors {
    /// The actors by number, at most 128.
    pub fn actors(&self) -> &[Actor]
        ensures value { result.now ≡ self.now.actors }
        ensures few { length result.now ≤ MOST_ACTORS }
    {
        self.actors.as_slice()
    }

    /// The standing of an actor; while it has a turn out, that before the turn. None if there is no such actor.
    pub fn standing_of(&self, actor: u16) -> Option<Standing>
        ensures { result ≡ option_map (λ (a : PlainActor). a.standing) (slice_get self.now.actors actor) }
    {
        match self.actors.get(usize::from(actor)) {
            Some(found) => Some(found.standing),
            None => None,
        }
    }

    /// The name of an actor; none if there is no such actor.
    pub fn name_of(&self, actor: u16) -> Option<ActorName>
        ensures { result ≡ slice_get (names_in self.now.actors) actor }
    {
        match self.actors.get(usize::from(actor)) {
            Some(found) => Some(found.name),
            None => None,
        }
    }

    /// The clock in ticks, at most 2^62.
    pub fn clock(&self) -> u64
        ensures { result ≡ self.now.timers.clock }
    {
        self.wheel.clock()
    }

    /// The number of signals that wait for the environment.
    pub fn waiting(&self) -> usize
        ensures { result ≡ length self.now.ring.items }
    {
        self.ring.len()
    }

    /// The signal at a place among those that wait for the environment; 0 is the one that has waited longest.
    pub fn waiting_at(&self, place: usize) -> Option<&Emitted>
        ensures { option_copied result ≡ slice_get self.now.ring.items place }
    {
        self.ring.get(place)
    }

    /// The number of turns that have begun.
    pub fn turns(&self) -> u64
        ensures { result ≡ self.now.turns }
    {
        self.turns
    }

    /// The number of turns that have ended.
    pub fn finishes(&self) -> u64
        ensures { result ≡ self.now.finishes }
    {
        self.finishes
    }

    /// The number of instructions of all turns that have ended.
    pub fn instructions(&self) -> u64
        ensures { result ≡ self.now.instructions }
    {
        self.instructions
    }

    /// The number of actors that have a turn out.
    pub fn outs(&self) -> usize
        ensures { result ≡ outs self.now.actors }
    {
        count_outs(&self.actors)
    }
}
