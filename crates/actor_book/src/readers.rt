//! Reading a book.

ghost use Rattle.std.specs.Prelude.{◌≡◌, ◌≤◌, ◌+◌, length, count_by, Option, Some, None, option_map, option_and_then, slice_get};
ghost use Rattle.std.specs.Option.{option_copied};
ghost use Rattle.actor_machine.specs.Core.{names_in};
ghost use Rattle.actor_machine.specs.Ledger.{state_of};
ghost use Rattle.actor_machine.specs.Kept.{is_finish};
ghost use Rattle.actor_machine.specs.declared.actor.Actor.{Actor as PlainActor};
ghost use Rattle.actor_book.specs.Shown.{variable_of};

use crate::book::Book;
use actor_machine::{Actor, ActorName, Emitted, Event, Standing};
use actor_state::LinkActors;
use turn_check::Verified;
use turn_code::{Value, VariableNumber};

/// The value of a variable, if it exists and is set.
fn variable_in(actor: &Actor, variable: VariableNumber) -> Option<Value>
    ensures { result ≡ variable_of (Some actor.now) variable.0 }
{
    match actor.variables.as_slice().get(usize::from(variable.0)) {
        Some(value) => *value,
        None => None,
    }
}

impl Book {
    /// The set of processes.
    pub fn set(&self) -> &Verified
        ensures { result.now ≡ self.now.set }
    {
        &self.set
    }

    /// The present state, which is the replay of the journal on the base.
    pub fn state(&self) -> &LinkActors
        ensures { result.now ≡ state_of self.now }
    {
        &self.link
    }

    /// The state where the journal begins.
    pub fn base(&self) -> &LinkActors
        ensures { result.now ≡ self.now.base }
    {
        &self.base
    }

    /// The place of the first event in the journal.
    pub fn first(&self) -> u64
        ensures { result ≡ self.now.first }
    {
        self.first
    }

    /// The events since the base, in order.
    pub fn journal(&self) -> &[Event]
        ensures { result.now ≡ self.now.journal }
    {
        self.journal.as_slice()
    }

    /// The name of an actor; none if there is no such actor.
    pub fn name_of(&self, actor: u16) -> Option<ActorName>
        ensures { result ≡ slice_get (names_in (state_of self.now).actors) actor }
    {
        self.link.name_of(actor)
    }

    /// The state of an actor; while it has a turn out, the state before that turn. None if there is no such actor.
    pub fn state_of(&self, actor: u16) -> Option<Standing>
        ensures { result ≡ option_map (λ (a : PlainActor). a.standing) (slice_get (state_of self.now).actors actor) }
    {
        self.link.standing_of(actor)
    }

    /// The value of an actor's variable, if it exists and is set. While a turn is out, the value before that turn.
    pub fn variable(&self, actor: u16, variable: VariableNumber) -> Option<Value>
        ensures { result ≡ variable_of (slice_get (state_of self.now).actors actor) variable.0 }
    {
        match self.link.actors().get(usize::from(actor)) {
            Some(found) => variable_in(found, variable),
            None => None,
        }
    }

    /// The clock, in ticks; at most 2^62.
    pub fn clock(&self) -> u64
        ensures { result ≡ (state_of self.now).timers.clock }
    {
        self.link.clock()
    }

    /// How many signals wait for the environment.
    pub fn waiting(&self) -> usize
        ensures { result ≡ length (state_of self.now).ring.items }
    {
        self.link.waiting()
    }

    /// The signal that waits for the environment at a place; the oldest is at 0.
    pub fn waiting_at(&self, place: usize) -> Option<&Emitted>
        ensures { option_copied result ≡ slice_get (state_of self.now).ring.items place }
    {
        self.link.waiting_at(place)
    }

    /// How many turns have ended: those counted in the base and those in the journal.
    pub fn finishes(&self) -> u64
        ensures value { result ≡ (state_of self.now).finishes }
        ensures counted { result ≡ self.now.base.finishes + count_by is_finish self.now.journal }
    {
        self.link.finishes()
    }

    /// How many instructions the ended turns took.
    pub fn instructions(&self) -> u64
        ensures { result ≡ (state_of self.now).instructions }
    {
        self.link.instructions()
    }
}
