//! Why a link refuses an event.

ghost use Rattle.std.specs.Prelude.{◌≡◌, ◌≤◌, ◌<◌, Option, Some, None, length, slice_get};
ghost use Rattle.actor_machine.specs.Refusals.{refuses, refuses_in, of_actor, first_of, offer_rows, begin_rows, skip_rows, finish_row, empty_row, with_room, needs};
ghost use Rattle.actor_machine.specs.declared.event.Event.{Event as PlainEvent};
ghost use Rattle.actor_machine.specs.declared.event.Event.TheVariants.{Offer as Offered, Begin, Skip, Finish, Advance, TakeEnv};
ghost use Rattle.turn_code.specs.declared.draft.Draft.{Draft as PlainDraft};

use crate::clock::advance_refusal;
use crate::link_actors::LinkActors;
use crate::offer::offer_refusal;
use crate::turn::{begin_refusal, skip_refusal};
use actor_machine::{Actor, Refusal};
use turn_check::Verified;
use turn_code::{SignalNumber, Value};

/// The refusal if there is one; otherwise `JournalFull` if the journal has too few free places.
pub fn with_room(room: usize, needed: usize, refusal: Option<Refusal>) -> Option<Refusal>
    ensures { (e : PlainEvent) → needs e ≡ needed → result ≡ with_room room e refusal }
{
    match refusal {
        Some(refusal) => Some(refusal),
        None => {
            if room < needed {
                Some(Refusal::JournalFull)
            } else {
                None
            }
        }
    }
}

/// Why actor `actor` refuses a signal from the environment, if it does.
fn offer_refusal_at(
    set: &Verified,
    actor: u16,
    signal: SignalNumber,
    values: &[Value],
    actors: &[Actor],
) -> Option<Refusal>
    ensures { result ≡ of_actor (λ a. first_of (offer_rows set.now (record { actor = actor; signal = signal; values = record { items = values.now } }) a)) (slice_get actors.now actor) }
{
    match actors.get(usize::from(actor)) {
        Some(found) => offer_refusal(set, signal, values, found),
        None => Some(Refusal::NoActor),
    }
}

/// Why actor `actor` can't begin a turn, if it can't.
fn begin_refusal_at(set: &Verified, actor: u16, turns: u64, actors: &[Actor]) -> Option<Refusal>
    ensures { result ≡ of_actor (λ a. first_of (begin_rows set.now turns a)) (slice_get actors.now actor) }
{
    match actors.get(usize::from(actor)) {
        Some(found) => begin_refusal(set, turns, found),
        None => Some(Refusal::NoActor),
    }
}

/// Why actor `actor` can't skip an item, if it can't.
fn skip_refusal_at(set: &Verified, actor: u16, actors: &[Actor]) -> Option<Refusal>
    ensures { result ≡ of_actor (λ a. first_of (skip_rows set.now a)) (slice_get actors.now actor) }
{
    match actors.get(usize::from(actor)) {
        Some(found) => skip_refusal(set, found),
        None => Some(Refusal::NoActor),
    }
}

impl LinkActors {
    /// Why the link refuses a signal from the environment, if its journal has room.
    pub fn offer_refusal(
        &self,
        set: &Verified,
        actor: u16,
        signal: SignalNumber,
        values: &[Value],
    ) -> Option<Refusal>
        ensures { result ≡ refuses set.now self.now (Offered (record { actor = actor; signal = signal; values = record { items = values.now } })) }
    {
        offer_refusal_at(set, actor, signal, values, &self.actors)
    }

    /// Why an actor can't begin a turn, if the journal has room.
    pub fn begin_refusal(&self, set: &Verified, actor: u16) -> Option<Refusal>
        ensures { result ≡ refuses set.now self.now (Begin actor) }
    {
        begin_refusal_at(set, actor, self.turns, &self.actors)
    }

    /// Why an actor can't skip an item, if the journal has room.
    pub fn skip_refusal(&self, set: &Verified, actor: u16) -> Option<Refusal>
        ensures { result ≡ refuses set.now self.now (Skip actor) }
    {
        skip_refusal_at(set, actor, &self.actors)
    }

    /// Why this many ticks can't pass, if the journal has room.
    pub fn advance_refusal(&self, ticks: u64) -> Option<Refusal>
        ensures { (set : PlainDraft) → result ≡ refuses set self.now (Advance ticks) }
    {
        advance_refusal(self.wheel.clock(), ticks)
    }

    /// Why no signal can be taken for the environment, if the journal has room.
    pub fn take_refusal(&self) -> Option<Refusal>
        ensures { (set : PlainDraft) → result ≡ refuses set self.now TakeEnv }
    {
        if self.ring.len() == 0 {
            Some(Refusal::Empty)
        } else {
            None
        }
    }
}
