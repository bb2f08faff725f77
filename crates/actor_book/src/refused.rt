//! Why a book refuses an event.

ghost use Rattle.std.specs.Prelude.{◌≡◌, ◌<◌, None, Option, length, slice_get};
ghost use Rattle.actor_machine.specs.Ledger.{runs, state_of};
ghost use Rattle.actor_machine.specs.Refusals.{refuses, needs};
ghost use Rattle.actor_machine.specs.declared.event.Event.{Event as PlainEvent};
ghost use Rattle.actor_machine.specs.declared.event.Event.TheVariants.{Offer as Offered, Begin, Skip, Advance, TakeEnv};
ghost use Rattle.actor_book.specs.Accepted.{refusal_of};

use crate::book::Book;
use actor_machine::Refusal;
use actor_state::{LinkActors, with_room};
use turn_code::{SignalNumber, Value};

impl Book {
    /// The link's refusal of an event, or else the journal's if it lacks free places. The journal is checked last.
    #[inline]
    fn refusal_with(&self, needed: usize, refusal: Option<Refusal>) -> Option<Refusal>
        ensures { (e : PlainEvent) → needs e ≡ needed → refusal ≡ refuses self.now.set (state_of self.now) e → result ≡ refusal_of self.now e }
    {
        if refusal.is_some() {
            return refusal;
        }
        with_room(self.room(), needed, None)
    }

    /// Why a signal from the environment is refused, if it is.
    pub(crate) fn offer_refusal(
        &self,
        actor: u16,
        signal: SignalNumber,
        values: &[Value],
    ) -> Option<Refusal>
        ensures { result ≡ refusal_of self.now (Offered (record { actor = actor; signal = signal; values = record { items = values.now } })) }
    {
        let refusal = self.link.offer_refusal(&self.set, actor, signal, values);
        self.refusal_with(1, refusal)
    }

    /// Why an actor can't begin a turn, if it can't.
    pub(crate) fn begin_refusal(&self, actor: u16) -> Option<Refusal>
        ensures { result ≡ refusal_of self.now (Begin actor) }
    {
        let refusal = self.link.begin_refusal(&self.set, actor);
        self.refusal_with(2, refusal)
    }

    /// Why an actor can't throw a signal away, if it can't.
    pub(crate) fn skip_refusal(&self, actor: u16) -> Option<Refusal>
        ensures { result ≡ refusal_of self.now (Skip actor) }
    {
        let refusal = self.link.skip_refusal(&self.set, actor);
        self.refusal_with(1, refusal)
    }

    /// Why so many ticks can't pass now, if they can't: what `advance` would return.
    pub fn advance_refusal(&self, ticks: u64) -> Option<Refusal>
        ensures { result ≡ refusal_of self.now (Advance ticks) }
    {
        let refusal = self.link.advance_refusal(ticks);
        self.refusal_with(1, refusal)
    }

    /// Why no signal can be taken for the environment, if so.
    pub(crate) fn take_refusal(&self) -> Option<Refusal>
        ensures { result ≡ refusal_of self.now TakeEnv }
    {
        let refusal = self.link.take_refusal();
        self.refusal_with(1, refusal)
    }
}
