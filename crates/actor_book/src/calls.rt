//! Events of a link that come from the environment and the clock.

ghost use Rattle.std.specs.Prelude.{◌≡◌, ◌≤◌, ◌<◌, ◌+◌, ◌^◌, [], length, IfOk, IfErr, OnOk, OnErr, Some, None, Option};
ghost use Rattle.actor_machine.specs.Ledger.{ask, next};
ghost use Rattle.actor_machine.specs.declared.event.Event.TheVariants.{Offer as Offered, Skip, Advance, TakeEnv};
ghost use Rattle.actor_machine.specs.declared.reply.Reply.TheVariants as reply;
ghost use Rattle.actor_book.specs.Accepted.{Takes, refusal_of};
ghost use Rattle.actor_book.specs.Answered.{answer_by};
ghost use Rattle.plain_laws.specs.Limits.{MOST_PARAMETERS};

use crate::book::Book;
use actor_machine::{Emitted, Event, Offer, Refusal};
use arrayvec::ArrayVec;
use turn_code::{SignalNumber, Trigger, Value};

/// Ticks that passed.
#[derive(Clone, Copy, PartialEq, Eq, Debug)]
pub struct Passed {
    /// The place of this event in the journal.
    pub place: u64,
    /// How many timers were due.
    pub due: usize,
}

/// A signal taken by the environment.
#[derive(Drop)]
pub struct Taken {
    /// The place of this event in the journal.
    pub place: u64,
    /// The oldest signal that waited.
    pub emitted: Emitted,
}

/// The offer of a signal with these values, at most as many as a signal has.
fn offer_of(actor: u16, signal: SignalNumber, values: &[Value]) -> Offer
    requires { length values.now ≤ MOST_PARAMETERS }
    ensures { result ≡ record { actor = actor; signal = signal; values = record { items = values.now } } }
{
    match ArrayVec::try_from(values) {
        Ok(values) => Offer {
            actor,
            signal,
            values,
        },
        Err(_) => unreachable!(),
    }
}

impl Book {
    /// Offers a signal from the environment to an actor. Returns the event's place in the journal.
    ///
    /// # Errors
    ///
    /// In this order: `B10 NoActor`, `B2 Stopped`, `B3 NoRoute` if no route brings this signal with parameters of these
    /// sorts from the environment, `B1 Full`, `B8 JournalFull`. Then nothing changes.
    pub fn offer(
        &mut self,
        actor: u16,
        signal: SignalNumber,
        values: &[Value],
    ) -> Result<u64, Refusal>
        ensures book { let e = Offered (record { actor = actor; signal = signal; values = record { items = values.now } }) in self.new ≡ (ask self.old e).book }
        ensures answer { let e = Offered (record { actor = actor; signal = signal; values = record { items = values.now } }) in
            answer_by (λ _. reply.Offered) result ≡ (ask self.old e).answer }
        ensures place { IfOk result (λ place. place ≡ next self.old) }
        ensures next { OnOk result (next self.new ≡ next self.old + 1) }
        ensures err { OnErr result (self.new ≡ self.old) }
    {
        if let Some(refusal) = self.offer_refusal(actor, signal, values) {
            return Err(refusal);
        }
        self.keeps();
        let place = self.next();
        self.take_offer(offer_of(actor, signal, values));
        Ok(place)
    }

    /// Lets so many ticks pass. The signals of due timers are put into their actors' ports.
    ///
    /// # Errors
    ///
    /// In this order: `W1 TooFar` for more than 65,535 ticks, `W2 ClockFull` if the clock would exceed 2^62, `B8
    /// JournalFull`. Then nothing changes.
    pub fn advance(&mut self, ticks: u64) -> Result<Passed, Refusal>
        ensures book { self.new ≡ (ask self.old (Advance ticks)).book }
        ensures answer { answer_by (λ p. reply.Passed p.due) result ≡ (ask self.old (Advance ticks)).answer }
        ensures takes { OnOk result (Takes self.old (Advance ticks)) }
        ensures refuses { IfErr result (λ refusal. refusal_of self.old (Advance ticks) ≡ Some refusal) }
        ensures place { IfOk result (λ p. p.place ≡ next self.old) }
        ensures next { OnOk result (next self.new ≡ next self.old + 1) }
        ensures err { OnErr result (self.new ≡ self.old) }
    {
        if let Some(refusal) = self.advance_refusal(ticks) {
            return Err(refusal);
        }
        let place = self.next();
        let due = self.pass(ticks);
        Ok(Passed { place, due })
    }

    /// Takes the oldest signal that waits for the environment.
    ///
    /// # Errors
    ///
    /// `B7 Empty`, then `B8 JournalFull`. Then nothing changes.
    pub fn take_env(&mut self) -> Result<Taken, Refusal>
        ensures book { self.new ≡ (ask self.old TakeEnv).book }
        ensures answer { answer_by (λ t. reply.Taken t.emitted) result ≡ (ask self.old TakeEnv).answer }
        ensures place { IfOk result (λ t. t.place ≡ next self.old) }
        ensures next { OnOk result (next self.new ≡ next self.old + 1) }
        ensures err { OnErr result (self.new ≡ self.old) }
    {
        if let Some(refusal) = self.take_refusal() {
            return Err(refusal);
        }
        let place = self.next();
        let emitted = self.take_waiting();
        Ok(Taken { place, emitted })
    }

    /// Throws away the first item that an actor's state doesn't save, if it is no input there. Returns its trigger.
    ///
    /// # Errors
    ///
    /// In this order: `B10 NoActor`, `B4 Busy`, `B5 Nothing`, `B12 NotIgnored`, `B8 JournalFull`. Then nothing changes.
    pub fn skip(&mut self, actor: u16) -> Result<Trigger, Refusal>
        ensures book { self.new ≡ (ask self.old (Skip actor)).book }
        ensures answer { answer_by reply.Skipped result ≡ (ask self.old (Skip actor)).answer }
        ensures next { OnOk result (next self.new ≡ next self.old + 1) }
        ensures err { OnErr result (self.new ≡ self.old) }
    {
        if let Some(refusal) = self.skip_refusal(actor) {
            return Err(refusal);
        }
        Ok(self.throw(actor))
    }
}
