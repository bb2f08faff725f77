//! Accepted events: the link's step, and the event's place in the journal.

ghost use Rattle.std.specs.Prelude.{◌≡◌, ◌≤◌, ◌<◌, ◌+◌, ◌++◌, ◌∷◌, [], None, Some, Option, length, option_map, slice_get, vec_capacity};
ghost use Rattle.turn_code.specs.Outcome.{Outcome};
ghost use Rattle.turn_machine.specs.Turn.{IsRunnable, outcome_of};
ghost use Rattle.actor_machine.specs.Ledger.{ask, next, turn_out};
ghost use Rattle.actor_machine.specs.Core.{names_in};
ghost use Rattle.actor_machine.specs.Step.{Says};
ghost use Rattle.actor_machine.specs.declared.event.Event.TheVariants.{Offer as Offered, Begin, Skip, Finish, Advance, TakeEnv};
ghost use Rattle.actor_machine.specs.declared.reply.Reply.TheVariants as reply;
ghost use Rattle.actor_book.specs.Accepted.{Takes};
ghost use Rattle.plain_laws.specs.Limits.{MOST_ACTORS, MOST_EFFECTS, MOST_VARIABLES};

use crate::book::Book;
use actor_machine::laws::{fits_law, keeps_law, out_law, state_law};
use actor_machine::{ActorName, Emitted, Event, Offer, Report};
use actor_state::{LinkActors, NumberedActor};
use turn_code::laws::{effects_law, run_law};
use turn_code::{SignalNumber, Trigger, Value};
use turn_machine::{Done, Job};

/// Appends an event. There must be room.
pub(crate) fn note(journal: &mut Vec<Event>, event: Event)
    requires { length journal.old.items < vec_capacity journal.old }
    ensures items { journal.new.items ≡ journal.old.items ++ event ∷ [] }
    ensures capacity { vec_capacity journal.old ≤ vec_capacity journal.new }
{
    journal.push_reserved(event);
}

/// The number of an existing actor. A link has at most 128.
pub(crate) fn number_in(link: &LinkActors, actor: u16) -> u8
    requires { actor < length link.now.actors }
    ensures value { result ≡ actor }
    ensures few { result < MOST_ACTORS }
{
    let _few = link.actors();
    actor as u8
}

/// The name of an existing actor.
pub(crate) fn name_in(link: &LinkActors, actor: u16) -> ActorName
    requires { actor < length link.now.actors }
    ensures { slice_get (names_in link.now.actors) actor ≡ Some result }
{
    match link.name_of(actor) {
        Some(name) => name,
        None => unreachable!(),
    }
}

/// How many variables a job is given.
fn input_variables(job: &Job) -> usize
    ensures value { result ≡ length job.now.input.variables.items }
    ensures few { result ≤ MOST_EFFECTS }
    ensures runnable { IsRunnable job.now }
{
    job.input().variables.len()
}

/// The variables at the end of a turn.
fn variables_after(done: &Done) -> &[Option<Value>]
    ensures few { length result.now ≤ MOST_VARIABLES }
    ensures value { option_map (λ (o : Outcome). o.progress.variables) (outcome_of done.now) ≡ Some result.now }
{
    run_law();
    let _few = input_variables(done.job());
    done.variables()
}

impl Book {
    /// Takes a signal from the environment that isn't refused.
    pub(crate) fn take_offer(&mut self, offer: Offer)
        requires { Takes self.old (Offered offer) }
        ensures book { self.new ≡ (ask self.old (Offered offer)).book }
        ensures answer { Says reply.Offered ≡ (ask self.old (Offered offer)).answer }
        ensures next { next self.new ≡ next self.old + 1 }
    {
        keeps_law();
        state_law();
        self.link
            .offer(offer.actor, offer.signal, offer.copy().values);
        note(&mut self.journal, Event::Offer(offer));
    }

    /// Lets ticks pass that aren't refused. Returns how many timers were due.
    pub(crate) fn pass(&mut self, ticks: u64) -> usize
        requires { Takes self.old (Advance ticks) }
        ensures book { self.new ≡ (ask self.old (Advance ticks)).book }
        ensures answer { Says (reply.Passed result) ≡ (ask self.old (Advance ticks)).answer }
        ensures next { next self.new ≡ next self.old + 1 }
    {
        keeps_law();
        state_law();
        let due = self.link.advance(ticks);
        note(&mut self.journal, Event::Advance(ticks));
        due
    }

    /// Takes the oldest signal that waits for the environment. There must be one.
    pub(crate) fn take_waiting(&mut self) -> Emitted
        requires { Takes self.old TakeEnv }
        ensures book { self.new ≡ (ask self.old TakeEnv).book }
        ensures answer { Says (reply.Taken result) ≡ (ask self.old TakeEnv).answer }
        ensures next { next self.new ≡ next self.old + 1 }
    {
        keeps_law();
        state_law();
        match self.link.take() {
            Some(emitted) => {
                note(&mut self.journal, Event::TakeEnv);
                emitted
            }
            None => unreachable!(),
        }
    }

    /// Throws away an item that isn't refused.
    pub(crate) fn throw(&mut self, actor: u16) -> Trigger
        requires { Takes self.old (Skip actor) }
        ensures book { self.new ≡ (ask self.old (Skip actor)).book }
        ensures answer { Says (reply.Skipped result) ≡ (ask self.old (Skip actor)).answer }
        ensures next { next self.new ≡ next self.old + 1 }
    {
        keeps_law();
        state_law();
        let number = number_in(&self.link, actor);
        match self.link.skip(&self.set, number) {
            Some(trigger) => {
                note(&mut self.journal, Event::Skip(actor));
                trigger
            }
            None => unreachable!(),
        }
    }

    /// Begins a turn that isn't refused.
    pub(crate) fn start(&mut self, actor: u16)
        requires { Takes self.old (Begin actor) }
        ensures book { self.new ≡ (ask self.old (Begin actor)).book }
        ensures next { next self.new ≡ next self.old + 1 }
    {
        keeps_law();
        state_law();
        let number = number_in(&self.link, actor);
        self.link.begin(&self.set, number);
        note(&mut self.journal, Event::Begin(actor));
    }

    /// Ends a turn that is out.
    pub(crate) fn end(&mut self, actor: u16, done: &Done) -> Report
        requires { turn_out self.old actor ≡ Some done.now }
        ensures book { self.new ≡ (ask self.old (Finish actor)).book }
        ensures answer { Says (reply.Finished result) ≡ (ask self.old (Finish actor)).answer }
        ensures next { next self.new ≡ next self.old + 1 }
        ensures within { result.count ≤ done.now.certificate.budget }
    {
        keeps_law();
        state_law();
        out_law();
        fits_law();
        effects_law();
        let number = number_in(&self.link, actor);
        let name = name_in(&self.link, actor);
        let report = self.link.finish(
            &self.set,
            NumberedActor { number, name },
            done.end(),
            variables_after(done),
            done.effects(),
            done.count(),
        );
        note(&mut self.journal, Event::Finish(actor));
        report
    }
}
