//! The answer to one event.

ghost use Rattle.std.specs.Prelude.{◌≡◌, Some, None, Option};
ghost use Rattle.actor_machine.specs.Ledger.{ask};
ghost use Rattle.actor_machine.specs.Step.{Says};
ghost use Rattle.actor_machine.specs.declared.event.Event.TheVariants.{Offer as Offered, Begin, Skip, Finish, Advance, TakeEnv};
ghost use Rattle.actor_book.specs.Answered.{begun_of};

use crate::book::Book;
use actor_machine::laws::out_law;
use actor_machine::{Begun, Event, Offer, Refusal, Reply};
use turn_machine::{Job, run};

/// The answer to an offered signal.
fn offered(book: &mut Book, offer: &Offer) -> Reply
    ensures book { book.new ≡ (ask book.old (Offered offer.now)).book }
    ensures reply { Says result ≡ (ask book.old (Offered offer.now)).answer }
{
    match book.offer(offer.actor, offer.signal, offer.values.as_slice()) {
        Ok(_) => Reply::Offered,
        Err(refusal) => Reply::Refused(refusal),
    }
}

/// The answer for a turn that began.
fn begun_by(job: &Job) -> Begun
    ensures { result ≡ begun_of job.now }
{
    Begun {
        turn: job.turn(),
        place: job.place(),
        number: job.input_number(),
    }
}

/// The answer to the beginning of a turn.
fn begun(book: &mut Book, actor: u16) -> Reply
    ensures book { book.new ≡ (ask book.old (Begin actor)).book }
    ensures reply { Says result ≡ (ask book.old (Begin actor)).answer }
{
    match book.begin(actor) {
        Ok(job) => Reply::Begun(begun_by(&job)),
        Err(refusal) => Reply::Refused(refusal),
    }
}

/// The answer to a skip.
fn skipped(book: &mut Book, actor: u16) -> Reply
    ensures book { book.new ≡ (ask book.old (Skip actor)).book }
    ensures reply { Says result ≡ (ask book.old (Skip actor)).answer }
{
    match book.skip(actor) {
        Ok(trigger) => Reply::Skipped(trigger),
        Err(refusal) => Reply::Refused(refusal),
    }
}

/// The answer to the end of a turn: the job that the actor has out is made again and run.
fn finished(book: &mut Book, actor: u16) -> Reply
    ensures book { book.new ≡ (ask book.old (Finish actor)).book }
    ensures reply { Says result ≡ (ask book.old (Finish actor)).answer }
{
    out_law();
    book.keeps();
    let Some(job) = book.job(actor) else {
        return Reply::Refused(Refusal::Stranger);
    };
    match book.finish(run(job)) {
        Ok(report) => Reply::Finished(report),
        Err(_) => unreachable!(),
    }
}

/// The answer to ticks that pass.
fn passed(book: &mut Book, ticks: u64) -> Reply
    ensures book { book.new ≡ (ask book.old (Advance ticks)).book }
    ensures reply { Says result ≡ (ask book.old (Advance ticks)).answer }
{
    match book.advance(ticks) {
        Ok(passed) => Reply::Passed(passed.due),
        Err(refusal) => Reply::Refused(refusal),
    }
}

/// The answer when the environment takes a signal.
fn taken(book: &mut Book) -> Reply
    ensures book { book.new ≡ (ask book.old TakeEnv).book }
    ensures reply { Says result ≡ (ask book.old TakeEnv).answer }
{
    match book.take_env() {
        Ok(taken) => Reply::Taken(taken.emitted),
        Err(refusal) => Reply::Refused(refusal),
    }
}

/// The answer to an event.
pub(crate) fn reply_to(book: &mut Book, event: &Event) -> Reply
    ensures book { book.new ≡ (ask book.old event.now).book }
    ensures reply { Says result ≡ (ask book.old event.now).answer }
{
    match event {
        Event::Offer(offer) => offered(book, offer),
        Event::Begin(actor) => begun(book, *actor),
        Event::Skip(actor) => skipped(book, *actor),
        Event::Finish(actor) => finished(book, *actor),
        Event::Advance(ticks) => passed(book, *ticks),
        Event::TakeEnv => taken(book),
    }
}
