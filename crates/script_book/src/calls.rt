//! Calls on one actor.
ghost use Rattle.std.specs.Prelude.{◌≡◌, IfOk, option_map};
ghost use Rattle.actor_machine.specs.declared.event.Event.TheVariants as event;
ghost use Rattle.script_book.specs.Answers.{actor_named, by_event, standing_line, standing_at, state_line, called, calls};

use crate::names::actor_named;
use actor_book::Book;
use actor_machine::Refusal;
use actor_machine::laws::out_law;
use script_lines::{
    Call, Called, begun_line, finished_line, refused_line, skipped_line, standing_line,
};
use std::alloc::{AllocError, Global};
use turn_machine::run;

/// Obeys `begin P`.
fn begin(alloc: Global, book: &mut Book, actor: Called) -> Result<Vec<u8>, AllocError>
    ensures book { book.new ≡ (by_event book.old actor.name.process.0 (event.Begin actor.number)).book }
    ensures line { IfOk result (λ v. v.items ≡ (by_event book.old actor.name.process.0 (event.Begin actor.number)).line) }
{
    match book.begin(actor.number) {
        Ok(job) => begun_line(
            alloc,
            book.set(),
            actor.name.process,
            job.place(),
            job.input_number(),
        ),
        Err(refusal) => refused_line(alloc, refusal),
    }
}

/// Obeys `finish P`: the current job of P is created again, run, and handed in.
fn finish(alloc: Global, book: &mut Book, actor: Called) -> Result<Vec<u8>, AllocError>
    ensures book { book.new ≡ (by_event book.old actor.name.process.0 (event.Finish actor.number)).book }
    ensures line { IfOk result (λ v. v.items ≡ (by_event book.old actor.name.process.0 (event.Finish actor.number)).line) }
{
    out_law();
    book.keeps();
    let Some(job) = book.job(actor.number) else {
        return refused_line(alloc, Refusal::Stranger);
    };
    match book.finish(run(job)) {
        Ok(report) => finished_line(alloc, book.set(), actor.name.process, &report),
        Err(_) => unreachable!(),
    }
}

/// Obeys `skip P`.
fn skip(alloc: Global, book: &mut Book, actor: Called) -> Result<Vec<u8>, AllocError>
    ensures book { book.new ≡ (by_event book.old actor.name.process.0 (event.Skip actor.number)).book }
    ensures line { IfOk result (λ v. v.items ≡ (by_event book.old actor.name.process.0 (event.Skip actor.number)).line) }
{
    match book.skip(actor.number) {
        Ok(trigger) => skipped_line(alloc, book.set(), actor.name.process, trigger),
        Err(refusal) => refused_line(alloc, refusal),
    }
}

/// Obeys `state P` for an actor that exists.
fn state(alloc: Global, book: &Book, actor: Called) -> Result<Vec<u8>, AllocError>
    ensures { IfOk result (λ v. v.items ≡ standing_line book.now actor.name.process.0 (standing_at book.now actor.number)) }
{
    match book.state_of(actor.number) {
        Some(standing) => standing_line(alloc, book.set(), actor.name.process, standing),
        None => refused_line(alloc, Refusal::NoActor),
    }
}

/// The line of `state P`: the state of an actor, by its name; a refusal if there is no such actor.
pub fn state_line(alloc: Global, book: &Book, name: &str) -> Result<Vec<u8>, AllocError>
    ensures { IfOk result (λ v. v.items ≡ state_line book.now (actor_named book.now name.now)) }
{
    match actor_named(book, name) {
        Some(actor) => state(alloc, book, actor),
        None => refused_line(alloc, Refusal::NoActor),
    }
}

/// Obeys a call on an actor.
fn called(alloc: Global, book: &mut Book, call: Call, actor: Called) -> Result<Vec<u8>, AllocError>
    ensures book { book.new ≡ (called book.old call actor).book }
    ensures line { IfOk result (λ v. v.items ≡ (called book.old call actor).line) }
{
    match call {
        Call::Begin => begin(alloc, book, actor),
        Call::Finish => finish(alloc, book, actor),
        Call::Skip => skip(alloc, book, actor),
        Call::State => state(alloc, book, actor),
    }
}

/// Obeys a call on an actor, given by its name.
pub fn call(alloc: Global, book: &mut Book, call: Call, name: &str) -> Result<Vec<u8>, AllocError>
    ensures book { book.new ≡ (calls book.old call (actor_named book.old name.now)).book }
    ensures line { IfOk result (λ v. v.items ≡ (calls book.old call (actor_named book.old name.now)).line) }
{
    match actor_named(book, name) {
        Some(actor) => called(alloc, book, call, actor),
        None => refused_line(alloc, Refusal::NoActor),
    }
}
