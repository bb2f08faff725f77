//! The lines printed for commands of a book script.
ghost use Rattle.std.specs.Prelude.{◌≡◌, IfOk, IfSome};
ghost use Rattle.script_lines.specs.Commands.{plain_command};
ghost use Rattle.actor_machine.specs.declared.event.Event.TheVariants as event;
ghost use Rattle.script_book.specs.Answers.{actor_named, by_event, variable_line, value_line, variable_named, done_text, why, rested, obeyed};

use crate::calls::call;
use crate::names::{actor_named, variable_named};
use crate::offers::{flood, offer};
use actor_book::{Book, rest};
use actor_machine::Refusal;
use script_lines::{Called, Command, refused_line, shown_line, taken_line};
use std::alloc::{AllocError, Global};
use std::fmt::Display;

/// A line of printed text.
pub fn text_line<L: Display>(alloc: Global, line: &L) -> Result<Vec<u8>, AllocError>
    ensures { IfOk result (λ v. IfSome (L.output line.now) (λ text. v.items ≡ text)) }
{
    let text = format!(in alloc; "{line}")?;
    Vec::from_slice(alloc, text.as_bytes())
}

/// `ok`, or the line of a refusal.
fn done(alloc: Global, answered: Result<(), Refusal>) -> Result<Vec<u8>, AllocError>
    ensures { IfOk result (λ v. v.items ≡ done_text (why answered)) }
{
    match answered {
        Ok(()) => Vec::from_slice(alloc, b"ok"),
        Err(refusal) => refused_line(alloc, refusal),
    }
}

/// Obeys `tick N`.
fn tick(alloc: Global, book: &mut Book, ticks: u32) -> Result<Vec<u8>, AllocError>
    ensures book { book.new ≡ (by_event book.old 0 (event.Advance ticks)).book }
    ensures line { IfOk result (λ v. v.items ≡ (by_event book.old 0 (event.Advance ticks)).line) }
{
    match book.advance(u64::from(ticks)) {
        Ok(passed) => {
            let due = passed.due;
            text_line(alloc, &format_args!("ok due {due}"))
        }
        Err(refusal) => refused_line(alloc, refusal),
    }
}

/// Obeys `env`.
fn take_env(alloc: Global, book: &mut Book) -> Result<Vec<u8>, AllocError>
    ensures book { book.new ≡ (by_event book.old 0 event.TakeEnv).book }
    ensures line { IfOk result (λ v. v.items ≡ (by_event book.old 0 event.TakeEnv).line) }
{
    match book.take_env() {
        Ok(taken) => taken_line(alloc, book.set(), &taken.emitted),
        Err(refusal) => refused_line(alloc, refusal),
    }
}

/// The value of a variable of an actor, by its name, or `unset`.
fn variable_line(
    alloc: Global,
    book: &Book,
    actor: Called,
    name: &str,
) -> Result<Vec<u8>, AllocError>
    ensures { IfOk result (λ v. v.items ≡ variable_line book.now actor.number (variable_named book.now actor.name.process.0 name.now)) }
{
    let Some(variable) = variable_named(book, actor.name.process, name) else {
        return Vec::from_slice(alloc, b"unset");
    };
    match book.variable(actor.number, variable) {
        Some(value) => shown_line(alloc, value),
        None => Vec::from_slice(alloc, b"unset"),
    }
}

/// The line of `value P x`: the value of a variable, by its name, or `unset`; a refusal if there is no such actor.
pub fn value_line(
    alloc: Global,
    book: &Book,
    process: &str,
    name: &str,
) -> Result<Vec<u8>, AllocError>
    ensures { IfOk result (λ v. v.items ≡ value_line book.now name.now (actor_named book.now process.now)) }
{
    match actor_named(book, process) {
        Some(actor) => variable_line(alloc, book, actor, name),
        None => refused_line(alloc, Refusal::NoActor),
    }
}

/// Obeys `rest`: the line has the number of its turns and skips.
fn rested(alloc: Global, book: &mut Book) -> Result<Vec<u8>, AllocError>
    ensures book { book.new ≡ (rested book.old).book }
    ensures line { IfOk result (λ v. v.items ≡ (rested book.old).line) }
{
    let made = rest(book);
    text_line(alloc, &format_args!("rest {made}"))
}

/// Obeys a command and returns its line, which is empty for `expect`: that doesn't affect the link.
#[tactic(auto, unfolding(crate::specs::Answers::obeyed))]
pub fn answer(alloc: Global, book: &mut Book, command: &Command<'_>) -> Result<Vec<u8>, AllocError>
    ensures book { book.new ≡ (obeyed book.old (plain_command command.now)).book }
    ensures line { IfOk result (λ v. v.items ≡ (obeyed book.old (plain_command command.now)).line) }
{
    match command {
        Command::Offer(given) => done(alloc, offer(book, given)),
        Command::Flood(times, given) => done(alloc, flood(book, *times, given)),
        Command::Call(which, process) => call(alloc, book, *which, process),
        Command::Tick(ticks) => tick(alloc, book, *ticks),
        Command::Env => take_env(alloc, book),
        Command::Rest => rested(alloc, book),
        Command::Value(process, variable) => value_line(alloc, book, process, variable),
        Command::Expect(_) => Ok(Vec::new(alloc)),
    }
}
