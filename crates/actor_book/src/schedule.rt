//! Schedules: events and rebases of a link, in any order and of any length.

ghost use Rattle.std.specs.Prelude.{◌≡◌, ◌≤◌, ◌+◌, ◌++◌, length, vec_capacity, map, IfOk, OnOk, OnErr};
ghost use Rattle.turn_code.specs.Outcome.{Meaning, Means};
ghost use Rattle.actor_machine.specs.Step.{Says};
ghost use Rattle.actor_machine.specs.Ledger.{runs, state_by, state_of};
ghost use Rattle.actor_book.specs.Schedules.{stepped_by, answer_to, scheduled_by, answers_on, used_in, IsCutShort, EachAnswer, IsToldOfRoom};

use crate::book::Book;
use crate::event_runs::put;
use crate::laws::{lack_of_room_is_exact, schedules_are_by_text};
use crate::replies::reply_to;
use actor_machine::laws::set_law;
use actor_machine::{Event, Reply};
use std::alloc::{AllocError, Global};

/// A step of a schedule.
#[derive(Drop)]
pub enum Scheduled {
    /// An event of the link. It gets an answer, and if it is accepted a place in the journal.
    Event(Event),
    /// The book is rebased (`Book::rebase`). This is no event: it has no answer and no place.
    Rebase,
}

impl Scheduled {
    /// A copy. It can't fail.
    pub fn copy(&self) -> Scheduled
        ensures { result ≡ self.now }
    {
        match self {
            Scheduled::Event(event) => Scheduled::Event(event.copy()),
            Scheduled::Rebase => Scheduled::Rebase,
        }
    }
}

/// Makes the steps of a schedule in order, and returns the answers to its events in order. However long it is, an event
/// is refused as `B8 JournalFull` only if no rebase came in time: the link would accept it, but the events accepted
/// since the last rebase and the turns that are out leave fewer places than it needs.
///
/// As in `run_events` no turn gets stuck, and each does what the set means.
///
/// # Errors
///
/// If memory runs out, for the answers or in a rebase. Then the steps before that rebase were made, and no others.
pub fn run_schedule(
    alloc: Global,
    book: &mut Book,
    steps: &[Scheduled],
) -> Result<Vec<Reply>, AllocError>
    ensures replies { IfOk result (λ rs. map Says rs.items ≡ answers_on (runs book.old.set) book.old steps.now) }
    ensures by_text { IfOk result (λ rs. (act : Meaning) → Means act book.old.set → map Says rs.items ≡ answers_on act book.old steps.now) }
    ensures book { OnOk result (book.new ≡ scheduled_by (runs book.old.set) book.old steps.now) }
    ensures book_by_text { OnOk result ((act : Meaning) → Means act book.old.set → book.new ≡ scheduled_by act book.old steps.now) }
    ensures state_by_text { OnOk result ((act : Meaning) → Means act book.old.set → state_of book.new ≡ state_by act (scheduled_by act book.old steps.now)) }
    ensures room { IfOk result (λ rs. EachAnswer (IsToldOfRoom book.old.limit) (used_in book.old) book.old steps.now rs.items) }
    ensures err { OnErr result (IsCutShort book.old steps.now book.new) }
{
    schedules_are_by_text();
    lack_of_room_is_exact();
    book.keeps();
    let mut replies = Vec::with_capacity(alloc, steps.len())?;
    make_steps(book, steps, &mut replies)?;
    Ok(replies)
}

/// Makes steps in order, and appends the answers to their events.
fn make_steps(
    book: &mut Book,
    steps: &[Scheduled],
    replies: &mut Vec<Reply>,
) -> Result<(), AllocError>
    requires { length replies.old.items + length steps.now ≤ vec_capacity replies.old }
    ensures replies { OnOk result (map Says replies.new.items ≡ map Says replies.old.items ++ answers_on (runs book.old.set) book.old steps.now) }
    ensures book { OnOk result (book.new ≡ scheduled_by (runs book.old.set) book.old steps.now) }
    ensures err { OnErr result (IsCutShort book.old steps.now book.new) }
{
    set_law();
    for step in steps {
        make_step(book, step, replies)?;
    }
    Ok(())
}

/// Makes a step, and appends the answer if it is an event.
fn make_step(book: &mut Book, step: &Scheduled, replies: &mut Vec<Reply>) -> Result<(), AllocError>
    requires { length replies.old.items + 1 ≤ vec_capacity replies.old }
    ensures book { OnOk result (book.new ≡ stepped_by (runs book.old.set) book.old step.now) }
    ensures replies { OnOk result (map Says replies.new.items ≡ map Says replies.old.items ++ answer_to (runs book.old.set) book.old step.now) }
    ensures few { length replies.new.items ≤ length replies.old.items + 1 }
    ensures capacity { vec_capacity replies.old ≤ vec_capacity replies.new }
    ensures rebase { OnErr result (step.now ≡ Scheduled.Rebase) }
    ensures err { OnErr result (book.new ≡ book.old) }
{
    match step {
        Scheduled::Event(event) => {
            let reply = reply_to(book, event);
            put(replies, reply);
            Ok(())
        }
        Scheduled::Rebase => book.rebase(),
    }
}
