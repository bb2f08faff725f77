//! Lists of events.

ghost use Rattle.std.specs.Prelude.{◌≡◌, ◌≤◌, ◌<◌, ◌+◌, ◌++◌, ◌∷◌, [], length, vec_capacity, map, IfOk, OnOk, OnErr, Some, None, Option};
ghost use Rattle.actor_machine.specs.Laws.{AllWithin};
ghost use Rattle.turn_code.specs.Outcome.{Meaning, Means};
ghost use Rattle.actor_machine.specs.Step.{Says};
ghost use Rattle.actor_machine.specs.Ledger.{runs, answers_by, after_by, state_by, state_of};

use crate::book::Book;
use crate::replies::reply_to;
use actor_machine::laws::{set_law, text_law, within_law};
use actor_machine::{Event, Reply};
use std::alloc::{AllocError, Global};

/// Applies events to a link in order, and returns the answers in order. An accepted event goes into the journal; a
/// refused one changes nothing. All memory is allocated before the first event; if it runs out, nothing changes.
///
/// No turn gets stuck: none reads an unset variable, meets a missing operand or one of the wrong sort, lacks a next
/// state, a receiver or an answer, or leaves its code. Each turn does what the set's code does, and what the code
/// means. By any meaning of the set, the answers, the book and the state afterwards are the same.
pub fn run_events(
    alloc: Global,
    book: &mut Book,
    events: &[Event],
) -> Result<Vec<Reply>, AllocError>
    ensures replies { IfOk result (λ rs. map Says rs.items ≡ answers_by (runs book.old.set) book.old events.now) }
    ensures by_text { IfOk result (λ rs. (act : Meaning) → Means act book.old.set → map Says rs.items ≡ answers_by act book.old events.now) }
    ensures book { OnOk result (book.new ≡ after_by (runs book.old.set) book.old events.now) }
    ensures book_by_text { OnOk result ((act : Meaning) → Means act book.old.set → book.new ≡ after_by act book.old events.now) }
    ensures state_by_text { OnOk result ((act : Meaning) → Means act book.old.set → state_of book.new ≡ state_by act (after_by act book.old events.now)) }
    ensures within { OnOk result (AllWithin book.old events.now) }
    ensures err { OnErr result (book.new ≡ book.old) }
{
    text_law();
    within_law();
    book.keeps();
    let mut replies = Vec::with_capacity(alloc, events.len())?;
    run_each(book, events, &mut replies);
    Ok(replies)
}

/// Applies events in order, and appends their answers.
fn run_each(book: &mut Book, events: &[Event], replies: &mut Vec<Reply>)
    requires { length replies.old.items + length events.now ≤ vec_capacity replies.old }
    ensures replies { map Says replies.new.items ≡ map Says replies.old.items ++ answers_by (runs book.old.set) book.old events.now }
    ensures book { book.new ≡ after_by (runs book.old.set) book.old events.now }
{
    set_law();
    for event in events {
        let reply = reply_to(book, event);
        put(replies, reply);
    }
}

/// Appends an answer. There must be room.
pub(crate) fn put(replies: &mut Vec<Reply>, reply: Reply)
    requires { length replies.old.items < vec_capacity replies.old }
    ensures items { replies.new.items ≡ replies.old.items ++ reply ∷ [] }
    ensures capacity { vec_capacity replies.old ≤ vec_capacity replies.new }
{
    replies.push_reserved(reply);
}
