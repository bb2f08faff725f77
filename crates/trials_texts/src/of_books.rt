//! Tests of books through public calls, on a loaded text: calls that allocate succeed if there is memory, and change
//! nothing if there is none; a turn ends once.
use crate::links::{ECHO, SAVER, UP, book_of};
use actor_book::{Book, Event, Limits, Offer, run_events};
use arrayvec::ArrayVec;
use std::alloc::Global;
use turn_code::SignalNumber;
use turn_machine::run;

/// Opens a link with a port for one signal and a journal of 16 events.
fn opened(alloc: Global) -> Option<Book> {
    book_of(alloc, ECHO, Limits::new(1, 1, 16)?)
}

/// The environment sends a signal.
fn sent(signal: SignalNumber) -> Event {
    Event::Offer(Offer {
        actor: 0,
        signal,
        values: ArrayVec::new(),
    })
}

/// Seven events. The second Up finds the port full.
fn events() -> [Event; 7] {
    [
        Event::Begin(0),
        Event::Finish(0),
        sent(UP),
        sent(UP),
        Event::Begin(0),
        Event::Finish(0),
        Event::TakeEnv,
    ]
}

/// Nine events of [`SAVER`], whose port for two signals is full at the third. The second is consumed before the first.
fn saved() -> [Event; 9] {
    let a = SignalNumber(0);
    let c = SignalNumber(1);
    [
        Event::Begin(0),
        Event::Finish(0),
        sent(a),
        sent(c),
        sent(c),
        Event::Begin(0),
        sent(c),
        Event::Finish(0),
        Event::Begin(0),
    ]
}

/// The number of ended turns, the instructions run, the place where the journal begins, the place of the next event,
/// and the number of turns ended where the journal begins.
pub(crate) fn numbers(book: &Book) -> [u64; 5] {
    [
        book.finishes(),
        book.instructions(),
        book.first(),
        book.next(),
        book.base().finishes(),
    ]
}

/// Whether there is a reply to each of the events.
fn is_answered(alloc: Global, book: &mut Book, events: &[Event]) -> bool {
    match run_events(alloc, book, events) {
        Ok(replies) => replies.len() == events.len(),
        Err(_) => false,
    }
}

/// The numbers of a book after the events.
fn ran(alloc: Global) -> Option<[u64; 5]> {
    let mut book = opened(alloc)?;
    if is_answered(alloc, &mut book, &events()) {
        Some(numbers(&book))
    } else {
        None
    }
}

#[test]
fn a_list_of_events_runs(rt: HostRuntime) {
    assert_eq!(rt; ran(rt.alloc()), Some([2, 3, 0, 6, 0]));
}

/// The number of replies to `count` events, each of which takes a signal for the environment.
fn answers_to(alloc: Global, count: usize) -> Option<usize> {
    let mut book = opened(alloc)?;
    let mut events = Vec::new(alloc);
    for _ in 0..count {
        events.push(Event::TakeEnv).ok()?;
    }
    match run_events(alloc, &mut book, events.as_slice()) {
        Ok(replies) => Some(replies.len()),
        Err(_) => None,
    }
}

#[test]
fn a_long_list_of_events_runs(rt: HostRuntime) {
    assert_eq!(rt; answers_to(rt.alloc(), 5_000), Some(5_000));
}

/// The numbers of a book after the events and a rebase.
fn rebased(alloc: Global) -> Option<[u64; 5]> {
    let mut book = opened(alloc)?;
    if is_answered(alloc, &mut book, &events()) && book.rebase().is_ok() {
        Some(numbers(&book))
    } else {
        None
    }
}

#[test]
fn a_rebase_empties_the_journal(rt: HostRuntime) {
    assert_eq!(rt; rebased(rt.alloc()), Some([2, 3, 6, 6, 2]));
}

/// Whether the journal is emptied and begins at this place, or begins at 0. The next place must be unchanged.
fn is_emptied(book: &mut Book, next: u64) -> bool {
    let first = if book.rebase().is_ok() { next } else { 0 };
    book.first() == first && book.next() == next
}

/// Whether the events of [`SAVER`] ran or nothing changed; and then whether a rebase succeeded or nothing changed.
fn changes_or_stays(alloc: Global, book: &mut Book) -> bool {
    let next = if is_answered(alloc, book, &saved()) {
        8
    } else {
        0
    };
    book.next() == next && is_emptied(book, next)
}

/// As `changes_or_stays`, for a new book; `None` if it can't be opened.
fn new_changes_or_stays(alloc: Global) -> Option<bool> {
    let mut book = book_of(alloc, SAVER, Limits::new(2, 1, 16)?)?;
    Some(changes_or_stays(alloc, &mut book))
}

/// Holds whichever allocation fails.
#[test]
fn want_of_memory_changes_nothing(rt: HostRuntime) {
    assert!(rt; new_changes_or_stays(rt.alloc()) != Some(false));
}

/// Whether a turn that ended is accepted, and refused the second time.
fn is_ended_once(book: &mut Book) -> bool {
    let Ok(job) = book.begin(0) else {
        return false;
    };
    let done = run(job);
    let again = done.copy();
    book.finish(done).is_ok() && book.finish(again).is_err()
}

/// The numbers of a book after a turn was ended twice.
fn ended(alloc: Global) -> Option<[u64; 5]> {
    let mut book = opened(alloc)?;
    if is_ended_once(&mut book) {
        Some(numbers(&book))
    } else {
        None
    }
}

/// The second time the turn is returned, and nothing changes.
#[test]
fn a_turn_ends_once(rt: HostRuntime) {
    assert_eq!(rt; ended(rt.alloc()), Some([1, 1, 0, 2, 0]));
}
