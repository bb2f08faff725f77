//! The rounds of a pool.

use crate::calls::Stopped;
use crate::rounds::books::{Task, book_of, with_book};
use crate::rounds::client::{LINKS, REBASES, Starts, signal_of};
use crate::rounds::clock::{now, since};
use actor_book::{Book, rest};
use pool_soak::{Open, agree};
use std::alloc::{AllocError, Global};
use std::rt::Runtime;
use std::sync::Wait;
use std::thread::Threads;
use std::time::Duration;
use turn_check::Verified;
use turn_pool::serve;

/// The number of rounds if none is given.
const FEW: u32 = 3;

/// The number of workers if none is given.
const WORKERS: u32 = 2;

/// The results of the rounds.
#[derive(Clone, Copy)]
struct Found {
    /// The number of events in the journals.
    events: u64,
    /// Whether the seats count as many, and no signal was given up.
    agree: bool,
}

/// Adds a book, with ports of 64, 64 signals for the environment and the longest journal.
fn add_book(alloc: Global, set: &Verified, books: &mut Vec<Book>) -> Result<(), Stopped> {
    match books.push(book_of(alloc, set, 64, 64, 65_536)?) {
        Ok(_) => Ok(()),
        Err(_) => Err(Stopped::NoMemory),
    }
}

/// A book for each link.
fn open_books(alloc: Global, set: &Verified) -> Result<Vec<Book>, Stopped> {
    let mut books = Vec::new(alloc);
    for _ in 0..LINKS {
        add_book(alloc, set, &mut books)?;
    }
    Ok(books)
}

/// The number of events in the journals.
fn events_of(books: &[Book]) -> u64 {
    let mut events = 0u64;
    for book in books {
        events = events.saturating_add(book.next());
    }
    events
}

/// Serves the links with workers.
fn serve_links<R: Runtime + AllocGlobal + Threads + Wait + Sync>(
    rt: &R,
    books: Vec<Book>,
    rounds: u32,
    workers: u32,
) -> Result<Found, Stopped> {
    let mut client = Starts { rounds, refused: 0 };
    match serve(rt, rt.alloc(), books, workers as usize, &Open, &mut client) {
        Ok(closed) => Ok(Found {
            events: events_of(closed.books.as_slice()),
            agree: agree(&closed) && client.refused == 0,
        }),
        Err(_) => Err(Stopped::NoMemory),
    }
}

/// Gives the signals to a book without a pool, which comes to rest after each. Returns the number of its events.
pub fn drive(book: &mut Book, rounds: u32) -> u64 {
    for round in 0..rounds {
        if round % REBASES == 0 {
            let _rebased = book.rebase();
        }
        let _offered = book.offer(0, signal_of(round), &[]);
        rest(book);
    }
    book.next()
}

/// Makes the rounds with this many workers; with 0, on one book without a pool.
fn count_rounds<R: Runtime + AllocGlobal + Threads + Wait + Sync>(
    rt: &R,
    set: &Verified,
    rounds: u32,
    workers: u32,
) -> Result<Found, Stopped> {
    if workers == 0 {
        let events = with_book(rt, rt.alloc(), set, Task::Drive(rounds))?.things;
        return Ok(Found {
            events,
            agree: true,
        });
    }
    let books = open_books(rt.alloc(), set)?;
    serve_links(rt, books, rounds, workers)
}

/// Writes whether the seats agree, and also the figures if rounds are asked for.
fn write_found(
    text: &mut String,
    workers: u32,
    found: Found,
    time: Option<Duration>,
) -> Result<(), AllocError> {
    let word = if found.agree { "agree" } else { "differ" };
    match time {
        None => writeln!(text, "workers {workers} {word}"),
        Some(time) => {
            let events = found.events;
            let micros = u64::try_from(time.as_micros()).unwrap_or(u64::MAX);
            writeln!(
                text,
                "workers {workers} {word} events {events} micros {micros}"
            )
        }
    }
}

/// Makes the rounds that are asked for, and writes the results.
pub fn write_pool<R: Runtime + AllocGlobal + Threads + Wait + Sync>(
    rt: &R,
    text: &mut String,
    set: &Verified,
    asked: Option<u32>,
    workers: Option<u32>,
) -> Result<(), Stopped> {
    let workers = workers.unwrap_or(WORKERS);
    let start = now(rt)?;
    let found = count_rounds(rt, set, asked.unwrap_or(FEW), workers)?;
    let time = since(rt, start)?;
    let shown = match asked {
        Some(_) => Some(time),
        None => None,
    };
    write_found(text, workers, found, shown)?;
    Ok(())
}
