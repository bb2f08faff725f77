//! Questions about sets and their books.

use crate::calls::Stopped;
use crate::rounds::books::{Measured, Task, with_book};
use crate::rounds::clock::{now, rate, since};
use crate::rounds::code::write_set;
use crate::rounds::pool_rounds::write_pool;
use crate::rounds::rows::{ROWS, Row};
use crate::rounds::sets::{Set, load_set};
use crate::rounds::straight::run_straight;
use crate::rounds::turns::By;
use std::alloc::Global;
use std::rt::{Clock, Runtime};
use std::sync::Wait;
use std::thread::Threads;
use turn_check::Verified;

/// The number of books of the profile that are opened in a round.
const OPENINGS: u32 = 100;

/// A question about a set.
#[derive(Clone, Copy)]
pub enum Question {
    /// The result of one round of a row, or its rate per second over a number of rounds.
    Turns(Row, Option<u32>),
    /// The code of the set.
    Code,
    /// The number of events of a book at rest, with its journal filled or not.
    Held(bool),
    /// Whether the seats of a pool agree with the journals, with a number of rounds and of workers.
    Pool(Option<u32>, Option<u32>),
}

/// Powers on this many links of the profile one after another, and returns the number of their turns.
fn power_on_times(
    rt: &impl Clock,
    alloc: Global,
    set: &Verified,
    times: u32,
) -> Result<u64, Stopped> {
    let mut turns = 0u64;
    for _ in 0..times {
        let more = with_book(rt, alloc, set, Task::PowerOn)?.things;
        turns = turns.saturating_add(more);
    }
    Ok(turns)
}

/// Turns of the profile's processes; a new book is opened for each link.
fn open_links(
    rt: &impl Clock,
    alloc: Global,
    set: &Verified,
    rounds: u32,
) -> Result<Measured, Stopped> {
    let start = now(rt)?;
    let things = power_on_times(rt, alloc, set, rounds.saturating_mul(OPENINGS))?;
    let time = since(rt, start)?;
    Ok(Measured { things, time })
}

/// The measurement of a row, over a number of rounds.
fn measure(
    rt: &impl Clock,
    alloc: Global,
    row: Row,
    loaded: &Verified,
    rounds: u32,
) -> Result<Measured, Stopped> {
    match row {
        Row::Counter => with_book(rt, alloc, loaded, Task::Count(By::Job, rounds)),
        Row::CounterOwn => with_book(rt, alloc, loaded, Task::Count(By::Book, rounds)),
        Row::Standard => open_links(rt, alloc, loaded, rounds),
        Row::StandardOwn => with_book(rt, alloc, loaded, Task::Cycle(By::Book, rounds)),
        Row::StandardJob => with_book(rt, alloc, loaded, Task::Cycle(By::Job, rounds)),
        Row::Long => with_book(rt, alloc, loaded, Task::Run(rounds)),
        Row::Straight => run_straight(rt, loaded, rounds),
        Row::CounterRoom => with_book(rt, alloc, loaded, Task::Count(By::Room, rounds)),
        Row::StandardRoom => with_book(rt, alloc, loaded, Task::Cycle(By::Room, rounds)),
    }
}

/// Writes the number of things, and their rate per second if rounds are given.
fn write_turns(
    rt: &impl Clock,
    alloc: Global,
    text: &mut String,
    row: Row,
    loaded: &Verified,
    asked: Option<u32>,
) -> Result<(), Stopped> {
    let measured = measure(rt, alloc, row, loaded, asked.unwrap_or(1))?;
    let number = match asked {
        Some(_) => rate(measured.things, measured.time),
        None => measured.things,
    };
    let name = row.name();
    writeln!(text, "{name} {number}")?;
    Ok(())
}

/// Writes the number of events of a book at rest.
fn write_held(
    rt: &impl Clock,
    alloc: Global,
    text: &mut String,
    loaded: &Verified,
    is_full: bool,
) -> Result<(), Stopped> {
    let task = if is_full { Task::Fill } else { Task::Hold };
    let events = with_book(rt, alloc, loaded, task)?.things;
    writeln!(text, "events {events}")?;
    Ok(())
}

/// Writes the answer to a question about a set.
fn answer<R: Runtime + AllocGlobal + Threads + Wait + Sync>(
    rt: &R,
    text: &mut String,
    loaded: &Verified,
    question: Question,
) -> Result<(), Stopped> {
    match question {
        Question::Turns(row, asked) => write_turns(rt, rt.alloc(), text, row, loaded, asked),
        Question::Code => Ok(write_set(text, loaded.draft())?),
        Question::Held(is_full) => write_held(rt, rt.alloc(), text, loaded, is_full),
        Question::Pool(asked, workers) => write_pool(rt, text, loaded, asked, workers),
    }
}

/// Loads a set, and writes the answer about it. Only this function owns a set: dropping one is expensive to prove.
pub fn ask_set<R: Runtime + AllocGlobal + Threads + Wait + Sync>(
    rt: &R,
    text: &mut String,
    set: Set,
    question: Question,
) -> Result<(), Stopped> {
    let loaded = load_set(rt.alloc(), set)?;
    answer(rt, text, &loaded, question)
}

/// Makes the rounds of books, and writes the results.
pub fn write_books<R: Runtime + AllocGlobal + Threads + Wait + Sync>(
    rt: &R,
    text: &mut String,
    asked: Option<u32>,
) -> Result<(), Stopped> {
    for row in ROWS {
        ask_set(rt, text, row.set(), Question::Turns(row, asked))?;
    }
    Ok(())
}
