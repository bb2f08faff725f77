//! A book and its measurements.

use crate::calls::Stopped;
use crate::rounds::client::{POWER_ON, START};
use crate::rounds::clock::{now, since};
use crate::rounds::pool_rounds::drive;
use crate::rounds::turns::{By, Maker};
use actor_book::{Book, Limits, rest};
use std::alloc::{AllocError, Global};
use std::rt::Clock;
use std::time::Duration;
use turn_check::Verified;
use turn_code::{SignalNumber, Value};
use turn_machine::{Job, run};

/// The number of signals that the counter gets before its turns.
const SIGNALS: u32 = 64;

/// The number of batches in a round.
const BATCHES: u32 = 300;

/// The number of runs of the long piece in a round.
pub const RUNS: u32 = 1000;

/// The number of times that a link of the profile is started and stopped in a round.
const CYCLES: u32 = 300;

/// A task for a new book.
#[derive(Clone, Copy)]
pub enum Task {
    /// This many rounds of the counter.
    Count(By, u32),
    /// This many rounds in which a link of the profile starts and stops.
    Cycle(By, u32),
    /// This many rounds of the long piece.
    Run(u32),
    /// A link of the profile is powered on and started.
    PowerOn,
    /// A link of the profile comes to rest, with the greatest limits.
    Hold,
    /// A link of the profile comes to rest, and its journal is filled.
    Fill,
    /// A link of the profile gets the signals of this many rounds.
    Drive(u32),
}

/// The result of a task: a number of things, and their time if it is measured.
#[derive(Clone, Copy)]
pub struct Measured {
    pub things: u64,
    pub time: Duration,
}

/// A new book with these limits for its ports, for the environment and for its journal.
pub fn book_of(
    alloc: Global,
    set: &Verified,
    port: usize,
    env: usize,
    journal: usize,
) -> Result<Book, Stopped> {
    let Some(limits) = Limits::new(port, env, journal) else {
        return Err(Stopped::Refused);
    };
    match Book::open(alloc, set, limits) {
        Ok(book) => Ok(book),
        Err(_) => Err(Stopped::NoMemory),
    }
}

/// The new book for a task.
fn book_for(alloc: Global, set: &Verified, task: Task) -> Result<Book, Stopped> {
    match task {
        Task::Count(..) | Task::Cycle(..) | Task::Drive(_) => book_of(alloc, set, 64, 64, 65_536),
        Task::Run(_) => book_of(alloc, set, 1, 1, 16),
        Task::PowerOn => book_of(alloc, set, 16, 64, 256),
        Task::Hold | Task::Fill => book_of(alloc, set, 64, 1024, 65_536),
    }
}

/// This many turns of the first process.
fn turn_times(book: &mut Book, maker: &mut Maker, times: u32) {
    for _ in 0..times {
        maker.turn(book);
    }
}

/// Gives the counter signals and then as many turns.
fn batch(book: &mut Book, maker: &mut Maker) {
    for signal in 0..SIGNALS {
        let _ = book.offer(0, SignalNumber(0), &[Value::Int(signal as i32)]);
    }
    turn_times(book, maker, SIGNALS);
}

/// A round of the counter, with a journal that begins empty.
fn count_up(book: &mut Book, maker: &mut Maker) -> Result<(), AllocError> {
    book.rebase()?;
    for _ in 0..BATCHES {
        batch(book, maker);
    }
    Ok(())
}

/// This many rounds of the counter. Returns the number of turns.
fn count_times(book: &mut Book, maker: &mut Maker, rounds: u32) -> Result<u64, AllocError> {
    for _ in 0..rounds {
        count_up(book, maker)?;
    }
    Ok(book.finishes())
}

/// Measures turns of the counter, after its first.
fn count(rt: &impl Clock, book: &mut Book, by: By, rounds: u32) -> Result<Measured, Stopped> {
    let mut maker = Maker::new(by);
    maker.turn(book);
    let start = now(rt)?;
    let things = count_times(book, &mut maker, rounds)?;
    let time = since(rt, start)?;
    Ok(Measured { things, time })
}

/// This many rounds in which a link starts and stops, each with an empty journal at first. Returns the number of turns.
fn cycle_up(book: &mut Book, maker: &mut Maker, rounds: u32) -> Result<u64, AllocError> {
    for _ in 0..rounds {
        book.rebase()?;
        maker.cycle_times(book, CYCLES);
    }
    Ok(book.finishes())
}

/// Measures turns of the profile's processes, after those that power on their link.
fn cycle(rt: &impl Clock, book: &mut Book, by: By, rounds: u32) -> Result<Measured, Stopped> {
    let mut maker = Maker::new(by);
    maker.settle(book);
    maker.send(book, POWER_ON);
    let start = now(rt)?;
    let things = cycle_up(book, &mut maker, rounds)?;
    let time = since(rt, start)?;
    Ok(Measured { things, time })
}

/// Runs copies of a job, and returns the number of instructions.
fn run_copies(job: &Job, times: u32) -> u64 {
    let mut instructions = 0u64;
    for _ in 0..times {
        instructions = instructions.saturating_add(u64::from(run(job.copy()).count()));
    }
    instructions
}

/// Measures the instructions of a job, which is copied for each run.
fn run_job(rt: &impl Clock, job: &Job, rounds: u32) -> Result<Measured, Stopped> {
    let start = now(rt)?;
    let things = run_copies(job, rounds.saturating_mul(RUNS));
    let time = since(rt, start)?;
    Ok(Measured { things, time })
}

/// Measures the instructions of a turn of the long piece.
fn run_long(rt: &impl Clock, book: &mut Book, rounds: u32) -> Result<Measured, Stopped> {
    Maker::new(By::Job).turn(book);
    let _ = book.offer(0, SignalNumber(0), &[Value::Int(7)]);
    match book.begin(0) {
        Ok(job) => run_job(rt, &job, rounds),
        Err(_) => Err(Stopped::Refused),
    }
}

/// Powers on and starts a link of the profile, lets its processes take their turns, and returns their number.
fn power_on(book: &mut Book) -> u64 {
    rest(book);
    let _ = book.offer(0, POWER_ON, &[]);
    rest(book);
    let _ = book.offer(0, START, &[]);
    rest(book);
    book.finishes()
}

/// Brings a link of the profile to rest, and returns the number of events in its journal.
fn hold(book: &mut Book) -> u64 {
    rest(book);
    book.journal().len() as u64
}

/// As `hold`, and then ticks pass until the journal is full.
fn fill(book: &mut Book) -> u64 {
    rest(book);
    for _ in 0..65_536u32 {
        let _ = book.advance(1);
    }
    book.journal().len() as u64
}

/// Does a task without measuring its time. Returns the number of things; 0 for a task that is timed.
fn do_untimed(book: &mut Book, task: Task) -> u64 {
    match task {
        Task::PowerOn => power_on(book),
        Task::Hold => hold(book),
        Task::Fill => fill(book),
        Task::Drive(rounds) => drive(book, rounds),
        Task::Count(..) | Task::Cycle(..) | Task::Run(_) => 0,
    }
}

/// Does a task with its book.
fn do_task(rt: &impl Clock, book: &mut Book, task: Task) -> Result<Measured, Stopped> {
    match task {
        Task::Count(by, rounds) => count(rt, book, by, rounds),
        Task::Cycle(by, rounds) => cycle(rt, book, by, rounds),
        Task::Run(rounds) => run_long(rt, book, rounds),
        _ => Ok(Measured {
            things: do_untimed(book, task),
            time: Duration::from_micros(0),
        }),
    }
}

/// Does a task with a new book. Only this function owns one, since dropping it is expensive to prove.
pub fn with_book(
    rt: &impl Clock,
    alloc: Global,
    set: &Verified,
    task: Task,
) -> Result<Measured, Stopped> {
    let mut book = book_for(alloc, set, task)?;
    do_task(rt, &mut book, task)
}
