//! Turns of a book's actors, by jobs, in a room, or by the book itself.

use crate::rounds::client::{START, STOP};
use actor_book::{Book, REST, Refusal, RoomRefusal, rest};
use turn_code::SignalNumber;
use turn_machine::{Room, run};

/// The number of actors of a link of the profile.
const ACTORS: u16 = 8;

/// How turns are made.
#[derive(Clone, Copy)]
pub enum By {
    /// A job for each turn: begun, run and finished.
    Job,
    /// A room, in which each turn is begun, runs and is finished.
    Room,
    /// The book itself, which makes no job and runs borrowed code.
    Book,
}

/// Lets an actor take a turn by a job, or skip an item, if it can. Returns whether it could.
fn try_by_job(book: &mut Book, actor: u16) -> bool {
    match book.begin(actor) {
        Ok(job) => {
            let _ = book.finish(run(job));
            true
        }
        Err(Refusal::SkipFirst) => book.skip(actor).is_ok(),
        Err(_) => false,
    }
}

/// Lets an actor take a turn in a room, or skip an item, if it can. Returns whether it could.
fn try_in_room(book: &mut Book, room: &mut Room, actor: u16) -> bool {
    match book.begin_in(room, actor) {
        Ok(_) => {
            room.run();
            book.finish_in(room).is_ok()
        }
        Err(RoomRefusal::Refused(Refusal::SkipFirst)) => book.skip(actor).is_ok(),
        Err(_) => false,
    }
}

/// A maker of turns, in one of these ways.
#[derive(Drop)]
pub struct Maker {
    by: By,
    room: Room,
}

impl Maker {
    /// A maker with an empty room.
    pub fn new(by: By) -> Maker {
        Maker {
            by,
            room: Room::new(),
        }
    }

    /// Lets an actor take a whole turn or skip an item, if it can. Returns whether it could.
    fn try_turn(&mut self, book: &mut Book, actor: u16) -> bool {
        match self.by {
            By::Job => try_by_job(book, actor),
            By::Room => try_in_room(book, &mut self.room, actor),
            By::Book => book.turn(actor).is_ok(),
        }
    }

    /// Lets the first actor that can take a turn or skip an item. Returns whether one could.
    fn one(&mut self, book: &mut Book) -> bool {
        for actor in 0..ACTORS {
            if self.try_turn(book, actor) {
                return true;
            }
        }
        false
    }

    /// Takes one turn after another, until no actor can take one.
    fn rest(&mut self, book: &mut Book) {
        for _ in 0..REST {
            if !self.one(book) {
                return;
            }
        }
    }

    /// Lets the first actor take a turn, if it can.
    pub fn turn(&mut self, book: &mut Book) {
        let _ = self.try_turn(book, 0);
    }

    /// Brings a link of the profile to rest.
    pub fn settle(&mut self, book: &mut Book) {
        match self.by {
            By::Job => self.rest(book),
            By::Room => self.rest(book),
            By::Book => {
                let _ = rest(book);
            }
        }
    }

    /// Gives a link of the profile a signal, brings it to rest, and takes its signals to the environment.
    pub fn send(&mut self, book: &mut Book, signal: SignalNumber) {
        let _ = book.offer(0, signal, &[]);
        self.settle(book);
        for _ in 0..book.waiting() {
            let _ = book.take_env();
        }
    }

    /// Starts and stops a link of the profile this many times.
    pub fn cycle_times(&mut self, book: &mut Book, times: u32) {
        for _ in 0..times {
            self.send(book, START);
            self.send(book, STOP);
        }
    }
}
