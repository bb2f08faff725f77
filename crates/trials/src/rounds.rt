//! Measurements, each a line of words. Without a number of rounds it is the smallest round, and shows nothing that
//! depends on time.
//!
//! - `line [ROUNDS]`: random message signal units through a stuffer and a deframer. Shows how many units came back.
//!   With a number of rounds also octets per second: `out` of units put on the line, `in` of the line that were read,
//!   `until` of those taken up to the first event each time, and `each` of those taken one by one. Names with `fisu_`
//!   are for a line of 2,000 fill-in units, sent 25 times so that they stay in the cache. `store`: messages per second
//!   that were put, sent and acknowledged; `retrieve`: messages per second from a full store.
//! - `link [ROUNDS]`: a terminal in service, with only fill-in units, and with messages of 20 and of 272 octets. Shows
//!   for each round the units, line octets and turns of the actors, each way, and the messages delivered. With a number
//!   of rounds, for each kind, octets per second: `in` and `out` through the terminal, `deframer` and `stuffer` through
//!   these only, on the same octets; and `ticks` per second, one by one.
//! - `book [ROUNDS]`: turns of a book, and runs of code. Shows the number of turns and instructions. With a number of
//!   rounds also rates per second: `counter`, turns of the counter by jobs, from offer to finish; `standard`, turns of
//!   the profile's processes, with a new book for each power-on and start; `long`, instructions of a piece of 512,
//!   whose job is copied for each run; `counter_own`, turns of the counter that its book makes without a job;
//!   `standard_own` and `standard_job`, turns of the profile's processes in one book, whose link starts and stops, by
//!   the book and by jobs; `straight`, instructions of the piece of 512, run on borrowed code; `counter_room` and
//!   `standard_room`, as `counter` and `standard_job`, in a room.
//! - `wheel [ROUNDS]`: 8, 64 and 1,024 timers that aren't due yet, equally many in all slots, and 10,000 ticks, one by
//!   one. Shows how many timers were looked at; with a number of rounds ticks per second, `wheel` in a wheel and
//!   `table` in a table of deadlines that is searched in full.
//! - `port [ROUNDS]`: a full port of 64 signals; 10,000 times one is taken after 0, 32 or 63 saved ones and put after
//!   all others again. Shows how many were taken; with a number of rounds how many per second, `port` from a port and
//!   `plain` from a vector.
//! - `set [ROUNDS]`: two links; the first gets 127 messages that are sent and 1,024 that wait, and fails, and all go to
//!   the second. Shows how many were taken and diverted; with a number of rounds nanoseconds for one of the 1,024, and
//!   microseconds for the diversion from the order on.
//! - `code SET`: the code of the set with this name as numbers ([`code`]).
//! - `open` and `full`: a book of the profile with the greatest limits; in `full` its journal is filled. Shows the
//!   number of its events.
//! - `pool [ROUNDS WORKERS]`: workers go round 16 links of the set `standard` while a client starts and stops their
//!   terminals; a few rounds and two workers if there are no numbers. Shows whether the seats agree with the journals;
//!   with numbers also the events and their microseconds. With 0 workers one book without a pool takes its turns
//!   between the same signals.

mod book_rounds;
mod books;
mod client;
pub mod clock;
mod code;
mod draws;
mod line;
mod line_rounds;
mod link_rounds;
mod pool_rounds;
mod port_rounds;
mod rows;
mod service;
mod set_rounds;
mod sets;
mod store;
mod straight;
mod traffic;
mod turns;
mod wheel_rounds;

use crate::calls::Stopped;
use crate::rounds::book_rounds::{Question, ask_set, write_books};
use crate::rounds::line_rounds::write_line;
use crate::rounds::link_rounds::write_link;
use crate::rounds::port_rounds::write_ports;
use crate::rounds::set_rounds::write_sets;
use crate::rounds::sets::Set;
use crate::rounds::wheel_rounds::write_wheels;
use crate::run::number;
use std::rt::Runtime;
use std::str::SplitWhitespace;
use std::sync::Wait;
use std::thread::Threads;

/// The question about a set in a word and those after it.
fn question_of(word: &str, words: &mut SplitWhitespace<'_>) -> Option<(Set, Question)> {
    match word {
        "code" => Some((Set::named(words.next().unwrap_or("")), Question::Code)),
        "open" => Some((Set::Standard, Question::Held(false))),
        "full" => Some((Set::Standard, Question::Held(true))),
        "pool" => {
            let rounds = number(words);
            let workers = number(words);
            Some((Set::Standard, Question::Pool(rounds, workers)))
        }
        _ => None,
    }
}

/// Writes the answer to the question in a word and those after it.
fn write_question<R: Runtime + AllocGlobal + Threads + Wait + Sync>(
    rt: &R,
    text: &mut String,
    word: &str,
    words: &mut SplitWhitespace<'_>,
) -> Result<(), Stopped> {
    match question_of(word, words) {
        Some((set, question)) => ask_set(rt, text, set, question),
        None => Err(Stopped::BadLine),
    }
}

/// Makes the rounds of a line of words, and writes the results.
fn make_line<R: Runtime + AllocGlobal + Threads + Wait + Sync>(
    rt: &R,
    text: &mut String,
    line: &str,
) -> Result<(), Stopped> {
    let mut words = line.split_whitespace();
    match words.next().unwrap_or("") {
        "line" => write_line(rt, rt.alloc(), text, number(&mut words)),
        "link" => write_link(rt, rt.alloc(), text, number(&mut words)),
        "wheel" => write_wheels(rt, rt.alloc(), text, number(&mut words)),
        "port" => write_ports(rt, rt.alloc(), text, number(&mut words)),
        "set" => write_sets(rt, rt.alloc(), text, number(&mut words)),
        "book" => write_books(rt, text, number(&mut words)),
        word => write_question(rt, text, word, &mut words),
    }
}

/// Makes rounds, and writes the results.
pub fn make_rounds<R: Runtime + AllocGlobal + Threads + Wait + Sync>(
    rt: &R,
    text: &mut String,
    rounds: &str,
) -> Result<(), Stopped> {
    for line in rounds.lines() {
        make_line(rt, text, line)?;
    }
    Ok(())
}
