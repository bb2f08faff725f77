//! `trials`: many trials of behaviour that no contract states, one after another. In standard input each has a line
//! `== NAME`, a line with its kind, and then the trial. Prints for each the name, its results, and an empty line.
//!
//! - `heard`: line octets, with the units that another receiver found in them ([`heard`]). Shows how many of them
//!   `bit_line` doesn't find.
//! - `runs`: a run in each line. Two terminals, whose lines are connected, carry messages. The octets sent at one end
//!   come in at the other over a line that flips, drops and doubles bits, by a seeded generator. Shows the messages
//!   sent and delivered each way, the damaged bits, the messages sent again, and the times that the link came into
//!   service. Also shows whether the messages of each spell of service came in order, none twice and none missing. A
//!   run is six words: basic or cyclic; the seed; the rate (of this many bits one is flipped, one dropped and one
//!   doubled, 0 for none); the messages each way; the messages given to each end in a round; the units one way in a
//!   round.
//! - `sets`: a run in each line ([`trials_groups::run_sets`]). Two link sets, whose links are connected, carry
//!   messages, while a seeded schedule cuts and heals links. Changeover messages are passed as data, and some are lost.
//!   Shows the messages sent and arrived, how many are unsure, and whether messages came once and in order of each SLS,
//!   none missing except unsure ones.
//! - `tended`: a run in each line ([`trials_groups::run_tended`]). Two link sets that tend themselves carry messages
//!   while a seeded schedule cuts their lines, also one way only, garbles and stalls them. Shows whether messages came
//!   once and in order of each SLS, with at most as many missing as were reported unsure, and whether both ends are
//!   whole at the end.
//! - `set_rounds`: a script ([`trials_groups::run_script`]) of two sets that tend themselves, on lines in memory. Shows
//!   the reports of both.
//! - `set_calls`: each public call of a link set. Shows its answer.
//! - `pools`: workers serve links ([`pools`]) while a client offers signals, lets ticks pass, takes signals to the
//!   environment and rebases, by a seeded generator. The first line has numbers: the seed, the links, the workers and
//!   the client's steps, and for a long trial a number of minutes in place of the steps. Then comes the text of a set,
//!   or `standard`. Shows whether the seats agree with the journals; with minutes also the calls and the refusals.
//!   `bench/soak` uses that.
//! - `events`: events and rebases on a link of a text ([`events`]), through `run_text` of `link_whole`. Shows the answer
//!   to each event.
//! - `ports`: a port in each line ([`ports`]), compared with a plain one, a vector, through many calls by a seeded
//!   generator. Shows how often there was no room, how often an item was taken after saved ones, and in how many calls
//!   the two differed.
//! - `reports`: steps on two terminals, one in each line ([`steps`]), over a line without damage. Shows the near end's
//!   reports at each step that asks for them: messages before reports on the link (it came into service; it went down
//!   and why; the far side's processor is out and back). Also shows the line octets of many units sent at once.
//! - `wheels`: in each line a seed and a number of calls. A wheel and a table of deadlines that is searched in full get
//!   the same calls from a generator: timers set and reset, and ticks: one, few, a turn of the wheel, more than
//!   allowed. Shows how many timers were due, how many the wheel looked at, and whether the two always agreed.
//! - `rounds`: a measurement in each line ([`rounds`]). Shows the contents of its smallest round; with a number of
//!   rounds also rates.
#![tactic(auto)]

mod calls;
mod end;
mod events;
mod figures;
mod heard;
mod lines;
mod message;
mod noise;
mod pair;
mod plain_port;
mod pools;
mod ports;
mod reports;
mod rounds;
mod run;
mod sets;
mod shown;
mod steps;
mod texts;
mod wheels;

use crate::calls::Stopped;
use crate::events::run_all;
use crate::heard::compare;
use crate::lines::make_runs;
use crate::pools::serve_all;
use crate::ports::hold_ports;
use crate::reports::report_all;
use crate::rounds::make_rounds;
use crate::sets::{call_each, make_script, make_sets, make_tended};
use crate::wheels::make_wheels;
use std::io::{self, BufReader, ErrorKind, Read};
use std::rt::Runtime;
use std::str;
use std::sync::Wait;
use std::thread::Threads;

/// The error message if a trial can't be made.
fn failure(why: Stopped) -> io::Error {
    match why {
        Stopped::NoMemory => io::Error::from(ErrorKind::OutOfMemory),
        Stopped::Refused | Stopped::NoClock => io::Error::from(ErrorKind::Other),
        Stopped::BadLine => io::Error::from(ErrorKind::InvalidData),
    }
}

/// Makes a trial, or rounds of a measurement, and writes the results.
fn make<R: Runtime + AllocGlobal + Threads + Wait + Sync>(
    rt: &R,
    text: &mut String,
    kind: &str,
    trial: &str,
) -> Result<(), Stopped> {
    match kind {
        "heard" => compare(rt.alloc(), text, trial),
        "runs" => make_runs(rt.alloc(), text, trial),
        "pools" => serve_all(rt, text, trial),
        "events" => run_all(rt.alloc(), text, trial),
        "ports" => hold_ports(rt.alloc(), text, trial),
        "reports" => report_all(rt.alloc(), text, trial),
        "rounds" => make_rounds(rt, text, trial),
        "sets" => make_sets(rt.alloc(), text, trial),
        "set_calls" => call_each(rt.alloc(), text),
        "set_rounds" => make_script(rt.alloc(), text, trial),
        "tended" => make_tended(rt.alloc(), text, trial),
        "wheels" => make_wheels(rt.alloc(), text, trial),
        _ => Err(Stopped::BadLine),
    }
}

/// Makes a trial, and prints the results so far, even if it stops.
fn show<R: Runtime + AllocGlobal + Threads + Wait + Sync>(
    rt: &R,
    kind: &str,
    trial: &str,
) -> io::Result<()> {
    let mut text = String::new(rt.alloc());
    let made = make(rt, &mut text, kind, trial);
    rt.print(text)?;
    match made {
        Ok(()) => Ok(()),
        Err(why) => Err(failure(why)),
    }
}

/// Makes the trial of an entry: a line with its name, one with its kind, and the trial.
fn try_entry<R: Runtime + AllocGlobal + Threads + Wait + Sync>(
    rt: &R,
    entry: &str,
) -> io::Result<()> {
    let Some((name, rest)) = entry.split_once('\n') else {
        return Ok(());
    };
    let Some((kind, trial)) = rest.split_once('\n') else {
        return Err(io::Error::from(ErrorKind::InvalidData));
    };
    println!(rt; "{name}")?;
    show(rt, kind, trial)?;
    println!(rt; "")
}

fn main(rt: HostRuntime) -> io::Result<()> {
    let mut bytes = Vec::new(rt.alloc());
    BufReader::new(rt.alloc(), rt.reader())?.read_to_end(&mut bytes)?;
    let Ok(table) = str::from_utf8(&bytes) else {
        return Err(io::Error::from(ErrorKind::InvalidData));
    };
    for entry in table.split("\n== ") {
        try_entry(&rt, entry)?;
    }
    Ok(())
}
