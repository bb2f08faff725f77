//! The rounds of a link set: messages to send, and the diversion of all that a link holds.

use crate::calls::Stopped;
use crate::rounds::clock::{now, since};
use crate::sets::{standard_set, why_stopped};
use std::alloc::Global;
use std::rt::Clock;
use std::time::Duration;
use trials_groups::FullSet;
use turn_check::Verified;

/// The results of a round, and its times.
#[derive(Clone, Copy)]
struct Moved {
    sent: u32,
    sending: Duration,
    diverted: usize,
    diverting: Duration,
}

/// Fills a link, and diverts its messages.
fn measure(rt: &impl Clock, full: &mut FullSet) -> Result<Moved, Stopped> {
    let window = full.send_window().map_err(why_stopped)?;
    let start = now(rt)?;
    let more = full.send_more();
    let sending = since(rt, start)?;
    let start = now(rt)?;
    let diverted = full.divert().map_err(why_stopped)?;
    let diverting = since(rt, start)?;
    Ok(Moved {
        sent: window.wrapping_add(more),
        sending,
        diverted,
        diverting,
    })
}

/// A round on a new set.
fn round(rt: &impl Clock, alloc: Global, set: &Verified) -> Result<Moved, Stopped> {
    match FullSet::open(alloc, set) {
        Ok(mut full) => measure(rt, &mut full),
        Err(stopped) => Err(why_stopped(stopped)),
    }
}

/// Nanoseconds for each of this many.
fn share(time: Duration, count: u64) -> u64 {
    u64::try_from(time.as_nanos()).unwrap_or(u64::MAX) / count.max(1)
}

/// Writes the time for one message of 1,024, and for the diversion of all messages of a link.
fn write_times(
    rt: &impl Clock,
    alloc: Global,
    text: &mut String,
    set: &Verified,
    rounds: u32,
) -> Result<(), Stopped> {
    for _ in 0..rounds {
        let Moved {
            sent: _,
            sending,
            diverted: _,
            diverting,
        } = round(rt, alloc, set)?;
        let one = share(sending, 1_024);
        let all = share(diverting, 1_000);
        writeln!(text, "send_ns {one}\ndivert_us {all}")?;
    }
    Ok(())
}

/// Makes the rounds, and writes the results.
pub fn write_sets(
    rt: &impl Clock,
    alloc: Global,
    text: &mut String,
    asked: Option<u32>,
) -> Result<(), Stopped> {
    let set = standard_set(alloc)?;
    match asked {
        Some(rounds) => write_times(rt, alloc, text, &set, rounds),
        None => {
            let Moved { sent, diverted, .. } = round(rt, alloc, &set)?;
            writeln!(text, "sent {sent}\ndiverted {diverted}")?;
            Ok(())
        }
    }
}
