//! Runs of two sets with link management.

use crate::calls::Stopped;
use crate::messages::Way;
use crate::opening::open_set;
use crate::tended_channel::Channel;
use crate::tended_end::TendedEnd;
use crate::tended_pair::{Faults, Parts, Tie, make_tended_rounds};
use crate::tended_run::{TendedRun, tended_run_of};
use line_tending::{Ends, LinkLine, TendedSet};
use std::alloc::Global;
use std::collections::VecDeque;
use turn_check::Verified;

/// The points at the two ends.
const NEAR: u16 = 1;

const FAR: u16 = 16_383;

/// The octets sent first on lines that deliver as many octets as were sent.
const AHEAD: [u8; 8] = [0xFF; 8];

fn wires(alloc: Global, links: usize) -> Result<Vec<LinkLine>, Stopped> {
    let mut wires = Vec::new(alloc);
    for _link in 0..links {
        if wires.push(LinkLine::new()).is_err() {
            return Err(Stopped::NoMemory);
        }
    }
    Ok(wires)
}

/// An end with a new set of a run.
fn open_end(alloc: Global, set: &Verified, run: TendedRun, way: Way) -> Result<TendedEnd, Stopped> {
    let wires = wires(alloc, run.links)?;
    let group = open_set(alloc, set, run.mode, run.links, way)?;
    let ends = Ends {
        own: way.from,
        peer: way.to,
        network: 2,
    };
    let tender = TendedSet::new(alloc, ends, run.tests, group);
    Ok(TendedEnd::new(tender, wires, way, run.loud))
}

fn channel(alloc: Global, clocked: bool) -> Result<Channel, Stopped> {
    let mut channel = Channel::new(VecDeque::new(alloc), clocked);
    channel.put(&AHEAD)?;
    Ok(channel)
}

fn ties(alloc: Global, run: TendedRun) -> Result<Vec<Tie>, Stopped> {
    let mut ties = Vec::new(alloc);
    for _link in 0..run.links {
        let tie = Tie {
            over: channel(alloc, run.clocked)?,
            back: channel(alloc, run.clocked)?,
            until: 0,
            cut_at: 0,
            cut_for: 0,
        };
        if ties.push(tie).is_err() {
            return Err(Stopped::NoMemory);
        }
    }
    Ok(ties)
}

/// How many messages were never received.
fn missing(from: &TendedEnd, to: &TendedEnd) -> u64 {
    let came = to
        .counts
        .came
        .saturating_sub(to.counts.twice.wrapping_add(to.counts.altered));
    u64::from(from.counts.sent.saturating_sub(came))
}

/// The verdict on one way.
fn verdict(from: &TendedEnd, to: &TendedEnd) -> &'static str {
    if to.counts.wrong() > 0 {
        "WRONG: some came twice or out of order"
    } else if missing(from, to) > from.unsure {
        "WRONG: more are missing than are unsure"
    } else {
        "each once or unsure, in order"
    }
}

/// The verdict on an end after the run.
fn end_verdict(end: &TendedEnd) -> &'static str {
    if end.is_whole() { "whole" } else { "STUCK" }
}

/// Writes how many messages were sent one way.
fn write_sums(text: &mut String, from: &TendedEnd, to: &TendedEnd) -> Result<(), Stopped> {
    let sent = from.counts.sent;
    let came = to.counts.came;
    let twice = to.counts.twice;
    let late = to.counts.late;
    let altered = to.counts.altered;
    let missing = missing(from, to);
    let unsure = from.unsure;
    let refused = from.refused;
    let changeovers = from.changeovers;
    let restarts = from.restarts;
    let silences = from.silences;
    writeln!(
        text,
        "    sent {sent} came {came} twice {twice} out of order {late} altered {altered} missing {missing} unsure {unsure} refused {refused} changeovers {changeovers} restarts {restarts} silences {silences}"
    )?;
    Ok(())
}

/// Writes the messages of one way, and the state of the end that sent them.
fn write_way(
    text: &mut String,
    way: &str,
    run: TendedRun,
    from: &TendedEnd,
    to: &TendedEnd,
) -> Result<(), Stopped> {
    let verdict = verdict(from, to);
    let end = end_verdict(from);
    writeln!(text, "  {way}: {verdict}; {end}")?;
    if run.sums {
        write_sums(text, from, to)?;
    }
    Ok(())
}

/// Writes the faults of the lines.
fn write_faults(text: &mut String, faults: Faults) -> Result<(), Stopped> {
    let Faults {
        cuts,
        one_way,
        noises,
        stalls,
        totals,
        staggered,
        orders,
    } = faults;
    writeln!(
        text,
        "    cuts {cuts} one way {one_way} noises {noises} stalls {stalls} all {totals} staggered {staggered} orders {orders}"
    )?;
    Ok(())
}

/// Writes the result of a run.
fn write_run(
    text: &mut String,
    line: &str,
    run: TendedRun,
    faults: Faults,
    near: &TendedEnd,
    far: &TendedEnd,
) -> Result<(), Stopped> {
    writeln!(text, "{line}")?;
    if run.sums {
        write_faults(text, faults)?;
    }
    write_way(text, "near to far", run, near, far)?;
    write_way(text, "far to near", run, far, near)
}

fn run_both(
    alloc: Global,
    text: &mut String,
    line: &str,
    run: TendedRun,
    near: &mut TendedEnd,
    far: &mut TendedEnd,
) -> Result<(), Stopped> {
    let mut ties = ties(alloc, run)?;
    let mut parts = Parts {
        came: Vec::new(alloc),
        out: Vec::new(alloc),
    };
    let faults = make_tended_rounds(text, near, far, ties.as_mut_slice(), &mut parts, run)?;
    write_run(text, line, run, faults, near, far)
}

fn run_with(
    alloc: Global,
    text: &mut String,
    set: &Verified,
    line: &str,
    run: TendedRun,
    near: &mut TendedEnd,
) -> Result<(), Stopped> {
    let way = Way {
        from: FAR,
        to: NEAR,
    };
    let mut far = open_end(alloc, set, run, way)?;
    run_both(alloc, text, line, run, near, &mut far)
}

/// Makes the run of a line.
fn run_line(alloc: Global, text: &mut String, set: &Verified, line: &str) -> Result<(), Stopped> {
    let Some(run) = tended_run_of(line) else {
        return Err(Stopped::BadLine);
    };
    let way = Way {
        from: NEAR,
        to: FAR,
    };
    let mut near = open_end(alloc, set, run, way)?;
    run_with(alloc, text, set, line, run, &mut near)
}

/// Makes the run of each line: `basic` or `cyclic`, the number of links, the seed, the seconds with faults, the mean
/// milliseconds between two (0 for none), messages a second for each end; then any of `fifo`, `untested`, `orders`,
/// `staggered`, `q703`, `sums`, `loud`. Writes whether all but unsure messages arrived once, in order, and both ends
/// are whole 40 seconds later.
///
/// # Errors
///
/// If memory runs out, a line isn't a run, or a terminal isn't made over the set or refuses a tick.
pub fn run_tended(
    alloc: Global,
    text: &mut String,
    set: &Verified,
    runs: &str,
) -> Result<(), Stopped> {
    for line in runs.lines() {
        run_line(alloc, text, set, line)?;
    }
    Ok(())
}
