//! The rounds of a line.

use crate::calls::Stopped;
use crate::rounds::clock::{now, rate_of, since};
use crate::rounds::draws::{Draws, Kind, units};
use crate::rounds::line::{Way, octets_of, receive, send};
use crate::rounds::store::{rate_of_retrieval, rate_of_store};
use std::alloc::{AllocError, Global};
use std::rt::Clock;
use su_octets::Unit;

/// The number of times that a round goes through its fill-in units.
const FISU_TIMES: u32 = 25;

/// A kind of units: the prefix of its figures' names, how often its line goes, and whether rates are asked for.
#[derive(Clone, Copy)]
struct Measure {
    name: &'static str,
    count: u32,
    is_rated: bool,
}

/// Sends the units this many times.
fn send_times(units: &[Unit], line: &mut Vec<u8>, count: u32) -> Result<(), AllocError> {
    for _ in 0..count {
        send(units, line)?;
    }
    Ok(())
}

/// Receives the line this many times, and returns the number of units.
fn receive_times(alloc: Global, way: Way, line: &[u8], count: u32) -> Result<u64, AllocError> {
    let mut received = 0;
    for _ in 0..count {
        received = receive(alloc, way, line)?;
    }
    Ok(received)
}

/// Octets per second of units put on the line.
fn out(rt: &impl Clock, units: &[Unit], line: &mut Vec<u8>, count: u32) -> Result<u64, Stopped> {
    let start = now(rt)?;
    send_times(units, line, count)?;
    Ok(rate_of(octets_of(units), count, since(rt, start)?))
}

/// The number of units of the line, read in one way this many times, and octets per second.
pub fn into(
    rt: &impl Clock,
    alloc: Global,
    way: Way,
    line: &[u8],
    count: u32,
) -> Result<(u64, u64), Stopped> {
    let start = now(rt)?;
    let received = receive_times(alloc, way, line, count)?;
    Ok((received, rate_of(line.len(), count, since(rt, start)?)))
}

/// Writes a figure, if it is asked for.
fn write_rate(
    text: &mut String,
    measure: Measure,
    what: &str,
    rate: u64,
) -> Result<(), AllocError> {
    if !measure.is_rated {
        return Ok(());
    }
    let name = measure.name;
    writeln!(text, "{name}{what} {rate}")
}

/// Reads the line in pieces, and writes the results of that and of its sending.
fn write_pieces(
    rt: &impl Clock,
    alloc: Global,
    text: &mut String,
    measure: Measure,
    line: &[u8],
    out: u64,
) -> Result<(), Stopped> {
    let name = measure.name;
    let (received, rate) = into(rt, alloc, Way::Pieces, line, measure.count)?;
    writeln!(text, "{name}units {received}")?;
    write_rate(text, measure, "out", out)?;
    write_rate(text, measure, "in", rate)?;
    Ok(())
}

/// Reads the line octet by octet in both ways, and writes the results.
fn write_octets(
    rt: &impl Clock,
    alloc: Global,
    text: &mut String,
    measure: Measure,
    line: &[u8],
) -> Result<(), Stopped> {
    let name = measure.name;
    let (until, rate_until) = into(rt, alloc, Way::Until, line, measure.count)?;
    let (each, rate_each) = into(rt, alloc, Way::Each, line, measure.count)?;
    writeln!(text, "{name}octets {until} {each}")?;
    write_rate(text, measure, "until", rate_until)?;
    write_rate(text, measure, "each", rate_each)?;
    Ok(())
}

/// Sends and receives the units as often as asked, and writes the results: the units that came back, and octets per
/// second if rounds are asked for.
fn write_measure(
    rt: &impl Clock,
    alloc: Global,
    text: &mut String,
    measure: Measure,
    units: &[Unit],
) -> Result<(), Stopped> {
    let mut line = Vec::with_capacity(alloc, 700_000)?;
    let out = out(rt, units, &mut line, measure.count)?;
    write_pieces(rt, alloc, text, measure, line.as_slice(), out)?;
    write_octets(rt, alloc, text, measure, line.as_slice())
}

/// Writes the rates of a store with messages, if rounds are asked for.
fn write_store(
    rt: &impl Clock,
    alloc: Global,
    text: &mut String,
    asked: Option<u32>,
    messages: &[Unit],
) -> Result<(), Stopped> {
    let Some(rounds) = asked else {
        return Ok(());
    };
    let stored = rate_of_store(rt, alloc, messages, rounds)?;
    let handed = rate_of_retrieval(rt, alloc, messages, rounds)?;
    writeln!(text, "store {stored}\nretrieve {handed}")?;
    Ok(())
}

/// The measurement of a kind of units, for the rounds that are asked for.
fn measure_of(name: &'static str, asked: Option<u32>, times: u32) -> Measure {
    Measure {
        name,
        count: asked.unwrap_or(1).saturating_mul(times),
        is_rated: asked.is_some(),
    }
}

/// Makes the rounds, and writes the results.
pub fn write_line(
    rt: &impl Clock,
    alloc: Global,
    text: &mut String,
    asked: Option<u32>,
) -> Result<(), Stopped> {
    let mut draws = Draws::new();
    let messages = units(alloc, Kind::Messages, &mut draws)?;
    let fill_ins = units(alloc, Kind::FillIns, &mut draws)?;
    let first = measure_of("", asked, 1);
    let second = measure_of("fisu_", asked, FISU_TIMES);
    write_measure(rt, alloc, text, first, messages.as_slice())?;
    write_measure(rt, alloc, text, second, fill_ins.as_slice())?;
    write_store(rt, alloc, text, asked, messages.as_slice())
}
