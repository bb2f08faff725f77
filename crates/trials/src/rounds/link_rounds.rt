//! The rounds of a terminal.

use crate::calls::Stopped;
use crate::rounds::clock::{now, rate, rate_of, since};
use crate::rounds::line::Way;
use crate::rounds::line_rounds::into;
use crate::rounds::service::Service;
use crate::rounds::traffic::{TIMES, TRAFFIC, Traffic, WINDOW, line_of, put_all, units_of};
use bit_line::Stuffer;
use std::alloc::{AllocError, Global};
use std::rt::Clock;
use std::time::Duration;
use su_octets::Unit;

/// The number of ticks in a round.
const TICKS: u32 = 10_000;

/// The traffic of a line, its units, and a line that has them several times.
#[derive(Clone, Copy)]
struct Load<'a> {
    traffic: Traffic,
    units: &'a [Unit],
    line: &'a [u8],
}

/// A question for a terminal in service.
#[derive(Clone, Copy)]
enum Question<'a> {
    /// The contents of a round.
    Shown(Load<'a>),
    /// Octets per second over this many rounds.
    Rates(Load<'a>, u32),
    /// Ticks per second over this many rounds.
    Ticks(u32),
}

/// Writes the counts of the incoming direction.
fn show_in(text: &mut String, service: &mut Service, load: Load<'_>) -> Result<(), AllocError> {
    let before = service.turns();
    let messages = service.take(load.line);
    let turns = service.turns().saturating_sub(before);
    let name = load.traffic.name;
    let units = (load.units.len() as u64).saturating_mul(u64::from(TIMES));
    let octets = load.line.len();
    writeln!(
        text,
        "{name} in: {units} units, {octets} octets, {messages} messages, {turns} turns"
    )
}

/// Writes the counts of the outgoing direction.
fn show_out(text: &mut String, service: &mut Service, traffic: Traffic) -> Result<(), Stopped> {
    service.give(traffic);
    let before = service.turns();
    let octets = service.send()?.len();
    let turns = service.turns().saturating_sub(before);
    let name = traffic.name;
    writeln!(
        text,
        "{name} out: {WINDOW} units, {octets} octets, {turns} turns"
    )?;
    Ok(())
}

/// Writes the contents of a round.
fn show(text: &mut String, service: &mut Service, load: Load<'_>) -> Result<(), Stopped> {
    show_in(text, service, load)?;
    show_out(text, service, load.traffic)
}

/// Takes the line through the terminal this many times.
fn take_times(service: &mut Service, line: &[u8], rounds: u32) {
    for _ in 0..rounds {
        let _messages = service.take(line);
    }
}

/// Octets per second of the line into the terminal.
fn read(rt: &impl Clock, service: &mut Service, line: &[u8], rounds: u32) -> Result<u64, Stopped> {
    let start = now(rt)?;
    take_times(service, line, rounds);
    Ok(rate_of(line.len(), rounds, since(rt, start)?))
}

/// Sends one group of units from the terminal. Returns the number of octets, and the time.
fn send(
    rt: &impl Clock,
    service: &mut Service,
    traffic: Traffic,
) -> Result<(u64, Duration), Stopped> {
    service.give(traffic);
    let start = now(rt)?;
    let octets = service.send()?.len();
    let time = since(rt, start)?;
    service.acknowledge();
    Ok((octets as u64, time))
}

/// Octets per second of the line out of the terminal.
fn write(
    rt: &impl Clock,
    service: &mut Service,
    traffic: Traffic,
    rounds: u32,
) -> Result<u64, Stopped> {
    let mut octets = 0u64;
    let mut time = Duration::from_micros(0);
    for _ in 0..rounds.saturating_mul(8) {
        let (more, taken) = send(rt, service, traffic)?;
        octets = octets.saturating_add(more);
        time = time.saturating_add(taken);
    }
    Ok(rate(octets, time))
}

/// Writes octets per second into a terminal and out of it.
fn write_rates(
    rt: &impl Clock,
    text: &mut String,
    service: &mut Service,
    load: Load<'_>,
    rounds: u32,
) -> Result<(), Stopped> {
    let name = load.traffic.name;
    let into = read(rt, service, load.line, rounds)?;
    let out = write(rt, service, load.traffic, rounds)?;
    writeln!(text, "{name}_in {into}\n{name}_out {out}")?;
    Ok(())
}

/// Lets ticks pass one by one, and returns their number.
fn tick_times(service: &mut Service, times: u32) -> u64 {
    let mut ticks = 0u64;
    for _ in 0..times {
        ticks = ticks.saturating_add(u64::from(service.tick()));
    }
    ticks
}

/// Writes ticks per second, one by one.
fn write_ticks(
    rt: &impl Clock,
    text: &mut String,
    service: &mut Service,
    rounds: u32,
) -> Result<(), Stopped> {
    let start = now(rt)?;
    let ticks = tick_times(service, rounds.saturating_mul(TICKS));
    let rate = rate(ticks, since(rt, start)?);
    writeln!(text, "ticks {rate}")?;
    Ok(())
}

/// Brings a terminal into service, and writes the answer to a question.
fn answer(
    rt: &impl Clock,
    text: &mut String,
    service: &mut Service,
    question: Question<'_>,
) -> Result<(), Stopped> {
    service.align()?;
    match question {
        Question::Shown(load) => show(text, service, load),
        Question::Rates(load, rounds) => write_rates(rt, text, service, load, rounds),
        Question::Ticks(rounds) => write_ticks(rt, text, service, rounds),
    }
}

/// Asks a new terminal, and writes the answer. Only this function owns one, and it does no more, since each place that
/// may drop it is expensive to prove.
fn ask(
    rt: &impl Clock,
    alloc: Global,
    text: &mut String,
    question: Question<'_>,
) -> Result<(), Stopped> {
    let mut service = Service::new(alloc)?;
    answer(rt, text, &mut service, question)
}

/// Puts the units on a line this many times, and returns the number of octets.
fn put_times(units: &[Unit], line: &mut Vec<u8>, times: u32) -> Result<u64, AllocError> {
    let mut stuffer = Stuffer::new();
    let mut octets = 0u64;
    for _ in 0..times {
        line.clear();
        put_all(&mut stuffer, units, line)?;
        octets = octets.saturating_add(line.len() as u64);
    }
    Ok(octets)
}

/// Octets per second of the line from a stuffer.
fn stuff(rt: &impl Clock, alloc: Global, units: &[Unit], rounds: u32) -> Result<u64, Stopped> {
    let mut line = Vec::with_capacity(alloc, 50_000)?;
    let start = now(rt)?;
    let octets = put_times(units, &mut line, rounds.saturating_mul(8))?;
    Ok(rate(octets, since(rt, start)?))
}

/// Writes octets per second into a deframer and out of a stuffer.
fn write_bare_rates(
    rt: &impl Clock,
    alloc: Global,
    text: &mut String,
    load: Load<'_>,
    rounds: u32,
) -> Result<(), Stopped> {
    let name = load.traffic.name;
    let (units, into) = into(rt, alloc, Way::Until, load.line, rounds)?;
    let out = stuff(rt, alloc, load.units, rounds)?;
    writeln!(
        text,
        "{name}_deframer {into} of {units}\n{name}_stuffer {out}"
    )?;
    Ok(())
}

/// Writes the contents of a round of a load, or its rates if rounds are asked for.
fn write_load(
    rt: &impl Clock,
    alloc: Global,
    text: &mut String,
    load: Load<'_>,
    asked: Option<u32>,
) -> Result<(), Stopped> {
    match asked {
        None => ask(rt, alloc, text, Question::Shown(load)),
        Some(rounds) => {
            ask(rt, alloc, text, Question::Rates(load, rounds))?;
            write_bare_rates(rt, alloc, text, load, rounds)
        }
    }
}

/// Writes the results for one kind of traffic.
fn write_traffic(
    rt: &impl Clock,
    alloc: Global,
    text: &mut String,
    traffic: Traffic,
    asked: Option<u32>,
) -> Result<(), Stopped> {
    let units = units_of(alloc, traffic)?;
    let line = line_of(alloc, units.as_slice())?;
    let load = Load {
        traffic,
        units: units.as_slice(),
        line: line.as_slice(),
    };
    write_load(rt, alloc, text, load, asked)
}

/// Makes the rounds, and writes the results.
pub fn write_link(
    rt: &impl Clock,
    alloc: Global,
    text: &mut String,
    asked: Option<u32>,
) -> Result<(), Stopped> {
    for traffic in &TRAFFIC {
        write_traffic(rt, alloc, text, *traffic, asked)?;
    }
    match asked {
        None => Ok(()),
        Some(rounds) => ask(rt, alloc, text, Question::Ticks(rounds)),
    }
}
