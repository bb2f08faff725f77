//! The rounds of a wheel: ticks that pass one by one, while timers are set that aren't due yet.

use crate::calls::Stopped;
use crate::rounds::clock::{now, rate, since};
use crate::wheels::table::Table;
use std::alloc::{AllocError, Global};
use std::rt::Clock;
use tick_wheel::{Timer, Wheel};

/// The numbers of timers that are set.
const COUNTS: [u16; 3] = [8, 64, 1024];

/// The number of ticks in a round.
const TICKS: u32 = 10_000;

/// A deadline that no round reaches. The timers have consecutive deadlines, so all slots have equally many.
const FAR: u64 = 1 << 40;

/// Sets this many timers.
fn fill(wheel: &mut Wheel, table: &mut Table, count: u16) {
    for place in 0..count {
        let timer = Timer::new((place / 8 % 128) as u8, (place % 8) as u8);
        let deadline = FAR.saturating_add(u64::from(place));
        if wheel.clock() < deadline {
            wheel.set(timer, deadline);
        }
        table.put(timer, Some(deadline));
    }
}

/// Lets ticks pass in a wheel.
fn turn(wheel: &mut Wheel, ticks: u32) {
    for _ in 0..ticks {
        let _due = wheel.advance(1);
    }
}

/// Lets ticks pass in a table.
fn walk(table: &mut Table, ticks: u32) -> Result<(), AllocError> {
    for _ in 0..ticks {
        table.walk(1)?;
    }
    Ok(())
}

/// Writes the number of timers looked at in a round with this many set, and ticks per second if rounds are given.
fn write_count(
    rt: &impl Clock,
    alloc: Global,
    text: &mut String,
    count: u16,
    rounds: Option<u32>,
) -> Result<(), Stopped> {
    let mut wheel = Wheel::new(alloc)?;
    let mut table = Table::new(alloc)?;
    fill(&mut wheel, &mut table, count);
    let ticks = TICKS.saturating_mul(rounds.unwrap_or(1));
    let start = now(rt)?;
    turn(&mut wheel, ticks);
    let turned = rate(u64::from(ticks), since(rt, start)?);
    let start = now(rt)?;
    walk(&mut table, ticks)?;
    let walked = rate(u64::from(ticks), since(rt, start)?);
    if rounds.is_none() {
        writeln!(text, "{count} set: {} looked at", wheel.looked())?;
    } else {
        writeln!(text, "wheel{count} {turned}")?;
        writeln!(text, "table{count} {walked}")?;
    }
    Ok(())
}

/// Writes the rounds of a wheel.
pub fn write_wheels(
    rt: &impl Clock,
    alloc: Global,
    text: &mut String,
    rounds: Option<u32>,
) -> Result<(), Stopped> {
    for count in COUNTS {
        write_count(rt, alloc, text, count, rounds)?;
    }
    Ok(())
}
