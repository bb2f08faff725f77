//! Ports compared with plain ones, by a seeded generator. A line has a seed, the port's capacity and a number of calls.

use crate::calls::Stopped;
use crate::noise::Noise;
use crate::plain_port::{PlainPort, TIMERS};
use crate::run::number;
use arrayvec::ArrayVec;
use input_port::{Arrival, Item, Port, Saved};
use std::alloc::{AllocError, Global};
use turn_code::{Address, Party, ProcessNumber, SignalNumber, TimerNumber, Value};

/// The number of signals.
const SIGNALS: u64 = 4;

/// A port and a plain one, and the findings.
#[derive(Drop)]
struct Held {
    port: Port,
    plain: PlainPort,
    /// The number of times that there was no room for a signal.
    full: u32,
    /// The number of times that an item was taken after a saved one.
    behind: u32,
    /// The number of times that the two returned different results or had different items.
    differences: u32,
}

/// A number below a bound.
fn below(noise: &mut Noise, bound: u64) -> u8 {
    u8::try_from(noise.draw() % bound.max(1)).unwrap_or(0)
}

/// A timer.
fn timer_of(noise: &mut Noise) -> TimerNumber {
    TimerNumber(below(noise, u64::from(TIMERS)))
}

/// A signal with a number and a value.
fn arrival_of(signal: u8, value: u8) -> Arrival {
    let mut parameters = ArrayVec::new();
    parameters.push(Value::Int(i32::from(value)));
    let party = if value % 2 == 0 {
        Party::Environment
    } else {
        Party::Process(ProcessNumber(value))
    };
    let sender = Address {
        party,
        instance: None,
    };
    Arrival {
        signal: SignalNumber(signal),
        parameters,
        sender,
    }
}

/// The signals and timers that a state saves: each with even chances.
fn saved_of(noise: &mut Noise) -> Saved {
    let mut saved = Saved::nothing();
    for signal in 0..4u8 {
        if below(noise, 2) == 1 {
            saved.add_signal(SignalNumber(signal));
        }
    }
    for timer in 0..8u8 {
        if below(noise, 2) == 1 {
            saved.add_timer(TimerNumber(timer));
        }
    }
    saved
}

/// Whether they are equal items.
fn is_same(one: &Item, other: &Item) -> bool {
    match (one, other) {
        (Item::Signal(one), Item::Signal(other)) => {
            one.signal == other.signal
                && one.parameters.as_slice() == other.parameters.as_slice()
                && one.sender == other.sender
        }
        (Item::Timer(one), Item::Timer(other)) => one == other,
        _ => false,
    }
}

/// Whether both are none, or equal items.
fn are_same(one: Option<&Item>, other: Option<&Item>) -> bool {
    match (one, other) {
        (Some(one), Some(other)) => is_same(one, other),
        (None, None) => true,
        _ => false,
    }
}

/// Puts the signal of a timer into both ports, unless it is there. Returns whether both had one, or neither.
fn put_timer_in(
    port: &mut Port,
    plain: &mut PlainPort,
    timer: TimerNumber,
) -> Result<bool, AllocError> {
    if port.has_timer(timer) {
        return Ok(plain.has_timer(timer));
    }
    if plain.has_timer(timer) || timer.0 >= TIMERS {
        return Ok(false);
    }
    port.put_timer(timer);
    plain.put_timer(timer)?;
    Ok(true)
}

impl Held {
    fn new(alloc: Global, capacity: usize) -> Result<Held, AllocError> {
        let capacity = capacity.clamp(1, 64);
        Ok(Held {
            port: Port::new(alloc, capacity)?,
            plain: PlainPort::new(alloc, capacity),
            full: 0,
            behind: 0,
            differences: 0,
        })
    }

    /// Counts a difference, unless `same`.
    fn count(&mut self, same: bool) {
        if !same {
            self.differences = self.differences.saturating_add(1);
        }
    }

    /// Puts a signal.
    fn put(&mut self, signal: u8, value: u8) -> Result<(), AllocError> {
        let got = self.port.put(arrival_of(signal, value));
        let wanted = self.plain.put(arrival_of(signal, value))?;
        if wanted.is_err() {
            self.full = self.full.saturating_add(1);
        }
        self.count(got.is_err() == wanted.is_err());
        Ok(())
    }

    /// Puts the signal of a timer, unless it is there.
    fn put_timer(&mut self, timer: TimerNumber) -> Result<(), AllocError> {
        let same = put_timer_in(&mut self.port, &mut self.plain, timer)?;
        self.count(same);
        Ok(())
    }

    /// Whether both find equal items first.
    fn finds(&self, saved: &Saved) -> bool {
        are_same(self.port.first(saved), self.plain.first(saved))
    }

    /// Whether a saved item precedes the first that isn't.
    fn is_behind(&self, saved: &Saved) -> bool {
        self.plain.place_of_first(saved).unwrap_or(0) > 0
    }

    /// Finds and takes the first item that isn't saved.
    fn take(&mut self, saved: &Saved) {
        if self.is_behind(saved) {
            self.behind = self.behind.saturating_add(1);
        }
        let found = self.finds(saved);
        let got = self.port.take(saved);
        let wanted = self.plain.take(saved);
        self.count(found && are_same(got.as_ref(), wanted.as_ref()));
    }

    /// Drops the signal of a timer.
    fn drop_timer(&mut self, timer: TimerNumber) {
        self.port.drop_timer(timer);
        self.plain.drop_timer(timer);
    }

    /// Whether both have equal items.
    fn agrees(&self) -> bool {
        let items = self.plain.items();
        for (place, item) in items.iter().enumerate() {
            if !are_same(self.port.get(place), Some(item)) {
                return false;
            }
        }
        self.port.get(items.len()).is_none()
            && self.port.len() == items.len()
            && self.port.signals() == self.plain.signals()
    }

    /// Replaces both by copies, or empties both.
    fn begin_anew(&mut self, copies: bool) -> Result<(), AllocError> {
        if copies {
            self.port = self.port.copy()?;
        } else {
            self.port.clear();
            self.plain.clear();
        }
        Ok(())
    }

    /// Makes one call on both, which then must have equal items.
    fn call(&mut self, noise: &mut Noise) -> Result<(), AllocError> {
        match below(noise, 64) {
            0 => self.begin_anew(below(noise, 4) > 0)?,
            1..=28 => self.put(below(noise, SIGNALS), below(noise, 200))?,
            29..=38 => self.put_timer(timer_of(noise))?,
            39..=41 => self.drop_timer(timer_of(noise)),
            _ => self.take(&saved_of(noise)),
        }
        let same = self.agrees();
        self.count(same);
        Ok(())
    }
}

/// Makes the calls of one line, and writes the findings.
fn hold(alloc: Global, text: &mut String, line: &str) -> Result<(), Stopped> {
    let mut words = line.split_whitespace();
    let (Some(seed), Some(capacity), Some(calls)) = (
        number(&mut words),
        number(&mut words),
        number(&mut words),
    ) else {
        return Err(Stopped::BadLine);
    };
    let mut noise = Noise::new(u64::from(seed), 0);
    let mut held = Held::new(alloc, usize::try_from(capacity).unwrap_or(64))?;
    for _ in 0..calls {
        held.call(&mut noise)?;
    }
    let (full, behind, differences) = (held.full, held.behind, held.differences);
    writeln!(
        text,
        "port {capacity}: {calls} calls, {full} without room, {behind} after saved ones, differences {differences}"
    )?;
    Ok(())
}

/// Compares ports with plain ones, and writes the findings for each.
pub fn hold_ports(alloc: Global, text: &mut String, lines: &str) -> Result<(), Stopped> {
    for line in lines.lines() {
        hold(alloc, text, line)?;
    }
    Ok(())
}
