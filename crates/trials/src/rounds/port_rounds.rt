//! The rounds of a port of 64 signals: an item is taken after saved ones, and put after all others again.

use crate::calls::Stopped;
use crate::plain_port::PlainPort;
use crate::rounds::clock::{now, rate, since};
use arrayvec::ArrayVec;
use input_port::{Arrival, Item, Port, Saved};
use std::alloc::{AllocError, Global};
use std::rt::Clock;
use turn_code::{Address, Party, SignalNumber, Value};

/// The capacity of the port, and the number of its signals.
const CAPACITY: usize = 64;

/// The numbers of saved items before the one that is taken.
const PLACES: [usize; 3] = [0, 32, 63];

/// The number of items taken in a round.
const TURNS: u32 = 10_000;

/// The signal that is saved.
const KEPT: u8 = 0;

/// The signal that isn't saved.
const TAKEN: u8 = 1;

/// A signal from the environment.
fn arrival_of(signal: u8) -> Arrival {
    let mut parameters = ArrayVec::new();
    parameters.push(Value::Int(7));
    let sender = Address {
        party: Party::Environment,
        instance: None,
    };
    Arrival {
        signal: SignalNumber(signal),
        parameters,
        sender,
    }
}

/// Fills both so that this many saved items come first.
fn fill(port: &mut Port, plain: &mut PlainPort, saved: usize) -> Result<(), AllocError> {
    for place in 0..CAPACITY {
        let signal = if place < saved { KEPT } else { TAKEN };
        let _full = port.put(arrival_of(signal)).is_err();
        let _as_full = plain.put(arrival_of(signal))?.is_err();
    }
    Ok(())
}

/// Takes items from a port and puts them back, and counts those for which there was room.
fn turn(port: &mut Port, saved: &Saved, turns: u32) -> u32 {
    let mut put = 0u32;
    for _ in 0..turns {
        if let Some(Item::Signal(arrival)) = port.take(saved) {
            put = put.saturating_add(u32::from(port.put(arrival).is_ok()));
        }
    }
    put
}

/// Takes items from a plain port and puts them back, and counts those for which there was room.
fn turn_plain(plain: &mut PlainPort, saved: &Saved, turns: u32) -> Result<u32, AllocError> {
    let mut put = 0u32;
    for _ in 0..turns {
        if let Some(Item::Signal(arrival)) = plain.take(saved) {
            put = put.saturating_add(u32::from(plain.put(arrival)?.is_ok()));
        }
    }
    Ok(put)
}

/// Writes the number of items taken in a round after this many saved ones, and their rate if rounds are given.
fn write_place(
    rt: &impl Clock,
    alloc: Global,
    text: &mut String,
    place: usize,
    rounds: Option<u32>,
) -> Result<(), Stopped> {
    let mut saved = Saved::nothing();
    saved.add_signal(SignalNumber(KEPT));
    let mut port = Port::new(alloc, CAPACITY)?;
    let mut plain = PlainPort::new(alloc, CAPACITY);
    fill(&mut port, &mut plain, place)?;
    let turns = TURNS.saturating_mul(rounds.unwrap_or(1));
    let start = now(rt)?;
    let taken = turn(&mut port, &saved, turns);
    let ring = rate(u64::from(taken), since(rt, start)?);
    let start = now(rt)?;
    let as_taken = turn_plain(&mut plain, &saved, turns)?;
    let vector = rate(u64::from(as_taken), since(rt, start)?);
    if rounds.is_none() {
        writeln!(
            text,
            "after {place}: {taken} taken, {as_taken} from a plain one"
        )?;
    } else {
        writeln!(text, "port{place} {ring}")?;
        writeln!(text, "plain{place} {vector}")?;
    }
    Ok(())
}

/// Writes the rounds of a port.
pub fn write_ports(
    rt: &impl Clock,
    alloc: Global,
    text: &mut String,
    rounds: Option<u32>,
) -> Result<(), Stopped> {
    for place in PLACES {
        write_place(rt, alloc, text, place, rounds)?;
    }
    Ok(())
}
