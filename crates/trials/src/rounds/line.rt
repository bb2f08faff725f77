//! Units on a line and off it.

use arrayvec::ArrayVec;
use bit_line::{Deframer, LineEvent, Stuffer};
use std::alloc::{AllocError, Global};
use su_octets::Unit;

/// Puts the units on a new line.
pub fn send(units: &[Unit], line: &mut Vec<u8>) -> Result<(), AllocError> {
    line.clear();
    let mut stuffer = Stuffer::new();
    let mut octets = ArrayVec::new();
    for unit in units {
        if unit.whole() {
            stuffer.put_to(unit, &mut octets);
            line.extend_from_slice(octets.as_slice())?;
        }
    }
    let (bits, _) = stuffer.rest();
    line.push(bits)?;
    Ok(())
}

/// Reads a piece of the line, and counts its units.
fn units_in(alloc: Global, deframer: &mut Deframer, piece: &[u8]) -> Result<u64, AllocError> {
    match deframer.feed(alloc, piece) {
        Ok(events) => Ok(units_of(events.as_slice())),
        Err(_) => Err(AllocError),
    }
}

/// Reads the line, and counts its units.
fn receive_all(alloc: Global, line: &[u8]) -> Result<u64, AllocError> {
    let mut deframer = Deframer::new();
    let mut units = 0u64;
    for piece in line.chunks(1024) {
        units = units.saturating_add(units_in(alloc, &mut deframer, piece)?);
    }
    Ok(units)
}

/// The number of units among the events.
fn units_of(events: &[LineEvent]) -> u64 {
    let mut units = 0u64;
    for event in events {
        if let LineEvent::Unit(_) = event {
            units = units.saturating_add(1);
        }
    }
    units
}

/// Reads the line up to the first event each time, and counts its units.
fn receive_until(line: &[u8]) -> u64 {
    let mut deframer = Deframer::new();
    let mut units = 0u64;
    let mut rest = line;
    for _ in 0..line.len() {
        if rest.is_empty() {
            break;
        }
        let (taken, events) = deframer.feed_until(rest);
        units = units.saturating_add(units_of(events.as_slice()));
        rest = &rest[taken..];
    }
    units
}

/// Reads the line octet by octet, and counts its units.
fn receive_each(line: &[u8]) -> u64 {
    let mut deframer = Deframer::new();
    let mut units = 0u64;
    for octet in line {
        let events = deframer.feed_byte(*octet);
        units = units.saturating_add(units_of(events.as_slice()));
    }
    units
}

/// The number of octets of the units between the flags.
pub fn octets_of(units: &[Unit]) -> usize {
    let mut octets = 0usize;
    for unit in units {
        octets = octets.saturating_add(unit.body_len().saturating_add(5));
    }
    octets
}

/// How a line is read: in pieces, up to the first event each time, or octet by octet.
#[derive(Clone, Copy)]
pub enum Way {
    Pieces,
    Until,
    Each,
}

/// Reads the line, and counts its units.
pub fn receive(alloc: Global, way: Way, line: &[u8]) -> Result<u64, AllocError> {
    match way {
        Way::Pieces => receive_all(alloc, line),
        Way::Until => Ok(receive_until(line)),
        Way::Each => Ok(receive_each(line)),
    }
}
