//! Messages in a store.
ghost use Rattle.std.specs.Prelude.{◌≡◌};

use crate::calls::Stopped;
use crate::rounds::clock::{now, rate, since};
use arrayvec::ArrayVec;
use resend_store::{MAX_WAITING, Mode, Msu, Sender};
use std::alloc::{AllocError, Global};
use std::collections::VecDeque;
use std::rt::Clock;
use std::time::Duration;
use su_octets::Unit;

/// A copy of the octets.
fn copied(sif: &ArrayVec<u8, 272>) -> ArrayVec<u8, 272>
    ensures { result.items ≡ sif.now.items }
{
    let mut copy = ArrayVec::new();
    copy.try_extend_from_slice(sif.as_slice()).unwrap();
    copy
}

/// Puts a message into a store, if it is one.
fn put(sender: &mut Sender, unit: &Unit) -> bool {
    if let Unit::Msu(_, sio, sif) = unit {
        if sif.len() >= 2 {
            let _ = sender.put(Msu {
                sio: *sio,
                sif: copied(sif),
            });
            return true;
        }
    }
    false
}

/// Sends the next message and acknowledges it. Returns whether one was sent.
fn send(sender: &mut Sender) -> bool {
    let going = sender.next_unit();
    let is_message = going.msu.is_some();
    if going.fsn >= 128 {
        return false;
    }
    let _ = sender.on_back(going.fsn, going.fib);
    is_message
}

/// Puts each message into a store, sends it and acknowledges it. Returns the number sent.
fn store(alloc: Global, units: &[Unit]) -> Result<u64, AllocError> {
    let mut sender = Sender::new(alloc, Mode::Basic)?;
    let mut sent = 0u64;
    for unit in units {
        if put(&mut sender, unit) && send(&mut sender) {
            sent = sent.saturating_add(1);
        }
    }
    Ok(sent)
}

/// Puts messages into a store.
fn fill(sender: &mut Sender, units: &[Unit]) {
    for unit in units {
        let _put = put(sender, unit);
    }
}

/// The messages that a store hands out.
fn empty(sender: &mut Sender) -> Result<VecDeque<Msu>, AllocError> {
    match sender.retrieve(None) {
        Ok(messages) => Ok(messages),
        Err(_) => Err(AllocError),
    }
}

/// Empties a store, and returns the number of messages and the time.
fn empty_timed(rt: &impl Clock, sender: &mut Sender) -> Result<(u64, Duration), Stopped> {
    let start = now(rt)?;
    let messages = empty(sender)?;
    let time = since(rt, start)?;
    Ok((messages.len() as u64, time))
}

/// Fills and empties a store again and again. Returns the number of messages retrieved, and the time.
fn hand_out(rt: &impl Clock, alloc: Global, units: &[Unit]) -> Result<(u64, Duration), Stopped> {
    let mut sender = Sender::new(alloc, Mode::Basic)?;
    let mut count = 0u64;
    let mut time = Duration::from_micros(0);
    for group in units.chunks(MAX_WAITING) {
        fill(&mut sender, group);
        let (more, taken) = empty_timed(rt, &mut sender)?;
        count = count.saturating_add(more);
        time = time.saturating_add(taken);
    }
    Ok((count, time))
}

/// Uses this many stores one after another, and returns the number of messages sent.
fn store_times(alloc: Global, units: &[Unit], rounds: u32) -> Result<u64, AllocError> {
    let mut sent = 0u64;
    for _ in 0..rounds {
        sent = sent.saturating_add(store(alloc, units)?);
    }
    Ok(sent)
}

/// Messages per second that were put, sent and acknowledged.
pub fn rate_of_store(
    rt: &impl Clock,
    alloc: Global,
    units: &[Unit],
    rounds: u32,
) -> Result<u64, Stopped> {
    let start = now(rt)?;
    let sent = store_times(alloc, units, rounds)?;
    Ok(rate(sent, since(rt, start)?))
}

/// Messages per second that were retrieved from a full store.
pub fn rate_of_retrieval(
    rt: &impl Clock,
    alloc: Global,
    units: &[Unit],
    rounds: u32,
) -> Result<u64, Stopped> {
    let mut handed = 0u64;
    let mut time = Duration::from_micros(0);
    for _ in 0..rounds {
        let (count, more) = hand_out(rt, alloc, units)?;
        handed = handed.saturating_add(count);
        time = time.saturating_add(more);
    }
    Ok(rate(handed, time))
}
