//! Times and rates.

use crate::calls::Stopped;
use std::rt::Clock;
use std::time::{Duration, Instant};

/// The present time.
pub fn now(rt: &impl Clock) -> Result<Instant, Stopped> {
    match Instant::now(rt) {
        Ok(instant) => Ok(instant),
        Err(_) => Err(Stopped::NoClock),
    }
}

/// The time that has passed since `start`.
pub fn since(rt: &impl Clock, start: Instant) -> Result<Duration, Stopped> {
    match start.elapsed(rt) {
        Ok(time) => Ok(time),
        Err(_) => Err(Stopped::NoClock),
    }
}

/// The number of things per second.
pub fn rate(things: u64, time: Duration) -> u64 {
    let micros = u64::try_from(time.as_micros()).unwrap_or(u64::MAX).max(1);
    things.saturating_mul(1_000_000) / micros
}

/// Octets per second, for this many octets in each of some rounds.
pub fn rate_of(octets: usize, rounds: u32, time: Duration) -> u64 {
    rate((octets as u64).saturating_mul(u64::from(rounds)), time)
}
