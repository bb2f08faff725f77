//! Timers as a table of deadlines that is searched in full; due timers are sorted.

use std::alloc::{AllocError, Global};
use tick_wheel::{AdvanceError, Due, FARTHEST, LAST_CLOCK, TIMERS, Timer};

/// A clock, and a deadline for each timer that is active.
#[derive(Debug, Drop)]
pub struct Table {
    clock: u64,
    deadlines: Vec<Option<u64>>,
    due: Vec<Due>,
    looked: u64,
}

/// The number of slots of a wheel.
const TURN: u64 = 256;

impl Table {
    pub fn new(alloc: Global) -> Result<Self, AllocError> {
        let deadlines = vec![in alloc; None; TIMERS]?;
        let due = Vec::new(alloc);
        Ok(Table {
            clock: 0,
            deadlines,
            due,
            looked: 0,
        })
    }

    pub fn clock(&self) -> u64 {
        self.clock
    }

    /// The timers that were due last, in order.
    pub fn due(&self) -> &[Due] {
        self.due.as_slice()
    }

    /// The number of timers that a wheel of 256 slots looks at.
    pub fn looked(&self) -> u64 {
        self.looked
    }

    pub fn deadline_of(&self, timer: Timer) -> Option<u64> {
        self.deadlines.get(place_of(timer)).copied().flatten()
    }

    /// Sets or removes the deadline of a timer.
    pub fn put(&mut self, timer: Timer, deadline: Option<u64>) {
        if let Some(place) = self.deadlines.get_mut(place_of(timer)) {
            *place = deadline;
        }
    }

    /// Lets ticks pass, and returns the number of due timers.
    pub fn advance(&mut self, ticks: u64) -> Result<Result<usize, AdvanceError>, AllocError> {
        if ticks > FARTHEST {
            return Ok(Err(AdvanceError::TooFar));
        }
        if self.clock.saturating_add(ticks) > LAST_CLOCK {
            return Ok(Err(AdvanceError::ClockFull));
        }
        let near = count_near(&self.deadlines, self.clock, ticks);
        self.looked = self.looked.saturating_add(near);
        self.walk(ticks)?;
        Ok(Ok(self.due.len()))
    }

    /// Lets any number of ticks pass, without counting.
    pub fn walk(&mut self, ticks: u64) -> Result<(), AllocError> {
        self.clock = self.clock.saturating_add(ticks);
        self.due.clear();
        take_due(&mut self.deadlines, self.clock, &mut self.due)?;
        self.due.sort_unstable();
        Ok(())
    }
}

/// The place of a timer.
fn place_of(timer: Timer) -> usize {
    usize::from(timer.actor()) * 8 + usize::from(timer.number())
}

/// The timer of a place.
fn timer_of(place: usize) -> Timer {
    Timer::new((place / 8 % 128) as u8, (place % 8) as u8)
}

/// Whether a deadline is congruent to one of the next `ticks` clocks.
fn is_near(deadline: u64, clock: u64, ticks: u64) -> bool {
    deadline.wrapping_sub(clock).wrapping_sub(1) % TURN < ticks
}

/// The number of such deadlines.
fn count_near(deadlines: &[Option<u64>], clock: u64, ticks: u64) -> u64 {
    let mut count: u64 = 0;
    for deadline in deadlines {
        if let Some(deadline) = *deadline
            && is_near(deadline, clock, ticks)
        {
            count = count.wrapping_add(1);
        }
    }
    count
}

/// Removes the timers due at a clock, in the order of the places.
fn take_due(
    deadlines: &mut [Option<u64>],
    clock: u64,
    due: &mut Vec<Due>,
) -> Result<(), AllocError> {
    for (place, held) in deadlines.iter_mut().enumerate() {
        if let Some(deadline) = *held
            && deadline <= clock
        {
            let timer = timer_of(place);
            due.push(Due { deadline, timer })?;
            *held = None;
        }
    }
    Ok(())
}
