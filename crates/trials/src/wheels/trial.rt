//! Calls of a wheel and of a table, drawn one after another.

use crate::wheels::table::Table;
use std::alloc::{AllocError, Global};
use tick_wheel::{Timer, Wheel};

/// A seeded generator.
#[derive(Clone, Copy)]
struct Draws {
    state: u64,
}

impl Draws {
    /// The next number, below a bound (Knuth's constants).
    fn below(&mut self, bound: u64) -> u64 {
        self.state = self
            .state
            .wrapping_mul(6_364_136_223_846_793_005)
            .wrapping_add(1_442_695_040_888_963_407);
        (self.state >> 33) % bound.max(1)
    }

    /// A timer.
    fn timer(&mut self) -> Timer {
        let actor = (self.below(128) % 128) as u8;
        let number = (self.below(8) % 8) as u8;
        Timer::new(actor, number)
    }

    /// The distance of a deadline: near, in the next turns of a wheel, or as far as a SET goes.
    fn distance(&mut self) -> u64 {
        match self.below(4) {
            0 => self.below(4).wrapping_add(1),
            1 => self.below(300).wrapping_add(1),
            2 => self.below(3).wrapping_add(1).wrapping_mul(256),
            _ => self.below(2_147_483_647).wrapping_add(1),
        }
    }

    /// The number of ticks: mostly one or few, sometimes a turn of a wheel, sometimes more than allowed.
    fn ticks(&mut self) -> u64 {
        match self.below(32) {
            0..=25 => self.below(3),
            26..=28 => self.below(300),
            29..=30 => self.below(3).wrapping_add(255),
            _ => self.below(66_000),
        }
    }
}

/// The findings of a trial.
#[derive(Clone, Copy, Debug, PartialEq, Eq)]
pub struct Findings {
    /// The number of the first call after which the two differ.
    pub other: Option<u64>,
    /// The number of due timers.
    pub due: u64,
    /// The number of timers looked at.
    pub looked: u64,
}

/// Sets a timer in both.
fn set(draws: &mut Draws, wheel: &mut Wheel, table: &mut Table) {
    let timer = draws.timer();
    let deadline = wheel.clock().saturating_add(draws.distance());
    if wheel.clock() < deadline {
        wheel.set(timer, deadline);
        table.put(timer, Some(deadline));
    }
}

/// Resets a timer in both.
fn reset(draws: &mut Draws, wheel: &mut Wheel, table: &mut Table) {
    let timer = draws.timer();
    wheel.reset(timer);
    table.put(timer, None);
}

/// Lets ticks pass in both. Returns whether they agree, and the number of due timers.
fn pass(
    draws: &mut Draws,
    wheel: &mut Wheel,
    table: &mut Table,
) -> Result<(bool, usize), AllocError> {
    let ticks = draws.ticks();
    let expected = table.advance(ticks)?;
    let answer = wheel.advance(ticks);
    Ok((answer == expected, answer.unwrap_or(0)))
}

/// Whether both agree, as far as they show, about one timer too.
fn agree(timer: Timer, wheel: &Wheel, table: &Table) -> bool {
    wheel.clock() == table.clock()
        && wheel.due() == table.due()
        && wheel.looked() == table.looked()
        && wheel.deadline_of(timer) == table.deadline_of(timer)
        && wheel.is_active(timer) == table.deadline_of(timer).is_some()
}

/// Makes one call on both. Returns whether they agree then, and the number of due timers.
fn call(
    draws: &mut Draws,
    wheel: &mut Wheel,
    table: &mut Table,
) -> Result<(bool, usize), AllocError> {
    let (same, due) = match draws.below(4) {
        0 | 1 => {
            set(draws, wheel, table);
            (true, 0)
        }
        2 => {
            reset(draws, wheel, table);
            (true, 0)
        }
        _ => pass(draws, wheel, table)?,
    };
    Ok((same && agree(draws.timer(), wheel, table), due))
}

/// Makes calls on a wheel and on a table by a seed. Returns the first after which they differ, and the counts.
pub fn first_other(alloc: Global, seed: u64, calls: u64) -> Result<Findings, AllocError> {
    let mut draws = Draws { state: seed };
    let mut wheel = Wheel::new(alloc)?;
    let mut table = Table::new(alloc)?;
    let mut due: u64 = 0;
    for number in 0..calls {
        let (same, count) = call(&mut draws, &mut wheel, &mut table)?;
        due = due.saturating_add(count as u64);
        if !same {
            return Ok(Findings {
                other: Some(number),
                due,
                looked: wheel.looked(),
            });
        }
    }
    Ok(Findings {
        other: None,
        due,
        looked: wheel.looked(),
    })
}
