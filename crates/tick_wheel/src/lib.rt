//! The timers of a link: the active timers, their deadlines, and the timers due as the clock advances.
#![tactic(auto)]

ghost use Rattle.std.specs.Prelude.{◌≡◌, ◌+◌, ◌<◌, ◌≤◌, ◌↔◌, [], min, length, IfOk, IfSome, OnOk, OnErr, IsErrOf};
ghost use Rattle.std.specs.List.{IsDistinct};
ghost use Rattle.std.specs.List.Sorted.{IsPermutation, IsSorted};
ghost use Rattle.std.specs.Ordering.{eq_by_cmp};
ghost use Rattle.std.specs.FinMap as map;
ghost use Rattle.plain_laws.specs.Limits.{MOST_ACTORS, MOST_TIMERS_EACH, MOST_TICKS, LAST_TICK};
ghost use Rattle.tick_wheel.specs.Table.{timer_at, PLACES};
ghost use Rattle.tick_wheel.specs.Slots.{without_all};
ghost use Rattle.tick_wheel.specs.Turning.{near_count, MOST_LOOKED};

pub mod laws;
mod look;
mod slots;

use crate::slots::SlotLists;
use look::{copied_due, gather_near, slot_of};
use std::alloc::{AllocError, Global};
use std::fmt;
use std::marker::Model;
use thiserror::Error;

/// The greatest number of timers: 8 for each of 128 actors.
pub const TIMERS: usize = 1024;

/// The most ticks that one call may add to the clock.
pub const FARTHEST: u64 = 65_535;

/// The last tick that a clock can show.
pub const LAST_CLOCK: u64 = 1 << 62;

/// A timer: the number of its actor, below 128, and its own number there, below 8.
///
/// Timers are ordered by actor, then by number.
#[derive(Clone, Copy, Debug, PartialEq, Eq, PartialOrd, Ord)]
pub struct Timer {
    actor: u8,
    number: u8,
}

impl Model for Timer {
    ghost use Rattle.std.specs.Prelude.{◌<◌};
    ghost use Rattle.tick_wheel.specs.TimerId.{TimerId};
    ghost use Rattle.plain_laws.specs.Limits.{MOST_ACTORS, MOST_TIMERS_EACH};

    ghost Value = { TimerId };

    ghost view = { λ t. record { actor = t.actor; number = t.number } };

    ghost invariant = { λ t. (t.actor < MOST_ACTORS) × (t.number < MOST_TIMERS_EACH) };

    ghost inverse = { λ v. record { actor = v.actor; number = v.number } };
}

impl Timer {
    /// Timer `number`, below 8, of actor `actor`, below 128.
    pub const fn new(actor: u8, number: u8) -> Self
        requires actor { actor < MOST_ACTORS }
        requires number { number < MOST_TIMERS_EACH }
        ensures { result ≡ record { actor = actor; number = number } }
    {
        Timer { actor, number }
    }

    /// The number of the actor.
    pub const fn actor(self) -> u8
        ensures value { result ≡ self.actor }
        ensures in_range { result < MOST_ACTORS }
    {
        self.actor
    }

    /// The timer's number within its actor.
    pub const fn number(self) -> u8
        ensures value { result ≡ self.number }
        ensures in_range { result < MOST_TIMERS_EACH }
    {
        self.number
    }

    /// The timer at a place in a table with eight places for each actor.
    fn at(place: u16) -> Self
        requires { place < PLACES }
        ensures { result ≡ timer_at place }
    {
        Timer::new((place / 8) as u8, (place % 8) as u8)
    }

    /// The timer's place in a table with eight places for each actor.
    fn place(self) -> u16
        ensures timer { timer_at result ≡ self }
        ensures in_range { result < PLACES }
    {
        u16::from(self.actor) * 8 + u16::from(self.number)
    }
}

impl Default for Timer {
    ghost use Rattle.std.specs.Prelude.{◌≡◌};

    ghost is_default = { λ timer. timer ≡ record { actor = 0; number = 0 } };

    /// Timer 0 of actor 0.
    fn default() -> Self {
        Timer::new(0, 0)
    }
}

/// A timer that is due, with the deadline that it was set to.
///
/// Due timers are ordered by deadline, then by actor, then by the timer's number.
#[derive(Clone, Copy, Debug, Default, PartialEq, Eq, PartialOrd, Ord)]
pub struct Due {
    pub deadline: u64,
    pub timer: Timer,
}

/// Why `advance` was refused. Then nothing changed.
#[derive(Clone, Copy, Debug, PartialEq, Eq, Error)]
pub enum AdvanceError {
    /// More than 65,535 ticks in one call.
    TooFar,
    /// The clock would pass 2^62.
    ClockFull,
}

impl fmt::Display for AdvanceError {
    ghost use Rattle.std.specs.Prelude.{Some};
    ghost use Rattle.tick_wheel.specs.Printed.{advance_error_text};

    ghost output = { λ e. Some (advance_error_text e) };

    fn fmt<W: fmt::Write>(&self, f: &mut fmt::Formatter<W>) -> fmt::Result {
        f.write_str(match self {
            Self::TooFar => "W1 TooFar",
            Self::ClockFull => "W2 ClockFull",
        })
    }
}

/// The timers of a link and its clock, which counts ticks from 0.
///
/// An active timer has a deadline above the clock. After `new` only `copy` can fail because memory runs out.
#[derive(Debug, Drop)]
pub struct Wheel {
    clock: u64,
    deadlines: Vec<Option<u64>>,
    lists: SlotLists,
    due: Vec<Due>,
    looked: u64,
}

impl Model for Wheel {
    ghost use Rattle.std.specs.Prelude.{◌≤◌, vec_capacity};
    ghost use Rattle.tick_wheel.specs.Turning.{Turning, turning_code};
    ghost use Rattle.tick_wheel.specs.Table.{deadlines_of, PLACES};
    ghost use Rattle.tick_wheel.specs.Slots.{IsWheel};

    ghost Value = { Turning };

    ghost coded = { turning_code };

    ghost view = { λ w. record {
      clock = w.clock;
      deadlines = deadlines_of w.deadlines.items;
      due = w.due.items;
      looked = w.looked;
    } };

    ghost invariant = { λ w. IsWheel w.clock w.deadlines.items w.lists × (PLACES ≤ vec_capacity w.due) };
}

impl Wheel {
    ghost use Rattle.tick_wheel.specs.Timers.{due, due_cmp, in_order, not_due, IsDue};

    /// A wheel without active timers, whose clock shows 0.
    pub fn new(alloc: Global) -> Result<Self, AllocError>
        ensures clock { IfOk result (λ wheel. wheel.clock ≡ 0) }
        ensures deadlines { IfOk result (λ wheel. wheel.deadlines ≡ map.empty) }
        ensures due { IfOk result (λ wheel. wheel.due ≡ []) }
        ensures looked { IfOk result (λ wheel. wheel.looked ≡ 0) }
    {
        let deadlines = vec![in alloc; None; TIMERS]?;
        let lists = SlotLists::new(alloc)?;
        let due = Vec::with_capacity(alloc, TIMERS)?;
        Ok(Wheel {
            clock: 0,
            deadlines,
            lists,
            due,
            looked: 0,
        })
    }

    /// A copy of the wheel.
    pub fn copy(&self) -> Result<Self, AllocError>
        ensures { IfOk result (λ wheel. wheel ≡ self.now) }
    {
        let alloc = *self.due.allocator();
        let deadlines = Vec::from_slice(alloc, &self.deadlines)?;
        let lists = self.lists.copy()?;
        let due = copied_due(alloc, &self.due)?;
        Ok(Wheel {
            clock: self.clock,
            deadlines,
            lists,
            due,
            looked: self.looked,
        })
    }

    /// The clock, in ticks, at most 2^62.
    pub fn clock(&self) -> u64
        ensures value { result ≡ self.now.clock }
        ensures in_range { result ≤ LAST_TICK }
    {
        self.clock
    }

    /// The timers that the last accepted call of `advance` found due, in order.
    pub fn due(&self) -> &[Due]
        ensures { result.now ≡ self.now.due }
    {
        self.due.as_slice()
    }

    /// The number of timers that all calls of `advance` have looked at. It stays at 2^64 - 1 once it is there.
    pub fn looked(&self) -> u64
        ensures { result ≡ self.now.looked }
    {
        self.looked
    }

    /// The deadline of a timer, if it is active.
    pub fn deadline_of(&self, timer: Timer) -> Option<u64>
        ensures value { result ≡ map.get self.now.deadlines timer }
        ensures later { IfSome result (λ deadline. self.now.clock < deadline) }
    {
        self.deadlines[usize::from(timer.place())]
    }

    /// Whether a timer is active here and so has a deadline: it was set, and since then neither reset nor due. (In
    /// Z.100 it stays active until its signal is consumed: the port of its actor knows whether that waits.)
    pub fn is_active(&self, timer: Timer) -> bool
        ensures { result ≡ map.contains_key self.now.deadlines timer }
    {
        self.deadline_of(timer).is_some()
    }

    /// Makes a timer active until a deadline above the clock. An active timer loses its earlier deadline.
    pub fn set(&mut self, timer: Timer, deadline: u64)
        requires { self.old.clock < deadline }
        ensures clock { self.new.clock ≡ self.old.clock }
        ensures deadlines { self.new.deadlines ≡ map.insert self.old.deadlines timer deadline }
        ensures kept { (self.new.due ≡ self.old.due) × (self.new.looked ≡ self.old.looked) }
    {
        let place = timer.place();
        self.deadlines[usize::from(place)] = Some(deadline);
        self.lists.put(slot_of(deadline), place);
    }

    /// Makes a timer inactive, if it is active.
    pub fn reset(&mut self, timer: Timer)
        ensures clock { self.new.clock ≡ self.old.clock }
        ensures deadlines { self.new.deadlines ≡ map.remove self.old.deadlines timer }
        ensures kept { (self.new.due ≡ self.old.due) × (self.new.looked ≡ self.old.looked) }
    {
        let place = timer.place();
        self.deadlines[usize::from(place)] = None;
        self.lists.take_out(place);
    }

    /// Lets `ticks` pass and returns how many timers are due. These are no longer active; `due` lists them in order.
    ///
    /// `W1 TooFar` for more than 65,535 ticks, else `W2 ClockFull` if the clock would pass 2^62. Then nothing changes.
    ///
    /// It looks only at timers whose deadline is congruent, modulo 256, to one of the clocks that pass.
    pub fn advance(&mut self, ticks: u64) -> Result<usize, AdvanceError>
        ensures too_far { IsErrOf result AdvanceError.TooFar ↔ (MOST_TICKS < ticks) }
        ensures clock_full { IsErrOf result AdvanceError.ClockFull ↔ (ticks ≤ MOST_TICKS) × (LAST_TICK < self.old.clock + ticks) }
        ensures refused { OnErr result (self.new ≡ self.old) }

        ensures count { IfOk result (λ count. count ≡ length self.new.due) }
        ensures due { OnOk result (self.new.due ≡ due self.old.deadlines (self.old.clock + ticks)) }
        ensures meaning { OnOk result (IsDue self.old.deadlines (self.old.clock + ticks) self.new.due) }
        ensures clock { OnOk result (self.new.clock ≡ self.old.clock + ticks) }
        ensures rest { OnOk result (self.new.deadlines ≡ not_due self.old.deadlines (self.old.clock + ticks)) }
        ensures looked { OnOk result (self.new.looked ≡ min (self.old.looked + near_count self.old.deadlines self.old.clock ticks) MOST_LOOKED) }
    {
        if ticks > FARTHEST {
            return Err(AdvanceError::TooFar);
        }
        if self.clock + ticks > LAST_CLOCK {
            return Err(AdvanceError::ClockFull);
        }
        self.look(ticks);
        self.sort_due();
        self.reset_due();
        self.pass(ticks);
        Ok(self.due.len())
    }

    /// Lists the timers that will be due after `ticks`, in any order, and counts the timers that it looks at.
    fn look(&mut self, ticks: u64)
        requires near { ticks ≤ MOST_TICKS }
        requires clock { self.old.clock + ticks ≤ LAST_TICK }
        ensures clock { self.new.clock ≡ self.old.clock }
        ensures deadlines { self.new.deadlines ≡ self.old.deadlines }
        ensures due { in_order self.new.due ≡ due self.old.deadlines (self.old.clock + ticks) }
        ensures once { IsDistinct (eq_by_cmp due_cmp) self.new.due }
        ensures looked { self.new.looked ≡ min (self.old.looked + near_count self.old.deadlines self.old.clock ticks) MOST_LOOKED }
    {
        self.due.clear();
        let count = gather_near(
            &self.lists,
            &self.deadlines,
            self.clock,
            ticks,
            &mut self.due,
        );
        self.looked = self.looked.saturating_add(count);
    }

    /// Sorts the due timers.
    fn sort_due(&mut self)
        ensures permutation { IsPermutation self.old.due self.new.due }
        ensures sorted { IsSorted due_cmp self.new.due }
        ensures rest { self.new ≡ record self.old { due = self.new.due } }
    {
        self.due.sort_unstable();
    }

    /// Makes the due timers inactive.
    fn reset_due(&mut self)
        ensures { self.new ≡ record self.old { deadlines = without_all self.old.due self.old.deadlines } }
    {
        for number in 0..self.due.len() {
            let timer = self.due[number].timer;
            self.reset(timer);
        }
    }

    /// Lets `ticks` pass, after which nothing is due.
    fn pass(&mut self, ticks: u64)
        requires clock { self.old.clock + ticks ≤ LAST_TICK }
        requires none { not_due self.old.deadlines (self.old.clock + ticks) ≡ self.old.deadlines }
        ensures { self.new ≡ record self.old { clock = self.old.clock + ticks } }
    {
        self.clock += ticks;
    }
}
