//! The signals and timers that a state saves.

ghost use Rattle.std.specs.Prelude.{◌≡◌, ℕ, ◌<◌, ◌||◌, ◌==◌, false};
ghost use Rattle.input_port.specs.Saves.{saves_signal, saves_timer, saves};
ghost use Rattle.plain_laws.specs.Limits.{MOST_SIGNALS, MOST_TIMERS_EACH};

use crate::queue::Item;
use turn_code::{SignalNumber, TimerNumber};

/// How many signals a set of processes may have.
const SIGNALS: u8 = 128;

/// How many timers a process may have.
pub(crate) const TIMERS: u8 = 8;

/// The signals and timers that a state saves: a bit for each.
#[derive(Clone, Copy, PartialEq, Eq, Debug, Default)]
pub struct Saved {
    signals: u128,
    timers: u8,
}

#[tactic(auto, using(crate::proofs::Bits::has_bit_none, crate::proofs::Bits::has_bit_added_128, crate::proofs::Bits::has_bit_added_8, crate::proofs::Bits::has_bit_below, crate::proofs::Bits::has_bit_above))]
impl Saved {
    /// A set without signals and timers.
    pub const fn nothing() -> Self
        ensures signals { (number : ℕ) → saves_signal result number ≡ false }
        ensures timers { (number : ℕ) → saves_timer result number ≡ false }
    {
        Saved {
            signals: 0,
            timers: 0,
        }
    }

    /// Adds a signal to those that are saved.
    pub fn add_signal(&mut self, signal: SignalNumber)
        requires { signal.0 < MOST_SIGNALS }
        ensures signals { (number : ℕ) → saves_signal self.new number ≡ (number == signal.0 || saves_signal self.old number) }
        ensures timers { (number : ℕ) → saves_timer self.new number ≡ saves_timer self.old number }
    {
        self.signals |= 1 << signal.0;
    }

    /// Adds the signal of a timer to those that are saved.
    pub fn add_timer(&mut self, timer: TimerNumber)
        requires { timer.0 < MOST_TIMERS_EACH }
        ensures signals { (number : ℕ) → saves_signal self.new number ≡ saves_signal self.old number }
        ensures timers { (number : ℕ) → saves_timer self.new number ≡ (number == timer.0 || saves_timer self.old number) }
    {
        self.timers |= 1 << timer.0;
    }

    /// Whether a signal is saved.
    pub fn has_signal(&self, signal: SignalNumber) -> bool
        ensures { result ≡ saves_signal self.now signal.0 }
    {
        signal.0 < SIGNALS && (self.signals >> signal.0) & 1 == 1
    }

    /// Whether the signal of a timer is saved.
    pub fn has_timer(&self, timer: TimerNumber) -> bool
        ensures { result ≡ saves_timer self.now timer.0 }
    {
        timer.0 < TIMERS && (self.timers >> timer.0) & 1 == 1
    }

    /// Whether an item is saved.
    pub fn has(&self, item: &Item) -> bool
        ensures { result ≡ saves self.now item.now }
    {
        match item {
            Item::Signal(arrival) => self.has_signal(arrival.signal),
            Item::Timer(timer) => self.has_timer(*timer),
        }
    }
}
