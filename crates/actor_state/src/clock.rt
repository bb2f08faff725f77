//! The clock of a link.

ghost use Rattle.std.specs.Prelude.{◌≡◌, ◌≤◌, ◌<◌, ◌+◌, ◌^◌, length};
ghost use Rattle.actor_machine.specs.Refusals.{advance_rows, first_of};
ghost use Rattle.tick_wheel.specs.Timers.{due, not_due};
ghost use Rattle.actor_machine.specs.Step.{notified, passed, due_in};
ghost use Rattle.plain_laws.specs.Limits.{LAST_TICK, MOST_TICKS};

use crate::actors::notify;
use crate::link_actors::LinkActors;
use actor_machine::{Actor, Refusal};
use tick_wheel::{Due, FARTHEST, LAST_CLOCK, Wheel};
use turn_code::TimerNumber;

/// Why this many ticks can't pass, if they can't.
pub(crate) fn advance_refusal(clock: u64, ticks: u64) -> Option<Refusal>
    requires { clock ≤ LAST_TICK }
    ensures { result ≡ first_of (advance_rows clock ticks) }
{
    if ticks > FARTHEST {
        return Some(Refusal::TooFar);
    }
    if clock + ticks > LAST_CLOCK {
        return Some(Refusal::ClockFull);
    }
    None
}

/// Puts the signal of each due timer into its actor's port, in order.
fn notify_all(actors: &mut [Actor], due: &[Due])
    ensures { actors.new ≡ notified actors.old due.now }
{
    for one in due {
        let actor = usize::from(one.timer.actor());
        notify(actors, actor, TimerNumber(one.timer.number()));
    }
}

/// Lets this many ticks pass, and returns the number of timers that are due; the wheel lists them in order.
fn pass(wheel: &mut Wheel, ticks: u64) -> usize
    requires near { ticks ≤ MOST_TICKS }
    requires clock { wheel.old.clock + ticks ≤ LAST_TICK }
    ensures clock { wheel.new.clock ≡ wheel.old.clock + ticks }
    ensures rest { wheel.new.deadlines ≡ not_due wheel.old.deadlines (wheel.old.clock + ticks) }
    ensures due { wheel.new.due ≡ due wheel.old.deadlines (wheel.old.clock + ticks) }
    ensures count { result ≡ length wheel.new.due }
{
    match wheel.advance(ticks) {
        Ok(count) => count,
        Err(_) => unreachable!(),
    }
}

impl LinkActors {
    /// Advances the clock by this many ticks, puts the signals of due timers into the ports, and returns their number.
    pub fn advance(&mut self, ticks: u64) -> usize
        requires near { ticks ≤ MOST_TICKS }
        requires clock { self.old.timers.clock + ticks ≤ LAST_TICK }
        ensures link { self.new ≡ passed ticks self.old }
        ensures due { result ≡ length (due_in self.old ticks) }
    {
        let count = pass(&mut self.wheel, ticks);
        notify_all(&mut self.actors, self.wheel.due());
        count
    }
}
