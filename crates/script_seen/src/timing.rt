//! The effects of turns on timers.
ghost use Rattle.std.specs.Prelude.{◌≡◌, IfOk, OnOk};
ghost use Rattle.tick_wheel.specs.Turning.{timers_of};
ghost use Rattle.actor_machine.specs.Effects.{delay, without, without_timers, timers_after, timer_of};
ghost use Rattle.script_seen.specs.Following.{timers_by, timers_laid};

use std::io::{self, ErrorKind};
use tick_wheel::{Timer, Wheel};
use turn_code::{Effect, End, TimerNumber};

/// The largest number of actors of a link.
const ACTORS: u16 = 128;

/// The largest number of timers of a process.
const TIMERS: u8 = 8;

/// The timer of an actor; an error if there is no such timer.
fn timer_of(actor: u16, number: u8) -> io::Result<Timer>
    ensures { IfOk result (λ t. t ≡ timer_of actor number) }
{
    if actor < ACTORS && number < TIMERS {
        Ok(Timer::new(actor as u8, number))
    } else {
        Err(io::Error::from(ErrorKind::Other))
    }
}

/// Returns the number of ticks that a SET with this value waits.
pub fn delay_of(ticks: i32) -> u64
    ensures { result ≡ delay ticks }
{
    if ticks < 1 { 1 } else { ticks as u64 }
}

/// Sets a timer.
fn set_timer(wheel: &mut Wheel, actor: u16, timer: TimerNumber, ticks: i32) -> io::Result<()>
    ensures { OnOk result (timers_of wheel.new ≡ timers_by actor (timers_of wheel.old) (Effect.Set timer ticks)) }
{
    let timer = timer_of(actor, timer.0)?;
    let deadline = wheel.clock() + delay_of(ticks);
    wheel.set(timer, deadline);
    Ok(())
}

/// Resets a timer.
fn reset_timer(wheel: &mut Wheel, actor: u16, number: u8) -> io::Result<()>
    ensures { OnOk result (timers_of wheel.new ≡ without (timers_of wheel.old) actor number) }
{
    let timer = timer_of(actor, number)?;
    wheel.reset(timer);
    Ok(())
}

/// Applies an effect of an actor's turn to timers.
fn lay(wheel: &mut Wheel, actor: u16, effect: &Effect) -> io::Result<()>
    ensures { OnOk result (timers_of wheel.new ≡ timers_by actor (timers_of wheel.old) effect.now) }
{
    match effect {
        Effect::Output(_) => Ok(()),
        Effect::Set(timer, ticks) => set_timer(wheel, actor, *timer, *ticks),
        Effect::Reset(timer) => reset_timer(wheel, actor, timer.0),
    }
}

/// Applies the effects of an actor's turn to timers.
fn lay_all(wheel: &mut Wheel, actor: u16, effects: &[Effect]) -> io::Result<()>
    ensures { OnOk result (timers_of wheel.new ≡ timers_laid actor (timers_of wheel.old) effects.now) }
{
    for effect in effects {
        lay(wheel, actor, effect)?;
    }
    Ok(())
}

/// Resets all timers of an actor.
#[tactic(auto, unfolding(actor_machine::specs::Effects::without_timers))]
fn stop_timers(wheel: &mut Wheel, actor: u16) -> io::Result<()>
    ensures { OnOk result (timers_of wheel.new ≡ without_timers (timers_of wheel.old) actor) }
{
    for number in 0..TIMERS {
        reset_timer(wheel, actor, number)?;
    }
    Ok(())
}

/// Updates timers for a turn of an actor, by its effects and by how it ends.
pub(crate) fn keep_time(
    wheel: &mut Wheel,
    actor: u16,
    effects: &[Effect],
    end: End,
) -> io::Result<()>
    ensures { OnOk result (timers_of wheel.new ≡ timers_after end (timers_laid actor (timers_of wheel.old) effects.now) actor) }
{
    lay_all(wheel, actor, effects)?;
    match end {
        End::State(_) => Ok(()),
        End::Stop => stop_timers(wheel, actor),
    }
}
