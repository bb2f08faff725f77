//! The effects of a turn as it ends.

ghost use Rattle.std.specs.Prelude.{◌≡◌, ℕ, ◌≤◌, ◌<◌, ◌+◌, ◌*◌, ◌^◌, [], ◌++◌, length};
ghost use Rattle.actor_machine.specs.Core.{change, names_in};
ghost use Rattle.actor_machine.specs.Names.{actors_of};
ghost use Rattle.actor_machine.specs.Effects.{laid, laid_all, lost_by, lost_for, losses, delivered, undelivered, drops, until, without, delay, ended, started, finished, lost_in, without_timers, without_first_timers, arrival_of, timers_after, settled};
ghost use Rattle.actor_machine.specs.Step.{report_of};
ghost use Rattle.tick_wheel.specs.Turning.{timers_of};
ghost use Rattle.actor_state.specs.Outcomes.{outcome_with, with_variables, HasTimer, HaveTimers};
ghost use Rattle.plain_laws.specs.Limits.{MOST_ACTORS, MOST_EFFECTS, MOST_TIMERS_EACH, MOST_TURNS_BEGUN, MOST_VARIABLES};

use crate::actors::{deliver_to, end_turn, forget_timer, number_for, settle_at};
use crate::link_actors::LinkActors;
use actor_machine::{ActorName, Cause, Emitted, Lost, Report};
use arrayvec::ArrayVec;
use input_port::Arrival;
use tick_wheel::{Timer, Wheel};
use turn_check::Verified;
use turn_code::{Address, Effect, End, Party, Sending, TimerNumber, Value, copied_values};

/// An actor by its number and its name.
#[derive(Clone, Copy)]
pub struct NumberedActor {
    pub number: u8,
    pub name: ActorName,
}

impl LinkActors {
    /// Carries out one effect of the turn of the actor with this number and name. Returns why an output is lost.
    fn lay(&mut self, set: &Verified, actor: u8, name: ActorName, effect: &Effect) -> Option<Cause>
        requires names { names_in self.old.actors ≡ actors_of set.now.processes }
        requires actor { actor < MOST_ACTORS }
        requires timer { HasTimer effect.now }
        ensures link { self.new ≡ laid actor name self.old effect.now }
        ensures lost { (place : ℕ) → lost_for place result ≡ lost_by name self.old place effect.now }
    {
        match effect {
            Effect::Output(sending) => self.send(set, name, sending),
            Effect::Set(timer, ticks) => {
                self.set(actor, *timer, *ticks);
                None
            }
            Effect::Reset(timer) => {
                self.reset(actor, *timer);
                None
            }
        }
    }

    /// Sends an output of an actor to its receiver. Returns why it is lost, if it is.
    fn send(&mut self, set: &Verified, sender: ActorName, sending: &Sending) -> Option<Cause>
        requires names { names_in self.old.actors ≡ actors_of set.now.processes }
        ensures link { self.new ≡ delivered sender self.old sending.now sending.now.receiver.party sending.now.receiver.instance }
        ensures cause { result ≡ undelivered sender self.old sending.now.receiver.party sending.now.receiver.instance }
    {
        let Address { party, instance } = sending.receiver;
        match party {
            Party::Environment => {
                let taken = self.ring.put(Emitted {
                    sender,
                    signal: sending.signal,
                    parameters: copied_values(&sending.parameters),
                });
                if taken { None } else { Some(Cause::EnvFull) }
            }
            Party::Process(process) => {
                let found = number_for(set, &self.actors, sender, process, instance);
                deliver_to(&mut self.actors, found, arrival_of(sender, sending))
            }
        }
    }

    /// Starts a timer anew and removes its signal from the port.
    fn set(&mut self, actor: u8, timer: TimerNumber, ticks: i32)
        requires actor { actor < MOST_ACTORS }
        requires timer { timer.0 < MOST_TIMERS_EACH }
        ensures { self.new ≡ record self.old {
          actors = change self.old.actors actor (drops timer.0);
          timers = until self.old.timers actor timer.0 (delay ticks);
        } }
    {
        forget_timer(&mut self.actors, usize::from(actor), timer);
        let deadline = self.wheel.clock() + delay_of(ticks);
        self.wheel.set(Timer::new(actor, timer.0), deadline);
    }

    /// Stops a timer and removes its signal from the port.
    fn reset(&mut self, actor: u8, timer: TimerNumber)
        requires actor { actor < MOST_ACTORS }
        requires timer { timer.0 < MOST_TIMERS_EACH }
        ensures { self.new ≡ record self.old {
          actors = change self.old.actors actor (drops timer.0);
          timers = without self.old.timers actor timer.0;
        } }
    {
        forget_timer(&mut self.actors, usize::from(actor), timer);
        self.wheel.reset(Timer::new(actor, timer.0));
    }

    /// Carries out the effects of a turn one after another, and returns the outputs that are lost.
    fn lay_all(
        &mut self,
        set: &Verified,
        actor: u8,
        name: ActorName,
        effects: &[Effect],
    ) -> ArrayVec<Lost, 32>
        requires names { names_in self.old.actors ≡ actors_of set.now.processes }
        requires actor { actor < MOST_ACTORS }
        requires timers { HaveTimers effects.now }
        requires few { length effects.now ≤ MOST_EFFECTS }
        ensures link { self.new ≡ laid_all actor name self.old effects.now }
        ensures lost { result.items ≡ losses actor name self.old 0 effects.now }
    {
        let mut lost = ArrayVec::new();
        for (place, effect) in effects.iter().enumerate() {
            if let Some(cause) = self.lay(set, actor, name, effect) {
                let place = place as u8;
                lost.push(Lost { place, cause });
            }
        }
        lost
    }

    /// Ends a turn of an actor, with this end, these variables and effects, and `count`
    /// instructions. The variables are set first; then the effects take place one after another, and then the end.
    pub fn finish(
        &mut self,
        set: &Verified,
        actor: NumberedActor,
        end: End,
        variables: &[Option<Value>],
        effects: &[Effect],
        count: u32,
    ) -> Report
        requires variables { length variables.now ≤ MOST_VARIABLES }
        requires names { names_in self.old.actors ≡ actors_of set.now.processes }
        requires actor { actor.number < MOST_ACTORS }
        requires timers { HaveTimers effects.now }
        requires few { length effects.now ≤ MOST_EFFECTS }
        requires finishes { self.old.finishes < MOST_TURNS_BEGUN }
        requires instructions { self.old.instructions + count < 2 ^ 64 }
        ensures link { self.new ≡ finished actor.number actor.name (outcome_with end variables.now effects.now count) self.old }
        ensures report { result ≡ report_of actor.number actor.name (outcome_with end variables.now effects.now count) self.old }
    {
        let NumberedActor { number, name } = actor;
        self.start(number, variables, count);
        let lost = self.lay_all(set, number, name, effects);
        self.end(number, end);
        Report { end, count, lost }
    }

    /// Sets the actor's variables to those of its turn, and counts the turn.
    fn start(&mut self, actor: u8, variables: &[Option<Value>], count: u32)
        requires variables { length variables.now ≤ MOST_VARIABLES }
        requires finishes { self.old.finishes < MOST_TURNS_BEGUN }
        requires instructions { self.old.instructions + count < 2 ^ 64 }
        ensures { self.new ≡ record self.old {
          actors = change self.old.actors actor (with_variables variables.now);
          finishes = self.old.finishes + 1;
          instructions = self.old.instructions + count;
        } }
    {
        settle_at(&mut self.actors, usize::from(actor), variables);
        self.finishes += 1;
        self.instructions += u64::from(count);
    }

    /// Moves the actor to the next state, or stops it, which empties the port and resets the timers.
    fn end(&mut self, actor: u8, end: End)
        requires { actor < MOST_ACTORS }
        ensures { self.new ≡ ended actor end self.old }
    {
        end_turn(&mut self.actors, usize::from(actor), end);
        if end == End::Stop {
            reset_all(&mut self.wheel, actor);
        }
    }
}

/// Stops all timers of an actor.
fn reset_all(wheel: &mut Wheel, actor: u8)
    requires { actor < MOST_ACTORS }
    ensures { timers_of wheel.new ≡ without_timers (timers_of wheel.old) actor }
{
    for timer in 0..8u8 {
        wheel.reset(Timer::new(actor, timer));
    }
}

/// The number of ticks until the timer of a SET expires, at least 1.
fn delay_of(ticks: i32) -> u64
    ensures value { result ≡ delay ticks }
    ensures least { 1 ≤ result }
    ensures most { result < 2 ^ 31 }
{
    if ticks < 1 { 1 } else { ticks as u64 }
}

/// The signal as it arrives at its receiver.
fn arrival_of(sender: ActorName, sending: &Sending) -> Arrival
    ensures { result ≡ arrival_of sender sending.now }
{
    Arrival {
        signal: sending.signal,
        parameters: copied_values(&sending.parameters),
        sender: sender.address(),
    }
}
