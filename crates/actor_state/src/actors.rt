//! Changes of one actor, and of one actor in a list.

ghost use Rattle.std.specs.Prelude.{◌≡◌, ◌↔◌, ◌<◌, ◌≤◌, IsTrue, Some, length, slice_get};
ghost use Rattle.actor_machine.specs.Core.{change, change_found, found_in, names_in, outs};
ghost use Rattle.actor_machine.specs.Names.{actors_of, place_of, number_for};
ghost use Rattle.actor_machine.specs.Effects.{receives, drops, hears, moved, refusal_in, refusal_at};
ghost use Rattle.actor_state.specs.Outcomes.{with_variables};
ghost use Rattle.plain_laws.specs.Limits.{MOST_TIMERS_EACH, MOST_VARIABLES};

use actor_machine::{Actor, ActorName, Cause, Standing, number_of};
use input_port::{Arrival, PutError};
use turn_check::Verified;
use turn_code::{Effect, End, InstanceNumber, Place, ProcessNumber, TimerNumber, Value};

/// Puts a signal into an actor's port. Returns why not, if the actor has stopped or its port is full.
fn receive(actor: &mut Actor, arrival: Arrival) -> Option<Cause>
    ensures actor { actor.new ≡ receives arrival actor.old }
    ensures cause { result ≡ refusal_at actor.old.port actor.old.standing }
{
    match actor.standing {
        Standing::At(_) => match actor.port.put(arrival) {
            Ok(()) => None,
            Err(PutError::Full) => Some(Cause::Full),
        },
        Standing::Stopped => Some(Cause::Stopped),
    }
}

/// Puts a signal into the port of actor `number`. Returns why not, if it isn't taken; without such an actor, `Stopped`.
pub(crate) fn deliver(actors: &mut [Actor], number: usize, arrival: Arrival) -> Option<Cause>
    ensures actors { actors.new ≡ change actors.old number (receives arrival) }
    ensures cause { result ≡ refusal_in (slice_get actors.old number) }
{
    if number < actors.len() {
        receive(&mut actors[number], arrival)
    } else {
        Some(Cause::Stopped)
    }
}

/// As `deliver`, for an actor that may not be found; `Stopped` if it isn't.
pub(crate) fn deliver_to(
    actors: &mut [Actor],
    found: Option<usize>,
    arrival: Arrival,
) -> Option<Cause>
    ensures actors { actors.new ≡ change_found actors.old found (receives arrival) }
    ensures cause { result ≡ refusal_in (found_in actors.old found) }
{
    match found {
        Some(number) => deliver(actors, number, arrival),
        None => Some(Cause::Stopped),
    }
}

/// Whether the actor with a number has this name.
fn is_called(actors: &[Actor], number: usize, name: ActorName) -> bool
    ensures { IsTrue result ↔ (slice_get (names_in actors.now) number ≡ Some name) }
{
    match actors.get(number) {
        Some(actor) => name.same(actor.name),
        None => false,
    }
}

/// The number of the actor of a set with a name, if there is one. It first tries the number of the process, which is
/// right if each earlier process has one instance.
fn place_of(set: &Verified, actors: &[Actor], name: ActorName) -> Option<usize>
    requires { names_in actors.now ≡ actors_of set.now.processes }
    ensures { result ≡ place_of name (names_in actors.now) }
{
    let likely = usize::from(name.process.0);
    if is_called(actors, likely, name) {
        return Some(likely);
    }
    match number_of(set, name) {
        Some(number) => Some(usize::from(number)),
        None => None,
    }
}

/// The number of the actor that receives a signal from another one to a process. It is the named instance, if one is
/// named; otherwise the one with the sender's instance number, or the first one if there is no such instance.
pub(crate) fn number_for(
    set: &Verified,
    actors: &[Actor],
    sender: ActorName,
    process: ProcessNumber,
    instance: Option<InstanceNumber>,
) -> Option<usize>
    requires { names_in actors.now ≡ actors_of set.now.processes }
    ensures { result ≡ number_for (names_in actors.now) sender process instance }
{
    match instance {
        Some(instance) => place_of(set, actors, ActorName { process, instance }),
        None => {
            let own = ActorName {
                process,
                instance: sender.instance,
            };
            match place_of(set, actors, own) {
                Some(number) => Some(number),
                None => place_of(
                    set,
                    actors,
                    ActorName {
                        process,
                        instance: InstanceNumber(1),
                    },
                ),
            }
        }
    }
}

/// Removes the signal of a timer from an actor's port.
fn forget(actor: &mut Actor, timer: TimerNumber)
    ensures { actor.new ≡ drops timer.0 actor.old }
{
    actor.port.drop_timer(timer);
}

/// Removes the signal of a timer from the port of actor `number`.
pub(crate) fn forget_timer(actors: &mut [Actor], number: usize, timer: TimerNumber)
    ensures { actors.new ≡ change actors.old number (drops timer.0) }
{
    if number < actors.len() {
        forget(&mut actors[number], timer);
    }
}

/// Puts the signal of a timer into an actor's port, after all others; an earlier one of that timer is removed.
#[tactic(auto, using(crate::proofs::TimerItems::none_left))]
pub(crate) fn hear(actor: &mut Actor, timer: TimerNumber)
    requires { timer.0 < MOST_TIMERS_EACH }
    ensures { actor.new ≡ hears timer.0 actor.old }
{
    actor.port.drop_timer(timer);
    actor.port.put_timer(timer);
}

/// Puts the signal of a timer into the port of actor `number`.
pub(crate) fn notify(actors: &mut [Actor], number: usize, timer: TimerNumber)
    requires { timer.0 < MOST_TIMERS_EACH }
    ensures { actors.new ≡ change actors.old number (hears timer.0) }
{
    if number < actors.len() {
        hear(&mut actors[number], timer);
    }
}

/// Sets an actor's variables to these, and its turn is no longer out.
fn settle(actor: &mut Actor, variables: &[Option<Value>])
    requires { length variables.now ≤ MOST_VARIABLES }
    ensures { actor.new ≡ with_variables variables.now actor.old }
{
    actor.variables.clear();
    actor.variables.try_extend_from_slice(variables).unwrap();
    actor.given = None;
}

/// Sets the variables of actor `number` to these, and its turn is no longer out.
pub(crate) fn settle_at(actors: &mut [Actor], number: usize, variables: &[Option<Value>])
    requires { length variables.now ≤ MOST_VARIABLES }
    ensures { actors.new ≡ change actors.old number (with_variables variables.now) }
{
    if number < actors.len() {
        settle(&mut actors[number], variables);
    }
}

/// Moves an actor to its next state, or stops it and empties its port.
fn go(actor: &mut Actor, end: End)
    ensures { actor.new ≡ moved end actor.old }
{
    match end {
        End::State(state) => actor.standing = Standing::At(Place::State(state)),
        End::Stop => {
            actor.standing = Standing::Stopped;
            actor.port.clear();
        }
    }
}

/// Moves actor `number` to its next state, or stops it.
pub(crate) fn end_turn(actors: &mut [Actor], number: usize, end: End)
    ensures { actors.new ≡ change actors.old number (moved end) }
{
    if number < actors.len() {
        go(&mut actors[number], end);
    }
}

/// The number of actors that have a turn out.
pub(crate) fn count_outs(actors: &[Actor]) -> usize
    ensures { result ≡ outs actors.now }
{
    let mut count = 0;
    for actor in actors {
        if actor.is_out() {
            count += 1;
        }
    }
    count
}
