//! Signals from the environment.

ghost use Rattle.std.specs.Prelude.{◌≡◌, ℕ, ◌≤◌, ◌<◌, ◌&&◌, ◌==◌, nat_lt, length, map, Option, Some, None, slice_get};
ghost use Rattle.std.specs.List.{list_any};
ghost use Rattle.turn_code.specs.Values.{sort_of};
ghost use Rattle.turn_code.specs.Transitions.{parameters_of};
ghost use Rattle.actor_machine.specs.Core.{change};
ghost use Rattle.actor_machine.specs.Effects.{receives};
ghost use Rattle.actor_machine.specs.Refusals.{is_offered, offers, same_sort, same_sorts, has_stopped, is_environment, is_process, offer_rows, first_of};
ghost use Rattle.actor_machine.specs.Step.{offered_arrival};
ghost use Rattle.turn_code.specs.declared.numbers.SignalNumber.{SignalNumber as PlainSignal};

use crate::actors::deliver;
use crate::link_actors::LinkActors;
use actor_machine::{Actor, Refusal, Standing};
use arrayvec::ArrayVec;
use input_port::Arrival;
use turn_check::Verified;
use turn_code::{Address, DraftRoute, DraftSignal, Party, SignalNumber, Sort, Value};

/// Whether the party is the environment.
fn is_environment(party: Party) -> bool
    ensures { result ≡ is_environment party }
{
    match party {
        Party::Environment => true,
        Party::Process(_) => false,
    }
}

/// Whether the party is this process.
fn is_process(number: u8, party: Party) -> bool
    ensures { result ≡ is_process number party }
{
    match party {
        Party::Environment => false,
        Party::Process(process) => process.0 == number,
    }
}

/// Whether a route brings a signal from the environment to a process.
fn offers(number: u8, signal: SignalNumber, route: &DraftRoute) -> bool
    ensures { result ≡ offers number signal route.now }
{
    is_environment(route.from)
        && is_process(number, route.to)
        && carries(route.signals.as_slice(), signal)
}

/// Whether a signal is in a list.
fn carries(signals: &[SignalNumber], signal: SignalNumber) -> bool
    ensures { result ≡ list_any (λ (x : PlainSignal). x.0 == signal.0) signals.now }
{
    signals.iter().any(|other| other.0 == signal.0)
}

/// Whether two sorts are equal.
fn same_sort(one: Sort, other: Sort) -> bool
    ensures { result ≡ same_sort one other }
{
    match (one, other) {
        (Sort::Integer, Sort::Integer) | (Sort::Boolean, Sort::Boolean) => true,
        (Sort::Integer, Sort::Boolean) | (Sort::Boolean, Sort::Integer) => false,
    }
}

/// Whether the values have these sorts, one for each.
fn have_sorts(values: &[Value], sorts: &[Sort]) -> bool
    ensures { result ≡ same_sorts (map sort_of values.now) sorts.now }
{
    match values {
        [] => match sorts {
            [] => true,
            [_, ..] => false,
        },
        [value, values @ ..] => match sorts {
            [] => false,
            [sort, sorts @ ..] => same_sort(value.sort(), *sort) && have_sorts(values, sorts),
        },
    }
}

/// Whether the signal is declared, with parameters of these values' sorts.
fn takes(signals: &[DraftSignal], signal: SignalNumber, values: &[Value]) -> bool
    ensures { result ≡ (nat_lt signal.0 (length signals.now) && same_sorts (map sort_of values.now) (parameters_of (slice_get signals.now signal.0))) }
{
    match signals.get(usize::from(signal.0)) {
        Some(found) => have_sorts(values, found.parameters.as_slice()),
        None => false,
    }
}

/// Whether a route brings a signal with these values from the environment to a process.
fn is_offered(set: &Verified, number: u8, signal: SignalNumber, values: &[Value]) -> bool
    ensures { result ≡ is_offered set.now number signal values.now }
{
    some_route_offers(set.draft().routes.as_slice(), number, signal)
        && takes(set.draft().signals.as_slice(), signal, values)
}

/// Whether some route brings a signal from the environment to a process.
fn some_route_offers(routes: &[DraftRoute], number: u8, signal: SignalNumber) -> bool
    ensures { result ≡ list_any (offers number signal) routes.now }
{
    routes.iter().any(|route| offers(number, signal, route))
}

/// Whether an actor has stopped.
fn has_stopped(standing: Standing) -> bool
    ensures { result ≡ has_stopped standing }
{
    match standing {
        Standing::At(_) => false,
        Standing::Stopped => true,
    }
}

/// Why an actor refuses a signal from the environment, if it does.
pub(crate) fn offer_refusal(
    set: &Verified,
    signal: SignalNumber,
    values: &[Value],
    actor: &Actor,
) -> Option<Refusal>
    ensures { (number : ℕ) → result ≡ first_of (offer_rows set.now (record { actor = number; signal = signal; values = record { items = values.now } }) actor.now) }
{
    if has_stopped(actor.standing) {
        return Some(Refusal::Stopped);
    }
    if !is_offered(set, actor.name.process.0, signal, values) {
        return Some(Refusal::NoRoute);
    }
    if actor.port.signals() == actor.port.capacity() {
        return Some(Refusal::Full);
    }
    None
}

impl LinkActors {
    /// Puts a signal from the environment into an actor's port.
    pub fn offer(&mut self, actor: u16, signal: SignalNumber, values: ArrayVec<Value, 4>)
        ensures { self.new ≡ record self.old { actors = change self.old.actors actor (receives (offered_arrival (record { actor = actor; signal = signal; values = values }))) } }
    {
        let arrival = Arrival {
            signal,
            parameters: values,
            sender: Address {
                party: Party::Environment,
                instance: None,
            },
        };
        deliver(&mut self.actors, usize::from(actor), arrival);
    }
}
