//! Why B3 refuses a signal of the environment, for a person to read.
ghost use Rattle.std.specs.Prelude.{◌≡◌, ◌==◌, IfSome};
ghost use Rattle.std.specs.List.{list_any};
ghost use Rattle.actor_machine.specs.Refusals.{is_environment, is_process, offers};
ghost use Rattle.turn_code.specs.declared.numbers.SignalNumber.{SignalNumber as PlainSignal};
ghost use Rattle.actor_machine.specs.Ledger.{Ledger};
ghost use Rattle.script_lines.specs.Commands.{PlainOffer, plain_offer};
ghost use Rattle.script_book.specs.RouteFaults.{IsRouteFault};

use crate::names::{actor_named, signal_named};
use actor_book::Book;
use script_lines::Offer;
use std::fmt;
use turn_code::{DraftRoute, Party, SignalNumber, Sort, Value};

/// Why B3 refuses a signal of the environment.
#[derive(Clone, Copy, PartialEq, Eq, Debug)]
pub enum RouteFault<'a> {
    /// The set has no signal of this name.
    NoSignal {
        signal: &'a str,
    },
    /// No route carries it from the environment to this process.
    NoRoute {
        signal: &'a str,
        process: &'a str,
    },
    /// It has `wanted` parameters, but `there` values are given.
    Count {
        signal: &'a str,
        wanted: usize,
        there: usize,
    },
    /// The value at this place, from 1, isn't of the parameter's sort.
    WrongSort {
        signal: &'a str,
        place: usize,
        sort: Sort,
    },
}

impl fmt::Display for RouteFault<'_> {
    fn fmt<W: fmt::Write>(&self, f: &mut fmt::Formatter<W>) -> fmt::Result {
        match self {
            Self::NoSignal { signal } => write!(f, "no signal {signal}"),
            Self::NoRoute { signal, process } => {
                write!(f, "no route brings {signal} from ENV to {process}")
            }
            Self::Count {
                signal,
                wanted,
                there,
            } => {
                let values = if *wanted == 1 { "value" } else { "values" };
                write!(f, "{signal} takes {wanted} {values}, and has {there}")
            }
            Self::WrongSort {
                signal,
                place,
                sort,
            } => {
                let sort = match sort {
                    Sort::Integer => "an Integer",
                    Sort::Boolean => "a Boolean",
                };
                write!(f, "value {place} of {signal} isn't {sort}")
            }
        }
    }
}

/// Whether the party is the environment.
fn is_environment(party: Party) -> bool
    ensures { result ≡ is_environment party }
{
    match party {
        Party::Environment => true,
        Party::Process(_) => false,
    }
}

/// Whether the party is this process.
fn is_process(number: u8, party: Party) -> bool
    ensures { result ≡ is_process number party }
{
    match party {
        Party::Environment => false,
        Party::Process(process) => process.0 == number,
    }
}

/// Whether a signal is among these.
fn carries(signals: &[SignalNumber], signal: SignalNumber) -> bool
    ensures { result ≡ list_any (λ (x : PlainSignal). x.0 == signal.0) signals.now }
{
    signals.iter().any(|other| other.0 == signal.0)
}

/// Whether a route carries a signal from the environment to a process.
fn offers(number: u8, signal: SignalNumber, route: &DraftRoute) -> bool
    ensures { result ≡ offers number signal route.now }
{
    is_environment(route.from)
        && is_process(number, route.to)
        && carries(route.signals.as_slice(), signal)
}

/// Whether some route carries a signal from the environment to a process.
fn some_route_offers(routes: &[DraftRoute], number: u8, signal: SignalNumber) -> bool
    ensures { result ≡ list_any (offers number signal) routes.now }
{
    routes.iter().any(|route| offers(number, signal, route))
}

/// The fault of values that don't fit a signal with parameters of these sorts; none if they fit.
fn values_fault<'a>(signal: &'a str, sorts: &[Sort], values: &[Value]) -> Option<RouteFault<'a>>
    ensures { (b : Ledger) → (o : PlainOffer) → IfSome result (IsRouteFault b o) }
{
    if values.len() != sorts.len() {
        return Some(RouteFault::Count {
            signal,
            wanted: sorts.len(),
            there: values.len(),
        });
    }
    for (place, sort) in sorts.iter().enumerate() {
        if values[place].sort() != *sort {
            return Some(RouteFault::WrongSort {
                signal,
                place: place + 1,
                sort: *sort,
            });
        }
    }
    None
}

/// Why B3 refuses an offer of the environment, if a reason is found.
pub fn route_fault<'a>(book: &Book, given: &Offer<'a>) -> Option<RouteFault<'a>>
    ensures { IfSome result (IsRouteFault book.now (plain_offer given.now)) }
{
    let (signal, process) = (given.signal, given.process);
    let actor = actor_named(book, process)?;
    let Some(number) = signal_named(book, signal) else {
        return Some(RouteFault::NoSignal { signal });
    };
    let draft = book.set().draft();
    if !some_route_offers(draft.routes.as_slice(), actor.name.process.0, number) {
        return Some(RouteFault::NoRoute { signal, process });
    }
    match draft.signals.as_slice().get(usize::from(number.0)) {
        Some(found) => values_fault(signal, found.parameters.as_slice(), &given.values),
        None => None,
    }
}
