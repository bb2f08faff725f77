//! The signals that the routes of a set carry from and to the environment.
ghost use Rattle.std.specs.Prelude.{◌≡◌, ◌&&◌, ◌||◌, ◌==◌, not};
ghost use Rattle.std.specs.List.{list_any, list_all};
ghost use Rattle.actor_machine.specs.Refusals.{is_environment, is_process, offers};
ghost use Rattle.turn_code.specs.declared.numbers.SignalNumber.{SignalNumber as PlainSignal};
ghost use Rattle.link_processes.specs.Known.{touches};
ghost use Rattle.link_processes.specs.Wanted.{tells, sends_alone, tells_alone, sends_either};

use turn_check::Verified;
use turn_code::{DraftRoute, Party, ProcessNumber, SignalNumber};

/// Whether the party is the environment.
fn is_environment(party: Party) -> bool
    ensures { result ≡ is_environment party }
{
    match party {
        Party::Environment => true,
        Party::Process(_) => false,
    }
}

/// Whether the party is this process.
fn is_process(number: ProcessNumber, party: Party) -> bool
    ensures { result ≡ is_process number.0 party }
{
    match party {
        Party::Environment => false,
        Party::Process(process) => process.0 == number.0,
    }
}

/// Whether a signal is among these.
fn carries(signals: &[SignalNumber], signal: SignalNumber) -> bool
    ensures { result ≡ list_any (λ (x : PlainSignal). x.0 == signal.0) signals.now }
{
    signals.iter().any(|other| other.0 == signal.0)
}

/// Whether a route carries a signal from the environment to a process.
fn brings_in(route: &DraftRoute, process: ProcessNumber, signal: SignalNumber) -> bool
    ensures { result ≡ offers process.0 signal route.now }
{
    is_environment(route.from)
        && is_process(process, route.to)
        && carries(route.signals.as_slice(), signal)
}

/// Whether a route carries a signal from a process to the environment.
fn brings_out(route: &DraftRoute, signal: SignalNumber) -> bool
    ensures { result ≡ tells signal route.now }
{
    !is_environment(route.from)
        && is_environment(route.to)
        && carries(route.signals.as_slice(), signal)
}

/// Whether some route carries a signal from the environment to a process.
fn some_brings_in(routes: &[DraftRoute], process: ProcessNumber, signal: SignalNumber) -> bool
    ensures { result ≡ list_any (offers process.0 signal) routes.now }
{
    routes.iter().any(|route| brings_in(route, process, signal))
}

/// Whether some route carries a signal from a process to the environment.
fn some_brings_out(routes: &[DraftRoute], signal: SignalNumber) -> bool
    ensures { result ≡ list_any (tells signal) routes.now }
{
    routes.iter().any(|route| brings_out(route, signal))
}

/// Whether some route of a set carries a signal from the environment to a process.
pub(crate) fn is_sent(set: &Verified, process: ProcessNumber, signal: SignalNumber) -> bool
    ensures { result ≡ list_any (offers process.0 signal) set.now.routes }
{
    some_brings_in(set.draft().routes.as_slice(), process, signal)
}

/// Whether some route of a set carries a signal from a process to the environment.
pub(crate) fn is_heard(set: &Verified, signal: SignalNumber) -> bool
    ensures { result ≡ list_any (tells signal) set.now.routes }
{
    some_brings_out(set.draft().routes.as_slice(), signal)
}

/// Whether a route from or to the environment carries a signal.
fn touches(route: &DraftRoute, signal: SignalNumber) -> bool
    ensures { result ≡ touches signal route.now }
{
    (is_environment(route.from) || is_environment(route.to))
        && carries(route.signals.as_slice(), signal)
}

/// Whether some route from or to the environment carries a signal.
fn some_touches(routes: &[DraftRoute], signal: SignalNumber) -> bool
    ensures { result ≡ list_any (touches signal) routes.now }
{
    routes.iter().any(|route| touches(route, signal))
}

/// Whether a route, if it carries the signal from or to the environment, carries it from there to this process.
fn sends_alone(route: &DraftRoute, process: ProcessNumber, signal: SignalNumber) -> bool
    ensures { result ≡ sends_alone process.0 signal route.now }
{
    !touches(route, signal) || brings_in(route, process, signal)
}

/// Whether a route, if it carries the signal from or to the environment, carries it from a process to there.
fn tells_alone(route: &DraftRoute, signal: SignalNumber) -> bool
    ensures { result ≡ tells_alone signal route.now }
{
    !touches(route, signal) || brings_out(route, signal)
}

/// Whether `sends_alone` holds of all routes.
fn all_send(routes: &[DraftRoute], process: ProcessNumber, signal: SignalNumber) -> bool
    ensures { result ≡ list_all (sends_alone process.0 signal) routes.now }
{
    routes
        .iter()
        .all(|route| sends_alone(route, process, signal))
}

/// Whether `tells_alone` holds of all routes.
fn all_tell(routes: &[DraftRoute], signal: SignalNumber) -> bool
    ensures { result ≡ list_all (tells_alone signal) routes.now }
{
    routes.iter().all(|route| tells_alone(route, signal))
}

/// Whether some route of a set carries a signal from or to the environment.
pub(crate) fn is_touched(set: &Verified, signal: SignalNumber) -> bool
    ensures { result ≡ list_any (touches signal) set.now.routes }
{
    some_touches(set.draft().routes.as_slice(), signal)
}

/// Whether all routes of a set with the signal from or to the environment go from there to this process.
pub(crate) fn is_sent_alone(set: &Verified, process: ProcessNumber, signal: SignalNumber) -> bool
    ensures { result ≡ list_all (sends_alone process.0 signal) set.now.routes }
{
    all_send(set.draft().routes.as_slice(), process, signal)
}

/// Whether all routes of a set with the signal from or to the environment go from a process to there.
pub(crate) fn is_heard_alone(set: &Verified, signal: SignalNumber) -> bool
    ensures { result ≡ list_all (tells_alone signal) set.now.routes }
{
    all_tell(set.draft().routes.as_slice(), signal)
}

/// Whether a route, if it carries the signal from or to the environment, carries it from there to one of two processes.
fn sends_either(
    route: &DraftRoute,
    one: ProcessNumber,
    other: ProcessNumber,
    signal: SignalNumber,
) -> bool
    ensures { result ≡ sends_either one.0 other.0 signal route.now }
{
    !touches(route, signal) || (brings_in(route, one, signal) || brings_in(route, other, signal))
}

/// Whether `sends_either` holds of all routes.
fn all_send_either(
    routes: &[DraftRoute],
    one: ProcessNumber,
    other: ProcessNumber,
    signal: SignalNumber,
) -> bool
    ensures { result ≡ list_all (sends_either one.0 other.0 signal) routes.now }
{
    routes
        .iter()
        .all(|route| sends_either(route, one, other, signal))
}

/// Whether all routes of a set with the signal from or to the environment go from there to one of two processes.
pub(crate) fn is_sent_to_either(
    set: &Verified,
    one: ProcessNumber,
    other: ProcessNumber,
    signal: SignalNumber,
) -> bool
    ensures { result ≡ list_all (sends_either one.0 other.0 signal) set.now.routes }
{
    all_send_either(set.draft().routes.as_slice(), one, other, signal)
}
