//! Whether an output has a receiver, by the routes.

ghost use Rattle.std.specs.Prelude.{◌≡◌, ◌<◌, ◌↔◌, All, IsTrue, length, slice_get};
ghost use Rattle.turn_code.specs.Routes.{Answers};
ghost use Rattle.turn_code.specs.Rules.{KeepsSending, KeepsSetLimits, ReachesReceiver, AnswersSender};
ghost use Rattle.turn_code.specs.Transitions.{parameters_of};
ghost use Rattle.turn_rules.specs.Seen.{seen};

use crate::indexed::IndexedDraft;
use crate::transition::Transition;
use turn_code::{DraftSignal, ProcessNumber, Receiver, SignalNumber, Trigger};

/// Whether the signal of an output is declared, has as many parameters, and reaches its receiver.
pub(crate) fn keeps_sending(
    draft: &IndexedDraft<'_>,
    transition: &Transition<'_>,
    signal: SignalNumber,
    receiver: Receiver,
    count: u8,
) -> bool
    requires limits { KeepsSetLimits draft.now }
    requires process { transition.now.number.0 < length draft.now.processes }
    ensures { IsTrue result ↔ KeepsSending draft.now (seen transition.now) signal receiver count }
{
    has_parameters(draft.plain().signals.as_slice(), signal, count)
        && reaches_receiver(
            draft,
            transition.number,
            signal,
            transition.trigger,
            receiver,
        )
}

/// Whether there is such a signal, with this many parameters.
fn has_parameters(signals: &[DraftSignal], signal: SignalNumber, count: u8) -> bool
    ensures { IsTrue result ↔ ((signal.0 < length signals.now) × (count ≡ length (parameters_of (slice_get signals.now signal.0)))) }
{
    match signals.get(usize::from(signal.0)) {
        Some(found) => found.parameters.len() == usize::from(count),
        None => false,
    }
}

/// Whether a signal of a process reaches the receiver of an output.
fn reaches_receiver(
    draft: &IndexedDraft<'_>,
    process: ProcessNumber,
    signal: SignalNumber,
    trigger: Option<Trigger>,
    receiver: Receiver,
) -> bool
    requires limits { KeepsSetLimits draft.now }
    requires process { process.0 < length draft.now.processes }
    ensures { IsTrue result ↔ ReachesReceiver draft.now process.0 signal trigger receiver }
{
    match receiver {
        Receiver::Party(party) => draft.reached(process, signal).has(party),
        Receiver::Sender => answers_sender(draft, process, signal, trigger),
    }
}

/// Whether a signal reaches every possible sender of the signal that a transition waits for.
fn answers_sender(
    draft: &IndexedDraft<'_>,
    process: ProcessNumber,
    signal: SignalNumber,
    trigger: Option<Trigger>,
) -> bool
    requires limits { KeepsSetLimits draft.now }
    requires process { process.0 < length draft.now.processes }
    ensures { IsTrue result ↔ AnswersSender draft.now process.0 signal trigger }
{
    match trigger {
        Some(Trigger::Signal(taken)) => answers_each(draft, process, taken, signal),
        Some(Trigger::Timer(_)) => false,
        None => false,
    }
}

/// Whether a route takes signal `signal` back to every possible sender of the signal that is taken.
fn answers_each(
    draft: &IndexedDraft<'_>,
    process: ProcessNumber,
    taken: SignalNumber,
    signal: SignalNumber,
) -> bool
    requires limits { KeepsSetLimits draft.now }
    requires process { process.0 < length draft.now.processes }
    ensures { IsTrue result ↔ All (Answers draft.now.processes draft.now.routes process.0 taken signal) draft.now.routes }
{
    draft
        .senders(process, taken)
        .is_within(draft.reached(process, signal))
}
