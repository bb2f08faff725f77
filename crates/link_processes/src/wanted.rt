//! What a terminal requires of its set.
ghost use Rattle.std.specs.Prelude.{◌≡◌, ◌↔◌, All, IsTrue, IfSome, IfNone, slice_get};
ghost use Rattle.turn_code.specs.Transitions.{parameters_of};
ghost use Rattle.turn_code.specs.declared.numbers.SignalNumber.{SignalNumber as PlainSignal};
ghost use Rattle.link_processes.specs.Known.{IsTouched};
ghost use Rattle.link_processes.specs.Wanted.{wanted, IsSpoken, HasSent, HasHeard, FitsSent, FitsHeard, FitsCounting, MaySendIt, MayHearIt, MayCountIt, Has, IsFirstLacking};

use crate::routes::{
    is_heard, is_heard_alone, is_sent, is_sent_alone, is_sent_to_either, is_touched,
};
use crate::words::{OptionName, ProcessName, SignalName};
use std::fmt;
use thiserror::Error;
use turn_check::Verified;
use turn_code::{SignalNumber, Sort};

/// A requirement of a terminal on its set.
#[derive(Clone, Copy, PartialEq, Eq, Debug, Error)]
pub enum Wanted {
    /// A process.
    Process(ProcessName),
    /// A signal on a route from the environment to this process.
    Sent(ProcessName, SignalName),
    /// A signal on a route from some process to the environment.
    Heard(SignalName),
    /// An optional signal. If routes from or to the environment carry it, each of them goes from the environment to
    /// this process.
    MaySend(ProcessName, OptionName),
    /// An optional signal. If routes from or to the environment carry it, each goes from a process to there.
    MayHear(OptionName),
    /// The optional signal Counting. If routes from or to the environment carry it, each goes from there to one of the
    /// two error rate monitors, and some route goes to this process.
    MayCount(ProcessName),
}

impl fmt::Display for Wanted {
    ghost use Rattle.std.specs.Prelude.{Some};
    ghost use Rattle.link_processes.specs.Printed.{wanted_text};

    ghost output = { λ w. Some (wanted_text w) };

    fn fmt<W: fmt::Write>(&self, f: &mut fmt::Formatter<W>) -> fmt::Result {
        match self {
            Self::Process(name) => f.write_str(name.word()),
            Self::Sent(to, name) => write!(f, "{}/{}", to.word(), name.word()),
            Self::Heard(name) => write!(f, "ENV/{}", name.word()),
            Self::MaySend(to, name) => write!(f, "{}/{}", to.word(), name.word()),
            Self::MayCount(to) => write!(f, "{}/{}", to.word(), OptionName::Counting.word()),
            Self::MayHear(name) => write!(f, "ENV/{}", name.word()),
        }
    }
}

/// All requirements of a terminal, in the order in which they are checked: the processes, the environment's signals to
/// each, and the signals to the environment.
const WANTED: [Wanted; 40] = [
    Wanted::Process(ProcessName::Lsc),
    Wanted::Process(ProcessName::Aerm),
    Wanted::Process(ProcessName::Suerm),
    Wanted::Process(ProcessName::Txc),
    Wanted::Process(ProcessName::Rc),
    Wanted::Process(ProcessName::Cc),
    Wanted::Sent(ProcessName::Lsc, SignalName::PowerOn),
    Wanted::Sent(ProcessName::Lsc, SignalName::StartLink),
    Wanted::Sent(ProcessName::Lsc, SignalName::StopLink),
    Wanted::Sent(ProcessName::Lsc, SignalName::Emergency),
    Wanted::Sent(ProcessName::Lsc, SignalName::Calm),
    Wanted::Sent(ProcessName::Lsc, SignalName::LocalOut),
    Wanted::Sent(ProcessName::Lsc, SignalName::LocalBack),
    Wanted::Sent(ProcessName::Cc, SignalName::Busy),
    Wanted::Sent(ProcessName::Cc, SignalName::Free),
    Wanted::Sent(ProcessName::Aerm, SignalName::Good),
    Wanted::Sent(ProcessName::Suerm, SignalName::Good),
    Wanted::Sent(ProcessName::Aerm, SignalName::Errored),
    Wanted::Sent(ProcessName::Suerm, SignalName::Errored),
    Wanted::Sent(ProcessName::Txc, SignalName::AckSeen),
    Wanted::Sent(ProcessName::Rc, SignalName::Bad),
    Wanted::Sent(ProcessName::Rc, SignalName::Unit),
    Wanted::Sent(ProcessName::Txc, SignalName::MsuSent),
    Wanted::Heard(SignalName::Fresh),
    Wanted::Heard(SignalName::Take),
    Wanted::Heard(SignalName::Line),
    Wanted::Heard(SignalName::Withhold),
    Wanted::Heard(SignalName::InServiceNow),
    Wanted::Heard(SignalName::Down),
    Wanted::Heard(SignalName::RemoteOut),
    Wanted::Heard(SignalName::RemoteBack),
    Wanted::MaySend(ProcessName::Lsc, OptionName::Flush),
    Wanted::MaySend(ProcessName::Lsc, OptionName::Continue),
    Wanted::MaySend(ProcessName::Cc, OptionName::Overload),
    Wanted::MayHear(OptionName::Deliver),
    Wanted::MayHear(OptionName::Cleared),
    Wanted::MayHear(OptionName::Clear),
    Wanted::MaySend(ProcessName::Rc, OptionName::Odd),
    Wanted::MayCount(ProcessName::Aerm),
    Wanted::MayCount(ProcessName::Suerm),
];

/// All requirements of a terminal, in the order in which they are checked.
pub(crate) fn all_wanted() -> [Wanted; 40]
    ensures { result ≡ wanted }
{
    WANTED
}

/// Whether the sorts are these.
fn are_sorts(found: &[Sort], sorts: &[Sort]) -> bool
    ensures { IsTrue result ↔ (found.now ≡ sorts.now) }
{
    found == sorts
}

/// The sorts of a signal's parameters; none if there is no such signal.
fn sorts_of(set: &Verified, signal: SignalNumber) -> &[Sort]
    ensures { result.now ≡ parameters_of (slice_get set.now.signals signal.0) }
{
    match set.draft().signals.as_slice().get(usize::from(signal.0)) {
        Some(found) => found.parameters.as_slice(),
        None => &[],
    }
}

/// The number of the signal with this name, if its parameters are those required.
fn spoken(set: &Verified, name: SignalName) -> Option<SignalNumber>
    ensures found { IfSome result (IsSpoken set.now name) }
    ensures none { IfNone result ((k : PlainSignal) → IsSpoken set.now name k → ⊥) }
{
    match set.signal_of(name.word()) {
        Some(signal) => {
            if are_sorts(sorts_of(set, signal), name.sorts()) {
                Some(signal)
            } else {
                None
            }
        }
        None => None,
    }
}

/// Whether a route carries the signal of this name, with the required parameters, from the environment to this process.
fn has_sent(set: &Verified, to: ProcessName, name: SignalName) -> bool
    ensures { IsTrue result ↔ HasSent set.now to name }
{
    let Some(process) = set.process_of(to.word()) else {
        return false;
    };
    match spoken(set, name) {
        Some(signal) => is_sent(set, process, signal),
        None => false,
    }
}

/// Whether a route carries the signal of this name, with the required parameters, from some process to the environment.
fn has_heard(set: &Verified, name: SignalName) -> bool
    ensures { IsTrue result ↔ HasHeard set.now name }
{
    match spoken(set, name) {
        Some(signal) => is_heard(set, signal),
        None => false,
    }
}

/// Whether a signal has the required parameters, and its routes from or to the environment all go to this process.
fn fits_sent(set: &Verified, to: ProcessName, name: OptionName, signal: SignalNumber) -> bool
    ensures { IsTrue result ↔ FitsSent set.now to name signal }
{
    match set.process_of(to.word()) {
        Some(process) => {
            are_sorts(sorts_of(set, signal), name.sorts()) && is_sent_alone(set, process, signal)
        }
        None => false,
    }
}

/// As `fits_sent`, for a signal from some process to the environment.
fn fits_heard(set: &Verified, name: OptionName, signal: SignalNumber) -> bool
    ensures { IsTrue result ↔ FitsHeard set.now name signal }
{
    are_sorts(sorts_of(set, signal), name.sorts()) && is_heard_alone(set, signal)
}

/// The number of the signal with this name, if a route from or to the environment carries it.
pub(crate) fn touched(set: &Verified, name: OptionName) -> Option<SignalNumber>
    ensures found { IfSome result (IsTouched set.now name) }
    ensures none { IfNone result ((k : PlainSignal) → IsTouched set.now name k → ⊥) }
{
    match set.signal_of(name.word()) {
        Some(signal) => {
            if is_touched(set, signal) {
                Some(signal)
            } else {
                None
            }
        }
        None => None,
    }
}

/// Whether the signal of this name, if a route from or to the environment carries it, goes only to this process, with
/// the required parameters.
fn may_send(set: &Verified, to: ProcessName, name: OptionName) -> bool
    ensures { IsTrue result ↔ MaySendIt set.now to name }
{
    match touched(set, name) {
        Some(signal) => fits_sent(set, to, name, signal),
        None => true,
    }
}

/// As `may_send`, for a signal that goes only to the environment.
fn may_hear(set: &Verified, name: OptionName) -> bool
    ensures { IsTrue result ↔ MayHearIt set.now name }
{
    match touched(set, name) {
        Some(signal) => fits_heard(set, name, signal),
        None => true,
    }
}

/// Whether a signal has Counting's parameters, goes only from the environment to the monitors and reaches this one.
fn fits_counting(set: &Verified, to: ProcessName, signal: SignalNumber) -> bool
    ensures { IsTrue result ↔ FitsCounting set.now to signal }
{
    let Some(aerm) = set.process_of(ProcessName::Aerm.word()) else {
        return false;
    };
    let Some(suerm) = set.process_of(ProcessName::Suerm.word()) else {
        return false;
    };
    let Some(process) = set.process_of(to.word()) else {
        return false;
    };
    are_sorts(sorts_of(set, signal), OptionName::Counting.sorts())
        && is_sent_to_either(set, aerm, suerm, signal)
        && is_sent(set, process, signal)
}

/// Whether Counting, if a route from or to the environment carries it, fits and reaches this process.
fn may_count(set: &Verified, to: ProcessName) -> bool
    ensures { IsTrue result ↔ MayCountIt set.now to }
{
    match touched(set, OptionName::Counting) {
        Some(signal) => fits_counting(set, to, signal),
        None => true,
    }
}

/// Whether a set meets a requirement.
fn has(set: &Verified, wanted: Wanted) -> bool
    ensures { IsTrue result ↔ Has set.now wanted }
{
    match wanted {
        Wanted::Process(name) => set.process_of(name.word()).is_some(),
        Wanted::Sent(to, name) => has_sent(set, to, name),
        Wanted::Heard(name) => has_heard(set, name),
        Wanted::MaySend(to, name) => may_send(set, to, name),
        Wanted::MayHear(name) => may_hear(set, name),
        Wanted::MayCount(to) => may_count(set, to),
    }
}

/// The first of these requirements that a set doesn't meet.
pub(crate) fn first_lacking(set: &Verified, all: &[Wanted]) -> Option<Wanted>
    ensures found { IfSome result (λ name. IsFirstLacking set.now name all.now) }
    ensures none { IfNone result (All (Has set.now) all.now) }
{
    for name in all {
        if !has(set, *name) {
            return Some(*name);
        }
    }
    None
}
