//! The numbers in a set of the actors and signals that the environment uses.
ghost use Rattle.std.specs.Prelude.{◌≡◌};
ghost use Rattle.link_processes.specs.Known.{is_there};
ghost use Rattle.link_processes.specs.Offering.{number_of, notice_signal, notice_values, value_told, integer_told, boolean_told, plain_told, told_by};

use actor_machine::Emitted;
use arrayvec::ArrayVec;
use link_transceiver::{EnvSignal, Notice, Party};
use turn_code::{SignalNumber, Value, VariableNumber};

/// The actors that the environment sends signals to, by number: the first instance of each process.
#[derive(Clone, Copy, PartialEq, Eq, Debug)]
pub struct Parties {
    /// Link state control.
    pub lsc: u16,
    /// The alignment error rate monitor.
    pub aerm: u16,
    /// The signal unit error rate monitor.
    pub suerm: u16,
    /// Transmission control.
    pub txc: u16,
    /// Reception control.
    pub rc: u16,
    /// Congestion control.
    pub cc: u16,
}

/// The signals for commands.
#[derive(Clone, Copy, PartialEq, Eq, Debug)]
pub struct Orders {
    pub power_on: SignalNumber,
    pub start_link: SignalNumber,
    pub stop_link: SignalNumber,
    pub emergency: SignalNumber,
    pub calm: SignalNumber,
    pub local_out: SignalNumber,
    pub local_back: SignalNumber,
    pub busy: SignalNumber,
    pub free: SignalNumber,
}

/// The signals that report units.
#[derive(Clone, Copy, PartialEq, Eq, Debug)]
pub struct Notices {
    pub good: SignalNumber,
    pub errored: SignalNumber,
    pub ack_seen: SignalNumber,
    pub bad: SignalNumber,
    pub unit: SignalNumber,
    pub msu_sent: SignalNumber,
}

/// The signals to the environment.
#[derive(Clone, Copy, PartialEq, Eq, Debug)]
pub struct Outputs {
    pub fresh: SignalNumber,
    pub take: SignalNumber,
    pub line: SignalNumber,
    pub withhold: SignalNumber,
    pub in_service_now: SignalNumber,
    pub down: SignalNumber,
    pub remote_out: SignalNumber,
    pub remote_back: SignalNumber,
}

/// The optional signals. One that the text lacks has the number [`NO_SIGNAL`].
#[derive(Clone, Copy, PartialEq, Eq, Debug)]
pub struct Options {
    pub flush: SignalNumber,
    pub continues: SignalNumber,
    pub overload: SignalNumber,
    pub deliver: SignalNumber,
    pub cleared: SignalNumber,
    pub clear: SignalNumber,
    pub odd: SignalNumber,
    pub counting: SignalNumber,
}

/// The variable in which a set counts the aborted proving periods of the current alignment: Cp of initial alignment
/// control (Q.703, figure 9), `cp` of the first instance of IAC. If the set has none, the actor is [`NO_ACTOR`].
#[derive(Clone, Copy, PartialEq, Eq, Debug)]
pub struct Periods {
    pub actor: u16,
    pub variable: VariableNumber,
}

/// A number of no signal: a set has at most 128.
pub const NO_SIGNAL: u8 = 255;

/// A number of no actor: a set has at most 128.
pub const NO_ACTOR: u16 = 65_535;

/// All numbers of a terminal's names in its set.
#[derive(Clone, Copy, PartialEq, Eq, Debug)]
pub struct Names {
    pub parties: Parties,
    pub orders: Orders,
    pub notices: Notices,
    pub outputs: Outputs,
    pub options: Options,
    pub periods: Periods,
}

/// Whether a text has the optional signal.
pub fn is_there(signal: SignalNumber) -> bool
    ensures { result ≡ is_there signal }
{
    signal.0 != NO_SIGNAL
}

/// The number of an actor.
pub(crate) fn actor_of(parties: &Parties, party: Party) -> u16
    ensures { result ≡ number_of parties.now party }
{
    match party {
        Party::Aerm => parties.aerm,
        Party::Suerm => parties.suerm,
        Party::Txc => parties.txc,
        Party::Rc => parties.rc,
    }
}

/// The signal of a notice.
pub(crate) fn notice_signal(names: &Names, notice: Notice) -> SignalNumber
    ensures { result ≡ notice_signal names.now notice }
{
    let notices = &names.notices;
    match notice {
        Notice::Good => notices.good,
        Notice::Errored => notices.errored,
        Notice::AckSeen(_) => notices.ack_seen,
        Notice::Bad => notices.bad,
        Notice::Unit(_) => notices.unit,
        Notice::MsuSent => notices.msu_sent,
        Notice::Odd(_) => names.options.odd,
        Notice::Counting(_) => names.options.counting,
    }
}

/// The values of a notice's parameters.
pub(crate) fn notice_values(notice: Notice) -> ArrayVec<Value, 4>
    ensures { result.items ≡ notice_values notice }
{
    let mut values = ArrayVec::new();
    match notice {
        Notice::AckSeen(left) => values.push(Value::Bool(left)),
        Notice::Counting(on) => values.push(Value::Bool(on)),
        Notice::Unit(kind) => values.push(Value::Int(i32::from(kind))),
        Notice::Odd(code) => values.push(Value::Int(i32::from(code))),
        Notice::Good | Notice::Errored | Notice::Bad | Notice::MsuSent => {}
    }
    values
}

/// The meaning of a signal to the environment, by its number and its first parameter; none for a signal that a terminal
/// doesn't know.
#[tactic(auto, unfolding(crate::specs::Offering::told_by))]
pub(crate) fn told_by(names: &Names, emitted: &Emitted) -> Option<EnvSignal>
    ensures { result ≡ told_by names.now emitted.now }
{
    match emitted.parameters.as_slice().first() {
        Some(value) => value_told(names, emitted.signal, *value),
        None => plain_told(names, emitted.signal),
    }
}

/// The meaning of a signal with a parameter.
fn value_told(names: &Names, signal: SignalNumber, value: Value) -> Option<EnvSignal>
    ensures { result ≡ value_told names.now signal value }
{
    match value {
        Value::Int(number) => integer_told(&names.outputs, signal, number),
        Value::Bool(on) => boolean_told(names, signal, on),
    }
}

/// The meaning of a signal with a number.
fn integer_told(outputs: &Outputs, signal: SignalNumber, number: i32) -> Option<EnvSignal>
    ensures { result ≡ integer_told outputs.now signal number }
{
    if signal.0 == outputs.line.0 {
        Some(EnvSignal::Line(number))
    } else if signal.0 == outputs.down.0 {
        Some(EnvSignal::Down(number))
    } else {
        None
    }
}

/// The meaning of a signal with a truth value.
fn boolean_told(names: &Names, signal: SignalNumber, on: bool) -> Option<EnvSignal>
    ensures { result ≡ boolean_told names.now signal on }
{
    if signal.0 == names.outputs.take.0 {
        Some(EnvSignal::Take(on))
    } else if signal.0 == names.outputs.withhold.0 {
        Some(EnvSignal::Withhold(on))
    } else if signal.0 == names.options.deliver.0 {
        Some(EnvSignal::Deliver(on))
    } else {
        None
    }
}

/// The meaning of a signal without parameters.
fn plain_told(names: &Names, signal: SignalNumber) -> Option<EnvSignal>
    ensures { result ≡ plain_told names.now signal }
{
    let outputs = &names.outputs;
    if signal.0 == outputs.fresh.0 {
        Some(EnvSignal::Fresh)
    } else if signal.0 == outputs.in_service_now.0 {
        Some(EnvSignal::InServiceNow)
    } else if signal.0 == outputs.remote_out.0 {
        Some(EnvSignal::RemoteOut)
    } else if signal.0 == outputs.remote_back.0 {
        Some(EnvSignal::RemoteBack)
    } else if signal.0 == names.options.cleared.0 {
        Some(EnvSignal::Cleared)
    } else if signal.0 == names.options.clear.0 {
        Some(EnvSignal::Clear)
    } else {
        None
    }
}
