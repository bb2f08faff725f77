//! The numbers of a terminal's names in its set.
ghost use Rattle.std.specs.Prelude.{◌≡◌, All, IfOk, IfErr, IfSome, IfNone};
ghost use Rattle.link_processes.specs.Known.{IsProcess, IsActor, IsSignal, AreParties, AreOrders, AreNotices, AreOutputs, IsOption, AreOptions, IsCount, ArePeriods, AreNames};
ghost use Rattle.link_processes.specs.declared.names.Periods.{Periods as PlainPeriods};
ghost use Rattle.link_processes.specs.Wanted.{wanted, Has, HasSignals, HasProcesses, IsFirstLacking};

use crate::names::{
    NO_ACTOR, NO_SIGNAL, Names, Notices, Options, Orders, Outputs, Parties, Periods,
};
use crate::wanted::{Wanted, all_wanted, first_lacking, touched};
use crate::words::{OptionName, ProcessName, SignalName};
use actor_machine::first_of;
use turn_check::Verified;
use turn_code::{ProcessNumber, SignalNumber, VariableNumber};

/// The number of a process that the set has.
fn process(set: &Verified, name: ProcessName) -> ProcessNumber
    requires { HasProcesses set.now }
    ensures { IsProcess set.now result.0 name }
{
    match set.process_of(name.word()) {
        Some(number) => number,
        None => unreachable!(),
    }
}

/// The number of a process's first instance.
fn actor(set: &Verified, name: ProcessName) -> u16
    requires { HasProcesses set.now }
    ensures { IsActor set.now result name }
{
    first_of(set, process(set, name))
}

/// The number of a signal that the set has.
fn signal(set: &Verified, name: SignalName) -> SignalNumber
    requires { HasSignals set.now }
    ensures { IsSignal set.now result.0 name }
{
    match set.signal_of(name.word()) {
        Some(number) => number,
        None => unreachable!(),
    }
}

/// The numbers of the actors.
fn parties(set: &Verified) -> Parties
    requires { HasProcesses set.now }
    ensures { AreParties set.now result }
{
    Parties {
        lsc: actor(set, ProcessName::Lsc),
        aerm: actor(set, ProcessName::Aerm),
        suerm: actor(set, ProcessName::Suerm),
        txc: actor(set, ProcessName::Txc),
        rc: actor(set, ProcessName::Rc),
        cc: actor(set, ProcessName::Cc),
    }
}

/// The numbers of the signals for commands.
fn orders(set: &Verified) -> Orders
    requires { HasSignals set.now }
    ensures { AreOrders set.now result }
{
    Orders {
        power_on: signal(set, SignalName::PowerOn),
        start_link: signal(set, SignalName::StartLink),
        stop_link: signal(set, SignalName::StopLink),
        emergency: signal(set, SignalName::Emergency),
        calm: signal(set, SignalName::Calm),
        local_out: signal(set, SignalName::LocalOut),
        local_back: signal(set, SignalName::LocalBack),
        busy: signal(set, SignalName::Busy),
        free: signal(set, SignalName::Free),
    }
}

/// The numbers of the signals that report units.
fn notices(set: &Verified) -> Notices
    requires { HasSignals set.now }
    ensures { AreNotices set.now result }
{
    Notices {
        good: signal(set, SignalName::Good),
        errored: signal(set, SignalName::Errored),
        ack_seen: signal(set, SignalName::AckSeen),
        bad: signal(set, SignalName::Bad),
        unit: signal(set, SignalName::Unit),
        msu_sent: signal(set, SignalName::MsuSent),
    }
}

/// The numbers of the signals to the environment.
fn outputs(set: &Verified) -> Outputs
    requires { HasSignals set.now }
    ensures { AreOutputs set.now result }
{
    Outputs {
        fresh: signal(set, SignalName::Fresh),
        take: signal(set, SignalName::Take),
        line: signal(set, SignalName::Line),
        withhold: signal(set, SignalName::Withhold),
        in_service_now: signal(set, SignalName::InServiceNow),
        down: signal(set, SignalName::Down),
        remote_out: signal(set, SignalName::RemoteOut),
        remote_back: signal(set, SignalName::RemoteBack),
    }
}

/// The number of an optional signal.
fn option(set: &Verified, name: OptionName) -> SignalNumber
    ensures { IsOption set.now result name }
{
    match touched(set, name) {
        Some(number) => number,
        None => SignalNumber(NO_SIGNAL),
    }
}

/// The numbers of the optional signals.
fn options(set: &Verified) -> Options
    ensures { AreOptions set.now result }
{
    Options {
        flush: option(set, OptionName::Flush),
        continues: option(set, OptionName::Continue),
        overload: option(set, OptionName::Overload),
        deliver: option(set, OptionName::Deliver),
        cleared: option(set, OptionName::Cleared),
        clear: option(set, OptionName::Clear),
        odd: option(set, OptionName::Odd),
        counting: option(set, OptionName::Counting),
    }
}

/// The variable that counts aborted proving periods, if the set has one.
fn periods_in(set: &Verified) -> Option<Periods>
    ensures found { IfSome result (IsCount set.now) }
    ensures none { IfNone result ((x : PlainPeriods) → IsCount set.now x → ⊥) }
{
    let Some(process) = set.process_of("IAC") else {
        return None;
    };
    let Some(variable) = set.variable_of(process, "cp") else {
        return None;
    };
    let actor = first_of(set, process);
    Some(Periods { actor, variable })
}

/// The variable that counts aborted proving periods, or no actor's.
fn periods(set: &Verified) -> Periods
    ensures { ArePeriods set.now result }
{
    match periods_in(set) {
        Some(periods) => periods,
        None => Periods {
            actor: NO_ACTOR,
            variable: VariableNumber(0),
        },
    }
}

impl Names {
    /// The numbers of a terminal's names in a set that has all of them, with the parameters and routes that a terminal
    /// requires. Case is ignored.
    ///
    /// # Errors
    ///
    /// The first of [`all_wanted`] that the set lacks.
    pub fn find(set: &Verified) -> Result<Names, Wanted>
        ensures ok { IfOk result (AreNames set.now) }
        ensures all { IfOk result (λ _. All (Has set.now) wanted) }
        ensures err { IfErr result (λ name. IsFirstLacking set.now name wanted) }
    {
        match first_lacking(set, &all_wanted()) {
            Some(name) => Err(name),
            None => Ok(Names {
                parties: parties(set),
                orders: orders(set),
                notices: notices(set),
                outputs: outputs(set),
                options: options(set),
                periods: periods(set),
            }),
        }
    }
}
