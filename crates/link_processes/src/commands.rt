//! The commands to a link.
ghost use Rattle.std.specs.Prelude.{◌≡◌};
ghost use Rattle.link_processes.specs.Offering.{command_number, command_signal};

use crate::names::Names;
use turn_code::SignalNumber;

/// A command to a terminal (Q.703, 7, 8 and 9).
#[derive(Clone, Copy, PartialEq, Eq, Debug)]
pub enum Command {
    /// Switch the terminal on: it is out of service, and reports that to the far side.
    PowerOn,
    /// Bring the link into service.
    Start,
    /// Take the link out of service.
    Stop,
    /// Use emergency alignment. Accepted out of service and during alignment; forgotten when the link goes down.
    Emergency,
    /// End emergency alignment from the next start on. An alignment under way stays an emergency one.
    Calm,
    /// This side has a processor outage.
    Outage,
    /// This side's processor outage is over.
    Back,
    /// This side is congested.
    Busy,
    /// This side is no longer congested.
    Free,
    /// After an outage: clear the buffers, and send messages again.
    Flush,
    /// After an outage: send messages again.
    Continue,
    /// This side is congested, and discards received messages.
    Overload,
}

/// The number of the actor that a command goes to.
pub(crate) fn command_number(names: &Names, command: Command) -> u16
    ensures { result ≡ command_number names.now command }
{
    match command {
        Command::Busy | Command::Free | Command::Overload => names.parties.cc,
        Command::PowerOn
        | Command::Start
        | Command::Stop
        | Command::Emergency
        | Command::Calm
        | Command::Outage
        | Command::Back
        | Command::Flush
        | Command::Continue => names.parties.lsc,
    }
}

/// The signal of a command.
pub(crate) fn command_signal(names: &Names, command: Command) -> SignalNumber
    ensures { result ≡ command_signal names.now command }
{
    match command {
        Command::PowerOn => names.orders.power_on,
        Command::Start => names.orders.start_link,
        Command::Stop => names.orders.stop_link,
        Command::Emergency => names.orders.emergency,
        Command::Calm => names.orders.calm,
        Command::Outage => names.orders.local_out,
        Command::Back => names.orders.local_back,
        Command::Busy => names.orders.busy,
        Command::Free => names.orders.free,
        Command::Flush => names.options.flush,
        Command::Continue => names.options.continues,
        Command::Overload => names.options.overload,
    }
}
