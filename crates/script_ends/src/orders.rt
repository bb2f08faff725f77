//! The commands to a terminal that words of a script name.
ghost use Rattle.std.specs.Prelude.{◌≡◌};
ghost use Rattle.script_ends.specs.TermAnswers.{command_of};

use link_term::Command;
use script_links::Order;

/// The command that a word names.
pub fn command_of(order: Order) -> Command
    ensures { result ≡ command_of order }
{
    match order {
        Order::Power => Command::PowerOn,
        Order::Start => Command::Start,
        Order::Stop => Command::Stop,
        Order::Emergency => Command::Emergency,
        Order::Calm => Command::Calm,
        Order::Outage => Command::Outage,
        Order::Back => Command::Back,
        Order::Busy => Command::Busy,
        Order::Free => Command::Free,
        Order::Flush => Command::Flush,
        Order::Continue => Command::Continue,
        Order::Overload => Command::Overload,
    }
}
