//! What level 3 ordered of links that holds until it orders the opposite, or their link goes down.
ghost use Rattle.std.specs.Prelude.{◌≡◌};
ghost use Rattle.line_tending.specs.Orders.{nothing_ordered, ordered_by, is_ordered, ordered_of, after_order, is_down, is_down_status, after_down, ordered_after};

use crate::tended_set::{MOST_LINKS, TendedSet};
use link_processes::Command;
use link_transceiver::{LinkStatus, Report};

/// What level 3 ordered of a link.
#[derive(Clone, Copy, Debug, PartialEq, Eq)]
pub struct Ordered {
    /// That this side's processor be out.
    pub outage: bool,
    /// That the link be busy, or discard what comes.
    pub busy: bool,
}

impl Ordered {
    /// Before any order.
    pub fn new() -> Ordered
        ensures { result ≡ nothing_ordered }
    {
        Ordered {
            outage: false,
            busy: false,
        }
    }

    /// After one more order.
    pub fn by(self, command: Command) -> Ordered
        ensures { result ≡ ordered_by command self }
    {
        match command {
            Command::Outage => Ordered {
                outage: true,
                ..self
            },
            Command::Back => Ordered {
                outage: false,
                ..self
            },
            Command::Busy | Command::Overload => Ordered { busy: true, ..self },
            Command::Free => Ordered {
                busy: false,
                ..self
            },
            Command::PowerOn
            | Command::Start
            | Command::Stop
            | Command::Emergency
            | Command::Calm
            | Command::Flush
            | Command::Continue => self,
        }
    }

    /// Whether level 3 ordered what a command begins or ends.
    pub fn names(self, command: Command) -> bool
        ensures { result ≡ is_ordered self command }
    {
        match command {
            Command::Outage | Command::Back => self.outage,
            Command::Busy | Command::Free => self.busy,
            Command::PowerOn
            | Command::Start
            | Command::Stop
            | Command::Emergency
            | Command::Calm
            | Command::Flush
            | Command::Continue
            | Command::Overload => false,
        }
    }
}

/// What was ordered of a link.
fn read(ordered: &[Ordered; MOST_LINKS], link: usize) -> Ordered
    ensures { result ≡ ordered_of link ordered.now }
{
    ordered[link % MOST_LINKS]
}

/// Stores one more order to a link.
fn write(ordered: &mut [Ordered; MOST_LINKS], link: usize, command: Command)
    ensures { ordered.new ≡ after_order link command ordered.old }
{
    ordered[link % MOST_LINKS] = read(ordered, link).by(command);
}

/// Ends an order to be busy.
fn end_busy(ordered: &mut [Ordered; MOST_LINKS], link: usize)
    ensures { ordered.new ≡ after_down link ordered.old }
{
    ordered[link % MOST_LINKS] = Ordered {
        busy: false,
        ..read(ordered, link)
    };
}

/// Whether a status is Down.
fn is_down_status(status: &LinkStatus) -> bool
    ensures { result ≡ is_down_status status.now }
{
    match status {
        LinkStatus::Down(_) => true,
        LinkStatus::InService
        | LinkStatus::RemoteOut
        | LinkStatus::RemoteBack
        | LinkStatus::Cleared => false,
    }
}

/// Whether a link reports that it went down.
fn is_down(report: &Report) -> bool
    ensures { result ≡ is_down report.now }
{
    match report {
        Report::Status(status) => is_down_status(status),
        Report::Message(_) => false,
    }
}

impl TendedSet {
    /// What level 3 ordered of a link.
    pub(crate) fn ordered(&self, link: usize) -> Ordered
        ensures { result ≡ ordered_of link self.now.ordered }
    {
        read(&self.ordered, link)
    }

    /// Stores one more order to a link.
    pub(crate) fn note_order(&mut self, link: usize, command: Command)
        ensures { self.new ≡ record self.old { ordered = after_order link command self.old.ordered } }
    {
        write(&mut self.ordered, link, command);
    }

    /// Ends an order to a link to be busy.
    fn end_order(&mut self, link: usize)
        ensures { self.new ≡ record self.old { ordered = after_down link self.old.ordered } }
    {
        end_busy(&mut self.ordered, link);
    }

    /// Ends an order to a link to be busy, if the link reports that it went down.
    pub(crate) fn note_report(&mut self, link: usize, report: &Report)
        ensures { self.new ≡ record self.old { ordered = ordered_after (record { link = link; report = report.now }) self.old.ordered } }
    {
        if !is_down(report) {
            return;
        }
        self.end_order(link);
    }
}
