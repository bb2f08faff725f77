//! The acts on the set: each is one call of the set, or none.
ghost use Rattle.std.specs.Prelude.{◌≡◌, [], false, IfOk, IfErr, OnOk, OnErr};
ghost use Rattle.link_group.specs.Lines.{ByCommand, IsCommandError};
ghost use Rattle.link_group.specs.OneLink.{fault_of};
ghost use Rattle.link_group.specs.Placing.{rebalance_fault, rebalanced};
ghost use Rattle.line_tending.specs.Giving.{IsGiven, IsLeft, IsOther};
ghost use Rattle.line_tending.specs.Rounds.{Adds, Acts};
ghost use Rattle.line_tending.specs.Telling.{report_in, news_by};

use crate::tended_set::{TendError, TendedSet};
use crate::told::Told;
use group_changeover::{Hearing, Kind, RebalanceError, read_changeover};
use link_group::{CommandError, Heard, Sif};
use link_processes::Command;
use resend_store::Msu;

/// How the set took a changeover message, and the answer that is due.
#[derive(Clone, Copy)]
pub(crate) struct Noted {
    pub hearing: Hearing,
    pub answer: Option<Kind>,
}

/// The kind of a changeover message, if the field is one.
fn kind_in(sif: &[u8]) -> Option<Kind> {
    match read_changeover(sif) {
        Some(message) => Some(message.kind),
        None => None,
    }
}

/// The kind of an answer, if there is one.
fn answer_in(reply: &Option<Sif>) -> Option<Kind> {
    match reply {
        Some(sif) => kind_in(sif.as_slice()),
        None => None,
    }
}

/// The result of a command that wasn't obeyed: `false`, unless memory ran out.
fn refused(error: CommandError) -> Result<bool, TendError>
    ensures no { IfOk result (λ took. took ≡ false) }
    ensures other { OnOk result (IsOther error) }
{
    match error {
        CommandError::NoLink | CommandError::Waiting | CommandError::Refused(_) => Ok(false),
        CommandError::NoMemory => Err(TendError::NoMemory),
    }
}

impl TendedSet {
    /// Admits all links, or none.
    pub(crate) fn admit_all(&mut self, way: bool)
        ensures { Adds self.old self.new }
    {
        for link in 0..self.len() {
            self.admit(link, way);
        }
    }

    /// Admits a link, or withdraws it.
    pub(crate) fn admit(&mut self, link: usize, way: bool)
        ensures { Adds self.old self.new }
    {
        match self.set.admit(link, way) {
            Ok(()) => {}
            Err(_) => {}
        }
    }

    /// Sends a message that is bound to a link by it. Returns whether the link takes it.
    pub(crate) fn send_by(&mut self, link: usize, msu: Msu) -> bool
        ensures { Adds self.old self.new }
    {
        if !self.set.is_bound(&msu) {
            return false;
        }
        match self.set.send_by(link, msu) {
            Ok(()) => true,
            Err(_) => false,
        }
    }

    /// Gives a command to a link, as [`link_group::Group::command`] does.
    fn order(&mut self, link: usize, command: Command) -> Result<(), CommandError>
        ensures adds { Adds self.old self.new }
        ensures ok { OnOk result (ByCommand command link self.old.set self.new.set) }
        ensures err { IfErr result (IsCommandError command link self.old.set self.new.set) }
    {
        match self.set.command(link, command) {
            Ok(()) => Ok(()),
            Err(error) => Err(error),
        }
    }

    /// Gives a command to a link. Messages that this clears from its buffers are reported as unsure.
    pub(crate) fn give(&mut self, link: usize, command: Command) -> Result<(), CommandError>
        ensures adds { Adds self.old self.new }
        ensures ok { OnOk result (ByCommand command link self.old.set self.new.set) }
        ensures err { IfErr result (IsLeft (IsCommandError command link self.old.set self.new.set)) }
    {
        let before = self.set.unsure();
        match self.order(link, command) {
            Ok(()) => self.tell_unsure(link, before),
            Err(error) => Err(error),
        }
    }

    /// Reports how many more messages are unsure than before, if any. Then nothing is owed about the link any more.
    fn tell_unsure(&mut self, link: usize, before: u64) -> Result<(), CommandError>
        ensures same { self.new ≡ self.old }
        ensures memory { IfErr result (λ error. error ≡ CommandError.NoMemory) }
    {
        let count = self.set.unsure().saturating_sub(before);
        if count == 0 {
            return Ok(());
        }
        self.keep(link, self.care(link).given_up());
        match self.tell(Told::Unsure(link, count as usize)) {
            Ok(()) => Ok(()),
            Err(_) => Err(CommandError::NoMemory),
        }
    }

    /// Gives a command to a link. Returns whether it took it.
    pub(crate) fn command(&mut self, link: usize, command: Command) -> Result<bool, TendError>
        ensures adds { Adds self.old self.new }
        ensures given { IfOk result (IsGiven (ByCommand command link self.old.set self.new.set) (IsCommandError command link self.old.set self.new.set)) }
    {
        match self.give(link, command) {
            Ok(()) => Ok(true),
            Err(error) => refused(error),
        }
    }

    /// Begins a link's changeover. Returns the message due; none if there is no link or its changeover goes on.
    pub(crate) fn fail(&mut self, link: usize) -> Option<Kind>
        ensures { Adds self.old self.new }
    {
        match self.set.fail(link) {
            Ok(sif) => kind_in(sif.as_slice()),
            Err(_) => None,
        }
    }

    /// Passes a changeover message to the set.
    pub(crate) fn note(&mut self, sif: &[u8]) -> Noted
        ensures { Adds self.old self.new }
    {
        let _message = read_changeover(sif);
        let Heard { hearing, reply } = self.set.changeover_message(sif);
        Noted {
            hearing,
            answer: answer_in(&reply),
        }
    }

    /// Queues a report of a link.
    pub(crate) fn tell_report(&mut self, told: Told) -> Result<(), TendError>
        requires { news_by told ≡ [] }
        ensures { OnOk result (Acts [] (report_in told) self.old self.new) }
    {
        match self.told.push_back(told) {
            Ok(()) => Ok(()),
            Err(_) => Err(TendError::NoMemory),
        }
    }

    /// Shares out selections anew, as [`link_group::Group::rebalance`] does.
    ///
    /// # Errors
    ///
    /// Those of [`link_group::Group::rebalance`]. Nothing changes then.
    pub fn rebalance(&mut self) -> Result<(), RebalanceError>
        ensures adds { Adds self.old self.new }
        ensures fault { fault_of result ≡ rebalance_fault self.old.set }
        ensures ok { OnOk result (self.new ≡ record self.old { set = rebalanced self.old.set }) }
        ensures err { OnErr result (self.new ≡ self.old) }
    {
        match self.set.rebalance() {
            Ok(()) => Ok(()),
            Err(error) => Err(error),
        }
    }
}
