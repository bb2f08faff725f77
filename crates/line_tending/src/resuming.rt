//! Resuming messages after an outage, and restarting traffic.
ghost use Rattle.std.specs.Prelude.{◌≡◌, true, false, OnOk};
ghost use Rattle.link_group.specs.Lines.{ByCommand, IsCommandError};
ghost use Rattle.line_tending.specs.Giving.{WasGiven, resumes};
ghost use Rattle.line_tending.specs.Rounds.{Adds};

use crate::tended_set::{TendError, TendedSet};
use link_group::LinkState;
use link_processes::Command;

/// Whether a link resumes its messages after an outage: it carries none, though it is in service, not held, and no
/// processor is out.
fn resumes(state: LinkState) -> bool
    ensures { result ≡ resumes state }
{
    !state.carrying && state.in_service && !state.held && !state.far_out && !state.own_out
}

impl TendedSet {
    /// Gives Continue to a link that resumes its messages.
    pub(crate) fn resume(&mut self, link: usize, state: LinkState) -> Result<(), TendError>
        ensures adds { OnOk result (Adds self.old self.new) }
        ensures gives { OnOk result (resumes state ≡ true → WasGiven (ByCommand Command.Continue link self.old.set self.new.set) (IsCommandError Command.Continue link self.old.set self.new.set)) }
        ensures rests { OnOk result (resumes state ≡ false → self.new ≡ self.old) }
    {
        if !resumes(state) {
            return Ok(());
        }
        self.offer(link, Command::Continue)
    }

    /// The first link that is in service and admitted.
    fn first_open(&self) -> Option<usize> {
        for link in 0..self.len() {
            match self.state(link) {
                Some(state) if state.in_service && state.admitted && !state.held => {
                    return Some(link);
                }
                _ => {}
            }
        }
        None
    }

    /// Sends traffic restart allowed once, when a first link is in service and admitted after a time without any.
    pub(crate) fn restart(&mut self)
        ensures { Adds self.old self.new }
    {
        let open = self.first_open();
        self.restarts = self.restarts || (open.is_some() && !self.is_open);
        self.is_open = open.is_some();
        let Some(link) = open else {
            return;
        };
        if !self.restarts {
            return;
        }
        let msu = self.plan.ends.restart_allowed();
        let sent = self.send_by(link, msu);
        self.restarts = !sent;
    }
}
