//! The changeover of links, step by step.
ghost use Rattle.std.specs.Prelude.{◌≡◌, OnOk};
ghost use Rattle.line_tending.specs.Rounds.{Adds};

use crate::hands::HandsOut;
use crate::link_duty::{LONGEST, PATIENCE};
use crate::tended_set::{TendError, TendedSet};
use crate::told::Told;
use group_changeover::Answer;
use link_group::LinkState;
use link_processes::Command;

impl TendedSet {
    /// Begins a changeover, unless one goes on; its order is then owed.
    pub(crate) fn begin_changeover(&mut self, link: usize) -> Result<(), TendError>
        ensures { OnOk result (Adds self.old self.new) }
    {
        let Some(kind) = self.fail(link) else {
            return Ok(());
        };
        self.doubt(link, None);
        self.keep(link, self.care(link).changing());
        self.owe(link, kind);
        self.tell(Told::Changeover(link))
    }

    /// Stops a link that is in service while held.
    pub(crate) fn stop_held(&mut self, link: usize, state: LinkState) -> Result<(), TendError>
        ensures { OnOk result (Adds self.old self.new) }
    {
        if !state.in_service || !state.held || self.care(link).stopping {
            return Ok(());
        }
        let stopping = self.command(link, Command::Stop)?;
        self.keep(link, self.care(link).stopped(stopping));
        Ok(())
    }

    /// The next step of a changeover that goes on: messages are retrieved, then diverted.
    pub(crate) fn change_over(&mut self, link: usize, state: LinkState) -> Result<(), TendError>
        ensures { OnOk result (Adds self.old self.new) }
    {
        let Some(waited) = state.changeover else {
            return Ok(());
        };
        self.wait_on(link);
        if !self.set.hand(link).is_some() && !self.care(link).serves {
            let is_over = state.answer == Some(Answer::Unknown)
                || !self.is_waited_for(link, waited);
            self.hand_out(link, is_over)?;
        }
        self.divert_all(link)
    }

    /// Counts a tick of a changeover in which another link takes messages about the link.
    fn wait_on(&mut self, link: usize)
        ensures { self.new ≡ self.old }
    {
        if self.least_loaded(link).is_some() {
            self.keep(link, self.care(link).waited());
        }
    }

    /// Whether a link is coming into service: it was started, or its Start is pending and allowed.
    fn is_coming(&self, link: usize) -> bool {
        let may_start = !self.set.in_changeover(link) || self.set.hand(link).is_some();
        self.care(link).is_coming(may_start)
    }

    /// Whether a link other than this one is coming into service.
    fn another_comes(&self, link: usize) -> bool {
        for other in 0..self.len() {
            if other != link && self.is_coming(other) {
                return true;
            }
        }
        false
    }

    /// Whether a changeover still waits for its answer: for 1,400 ticks in which another link takes messages about the
    /// link. If none does, it waits 1,400 ticks, and longer while another link is coming into service.
    fn is_waited_for(&self, link: usize, waited: u64) -> bool {
        if self.care(link).patience == 0 {
            return false;
        }
        if self.least_loaded(link).is_some() || waited < PATIENCE {
            return true;
        }
        waited < LONGEST && self.another_comes(link)
    }

    /// Retrieves a link's messages. If it isn't known which of them arrived, they are given up when waiting is over.
    fn hand_out(&mut self, link: usize, is_over: bool) -> Result<(), TendError>
        ensures { OnOk result (Adds self.old self.new) }
    {
        match self.retrieve(link)? {
            HandsOut::Messages(count) => {
                self.keep(link, self.care(link).handed(count));
                Ok(())
            }
            HandsOut::Unsure(count) if is_over => self.give_up(link, count),
            HandsOut::Unsure(_) | HandsOut::Nothing => Ok(()),
        }
    }

    /// Gives up the sent messages of a link and keeps the others. No message about it is owed any more.
    fn give_up(&mut self, link: usize, count: usize) -> Result<(), TendError>
        ensures { OnOk result (Adds self.old self.new) }
    {
        match self.abandon(link)? {
            HandsOut::Messages(left) => {
                self.keep(link, self.care(link).handed(left).given_up());
                self.tell(Told::Unsure(link, count))
            }
            HandsOut::Unsure(_) | HandsOut::Nothing => Ok(()),
        }
    }

    /// Diverts the retrieved messages of a link, as far as possible.
    fn divert_all(&mut self, link: usize) -> Result<(), TendError>
        ensures { OnOk result (Adds self.old self.new) }
    {
        if !self.divert(link) {
            return Ok(());
        }
        let count = self.care(link).handed;
        self.tell(Told::Diverted(link, count))
    }
}
