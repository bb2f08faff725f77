//! Starting links.
ghost use Rattle.std.specs.Prelude.{◌≡◌, true, false, IfOk, OnOk};
ghost use Rattle.link_group.specs.Lines.{ByCommand, IsCommandError};
ghost use Rattle.line_tending.specs.Cares.{lacks_emergency};
ghost use Rattle.line_tending.specs.Giving.{WasGiven, StartsAs};
ghost use Rattle.line_tending.specs.Orders.{ordered_of};
ghost use Rattle.line_tending.specs.Readers.{StartsHeld};
ghost use Rattle.line_tending.specs.Rounds.{Adds};

use crate::link_duty::{LinkDuty, PATIENCE};
use crate::tended_set::{TendError, TendedSet};
use crate::told::Told;
use arrayvec::ArrayVec;
use link_processes::Command;

impl TendedSet {
    /// Whether another link is in service.
    pub(crate) fn another_serves(&self, link: usize) -> bool {
        for other in 0..self.len() {
            if other != link && self.care(other).serves {
                return true;
            }
        }
        false
    }

    /// Whether a Start waits because a message about its link is owed.
    fn has_to_wait(&self, link: usize) -> bool {
        match self.care(link).owed {
            Some(owed) => owed.waits() || self.another_serves(link),
            None => false,
        }
    }

    /// Whether a link with a processor out holds a changeover message about another link. Once the processor is back it
    /// would be sent much too late, and be taken for a new one.
    fn is_stuck(&self, by: usize, about: usize) -> bool {
        match self.state(by) {
            Some(state) if state.in_service && (state.far_out || state.own_out) => {
                self.holds_word(by, about)
            }
            _ => false,
        }
    }

    /// The links that hold such a message about this link.
    fn stuck_about(&self, about: usize) -> ArrayVec<usize, 16> {
        let mut stuck = ArrayVec::new();
        for link in 0..self.len() {
            if link != about && self.is_stuck(link, about) {
                let _fits = stuck.try_push(link).is_ok();
            }
        }
        stuck
    }

    /// Begins the changeover of the links that hold such a message, so that it is removed with their messages.
    fn leave_stuck(&mut self, about: usize) -> Result<(), TendError>
        ensures { OnOk result (Adds self.old self.new) }
    {
        let links = self.stuck_about(about);
        self.leave(links.as_slice())
    }

    /// Declares an emergency for a link that is coming into service, if it is one and none was declared.
    fn urge(&mut self, link: usize, care: LinkDuty, another_serves: bool) -> Result<(), TendError>
        ensures adds { OnOk result (Adds self.old self.new) }
        ensures urges { OnOk result (lacks_emergency another_serves care ≡ true → WasGiven (ByCommand Command.Emergency link self.old.set self.new.set) (IsCommandError Command.Emergency link self.old.set self.new.set)) }
        ensures rests { OnOk result (lacks_emergency another_serves care ≡ false → self.new ≡ self.old) }
    {
        if !care.lacks_emergency(another_serves) {
            return Ok(());
        }
        let urgent = self.command(link, Command::Emergency)?;
        self.keep(link, self.care(link).urged(urgent));
        Ok(())
    }

    /// Ends the emergency of a link once another link carries messages.
    fn ease(&mut self, link: usize) -> Result<(), TendError>
        ensures { OnOk result (Adds self.old self.new) }
    {
        if !self.care(link).is_eased(self.another_carries(&[link])) {
            return Ok(());
        }
        let eased = self.command(link, Command::Calm)?;
        self.keep(link, self.care(link).urged(!eased));
        Ok(())
    }

    /// Declares or ends the emergency of a link that was started and isn't yet in service.
    pub(crate) fn hurry(&mut self, link: usize) -> Result<(), TendError>
        ensures { OnOk result (Adds self.old self.new) }
    {
        let care = self.care(link);
        if !care.started || care.serves {
            return Ok(());
        }
        self.urge(link, care, self.another_serves(link))?;
        self.ease(link)
    }

    /// Gives a link Start, with an emergency if it is one. Returns whether it took it.
    fn begin_start(
        &mut self,
        link: usize,
        care: LinkDuty,
        another_serves: bool,
    ) -> Result<bool, TendError>
        ensures adds { OnOk result (Adds self.old self.new) }
        ensures starts { IfOk result (StartsAs care another_serves link self.old.set self.new.set) }
    {
        self.urge(link, care, another_serves)?;
        self.command(link, Command::Start)
    }

    /// Gives a link Start, and if it takes it what holds because of the reader, and the outage that was ordered. Returns
    /// whether it took Start.
    fn start_held(
        &mut self,
        link: usize,
        care: LinkDuty,
        another_serves: bool,
    ) -> Result<bool, TendError>
        ensures adds { OnOk result (Adds self.old self.new) }
        ensures starts { IfOk result (StartsHeld care another_serves link self.old.reader (ordered_of link self.old.ordered) self.old.set self.new.set) }
    {
        if !self.begin_start(link, care, another_serves)? {
            return Ok(false);
        }
        self.press_started(link)?;
        Ok(true)
    }

    /// Starts a link if that is due; it waits at most 1,400 ticks for a message owed about the link.
    pub(crate) fn start(&mut self, link: usize) -> Result<(), TendError>
        ensures { OnOk result (Adds self.old self.new) }
    {
        let Some(due) = self.care(link).is_due(self.ticks) else {
            return Ok(());
        };
        let waited = self.ticks.saturating_sub(due);
        if waited < PATIENCE && self.has_to_wait(link) {
            return Ok(());
        }
        self.leave_stuck(link)?;
        let care = self.care(link);
        if !self.start_held(link, care, self.another_serves(link))? {
            return Ok(());
        }
        let care = self.care(link).begun();
        self.keep(link, care);
        self.tell(Told::Started(link))
    }
}
