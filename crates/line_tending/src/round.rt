//! A round of the set.
ghost use Rattle.std.specs.Prelude.{◌≡◌, ◌↔◌, ◌≤◌, length, Err, IfOk, OnOk, OnErr};
ghost use Rattle.link_group.specs.Doing.{Listened, Sent};
ghost use Rattle.link_group.specs.Lines.{ByLink};
ghost use Rattle.line_tending.specs.Rounds.{Adds, Tends, Ticks};

use crate::tended_set::{TendError, TendedSet};
use group_changeover::{LineError, LinkError};
use link_group::CallError;
use su_octets::Unit;

impl TendedSet {
    /// Takes octets received on a link's line. Returns how many were taken, until room or memory runs out.
    ///
    /// # Errors
    ///
    /// If the set has no such link; nothing changes then.
    pub fn line_in(&mut self, link: usize, octets: &[u8]) -> Result<usize, LinkError>
        ensures adds { Adds self.old self.new }
        ensures ok { IfOk result (λ taken. ByLink (Listened octets.now taken) link self.old.set self.new.set) }
        ensures fault { (result ≡ Err LinkError.NoLink) ↔ (length self.old.set.links ≤ link) }
        ensures err { OnErr result (self.new ≡ self.old) }
    {
        match self.set.line_in(link, octets) {
            Ok(taken) => Ok(taken),
            Err(error) => Err(error),
        }
    }

    /// The next unit to send on a link, if there is one.
    ///
    /// # Errors
    ///
    /// If the set has no such link, or memory runs out; nothing changes then.
    pub fn unit_out(&mut self, link: usize) -> Result<Option<Unit>, LineError>
        ensures adds { Adds self.old self.new }
        ensures ok { IfOk result (λ unit. ByLink (Sent unit) link self.old.set self.new.set) }
        ensures fault { (result ≡ Err LineError.NoLink) ↔ (length self.old.set.links ≤ link) }
        ensures same { self.new ≡ record self.old { set = self.new.set } }
        ensures err { OnErr result (self.new ≡ self.old) }
    {
        match self.set.unit_out(link) {
            Ok(unit) => Ok(unit),
            Err(error) => Err(error),
        }
    }

    /// Lets a tick pass.
    ///
    /// # Errors
    ///
    /// If a terminal refuses the tick, or memory runs out.
    pub fn tick(&mut self) -> Result<(), TendError>
        ensures { OnOk result (Ticks self.old self.new) }
    {
        match self.set.tick(1) {
            Ok(_) => {
                self.ticks = self.ticks.saturating_add(1);
                Ok(())
            }
            Err(CallError::NoMemory) => Err(TendError::NoMemory),
            Err(CallError::Refused(_)) => Err(TendError::NoTick),
        }
    }

    /// Does all that is due for a link.
    fn tend_link(&mut self, link: usize) -> Result<(), TendError>
        ensures { OnOk result (Adds self.old self.new) }
    {
        let Some(state) = self.state(link) else {
            return Ok(());
        };
        self.stop_held(link, state)?;
        self.change_over(link, state)?;
        self.test(link, state)?;
        self.resume(link, state)?;
        self.pay_owed(link)?;
        self.hurry(link)?;
        self.start(link)
    }

    /// Takes the reports of links, and does all that is due.
    ///
    /// # Errors
    ///
    /// If memory runs out.
    pub fn tend(&mut self) -> Result<(), TendError>
        ensures { OnOk result (Tends self.old self.new) }
    {
        self.heed_all()?;
        for link in 0..self.len() {
            self.tend_link(link)?;
        }
        self.restart();
        self.share()?;
        self.tell_shared()
    }
}
