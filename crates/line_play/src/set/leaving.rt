//! How a run of a set ends.
ghost use Rattle.std.specs.Prelude.{◌≡◌, ◌&&◌, nat_lt, OnOk};
ghost use Rattle.line_play.specs.SetDoing.{stood};
ghost use Rattle.line_play.specs.SetLeaving.{keeps_some, any_keeps, StopsAll, Departs};

use crate::set::commanding::obey_links;
use crate::set::given::first_links;
use crate::set::state::{Ending, SetState};
use line_tending::TendedSet;
use script_links::Order;
use std::alloc::{AllocError, Global};

/// The milliseconds for which a run goes on after its links are stopped, so that the other end receives SIOS.
const LINGER: u64 = 100;

/// Whether a link holds messages, or retrieved ones that aren't diverted yet.
fn keeps_some(tender: &TendedSet, link: usize) -> bool
    ensures { result ≡ keeps_some tender.now link }
{
    tender.set().held(link).unwrap_or(0) > 0 || tender.set().hand(link).unwrap_or(0) > 0
}

/// Whether any link does.
fn any_keeps(tender: &TendedSet) -> bool
    ensures { result ≡ any_keeps tender.now }
{
    for link in 0..tender.len() {
        if keeps_some(tender, link) {
            return true;
        }
    }
    false
}

/// Stops all links.
fn stop_all(alloc: Global, tender: &mut TendedSet) -> Result<(), AllocError>
    ensures { OnOk result (StopsAll tender.old tender.new) }
{
    let links = first_links(alloc, tender.len())?;
    let _refused = obey_links(tender, links.as_slice(), Order::Stop)?;
    Ok(())
}

impl SetState {
    /// Whether messages are still sent, up to this millisecond.
    fn goes_out(&self, until: u64) -> bool
        ensures { result ≡ (nat_lt self.now.tender.ticks until && any_keeps self.now.tender) }
    {
        self.tender.now() < until && any_keeps(&self.tender)
    }

    /// Stops all links, unless messages are still sent up to this millisecond.
    fn leave_by(&mut self, alloc: Global, until: u64) -> Result<(), AllocError>
        requires { self.old.ending ≡ Ending.Leaves until }
        ensures { OnOk result (Departs (stood self.old) (stood self.new)) }
    {
        if self.goes_out(until) {
            return Ok(());
        }
        let end = self.tender.now().saturating_add(LINGER);
        stop_all(alloc, &mut self.tender)?;
        self.ending = Ending::Stops(end);
        Ok(())
    }

    /// Whether it is no later than this millisecond.
    fn is_before(&self, since: u64) -> bool
        ensures { result ≡ nat_lt self.now.tender.ticks since }
    {
        self.tender.now() < since
    }

    /// Ends the run, unless it is too early.
    fn end_by(&mut self, since: u64)
        requires { self.old.ending ≡ Ending.Stops since }
        ensures { Departs (stood self.old) (stood self.new) }
    {
        if self.is_before(since) {
            return;
        }
        self.ending = Ending::Over;
    }

    /// Does what is due once the run is to end.
    pub(crate) fn depart(&mut self, alloc: Global) -> Result<(), AllocError>
        ensures { OnOk result (Departs (stood self.old) (stood self.new)) }
    {
        match self.ending {
            Ending::Leaves(until) => self.leave_by(alloc, until),
            Ending::Stops(since) => {
                self.end_by(since);
                Ok(())
            }
            Ending::Stays | Ending::Over => Ok(()),
        }
    }
}
