//! Sharing out selections anew.
ghost use Rattle.std.specs.Prelude.{◌≡◌, true, OnOk, is_some, map};
ghost use Rattle.group_changeover.specs.Sharing.{link_of, selections};
ghost use Rattle.line_tending.specs.Rounds.{Adds};

use crate::tended_set::{TendError, TendedSet};
use crate::told::{SharedOut, Told};
use arrayvec::ArrayVec;
use group_changeover::{RebalanceError, label_of, pick};
use link_group::LinkState;
use resend_store::Msu;

/// The most ticks for which messages to send wait so that links run empty. Also the rounds after which a link with a
/// processor out, whose messages prevent sharing out, is left.
const DRAIN: u64 = 1_000;

/// The ticks after that for which messages don't wait.
const CALM: u64 = 5_000;

/// The state of sharing out.
#[derive(Clone, Copy, Debug, PartialEq, Eq)]
pub enum Sharing {
    /// Messages to send don't wait, and won't before this tick.
    Rests(u64),
    /// Messages to send wait, up to this tick.
    Drains(u64),
    /// All messages that prevent sharing out are on links with a processor out.
    Blocked,
}

impl Sharing {
    pub fn new() -> Sharing {
        Sharing::Rests(0)
    }

    /// The next state if messages prevent sharing out, and not only on links with a processor out.
    fn drained(self, now: u64) -> Sharing {
        match self {
            Sharing::Rests(since) if now < since => Sharing::Rests(since),
            Sharing::Drains(end) if now < end => Sharing::Drains(end),
            Sharing::Drains(_) => Sharing::Rests(now.saturating_add(CALM)),
            Sharing::Rests(_) | Sharing::Blocked => Sharing::Drains(now.saturating_add(DRAIN)),
        }
    }

    /// The next state once sharing out is done or needless: no message to send waits.
    fn settled(self) -> Sharing {
        match self {
            Sharing::Rests(since) => Sharing::Rests(since),
            Sharing::Drains(_) | Sharing::Blocked => Sharing::Rests(0),
        }
    }
}

/// Whether a link may have selections.
fn takes_part(state: LinkState) -> bool {
    state.in_service && !state.held && state.admitted
}

fn has_outage(state: LinkState) -> bool {
    state.far_out || state.own_out
}

/// The selection of a message, if it has a label.
fn selection_of(msu: &Msu) -> Option<u8> {
    match label_of(msu) {
        Some(label) => Some(label.sls),
        None => None,
    }
}

impl TendedSet {
    /// Whether messages to send wait.
    pub fn sends_wait(&self) -> bool {
        matches!(self.sharing, Sharing::Drains(_))
    }

    /// Whether a selection is about to move to another link. Meanwhile its messages to send wait.
    pub fn moves(&self, selection: u8) -> bool
        ensures { result ≡ true → is_some (link_of self.now.set.table selection) ≡ true }
    {
        if !self.sends_wait() {
            return false;
        }
        match self.link_of(selection) {
            Some(link) => pick(self.able().as_slice(), selection) != Some(link),
            None => false,
        }
    }

    /// The links that may have selections, either with a processor outage or without.
    fn able_by(&self, outage: bool) -> ArrayVec<usize, 16> {
        let mut able = ArrayVec::new();
        for link in 0..self.len() {
            match self.state(link) {
                Some(state) if takes_part(state) && has_outage(state) == outage => {
                    let _fits = able.try_push(link).is_ok();
                }
                _ => {}
            }
        }
        able
    }

    /// The links among which selections are to be shared out: those without an outage, else those with one.
    fn able(&self) -> ArrayVec<usize, 16> {
        let able = self.able_by(false);
        if able.is_empty() {
            self.able_by(true)
        } else {
            able
        }
    }

    /// Whether a changeover goes on.
    fn is_changing(&self) -> bool {
        for link in 0..self.len() {
            if self.in_changeover(link) {
                return true;
            }
        }
        false
    }

    /// Whether one of these links counts as failed.
    fn any_failed(&self, able: &[usize]) -> bool {
        for link in able {
            match self.state(*link) {
                Some(state) if state.failed => return true,
                _ => {}
            }
        }
        false
    }

    /// The link of a selection, if it has one.
    fn link_of(&self, selection: u8) -> Option<usize>
        ensures { result ≡ link_of self.now.set.table selection }
    {
        self.set.link_of(selection)
    }

    /// The links of selections.
    pub(crate) fn table(&self) -> SharedOut
        ensures { result ≡ map (link_of self.now.set.table) selections }
    {
        [
            self.link_of(0),
            self.link_of(1),
            self.link_of(2),
            self.link_of(3),
            self.link_of(4),
            self.link_of(5),
            self.link_of(6),
            self.link_of(7),
            self.link_of(8),
            self.link_of(9),
            self.link_of(10),
            self.link_of(11),
            self.link_of(12),
            self.link_of(13),
            self.link_of(14),
            self.link_of(15),
        ]
    }

    /// Reports the links of selections, if they differ from the last report.
    pub(crate) fn tell_shared(&mut self) -> Result<(), TendError>
        ensures { OnOk result (Adds self.old self.new) }
    {
        let table = self.table();
        if table == self.shared {
            return Ok(());
        }
        self.shared = table;
        self.tell(Told::Shared(table))
    }

    /// Whether all selections have the links that they are to have.
    fn is_even(&self, able: &[usize]) -> bool {
        for selection in 0..16u8 {
            if self.link_of(selection) != pick(able, selection) {
                return false;
            }
        }
        !self.any_failed(able)
    }

    /// The selection of a message that a link holds, unless it is bound to it.
    fn selection_at(&self, link: usize, place: usize) -> Option<u8> {
        match self.set.held_at(link, place) {
            Some(msu) if !self.set.is_bound(msu) => selection_of(msu),
            _ => None,
        }
    }

    /// Whether a link holds a message of a selection that is to have another link.
    fn is_in_way(&self, link: usize, able: &[usize]) -> bool {
        let held = self.set.held(link).unwrap_or(0);
        for place in 0..held {
            let Some(selection) = self.selection_at(link, place) else {
                continue;
            };
            if self.link_of(selection) == Some(link) && pick(able, selection) != Some(link) {
                return true;
            }
        }
        false
    }

    /// The links that hold messages of selections that are to have another link.
    fn in_way(&self, able: &[usize]) -> ArrayVec<usize, 16> {
        let mut links = ArrayVec::new();
        for link in 0..self.len() {
            if self.is_in_way(link, able) {
                let _fits = links.try_push(link).is_ok();
            }
        }
        links
    }

    /// Those of these links that have a processor outage.
    fn out_among(&self, links: &[usize]) -> ArrayVec<usize, 16> {
        let mut out = ArrayVec::new();
        for link in links {
            match self.state(*link) {
                Some(state) if has_outage(state) => {
                    let _fits = out.try_push(*link).is_ok();
                }
                _ => {}
            }
        }
        out
    }

    /// Whether a link other than these carries messages.
    pub(crate) fn another_carries(&self, links: &[usize]) -> bool {
        for link in 0..self.len() {
            match self.state(link) {
                Some(state) if state.carrying && state.admitted && !links.contains(&link) => {
                    return true;
                }
                _ => {}
            }
        }
        false
    }

    /// Begins changeover for links whose messages wait because of an outage.
    pub(crate) fn leave(&mut self, links: &[usize]) -> Result<(), TendError>
        ensures { OnOk result (Adds self.old self.new) }
    {
        for link in links {
            self.begin_changeover(*link)?;
        }
        Ok(())
    }

    /// Handles messages that prevent sharing out.
    fn drain(&mut self, able: &[usize]) -> Result<(), TendError>
        ensures { OnOk result (Adds self.old self.new) }
    {
        let links = self.in_way(able);
        let out = self.out_among(links.as_slice());
        self.sharing = if out.len() == links.len() {
            Sharing::Blocked
        } else {
            self.sharing.drained(self.ticks)
        };
        self.wait_for(out.as_slice())
    }

    /// Handles links with a processor out that prevent sharing out: they are left if that lasts for 1,000 rounds.
    fn wait_for(&mut self, out: &[usize]) -> Result<(), TendError>
        ensures { OnOk result (Adds self.old self.new) }
    {
        self.blocked = if out.is_empty() {
            0
        } else {
            self.blocked.saturating_add(1)
        };
        if self.blocked <= DRAIN || !self.another_carries(out) {
            return Ok(());
        }
        self.blocked = 0;
        self.sharing = Sharing::Rests(0);
        self.leave(out)
    }

    /// Ends sharing out, or finds nothing to do: no message to send waits.
    fn settle(&mut self)
        ensures { self.new ≡ self.old }
    {
        self.sharing = self.sharing.settled();
        self.blocked = 0;
    }

    /// Shares out selections anew, if that is needed and possible.
    pub(crate) fn share(&mut self) -> Result<(), TendError>
        ensures { OnOk result (Adds self.old self.new) }
    {
        let able = self.able();
        if able.is_empty() || self.is_changing() || self.is_even(able.as_slice()) {
            self.settle();
            return Ok(());
        }
        match self.rebalance() {
            Ok(()) => {
                self.settle();
                Ok(())
            }
            Err(RebalanceError::NotEmpty) => self.drain(able.as_slice()),
            Err(RebalanceError::Waiting) => Ok(()),
        }
    }
}
