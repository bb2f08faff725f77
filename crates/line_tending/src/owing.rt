//! Messages owed to the other point.
ghost use Rattle.std.specs.Prelude.{◌≡◌, false, slice_get, OnOk};
ghost use Rattle.line_tending.specs.Cares.{is_open_by, may_say};
ghost use Rattle.line_tending.specs.Rounds.{Adds};

use crate::link_duty::{LinkDuty, Owed, PATIENCE};
use crate::tended_set::{TendError, TendedSet};
use crate::told::Told;
use group_changeover::{Kind, read_changeover};
use resend_store::Msu;

/// A number above that of the messages that a link holds.
const UNTESTED: usize = 1_000_000;

/// Whether a message is a changeover message about a link.
fn is_word(msu: &Msu, about: usize) -> bool {
    match read_changeover(msu.sif.as_slice()) {
        Some(message) => msu.sio % 16 == 0 && usize::from(message.label.sls) == about,
        None => false,
    }
}

impl TendedSet {
    /// Whether a link takes messages about others: it is in service, not held, and neither processor is out.
    pub(crate) fn may_take(&self, link: usize) -> bool {
        match self.state(link) {
            Some(state) => state.in_service && !state.held && !state.far_out && !state.own_out,
            None => false,
        }
    }

    /// The number of messages that a link holds. A link that isn't admitted counts as holding more than any other: its
    /// line may be looped, so that it would receive its own messages.
    fn load(&self, link: usize) -> usize {
        let held = self.set.held(link).unwrap_or(usize::MAX);
        if self.is_admitted(link) {
            held
        } else {
            held.saturating_add(UNTESTED)
        }
    }

    /// The link that takes messages about another one and holds the fewest, if any does; admitted links come first.
    pub(crate) fn least_loaded(&self, about: usize) -> Option<usize> {
        let mut best: Option<(usize, usize)> = None;
        for link in 0..self.len() {
            if link == about || !self.may_take(link) {
                continue;
            }
            let load = self.load(link);
            best = match best {
                Some((least, at)) if least <= load => Some((least, at)),
                _ => Some((load, link)),
            };
        }
        match best {
            Some((_, link)) => Some(link),
            None => None,
        }
    }

    /// Whether a link holds this message.
    fn keeps(&self, link: usize, msu: &Msu) -> bool {
        let held = self.set.held(link).unwrap_or(0);
        for place in 0..held {
            match self.set.held_at(link, place) {
                Some(kept) if kept == msu => return true,
                _ => {}
            }
        }
        false
    }

    /// Whether a link holds a changeover message about another link.
    pub(crate) fn holds_word(&self, by: usize, about: usize) -> bool {
        let held = self.set.held(by).unwrap_or(0);
        for place in 0..held {
            match self.set.held_at(by, place) {
                Some(msu) if is_word(msu, about) => return true,
                _ => {}
            }
        }
        false
    }

    /// The message owed about a link, unless the other link that sent it holds it no more, because it was acknowledged.
    fn owed_still(&self, about: usize, owed: Owed) -> Option<Owed> {
        match owed.by {
            Some(by) if !self.keeps(by, &self.plan.ends.changeover(about, owed.kind)) => None,
            _ => Some(owed),
        }
    }

    /// Handles a link that went down: messages sent by it and not acknowledged are owed again.
    pub(crate) fn owe_again(&mut self, by: usize)
        ensures { self.new ≡ self.old }
    {
        for about in 0..self.len() {
            let owed = self.owed_behind(about, by);
            self.keep(about, self.care(about).owing(owed));
        }
    }

    /// The message owed about a link once the link `by` is down.
    fn owed_behind(&self, about: usize, by: usize) -> Option<Owed> {
        let owed = self.care(about).owed?;
        if owed.by != Some(by) {
            return Some(owed);
        }
        let left = self.owed_still(about, owed)?;
        Some(Owed { by: None, ..left })
    }

    /// Whether a changeover of a link goes on and its messages aren't retrieved.
    fn is_open(&self, about: usize) -> bool
        ensures { result ≡ is_open_by (slice_get self.now.set.links about) }
    {
        self.set.in_changeover(about) && self.set.hand(about).is_none()
    }

    /// The message owed about a link one tick later. It is dropped after 1,400 ticks in which another link would take
    /// it, or once it was acknowledged; an order also once the link's messages are retrieved.
    fn owed_now(&self, about: usize) -> Option<Owed> {
        let is_taken = self.least_loaded(about).is_some();
        let owed = self.care(about).owed_on(is_taken, self.is_open(about))?;
        self.owed_still(about, owed)
    }

    /// Sends a changeover message about a link with this state by another link. Returns whether that takes it.
    fn say(&mut self, about: usize, care: LinkDuty, kind: Kind, by: usize) -> bool
        ensures adds { Adds self.old self.new }
        ensures number { may_say care kind ≡ false → self.new ≡ self.old }
    {
        if !care.may_say(kind) {
            return false;
        }
        let msu = self.plan.ends.changeover(about, kind);
        self.send_by(by, msu)
    }

    /// Sends the message owed about a link by another link, if one takes it.
    fn pay(&mut self, about: usize, owed: Owed) -> Result<Owed, TendError>
        ensures { OnOk result (Adds self.old self.new) }
    {
        let Some(by) = self.least_loaded(about) else {
            return Ok(owed);
        };
        let care = self.care(about);
        let kind = care.spoken(owed.kind);
        if !self.say(about, care, kind, by) {
            return Ok(owed);
        }
        self.tell(Told::Says(about, kind, by))?;
        Ok(Owed {
            kind,
            by: Some(by),
            ..owed
        })
    }

    /// Sends the message owed about a link.
    pub(crate) fn pay_owed(&mut self, about: usize) -> Result<(), TendError>
        ensures { OnOk result (Adds self.old self.new) }
    {
        let Some(owed) = self.owed_now(about) else {
            self.keep(about, self.care(about).owing(None));
            return Ok(());
        };
        if !owed.waits() {
            self.keep(about, self.care(about).owing(Some(owed)));
            return Ok(());
        }
        let paid = self.pay(about, owed)?;
        self.keep(about, self.care(about).owing(Some(paid)));
        Ok(())
    }

    /// Makes this the message owed about a link, in place of an earlier one.
    pub(crate) fn owe(&mut self, link: usize, kind: Kind)
        ensures { self.new ≡ self.old }
    {
        let owed = Owed {
            kind,
            left: PATIENCE,
            by: None,
        };
        self.keep(link, self.care(link).owing(Some(owed)));
    }
}
