//! The rules by which lines are cut and healed.
//!
//! - While messages remain to be sent, a link in service at both ends without changeover is cut now and then.
//! - A link that goes down at one end, for whatever reason, is cut too.
//! - All that a cut link sends is lost, both ways; each end receives 1s.
//! - An end calls `fail` for a link, and receives its changeover messages, only while the link is down there.
//! - A cut is healed some rounds after both ends retrieved the messages and no changeover message about the link is
//!   under way. Then both ends start the link.
//! - An end rebalances after a link came into service, as soon as that isn't refused.
//!
//! In a late run also:
//!
//! - If one link is cut, another may be cut in the same round.
//! - Half of the changeover messages are repeated, until the link is cut again or served there for over 3 rounds.
//! - An end stops a link that is in service and held, and has no changeover.

use crate::calls::{Stopped, serves};
use crate::dice::Dice;
use crate::set_end::{MOST_MAIL, SetEnd};
use line_tending::Sif;

/// One link is cut, and one cut is healed, in so many rounds on average.
const CUTS: u32 = 12;

const HEALS: u32 = 6;

/// For so many rounds after a return to service a message may be repeated: fewer than 1,400 ticks.
const LATE_ROUNDS: u32 = 3;

/// One such message is repeated in so many rounds.
const REPEATS: u32 = 16;

/// The events of the links.
#[derive(Clone, Copy)]
pub struct Schedule {
    /// Whether each link is cut.
    cut: [bool; 16],
    /// One in so many changeover messages is lost; 0 for none.
    lost: u32,
    late: bool,
    pub cuts: u32,
    /// How many changeover messages were sent, and how many of them were lost.
    pub orders: u32,
    pub losses: u32,
}

/// The link that a changeover message is about.
fn link_in(sif: &Sif) -> usize {
    match sif.as_slice() {
        [_, _, _, selection, ..] => usize::from(*selection / 16),
        _ => 0,
    }
}

/// A copy of these octets.
fn copy_of(sif: &Sif) -> Sif {
    let mut copy = Sif::new();
    let _fits = copy.try_extend_from_slice(sif.as_slice()).is_ok();
    copy
}

/// Drops the messages about a link that were to be repeated.
fn forget(end: &mut SetEnd, link: usize) {
    for _ in 0..end.late.len() {
        let Some(sif) = end.late.pop_front() else {
            return;
        };
        if link_in(&sif) != link {
            let _kept = end.late.push_back(sif).is_ok();
        }
    }
}

/// Whether a message about a link is under way to an end.
fn has_mail(end: &SetEnd, link: usize) -> bool {
    for place in 0..end.mail.len() {
        if link_in(&end.mail[place]) == link {
            return true;
        }
    }
    false
}

impl Schedule {
    /// A schedule before any link is cut.
    pub fn new(lost: u32, late: bool) -> Schedule {
        Schedule {
            cut: [false; 16],
            lost,
            late,
            cuts: 0,
            orders: 0,
            losses: 0,
        }
    }

    /// Whether a link is cut.
    pub fn is_cut(&self, link: usize) -> bool {
        self.cut[link % 16]
    }

    /// Cuts a link, whose messages are then to be retrieved at both ends.
    fn cut(&mut self, near: &mut SetEnd, far: &mut SetEnd, link: usize) {
        let place = link % 16;
        self.cut[place] = true;
        self.cuts = self.cuts.wrapping_add(1);
        near.due[place] = true;
        far.due[place] = true;
        forget(near, link);
        forget(far, link);
    }

    /// Cuts a link that isn't cut, and is in service at both ends without changeover.
    fn cut_free(&mut self, near: &mut SetEnd, far: &mut SetEnd, link: usize) {
        if !self.is_cut(link) && near.is_free(link) && far.is_free(link) {
            self.cut(near, far, link);
        }
    }

    /// Cuts a link now and then, and in a late run maybe another one with it.
    pub fn cut_one(&mut self, near: &mut SetEnd, far: &mut SetEnd, links: usize, dice: &mut Dice) {
        let link = (dice.draw() % (links as u64).max(1)) as usize;
        if !dice.one_in(CUTS) {
            return;
        }
        self.cut_free(near, far, link);
        if self.late && dice.one_in(2) {
            self.cut_free(near, far, (link + 1) % links.max(1));
        }
    }

    /// Cuts a link that went down at an end.
    pub fn look(&mut self, near: &mut SetEnd, far: &mut SetEnd, link: usize) {
        let place = link % 16;
        if !self.is_cut(link) && (near.due[place] || far.due[place]) {
            self.cut(near, far, link);
        }
    }

    /// Heals a link some rounds after both ends retrieved its messages.
    pub fn heal(&mut self, near: &SetEnd, far: &SetEnd, link: usize, dice: &mut Dice) {
        let place = link % 16;
        if !self.is_cut(link) || near.due[place] || far.due[place] {
            return;
        }
        if !has_mail(near, link) && !has_mail(far, link) && dice.one_in(HEALS) {
            self.cut[place] = false;
        }
    }

    /// Sends a changeover message to an end, or loses it. In a late run it may be repeated.
    pub fn send(&mut self, to: &mut SetEnd, sif: Sif, dice: &mut Dice) {
        self.orders = self.orders.wrapping_add(1);
        if self.late && to.late.len() < MOST_MAIL && dice.one_in(2) {
            let _kept = to.late.push_back(copy_of(&sif)).is_ok();
        }
        if dice.one_in(self.lost) || to.mail.len() >= MOST_MAIL {
            self.losses = self.losses.wrapping_add(1);
            return;
        }
        if to.mail.push_back(sif).is_err() {
            self.losses = self.losses.wrapping_add(1);
        }
    }

    /// Delivers the next message under way to an end, if the link is down there, and sends the answer to the other end.
    /// Otherwise it stays under way, after the others.
    fn deliver_one(&mut self, to: &mut SetEnd, from: &mut SetEnd, dice: &mut Dice) {
        let Some(sif) = to.mail.pop_front() else {
            return;
        };
        if serves(&to.group, link_in(&sif)) {
            let _kept = to.mail.push_back(sif).is_ok();
            return;
        }
        if let Some(answer) = to.group.changeover_message(sif.as_slice()).reply {
            self.send(from, answer, dice);
        }
    }

    /// Delivers all messages under way to an end.
    pub fn deliver(&mut self, to: &mut SetEnd, from: &mut SetEnd, dice: &mut Dice) {
        for _ in 0..to.mail.len() {
            self.deliver_one(to, from, dice);
        }
    }

    /// Repeats a message to an end, and delivers the answer to the other; or keeps it for later, or drops it.
    fn repeat_one(&self, to: &mut SetEnd, from: &mut SetEnd, dice: &mut Dice) {
        let Some(sif) = to.late.pop_front() else {
            return;
        };
        if !to.is_new(link_in(&sif), LATE_ROUNDS) {
            return;
        }
        if !dice.one_in(REPEATS) {
            let _kept = to.late.push_back(sif).is_ok();
            return;
        }
        if let Some(answer) = to.group.changeover_message(sif.as_slice()).reply {
            let _heard = from.group.changeover_message(answer.as_slice());
        }
    }

    /// Repeats to an end the messages that are due.
    pub fn repeat(&self, to: &mut SetEnd, from: &mut SetEnd, dice: &mut Dice) {
        for _ in 0..to.late.len() {
            self.repeat_one(to, from, dice);
        }
    }

    /// What an end does for a link that is down or in changeover, and in a late run for one that is held.
    pub fn tend(
        &mut self,
        end: &mut SetEnd,
        other: &mut SetEnd,
        link: usize,
        dice: &mut Dice,
    ) -> Result<(), Stopped> {
        if self.late {
            end.stop_held(link)?;
        }
        if let Some(order) = end.tend(link, dice)? {
            self.send(other, order, dice);
        }
        Ok(())
    }
}
