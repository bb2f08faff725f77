//! One end: a set and its trial.

use crate::calls::{Stopped, pass, serves, speak, take, tell};
use crate::counts::Counts;
use crate::messages::{Way, message};
use group_changeover::label_of;
use line_tending::{Group, Sif};
use link_processes::Command;
use link_transceiver::{LinkStatus, Report};
use std::collections::VecDeque;

/// How many changeover messages may be under way to one end.
pub const MOST_MAIL: usize = 64;

/// One end of a pair.
#[derive(Drop)]
pub struct SetEnd {
    pub group: Group,
    pub counts: Counts,
    /// From this end to the other.
    way: Way,
    /// Changeover messages under way to this end.
    pub mail: VecDeque<Sif>,
    /// Those of them that are repeated late.
    pub late: VecDeque<Sif>,
    /// Whether each link is down, and its messages weren't retrieved since.
    pub due: [bool; 16],
    /// Whether each link was started since it went down.
    started: [bool; 16],
    /// How many rounds ago each link came into service.
    back: [u32; 16],
    /// Whether the set is to be rebalanced, since a link came into service.
    pub uneven: bool,
}

impl SetEnd {
    /// A new end.
    pub fn new(group: Group, way: Way, mail: VecDeque<Sif>, late: VecDeque<Sif>) -> SetEnd {
        SetEnd {
            group,
            counts: Counts::new(),
            way,
            mail,
            late,
            due: [false; 16],
            started: [false; 16],
            back: [0; 16],
            uneven: false,
        }
    }

    /// Gives the set the next message of a selection, which it may refuse.
    pub fn give(&mut self, selection: u8) {
        let msu = message(self.way, selection, self.counts.sent_of(selection));
        let Some(label) = label_of(&msu) else {
            return;
        };
        if self.group.send(label, msu).is_ok() {
            self.counts.send(selection);
        }
    }

    /// Powers a link on.
    pub fn switch_on(&mut self, link: usize) -> Result<(), Stopped> {
        tell(&mut self.group, link, Command::PowerOn)?;
        self.start(link)
    }

    /// Starts a link, unless it was started.
    pub fn start(&mut self, link: usize) -> Result<(), Stopped> {
        let place = link % 16;
        if !self.started[place] && tell(&mut self.group, link, Command::Start)? {
            self.started[place] = true;
        }
        Ok(())
    }

    /// Notes that a link went down.
    fn fall(&mut self, link: usize) {
        let place = link % 16;
        self.due[place] = true;
        self.started[place] = false;
    }

    /// Notes that a link came into service.
    fn come_back(&mut self, link: usize) {
        self.back[link % 16] = 0;
        self.uneven = true;
    }

    /// Whether a link came into service at most so many rounds ago, or is out of service.
    pub fn is_new(&self, link: usize, rounds: u32) -> bool {
        !serves(&self.group, link) || self.back[link % 16] <= rounds
    }

    /// Takes a report of a link.
    fn heed(&mut self, link: usize, report: Report) {
        let Way { from, to } = self.way;
        match report {
            Report::Message(msu) => self.counts.take(Way { from: to, to: from }, &msu),
            Report::Status(LinkStatus::Down(_)) => self.fall(link),
            Report::Status(LinkStatus::InService) => self.come_back(link),
            Report::Status(_) => {}
        }
    }

    /// Takes all reports of a link.
    pub fn read(&mut self, link: usize) {
        for _ in 0..1000u32 {
            match self.group.report(link) {
                Ok(Some(report)) => self.heed(link, report),
                Ok(None) => return,
                Err(_) => return,
            }
        }
    }

    /// Takes part of the line octets, and all reports; once more if none was taken, since memory ran out.
    fn hear_part(&mut self, link: usize, octets: &[u8]) -> Result<usize, Stopped> {
        for _ in 0..2u8 {
            let taken = take(&mut self.group, link, octets);
            self.read(link);
            if taken > 0 {
                return Ok(taken);
            }
        }
        Err(Stopped::NoMemory)
    }

    /// Takes all line octets.
    pub fn hear(&mut self, link: usize, octets: &[u8]) -> Result<(), Stopped> {
        let mut rest = octets;
        for _ in 0..octets.len() {
            if rest.is_empty() {
                return Ok(());
            }
            let taken = self.hear_part(link, rest)?;
            rest = rest.get(taken..).unwrap_or(&[]);
        }
        Ok(())
    }

    /// The line octets of so many units of a link, and all reports.
    pub fn speak(&mut self, link: usize, units: usize) -> Result<Vec<u8>, Stopped> {
        let octets = speak(&mut self.group, link, units)?;
        self.read(link);
        Ok(octets)
    }

    /// Lets milliseconds pass, and takes all reports.
    pub fn wait(&mut self, ticks: u64) -> Result<(), Stopped> {
        pass(&mut self.group, ticks)?;
        for link in 0..self.group.len() {
            let place = link % 16;
            self.back[place] = self.back[place].saturating_add(1);
            self.read(link);
        }
        Ok(())
    }

    /// Rebalances the set, if due and not refused.
    pub fn rebalance(&mut self) {
        if self.uneven && self.group.rebalance().is_ok() {
            self.uneven = false;
        }
    }

    /// Whether a link is in service, and no changeover of it goes on.
    pub fn is_free(&self, link: usize) -> bool {
        serves(&self.group, link) && !self.group.in_changeover(link)
    }

    /// Stops a link that is in service and held without changeover: a late order may have arrived for it.
    pub fn stop_held(&mut self, link: usize) -> Result<(), Stopped> {
        match self.group.state(link) {
            Some(state) if state.held && self.is_free(link) => {
                let _taken = tell(&mut self.group, link, Command::Stop)?;
                Ok(())
            }
            _ => Ok(()),
        }
    }

    /// Whether a link is in service without changeover, and holds no messages.
    fn is_idle(&self, link: usize) -> bool {
        self.is_free(link) && self.group.held(link) == Some(0)
    }

    /// Whether all is done, given how many messages were to be sent.
    pub fn is_done(&self, messages: u32) -> bool {
        if self.counts.sent < messages || self.uneven || !self.mail.is_empty() {
            return false;
        }
        for link in 0..self.group.len() {
            if !self.is_idle(link) {
                return false;
            }
        }
        true
    }
}
