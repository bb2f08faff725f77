//! One end of a pair of sets with link management.

use crate::calls::Stopped;
use crate::counts::Counts;
use crate::dice::Dice;
use crate::messages::{Way, message};
use group_changeover::label_of;
use line_tending::{LineChange, LinkLine, TendError, TendedSet, Told};
use link_processes::Command;
use resend_store::Msu;

/// How many octets are sent first on a line.
const AHEAD: usize = 8;

/// One end.
#[derive(Drop)]
pub struct TendedEnd {
    pub tender: TendedSet,
    wires: Vec<LinkLine>,
    pub counts: Counts,
    way: Way,
    /// How many messages may be lost, as reported.
    pub unsure: u64,
    pub changeovers: u32,
    /// How often traffic restart allowed was received.
    pub restarts: u32,
    pub silences: u32,
    /// How often a message was refused.
    pub refused: u32,
    pub loud: bool,
}

fn stopped_by(error: TendError) -> Stopped {
    match error {
        TendError::NoMemory => Stopped::NoMemory,
        TendError::NoTick | TendError::NoLink => Stopped::Refused,
    }
}

impl TendedEnd {
    /// A new end.
    pub fn new(tender: TendedSet, wires: Vec<LinkLine>, way: Way, loud: bool) -> TendedEnd {
        TendedEnd {
            tender,
            wires,
            counts: Counts::new(),
            way,
            unsure: 0,
            changeovers: 0,
            restarts: 0,
            silences: 0,
            refused: 0,
            loud,
        }
    }

    /// Powers all links on, to come into service.
    pub fn switch_on(&mut self) {
        for link in 0..self.tender.len() {
            let _on = self.tender.obey(link, Command::PowerOn).is_ok();
            let _starts = self.tender.obey(link, Command::Start).is_ok();
        }
    }

    /// Gives the set the next message of a selection, which it may refuse.
    pub fn give(&mut self, selection: u8) {
        if self.tender.sends_wait() {
            return;
        }
        let msu = message(self.way, selection, self.counts.sent_of(selection));
        let Some(label) = label_of(&msu) else {
            return;
        };
        if self.tender.send(label, msu).is_ok() {
            self.counts.send(selection);
        } else {
            self.refused = self.refused.wrapping_add(1);
        }
    }

    /// Gives the messages that are due.
    pub fn give_due(&mut self, rate: u32, dice: &mut Dice) {
        for _message in 0..16u8 {
            let selection = dice.selection();
            if (dice.draw() % 16_000) < u64::from(rate) {
                self.give(selection);
            }
        }
    }

    /// One round of a line.
    pub fn pass(&mut self, link: usize, came: &[u8], out: &mut Vec<u8>) -> Result<(), Stopped> {
        out.clear();
        let Some(wire) = self.wires.get_mut(link) else {
            return Err(Stopped::Refused);
        };
        match wire.pass(&mut self.tender, link, AHEAD, came, out) {
            Ok(LineChange::Silent) => self.silences = self.silences.wrapping_add(1),
            Ok(_) => {}
            Err(error) => return Err(stopped_by(error)),
        }
        Ok(())
    }

    /// Notes a received message. One of network management is the other end's traffic restart allowed.
    fn heed_message(&mut self, msu: &Msu) {
        let Way { from, to } = self.way;
        if msu.sio % 16 == 0 {
            self.restarts = self.restarts.wrapping_add(1);
        } else {
            self.counts.take(Way { from: to, to: from }, msu);
        }
    }

    /// Notes a report.
    fn heed(&mut self, text: &mut String, told: Told) -> Result<(), Stopped> {
        match &told {
            Told::Message(_, msu) => {
                self.heed_message(msu);
                return Ok(());
            }
            Told::Unsure(_, count) => self.unsure = self.unsure.wrapping_add(*count as u64),
            Told::Changeover(_) => self.changeovers = self.changeovers.wrapping_add(1),
            _ => {}
        }
        if self.loud {
            let now = self.tender.now();
            let from = self.way.from;
            writeln!(text, "{now} {from}: {told}")?;
        }
        Ok(())
    }

    /// Completes a round after all lines received.
    pub fn round(&mut self, text: &mut String) -> Result<(), Stopped> {
        self.tender.tick().map_err(stopped_by)?;
        self.tender.tend().map_err(stopped_by)?;
        for _told in 0..100_000u32 {
            match self.tender.take_told() {
                Some(told) => self.heed(text, told)?,
                None => return Ok(()),
            }
        }
        Ok(())
    }

    /// Whether each link is in service and admitted, and no work is left.
    pub fn is_whole(&self) -> bool {
        for link in 0..self.tender.len() {
            match self.tender.set().state(link) {
                Some(state) if state.in_service && state.admitted && !state.held => {}
                _ => return false,
            }
            if self.tender.set().held(link) != Some(0) {
                return false;
            }
        }
        self.tender.is_calm()
    }
}
