//! One end of two sets with link management, driven by orders.

use crate::calls::Stopped;
use crate::messages::{Way, message};
use crate::opening::open_set;
use group_changeover::label_of;
use line_tending::{Ends, LinkLine, TendError, TendedSet};
use link_processes::Command;
use resend_store::Mode;
use std::alloc::Global;
use turn_check::Verified;

/// How many octets are sent first on a line.
pub(crate) const AHEAD: usize = 8;

/// One end of a script.
#[derive(Drop)]
pub(crate) struct Side {
    name: &'static str,
    way: Way,
    pub(crate) tender: TendedSet,
    wires: Vec<LinkLine>,
}

fn stopped_by(error: TendError) -> Stopped {
    match error {
        TendError::NoMemory => Stopped::NoMemory,
        TendError::NoTick | TendError::NoLink => Stopped::Refused,
    }
}

fn wires(alloc: Global, links: usize) -> Result<Vec<LinkLine>, Stopped> {
    let mut wires = Vec::with_capacity(alloc, links)?;
    for _link in 0..links {
        if wires.push(LinkLine::new()).is_err() {
            return Err(Stopped::NoMemory);
        }
    }
    Ok(wires)
}

/// A new end.
pub(crate) fn open_side(
    alloc: Global,
    set: &Verified,
    links: usize,
    name: &'static str,
    way: Way,
) -> Result<Side, Stopped> {
    let wires = wires(alloc, links)?;
    let group = open_set(alloc, set, Mode::Basic, links, way)?;
    let ends = Ends {
        own: way.from,
        peer: way.to,
        network: 2,
    };
    let tender = TendedSet::new(alloc, ends, true, group);
    Ok(Side {
        name,
        way,
        tender,
        wires,
    })
}

/// The command that a word names.
fn command_in(word: &str) -> Option<Command> {
    match word {
        "power" => Some(Command::PowerOn),
        "start" => Some(Command::Start),
        "stop" => Some(Command::Stop),
        "outage" => Some(Command::Outage),
        "back" => Some(Command::Back),
        _ => None,
    }
}

impl Side {
    /// Gives a command to a link.
    fn obey(&mut self, text: &mut String, command: Command, link: usize) -> Result<(), Stopped> {
        if let Err(error) = self.tender.obey(link, command) {
            let name = self.name;
            writeln!(text, "{name} refused {error}")?;
        }
        Ok(())
    }

    /// Gives a command to a link or to all links.
    fn obey_word(
        &mut self,
        text: &mut String,
        command: Command,
        word: &str,
    ) -> Result<(), Stopped> {
        if word == "all" {
            for link in 0..self.tender.len() {
                self.obey(text, command, link)?;
            }
            return Ok(());
        }
        match word.parse::<usize>() {
            Ok(link) => self.obey(text, command, link),
            Err(_) => Err(Stopped::BadLine),
        }
    }

    /// Gives the set the first message of a selection.
    fn send(&mut self, text: &mut String, word: &str) -> Result<(), Stopped> {
        let Ok(selection) = word.parse::<u8>() else {
            return Err(Stopped::BadLine);
        };
        let msu = message(self.way, selection % 16, 0);
        let Some(label) = label_of(&msu) else {
            return Err(Stopped::BadLine);
        };
        if let Err(error) = self.tender.send(label, msu) {
            let name = self.name;
            writeln!(text, "{name} refused {error}")?;
        }
        Ok(())
    }

    /// Carries out an order.
    pub(crate) fn order(&mut self, text: &mut String, order: &str) -> Result<(), Stopped> {
        let Some((word, rest)) = order.split_once(' ') else {
            return Err(Stopped::BadLine);
        };
        if word == "send" {
            return self.send(text, rest);
        }
        match command_in(word) {
            Some(command) => self.obey_word(text, command, rest),
            None => Err(Stopped::BadLine),
        }
    }

    /// One round of a line.
    pub(crate) fn pass(
        &mut self,
        link: usize,
        came: &[u8],
        out: &mut Vec<u8>,
    ) -> Result<(), Stopped> {
        out.clear();
        let Some(wire) = self.wires.get_mut(link) else {
            return Err(Stopped::Refused);
        };
        match wire.pass(&mut self.tender, link, AHEAD, came, out) {
            Ok(_) => Ok(()),
            Err(error) => Err(stopped_by(error)),
        }
    }

    /// Completes a round after all lines received.
    pub(crate) fn round(&mut self, told: &mut String) -> Result<(), Stopped> {
        self.tender.tick().map_err(stopped_by)?;
        self.tender.tend().map_err(stopped_by)?;
        let name = self.name;
        for _told in 0..100_000u32 {
            match self.tender.take_told() {
                Some(one) => writeln!(told, "{name} {one}")?,
                None => return Ok(()),
            }
        }
        Ok(())
    }
}
