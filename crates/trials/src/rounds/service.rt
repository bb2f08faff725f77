//! A terminal in service, and its far end.

use crate::calls::{Stopped, hear, next_report, pass, put, speak, take, tell, terminal};
use crate::rounds::traffic::{Traffic, WINDOW, head, message};
use bit_line::Stuffer;
use link_processes::Command;
use link_transceiver::Report;
use link_whole::Terminal;
use resend_store::Mode;
use std::alloc::Global;
use su_octets::Unit;

/// The number of ticks of proving.
const PROVING: u64 = 8200;

/// A terminal, and the units that the far end sends.
#[derive(Drop)]
pub struct Service {
    terminal: Terminal,
    far: Stuffer,
    /// The number of the last message sent; 127 before the first.
    last: u8,
}

/// The number of messages in a report.
fn messages_in(report: Report) -> u64 {
    match report {
        Report::Message(_) => 1,
        Report::Status(_) => 0,
    }
}

impl Service {
    /// A new terminal, which isn't in service.
    pub fn new(alloc: Global) -> Result<Service, Stopped> {
        Ok(Service {
            terminal: terminal(alloc, Mode::Basic)?,
            far: Stuffer::new(),
            last: 127,
        })
    }

    /// Sends a unit from the far end, twice, so that the first one is whole on the line.
    fn say(&mut self, unit: &Unit) {
        if !unit.whole() {
            return;
        }
        for _ in 0..2u8 {
            let octets = self.far.put(unit);
            let _heard = hear(&mut self.terminal, octets.as_slice());
        }
    }

    /// Brings the link into service.
    pub fn align(&mut self) -> Result<(), Stopped> {
        tell(&mut self.terminal, Command::PowerOn)?;
        tell(&mut self.terminal, Command::Start)?;
        self.say(&Unit::Lssu(head(127, 127), 0, None));
        self.say(&Unit::Lssu(head(127, 127), 1, None));
        pass(&mut self.terminal, PROVING)?;
        self.say(&Unit::Fisu(head(127, 127)));
        if self.terminal.in_service() {
            Ok(())
        } else {
            Err(Stopped::Refused)
        }
    }

    /// The number of turns of the actors.
    pub fn turns(&self) -> u64 {
        self.terminal.book().finishes()
    }

    /// Takes all reports, and returns the number of messages.
    fn hand_out(&mut self) -> u64 {
        let mut messages = 0u64;
        for _ in 0..1000u32 {
            match next_report(&mut self.terminal) {
                Some(report) => messages = messages.saturating_add(messages_in(report)),
                None => return messages,
            }
        }
        messages
    }

    /// Gives the terminal a line, takes all reports, and returns the number of messages.
    pub fn take(&mut self, line: &[u8]) -> u64 {
        let mut messages = 0u64;
        let mut rest = line;
        for _ in 0..line.len() {
            if rest.is_empty() {
                break;
            }
            let taken = take(&mut self.terminal, rest);
            rest = &rest[taken..];
            messages = messages.saturating_add(self.hand_out());
        }
        messages
    }

    /// Gives the terminal as many messages as the window allows, if the traffic has messages.
    pub fn give(&mut self, traffic: Traffic) {
        if let Some(octets) = traffic.octets {
            for number in 0..WINDOW {
                let _taken = put(&mut self.terminal, message(number, octets));
            }
        }
    }

    /// Sends as many units as the window allows.
    pub fn send(&mut self) -> Result<Vec<u8>, Stopped> {
        speak(&mut self.terminal, WINDOW as usize)
    }

    /// Acknowledges from the far end all messages that were sent.
    pub fn acknowledge(&mut self) {
        let sent = (self.terminal.sent() % 128) as u8;
        self.last = self.last.wrapping_add(sent) % 128;
        let accepted = Unit::Fisu(head(self.last, 127));
        self.say(&accepted);
    }

    /// Lets one tick pass, and returns whether it did.
    pub fn tick(&mut self) -> bool {
        pass(&mut self.terminal, 1).is_ok()
    }
}
