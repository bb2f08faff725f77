//! One end of a line.
ghost use Rattle.std.specs.Prelude.{◌≡◌, ◌≤◌, length};

use crate::calls::{Stopped, hear, next_report, pass, put, speak, tell, terminal, waiting};
use crate::figures::Figures;
use crate::noise::Noise;
use arrayvec::ArrayVec;
use link_processes::Command;
use link_transceiver::{LinkStatus, Report};
use link_whole::Terminal;
use resend_store::{Mode, Msu};
use std::alloc::Global;

/// The greatest number of unacknowledged or unsent messages that an end keeps.
const MOST_KEPT: usize = 400;

/// The least number of line octets of a unit with one of our messages; other units have fewer.
const LEAST_OCTETS: usize = 12;

/// The octets after a message's number, of which a message has the first 4 or more.
const FILLER: [u8; 32] = [
    0xFF, 0x7E, 0x00, 0xFE, 0x3F, 0x5A, 0xFF, 0xFF, 0x11, 0x7E, 0x7E, 0xC3, 0x80, 0x01, 0xF8, 0x1F,
    0xAA, 0xFF, 0x3E, 0x99, 0x00, 0x00, 0xF7, 0xEF, 0x42, 0xFB, 0xDF, 0x7D, 0xBE, 0x10, 0xE7, 0xFF,
];

/// One end: its terminal, and its counts.
#[derive(Drop)]
pub struct End {
    pub terminal: Terminal,
    pub figures: Figures,
    /// The number of messages given to its terminal.
    given: u32,
    /// Bits of the line that don't make up a whole octet yet, the first one lowest, and their number.
    part: u8,
    len: u8,
}

/// The message with a number.
fn message(number: u32) -> Msu
    ensures { 2 ≤ length result.sif.items }
{
    let [a, b, c, d] = number.to_le_bytes();
    let mut sif = ArrayVec::new();
    sif.push(a);
    sif.push(b);
    sif.push(c);
    sif.push(d);
    let more = 4 + (number % 29) as usize;
    sif.try_extend_from_slice(&FILLER[..more]).unwrap();
    Msu { sio: 0x83, sif }
}

/// The number of a message; a number that no message has if its octets are wrong.
fn number_of(msu: &Msu) -> u32 {
    match msu.sif.as_slice() {
        [a, b, c, d, ..] => {
            let number = u32::from_le_bytes([*a, *b, *c, *d]);
            if msu.sif.as_slice() == message(number).sif.as_slice() {
                number
            } else {
                u32::MAX
            }
        }
        _ => u32::MAX,
    }
}

impl End {
    pub fn new(alloc: Global, mode: Mode) -> Result<End, Stopped> {
        Ok(End {
            terminal: terminal(alloc, mode)?,
            figures: Figures::new(),
            given: 0,
            part: 0,
            len: 0,
        })
    }

    /// Starts the link.
    pub fn start(&mut self) -> Result<(), Stopped> {
        tell(&mut self.terminal, Command::PowerOn)?;
        tell(&mut self.terminal, Command::Start)
    }

    /// Gives the terminal `count` messages to send, unless it keeps too many, up to `messages` in all.
    pub fn give(&mut self, count: u32, messages: u32) {
        for _ in 0..count {
            if self.given >= messages || self.terminal.held() >= MOST_KEPT {
                return;
            }
            if !put(&mut self.terminal, message(self.given)) {
                return;
            }
            self.given = self.given.wrapping_add(1);
        }
    }

    /// The number of messages sent in this spell or acknowledged before it: all that were given except those that wait.
    fn gone(&self) -> u32 {
        let waiting = u32::try_from(waiting(&self.terminal)).unwrap_or(0);
        self.given.saturating_sub(waiting)
    }

    /// The line octets of the next unit.
    pub fn speak(&mut self) -> Result<Vec<u8>, Stopped> {
        let before = self.gone();
        let octets = speak(&mut self.terminal, 1)?;
        let after = self.gone();
        self.figures
            .pass(before, after, octets.len() >= LEAST_OCTETS);
        Ok(octets)
    }

    /// Handles a status of the link. A link that went down is started again.
    fn heed(&mut self, status: LinkStatus) -> Result<(), Stopped> {
        match status {
            LinkStatus::InService => {
                self.figures.begin();
                Ok(())
            }
            LinkStatus::Down(_) => {
                self.figures.end();
                tell(&mut self.terminal, Command::Start)
            }
            _ => Ok(()),
        }
    }

    /// Handles a report.
    fn take(&mut self, report: Report) -> Result<(), Stopped> {
        match report {
            Report::Message(msu) => {
                self.figures.take(number_of(&msu));
                Ok(())
            }
            Report::Status(status) => self.heed(status),
        }
    }

    /// Handles all reports.
    pub fn read(&mut self) -> Result<(), Stopped> {
        for _ in 0..1000u32 {
            match next_report(&mut self.terminal) {
                Some(report) => self.take(report)?,
                None => return Ok(()),
            }
        }
        Ok(())
    }

    /// Lets milliseconds pass, and handles all reports.
    pub fn wait(&mut self, ticks: u64) -> Result<(), Stopped> {
        pass(&mut self.terminal, ticks)?;
        self.read()
    }

    /// Gives the terminal a line octet, and once more if it ran out of memory.
    fn hear(&mut self, octet: u8) -> Result<(), Stopped> {
        if hear(&mut self.terminal, &[octet]) || hear(&mut self.terminal, &[octet]) {
            self.read()
        } else {
            Err(Stopped::NoMemory)
        }
    }

    /// Adds one bit of the line.
    fn hear_bit(&mut self, bit: bool) -> Result<(), Stopped> {
        self.part = self.part >> 1 | if bit { 128 } else { 0 };
        self.len = self.len.wrapping_add(1) % 8;
        if self.len == 0 {
            let octet = self.part;
            return self.hear(octet);
        }
        Ok(())
    }

    /// The bits of an octet, after the damage of the line.
    fn hear_octet(&mut self, octet: u8, noise: &mut Noise) -> Result<(), Stopped> {
        for place in 0..8u8 {
            let (times, turned) = noise.fate();
            for _ in 0..times {
                self.hear_bit((octet >> place & 1 == 1) != turned)?;
            }
        }
        Ok(())
    }

    /// Line octets, after the damage of the line.
    pub fn listen(&mut self, octets: &[u8], noise: &mut Noise) -> Result<(), Stopped> {
        for octet in octets {
            self.hear_octet(*octet, noise)?;
        }
        Ok(())
    }
}
