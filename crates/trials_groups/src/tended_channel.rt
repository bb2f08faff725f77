//! One direction of a line between two sets with link management.

use crate::calls::Stopped;
use crate::dice::Dice;
use std::collections::VecDeque;

/// How many octets are sent in a round.
pub const OCTETS: usize = 8;

/// How many octets may be under way; more are lost.
const MOST: usize = 65_536;

/// How many octets at most arrive at once after a stall.
pub const BURST: usize = 4_096;

/// The condition of one direction of a line.
#[derive(Clone, Copy, PartialEq, Eq, Debug)]
pub enum Weather {
    /// No fault.
    Fair,
    /// All octets sent are lost.
    Cut,
    /// One in so many bits is flipped.
    Noise(u32),
    /// No octet moves.
    Stall,
}

/// One direction of a line.
#[derive(Drop)]
pub struct Channel {
    queue: VecDeque<u8>,
    /// Whether a fixed number of octets arrives in each round, as from a card; otherwise as many as were sent.
    clocked: bool,
    pub weather: Weather,
}

/// An octet that noise may damage.
fn damaged(octet: u8, often: u32, dice: &mut Dice) -> u8 {
    let mut damaged = octet;
    for bit in 0..8u32 {
        if dice.one_in(often) {
            damaged ^= 1u8.wrapping_shl(bit);
        }
    }
    damaged
}

impl Channel {
    /// A channel with no octets under way.
    pub fn new(queue: VecDeque<u8>, clocked: bool) -> Channel {
        Channel {
            queue,
            clocked,
            weather: Weather::Fair,
        }
    }

    /// Sends octets.
    pub fn put(&mut self, octets: &[u8]) -> Result<(), Stopped> {
        for octet in octets {
            if self.queue.len() < MOST && self.queue.push_back(*octet).is_err() {
                return Err(Stopped::NoMemory);
            }
        }
        Ok(())
    }

    /// How many octets arrive now.
    fn due(&self) -> usize {
        match self.weather {
            Weather::Stall => 0,
            Weather::Cut if !self.clocked => 0,
            _ if self.clocked => OCTETS,
            _ => self.queue.len().min(BURST),
        }
    }

    /// The next octet, as it arrives.
    fn next(&mut self, dice: &mut Dice) -> u8 {
        let octet = self.queue.pop_front().unwrap_or(0xFF);
        match self.weather {
            Weather::Cut => 0xFF,
            Weather::Noise(often) => damaged(octet, often, dice),
            Weather::Fair | Weather::Stall => octet,
        }
    }

    /// Lets octets arrive.
    pub fn take(&mut self, part: &mut Vec<u8>, dice: &mut Dice) -> Result<(), Stopped> {
        part.clear();
        if self.weather == Weather::Cut && !self.clocked {
            self.queue.clear();
        }
        for _octet in 0..self.due() {
            let octet = self.next(dice);
            if part.push(octet).is_err() {
                return Err(Stopped::NoMemory);
            }
        }
        Ok(())
    }
}
