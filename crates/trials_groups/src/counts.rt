//! The counts at one end.

use crate::messages::{Way, place_of};
use resend_store::Msu;

/// How many numbers below the next one are remembered as left out or not: 16 times the bits of a word.
const REMEMBERED: u32 = 1_024;

/// How many messages were sent and received, in all and of each of 16 selections.
#[derive(Clone, Copy)]
pub struct Counts {
    /// How many messages its set took to send.
    pub sent: u32,
    /// How many messages were received.
    pub came: u32,
    /// How many of those had been received before.
    pub twice: u32,
    /// How many of those were received for the first time, but after a later one of their selection.
    pub late: u32,
    /// How many of those differ from what was sent.
    pub altered: u32,
    sent_of: [u32; 16],
    /// The next expected number of each selection, or a later one if messages are missing.
    next_of: [u32; 16],
    /// Which of the last numbers below that were left out: one bit each, at the number modulo 1,024.
    left_out: [[u64; 16]; 16],
}

impl Counts {
    /// All counts are 0.
    pub fn new() -> Counts {
        Counts {
            sent: 0,
            came: 0,
            twice: 0,
            late: 0,
            altered: 0,
            sent_of: [0; 16],
            next_of: [0; 16],
            left_out: [[0; 16]; 16],
        }
    }

    /// How many messages of a selection the set took.
    pub fn sent_of(&self, selection: u8) -> u32 {
        self.sent_of[usize::from(selection % 16)]
    }

    /// Counts one more message of a selection that the set took.
    pub fn send(&mut self, selection: u8) {
        let place = usize::from(selection % 16);
        self.sent_of[place] = self.sent_of[place].wrapping_add(1);
        self.sent = self.sent.wrapping_add(1);
    }

    /// How many were received twice, out of order, or altered.
    pub fn wrong(&self) -> u32 {
        self.twice
            .wrapping_add(self.late)
            .wrapping_add(self.altered)
    }

    /// Notes whether a number of a selection was left out. Returns the earlier note.
    fn note(&mut self, place: usize, number: u32, is_out: bool) -> bool {
        let word = (number / 64 % 16) as usize;
        let bit = 1u64 << (number % 64);
        let before = self.left_out[place % 16][word] & bit != 0;
        if is_out {
            self.left_out[place % 16][word] |= bit;
        } else {
            self.left_out[place % 16][word] &= !bit;
        }
        before
    }

    /// Counts a received message with a number below the next one.
    fn come_again(&mut self, place: usize, number: u32, next: u32) {
        let is_remembered = next.wrapping_sub(number) <= REMEMBERED;
        if is_remembered && self.note(place, number, false) {
            self.late = self.late.wrapping_add(1);
        } else {
            self.twice = self.twice.wrapping_add(1);
        }
    }

    /// Counts a received message with a number of a selection.
    fn come(&mut self, selection: u8, number: u32) {
        let place = usize::from(selection % 16);
        let next = self.next_of[place];
        if number < next {
            self.come_again(place, number, next);
            return;
        }
        let first = next.max(number.saturating_sub(REMEMBERED));
        for left in first..number {
            let _before = self.note(place, left, true);
        }
        let _before = self.note(place, number, false);
        self.next_of[place] = number.wrapping_add(1);
    }

    /// Counts a received message.
    pub fn take(&mut self, way: Way, msu: &Msu) {
        self.came = self.came.wrapping_add(1);
        match place_of(way, msu) {
            Some((selection, number)) => self.come(selection, number),
            None => self.altered = self.altered.wrapping_add(1),
        }
    }
}
