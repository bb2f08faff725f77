//! The messages of a stream.
ghost use Rattle.std.specs.Prelude.{◌≡◌, ◌≤◌, ◌<◌, ◌+◌, ◌++◌, [], ◌∷◌, List, length, take, is_some};
ghost use Rattle.std.specs.Option.{option_to_list};
ghost use Rattle.m3ua_frames.specs.Stream.{Reading, Item, start, after, item_at, item_told, judged, begun, items_in, reading_after};

use crate::numbers::number_4;
use arrayvec::ArrayVec;
use std::marker::Model;

/// The number of octets of a common header.
const HEADER: usize = 8;

/// The greatest number of octets of a message that is read.
const MOST: u32 = 4096;

/// The item that the last octet completed.
#[derive(Clone, Copy, Debug, PartialEq, Eq)]
pub enum Heard {
    /// No item.
    Nothing,
    /// A message.
    Message,
    /// The header of a message of more than 4,096 octets, which is skipped.
    TooLong,
    /// A header whose length is less than its own 8 octets: nothing after it is read.
    Broken,
}

/// Finds the messages of a stream by the length in their headers (RFC 4666, 3.1.4), in pieces of any size.
#[derive(Drop)]
pub struct Deframer {
    octets: ArrayVec<u8, 4096>,
    over: u32,
    ended: bool,
}

impl Model for Deframer {
    ghost use Rattle.m3ua_frames.specs.Stream.{Reading, IsReading};

    ghost Value = { Reading };

    ghost view = { λ d. record { octets = d.octets.items; over = d.over; ended = d.ended } };

    ghost invariant = { λ d. IsReading (record { octets = d.octets.items; over = d.over; ended = d.ended }) };
}

/// The item that octets are, from the beginning of a message on, if they are complete.
fn judged(octets: &[u8]) -> Heard
    ensures { judged octets.now ≡ item_told result octets.now }
{
    if octets.len() < HEADER {
        return Heard::Nothing;
    }
    let told = number_4(octets, 4);
    if told < HEADER as u32 {
        return Heard::Broken;
    }
    if told > MOST {
        return Heard::TooLong;
    }
    if octets.len() == told as usize {
        Heard::Message
    } else {
        Heard::Nothing
    }
}

/// Removes the octets of a complete item.
fn leave_begun(octets: &mut ArrayVec<u8, 4096>)
    ensures { octets.new.items ≡ begun octets.old.items }
{
    match judged(octets.as_slice()) {
        Heard::Nothing => {}
        Heard::Message | Heard::TooLong | Heard::Broken => octets.clear(),
    }
}

impl Deframer {
    /// A deframer at the beginning of a stream.
    pub fn new() -> Self
        ensures { result ≡ start }
    {
        Deframer {
            octets: ArrayVec::new(),
            over: 0,
            ended: false,
        }
    }

    /// The octets of the message completed last, or of the header of one too long, or of a message not complete yet.
    pub fn octets(&self) -> &[u8]
        ensures value { result.now ≡ self.now.octets }
        ensures within { length result.now ≤ 4096 }
    {
        self.octets.as_slice()
    }

    /// Takes an octet.
    fn octet(&mut self, octet: u8) -> Heard
        ensures state { self.new ≡ after self.old octet }
        ensures item { item_at self.old octet ≡ item_told result self.new.octets }
    {
        if self.ended {
            return Heard::Nothing;
        }
        if self.over > 0 {
            self.over -= 1;
            return Heard::Nothing;
        }
        leave_begun(&mut self.octets);
        self.octets.push(octet);
        match judged(self.octets.as_slice()) {
            Heard::Nothing => Heard::Nothing,
            Heard::Message => Heard::Message,
            Heard::TooLong => {
                self.over = number_4(self.octets.as_slice(), 4) - HEADER as u32;
                Heard::TooLong
            }
            Heard::Broken => {
                self.ended = true;
                Heard::Broken
            }
        }
    }

    /// Takes octets of a piece up to the first that completes an item, or all if none does. Returns how many it took.
    pub fn take(&mut self, piece: &[u8]) -> (usize, Heard)
        ensures within { result.0 ≤ length piece.now }
        ensures progress { 0 < length piece.now → 0 < result.0 }
        ensures state { self.new ≡ reading_after self.old (take result.0 piece.now) }
        ensures items { items_in self.old (take result.0 piece.now) ≡ option_to_list (item_told result.1 self.new.octets) }
        ensures all { item_told result.1 [] ≡ None → result.0 ≡ length piece.now }
    {
        for (index, octet) in piece.iter().enumerate() {
            match self.octet(*octet) {
                Heard::Nothing => {}
                heard => return (index + 1, heard),
            }
        }
        (piece.len(), Heard::Nothing)
    }
}
