//! Finds signal units in line bits.
ghost use Rattle.std.specs.Prelude.{◌≡◌, ◌≢◌, ◌≤◌, ◌<◌, ◌-◌, Bool, List, [], ◌++◌, IfOk, OnOk, OnErr, length, take};
ghost use Rattle.su_octets.specs.Bits.{low_bits, bits_of};
ghost use Rattle.bit_line.specs.declared.events.LineEvent.{LineEvent};

use crate::events::{LineEvent, NoMemory};
use crate::receiver::Receiver;
use arrayvec::ArrayVec;
use std::alloc::Global;
use std::marker::Model;

/// Finds signal units in line bits, however they are cut into octets and slices, and counts octets
/// while it finds none (Q.703, 4.1). It begins in counting mode.
#[derive(Drop)]
pub struct Deframer {
    receiver: Receiver,
}

impl Model for Deframer {
    ghost use Rattle.bit_line.specs.declared.receiver.Receiver.{Receiver as PlainReceiver};
    ghost use Rattle.bit_line.specs.Deframing.{HasTaken};

    ghost Value = { PlainReceiver };

    ghost view = { λ d. d.receiver };

    ghost invariant = { λ d. HasTaken d.receiver };
}

impl Deframer {
    ghost use Rattle.bit_line.specs.Deframing.{Stands, HasTaken};
    ghost use Rattle.bit_line.specs.Events.{AreEvents, IsCounting, UnitsDecode, closings};

    /// A deframer before the first bit.
    pub fn new() -> Self
        ensures { Stands [] result }
    {
        Deframer {
            receiver: Receiver::new(),
        }
    }

    /// The invariant of every deframer: it has taken some line bits, none or more, and nothing else made it what it is.
    /// Calling it costs nothing.
    pub fn law(&self)
        ensures { HasTaken self.now }
    {
        let _inside = &self.receiver;
    }

    /// Whether octets are counted: at first and after seven 1s or too long a unit, until a correct one (Q.703, 4.1.4).
    pub fn is_counting(&self) -> bool
        ensures { (bits : List Bool) → Stands bits self.now → IsCounting bits result }
    {
        self.receiver.is_counting()
    }

    /// Takes the eight bits of an octet, the low one first, and returns their events.
    pub fn feed_byte(&mut self, octet: u8) -> ArrayVec<LineEvent, 8>
        ensures stands { (bits : List Bool) → Stands bits self.old → Stands (bits ++ low_bits 8 octet) self.new }
        ensures events { (bits : List Bool) (events : List LineEvent) → Stands bits self.old → AreEvents bits events
            → AreEvents (bits ++ low_bits 8 octet) (events ++ result.items) }
        ensures decode { (bits : List Bool) → Stands bits self.old → UnitsDecode result.items }
        ensures one { (bits : List Bool) → Stands bits self.old → closings result.items ≤ 1 }
    {
        self.receiver.feed_byte(octet)
    }

    /// Takes octets from the front, low bits first, up to the first one that reports an event, or all if none does.
    /// Returns how many it took and the events of the last one (none if no octet reports an event).
    pub fn feed_until(&mut self, octets: &[u8]) -> (usize, ArrayVec<LineEvent, 8>)
        ensures most { result.0 ≤ length octets.now }
        ensures all { result.1.items ≡ [] → result.0 ≡ length octets.now }
        ensures stands { (bits : List Bool) → Stands bits self.old → Stands (bits ++ bits_of (take result.0 octets.now)) self.new }
        ensures events { (bits : List Bool) (events : List LineEvent) → Stands bits self.old → AreEvents bits events
            → AreEvents (bits ++ bits_of (take result.0 octets.now)) (events ++ result.1.items) }
        ensures before { result.1.items ≢ [] → (bits : List Bool) (events : List LineEvent) → Stands bits self.old → AreEvents bits events
            → (0 < result.0) × AreEvents (bits ++ bits_of (take (result.0 - 1) octets.now)) events }
        ensures decode { (bits : List Bool) → Stands bits self.old → UnitsDecode result.1.items }
        ensures one { (bits : List Bool) → Stands bits self.old → closings result.1.items ≤ 1 }
    {
        self.receiver.feed_until(octets)
    }

    /// Takes the bits of the octets in turn and returns their events.
    ///
    /// # Errors
    ///
    /// `NoMemory` if memory for the events runs out. Then no bit was taken.
    pub fn feed(&mut self, alloc: Global, octets: &[u8]) -> Result<Vec<LineEvent>, NoMemory>
        ensures stands { OnOk result ((bits : List Bool) → Stands bits self.old → Stands (bits ++ bits_of octets.now) self.new) }
        ensures events { IfOk result (λ given. (bits : List Bool) (events : List LineEvent) → Stands bits self.old → AreEvents bits events
            → AreEvents (bits ++ bits_of octets.now) (events ++ given.items)) }
        ensures decode { IfOk result (λ given. (bits : List Bool) → Stands bits self.old → UnitsDecode given.items) }
        ensures err { OnErr result (self.new ≡ self.old) }
    {
        self.receiver.feed(alloc, octets)
    }
}
