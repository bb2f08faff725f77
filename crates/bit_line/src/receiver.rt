//! The state of a deframer, bit by bit and octet by octet.
ghost use Rattle.std.specs.Prelude.{◌≡◌, ◌≤◌, ◌<◌, ◌+◌, ◌-◌, ◌*◌, ◌/◌, ◌%◌, ◌^◌, ◌≢◌, ℕ, Bool, true, false, List, [], ◌∷◌, ◌++◌, IfOk, OnOk, OnErr, IfSome, reverse, length, take, if◌then◌else◌, unwrap_or, None};
ghost use Rattle.arrayvec.specs.ArrayVec.{array_vec_len};
ghost use Rattle.su_octets.specs.Bits.{low_bits, bits_of};
ghost use Rattle.bit_line.specs.declared.events.LineEvent.{LineEvent};

use crate::content::Closed;
use crate::counter::{Counter, Given};
use crate::events::{LineEvent, NoMemory};
use crate::gate::Gate;
use crate::reports::{push_sixteen, put_sixteen};
use crate::run::Run;
use crate::window::{is_plain, newer, plain_count};
use arrayvec::ArrayVec;
use std::alloc::Global;

/// The newest seven bits are a 0 and six 1s: the next bit ends a flag or is a seventh 1.
const SIX_ONES: u8 = 126;

/// The state of a deframer. A `Deframer` keeps one to which some line bits led.
#[derive(Drop)]
pub struct Receiver {
    /// The newest seven bits, the newest one highest.
    pub(crate) recent: u8,
    pub(crate) gate: Gate,
    pub(crate) counter: Counter,
    ghost recent_fits: { recent < 128 },
}

impl Receiver {
    ghost use Rattle.bit_line.specs.Deframing.{StandsAt, Stands, LetsIn};
    ghost use Rattle.bit_line.specs.Events.{AreEvents, IsCounting, UnitsDecode, closings};
    ghost use Rattle.bit_line.specs.Running.{IsCalm};
    ghost use Rattle.bit_line.specs.Flags.{inside, MOST_BITS};
    ghost use Rattle.bit_line.specs.Stuffing.{taken_out};
    ghost use Rattle.bit_line.specs.Judging.{report_of, reports_of, weight_of, given_of};

    /// The state before the first bit.
    pub fn new() -> Self
        ensures { Stands [] result }
    {
        Receiver {
            recent: 127,
            gate: Gate::new(),
            counter: Counter::new(),
        }
    }

    /// Whether octets are counted: at first and after seven 1s or too long a unit, until a correct one (Q.703, 4.1.4).
    pub fn is_counting(&self) -> bool
        ensures { (bits : List Bool) → Stands bits self.now → IsCounting bits result }
    {
        !self.counter.is_normal()
    }

    /// Takes the bit that ends a flag.
    fn end_flag(&mut self) -> Given
        requires { self.old.recent ≡ 126 }
        ensures stands { (h : List Bool) (events : List LineEvent) → StandsAt h events self.old
            → StandsAt (false ∷ h) (events ++ reports_of result self.new.gate.content) self.new }
        ensures gate_pace { 8 * weight_of result.closed + self.old.gate.wait ≤ self.new.gate.wait + 1 }
        ensures count_pace { unwrap_or self.new.counter.count 0 + 128 * (if result.sixteen then 1 else 0)
            ≤ unwrap_or self.old.counter.count 0 + 1 }
    {
        self.recent = 63;
        let closed = self.gate.close();
        self.counter.close(closed)
    }

    /// Takes the seventh 1 in a row.
    fn seventh_one(&mut self) -> Given
        requires { self.old.recent ≡ 126 }
        ensures stands { (h : List Bool) (events : List LineEvent) → StandsAt h events self.old
            → StandsAt (true ∷ h) (events ++ reports_of result self.new.gate.content) self.new }
        ensures gate_pace { 8 * weight_of result.closed + self.old.gate.wait ≤ self.new.gate.wait + 1 }
        ensures count_pace { unwrap_or self.new.counter.count 0 + 128 * (if result.sixteen then 1 else 0)
            ≤ unwrap_or self.old.counter.count 0 + 1 }
    {
        self.recent = 127;
        self.gate.pass(false);
        Given {
            sixteen: self.counter.tick(true),
            closed: Closed::Nothing,
        }
    }

    /// Takes a bit that doesn't follow six 1s.
    fn plain_bit(&mut self, bit: bool) -> Given
        requires { self.old.recent ≡ 126 → ⊥ }
        ensures stands { (h : List Bool) (events : List LineEvent) → StandsAt h events self.old
            → StandsAt (bit ∷ h) (events ++ reports_of result self.new.gate.content) self.new }
        ensures gate_pace { 8 * weight_of result.closed + self.old.gate.wait ≤ self.new.gate.wait + 1 }
        ensures count_pace { unwrap_or self.new.counter.count 0 + 128 * (if result.sixteen then 1 else 0)
            ≤ unwrap_or self.old.counter.count 0 + 1 }
    {
        self.gate.pass(self.recent % 2 == 1);
        self.recent = newer(self.recent, bit);
        let over = self.gate.is_over();
        Given {
            sixteen: self.counter.tick(over),
            closed: Closed::Nothing,
        }
    }

    /// Takes a bit.
    fn take_bit(&mut self, bit: bool) -> Given
        ensures stands { (h : List Bool) (events : List LineEvent) → StandsAt h events self.old
            → StandsAt (bit ∷ h) (events ++ reports_of result self.new.gate.content) self.new }
        ensures gate_pace { 8 * weight_of result.closed + self.old.gate.wait ≤ self.new.gate.wait + 1 }
        ensures count_pace { unwrap_or self.new.counter.count 0 + 128 * (if result.sixteen then 1 else 0)
            ≤ unwrap_or self.old.counter.count 0 + 1 }
    {
        if self.recent != SIX_ONES {
            self.plain_bit(bit)
        } else if bit {
            self.seventh_one()
        } else {
            self.end_flag()
        }
    }

    /// Whether the mode is normal and stays so for eight more bits that end no flag and make no seven 1s.
    fn is_calm(&self) -> bool
        ensures { result ≡ true → (self.now.counter.count ≡ None)
            × ((h : List Bool) → LetsIn h self.now.gate → length (taken_out (inside h)) + 8 ≤ MOST_BITS) }
    {
        if self.counter.is_normal() {
            self.gate.has_room()
        } else {
            false
        }
    }

    /// Takes the first `len` bits at once, the low one first. None of them may follow six 1s. They report nothing.
    pub(crate) fn take_plain(&mut self, bits: u8, len: u8)
        requires few { len ≤ 8 }
        requires normal { self.old.counter.count ≡ None }
        requires room { (h : List Bool) → LetsIn h self.old.gate → length (taken_out (inside h)) + 8 ≤ MOST_BITS }
        requires plain { (m : ℕ) → m < len → (self.old.recent + bits * 128) / 2 ^ m % 128 ≢ 126 }
        ensures stands { (h : List Bool) (events : List LineEvent) → StandsAt h events self.old
            → StandsAt (reverse (low_bits len bits) ++ h) events self.new }
        ensures gate_pace { self.old.gate.wait ≤ self.new.gate.wait + len }
        ensures normal { self.new.counter.count ≡ None }
    {
        let window = u16::from(self.recent) + u16::from(bits) * 128;
        self.gate.pass_few((window % (1 << len)) as u8, len);
        self.recent = ((window >> len) % 128) as u8;
    }

    /// Takes the first few of up to eight bits at once, the low one first: bits that certainly report nothing. Returns
    /// how many it took.
    fn take_calm(&mut self, bits: u8, len: u8) -> u8
        requires { len ≤ 8 }
        ensures most { result ≤ len }
        ensures stands { (h : List Bool) (events : List LineEvent) → StandsAt h events self.old
            → StandsAt (reverse (low_bits result bits) ++ h) events self.new }
        ensures gate_pace { self.old.gate.wait ≤ self.new.gate.wait + result }
        ensures count_pace { unwrap_or self.new.counter.count 0 ≤ unwrap_or self.old.counter.count 0 }
    {
        if !self.is_calm() {
            return 0;
        }
        let count = plain_count(self.recent, bits, len);
        self.take_plain(bits, count);
        count
    }

    /// Takes whole octets from the front while no bit follows six 1s and no octet has two inserted zeros. They report
    /// nothing. Returns how many it took.
    pub(crate) fn take_run(&mut self, octets: &[u8]) -> usize
        ensures most { result ≤ length octets.now }
        ensures stands { (h : List Bool) (events : List LineEvent) → StandsAt h events self.old
            → StandsAt (reverse (bits_of (take result octets.now)) ++ h) events self.new }
    {
        let front = self.take_front(octets);
        if front > 0 {
            return front;
        }
        let content = &self.gate.content;
        if !self.is_open() || content.ones > 5 {
            return 0;
        }
        let start = Run {
            recent: self.recent,
            ones: content.ones,
            part: content.data_bits.part,
        };
        let (taken, run) = start.over(&mut self.gate.content.data_bits.octets, octets);
        self.recent = run.recent;
        self.gate.content.ones = run.ones;
        self.gate.content.data_bits.part = run.part;
        taken
    }

    /// Whether the mode is normal, each new bit adds one to the content, and the content isn't longer than a unit.
    fn is_open(&self) -> bool
        ensures { result ≡ true → IsCalm self.now }
    {
        if !self.counter.is_normal() || !self.gate.seen {
            return false;
        }
        self.gate.wait == 0 && !self.gate.content.data_bits.over
    }

    /// Takes an octet at once, the low bit first, if no bit follows six 1s and it certainly reports nothing. Returns
    /// whether it took the octet.
    fn take_whole(&mut self, octet: u8) -> bool
        ensures taken { result ≡ true → (h : List Bool) (events : List LineEvent) → StandsAt h events self.old
            → StandsAt (reverse (low_bits 8 octet) ++ h) events self.new }
        ensures left { result ≡ false → self.new ≡ self.old }
    {
        if !self.is_calm() {
            return false;
        }
        let window = u16::from(self.recent) + u16::from(octet) * 128;
        if !is_plain(window) {
            return false;
        }
        self.gate.pass_eight((window % 256) as u8);
        self.recent = (window / 256) as u8;
        true
    }

    /// An equal state.
    fn copy(&self) -> Self
        ensures { (h : List Bool) (events : List LineEvent) → StandsAt h events self.now → StandsAt h events result }
    {
        Receiver {
            recent: self.recent,
            gate: self.gate.copy(),
            counter: self.counter.copy(),
        }
    }

    /// Appends the report of the content that a flag closed.
    fn put_closed(&self, closed: Closed, events: &mut ArrayVec<LineEvent, 8>)
        requires { array_vec_len events.old < 8 }
        ensures { events.new.items ≡ events.old.items ++ report_of closed self.now.gate.content }
    {
        match closed {
            Closed::Correct => events.push(LineEvent::Unit(self.gate.content.data_bits.octets())),
            Closed::Wrong => events.push(LineEvent::Errored),
            Closed::Nothing => {}
        }
    }

    /// Appends all reports at a bit.
    fn put(&self, given: Given, events: &mut ArrayVec<LineEvent, 8>)
        requires { array_vec_len events.old + 2 ≤ 8 }
        ensures items { events.new.items ≡ events.old.items ++ reports_of given self.now.gate.content }
        ensures len { array_vec_len events.new
            ≡ array_vec_len events.old + (if given.sixteen then 1 else 0) + weight_of given.closed }
    {
        put_sixteen(given.sixteen, events);
        self.put_closed(given.closed, events);
    }

    /// Takes the eight bits of an octet, the low one first, and returns their events.
    pub fn feed_byte(&mut self, octet: u8) -> ArrayVec<LineEvent, 8>
        ensures stands { (bits : List Bool) → Stands bits self.old → Stands (bits ++ low_bits 8 octet) self.new }
        ensures events { (bits : List Bool) (events : List LineEvent) → Stands bits self.old → AreEvents bits events
            → AreEvents (bits ++ low_bits 8 octet) (events ++ result.items) }
        ensures decode { (bits : List Bool) → Stands bits self.old → UnitsDecode result.items }
        ensures one { (bits : List Bool) → Stands bits self.old → closings result.items ≤ 1 }
    {
        let mut events = ArrayVec::new();
        let mut taken = 0u8;
        while taken < 8 {
            taken += self.take_calm(octet >> taken, 8 - taken);
            if taken < 8 {
                let given = self.take_bit(octet >> taken & 1 == 1);
                self.put(given, &mut events);
                taken += 1;
            }
        }
        events
    }

    /// As `feed_byte`, but returns `None` if there are no events.
    fn feed_one(&mut self, octet: u8) -> Option<ArrayVec<LineEvent, 8>>
        ensures some { IfSome result (λ given. given.items ≢ []) }
        ensures stands { (bits : List Bool) → Stands bits self.old → Stands (bits ++ low_bits 8 octet) self.new }
        ensures events { (bits : List Bool) (events : List LineEvent) → Stands bits self.old → AreEvents bits events
            → AreEvents (bits ++ low_bits 8 octet) (events ++ given_of result) }
        ensures decode { (bits : List Bool) → Stands bits self.old → UnitsDecode (given_of result) }
        ensures one { (bits : List Bool) → Stands bits self.old → closings (given_of result) ≤ 1 }
    {
        if self.take_whole(octet) {
            return None;
        }
        let events = self.feed_byte(octet);
        if events.is_empty() {
            None
        } else {
            Some(events)
        }
    }

    /// Takes octets from the front, low bits first, up to the first one that reports an event, or all if none does.
    /// Returns how many it took and the events of the last one (none if no octet reports an event).
    pub fn feed_until(&mut self, octets: &[u8]) -> (usize, ArrayVec<LineEvent, 8>)
        ensures most { result.0 ≤ length octets.now }
        ensures all { result.1.items ≡ [] → result.0 ≡ length octets.now }
        ensures stands { (bits : List Bool) → Stands bits self.old → Stands (bits ++ bits_of (take result.0 octets.now)) self.new }
        ensures events { (bits : List Bool) (events : List LineEvent) → Stands bits self.old → AreEvents bits events
            → AreEvents (bits ++ bits_of (take result.0 octets.now)) (events ++ result.1.items) }
        ensures before { result.1.items ≢ [] → (bits : List Bool) (events : List LineEvent) → Stands bits self.old → AreEvents bits events
            → (0 < result.0) × AreEvents (bits ++ bits_of (take (result.0 - 1) octets.now)) events }
        ensures decode { (bits : List Bool) → Stands bits self.old → UnitsDecode result.1.items }
        ensures one { (bits : List Bool) → Stands bits self.old → closings result.1.items ≤ 1 }
    {
        let mut taken = 0;
        while taken < octets.len() {
            taken += self.take_run(&octets[taken..]);
            if taken < octets.len() {
                let given = self.feed_one(octets[taken]);
                taken += 1;
                if let Some(events) = given {
                    return (taken, events);
                }
            }
        }
        (taken, ArrayVec::new())
    }

    /// Appends the report of the content that a flag closed.
    fn push_closed(&self, closed: Closed, events: &mut Vec<LineEvent>) -> Result<(), NoMemory>
        ensures { OnOk result (events.new.items ≡ events.old.items ++ report_of closed self.now.gate.content) }
    {
        match closed {
            Closed::Correct => {
                events.push(LineEvent::Unit(self.gate.content.data_bits.octets()))?;
            }
            Closed::Wrong => events.push(LineEvent::Errored)?,
            Closed::Nothing => {}
        }
        Ok(())
    }

    /// Takes the eight bits of an octet and appends their events.
    pub(crate) fn push_octet(
        &mut self,
        octet: u8,
        events: &mut Vec<LineEvent>,
    ) -> Result<(), NoMemory>
        ensures { OnOk result ((h : List Bool) (before : List LineEvent) → StandsAt h (before ++ events.old.items) self.old
            → StandsAt (reverse (low_bits 8 octet) ++ h) (before ++ events.new.items) self.new) }
    {
        if self.take_whole(octet) {
            Ok(())
        } else {
            self.push_bits(octet, events)
        }
    }

    /// Takes the eight bits of an octet in few steps and appends their events.
    fn push_bits(&mut self, octet: u8, events: &mut Vec<LineEvent>) -> Result<(), NoMemory>
        ensures { OnOk result ((h : List Bool) (before : List LineEvent) → StandsAt h (before ++ events.old.items) self.old
            → StandsAt (reverse (low_bits 8 octet) ++ h) (before ++ events.new.items) self.new) }
    {
        let mut taken = 0u8;
        while taken < 8 {
            taken += self.take_calm(octet >> taken, 8 - taken);
            if taken < 8 {
                let given = self.take_bit(octet >> taken & 1 == 1);
                push_sixteen(given.sixteen, events)?;
                self.push_closed(given.closed, events)?;
                taken += 1;
            }
        }
        Ok(())
    }

    /// Takes the bits of the octets in turn and returns their events.
    ///
    /// # Errors
    ///
    /// `NoMemory` if memory for the events runs out. Then no bit was taken.
    pub fn feed(&mut self, alloc: Global, octets: &[u8]) -> Result<Vec<LineEvent>, NoMemory>
        ensures stands { OnOk result ((bits : List Bool) → Stands bits self.old → Stands (bits ++ bits_of octets.now) self.new) }
        ensures events { IfOk result (λ given. (bits : List Bool) (events : List LineEvent) → Stands bits self.old → AreEvents bits events
            → AreEvents (bits ++ bits_of octets.now) (events ++ given.items)) }
        ensures decode { IfOk result (λ given. (bits : List Bool) → Stands bits self.old → UnitsDecode given.items) }
        ensures err { OnErr result (self.new ≡ self.old) }
    {
        let mut next = self.copy();
        let mut events = Vec::new(alloc);
        let mut taken = 0;
        while taken < octets.len() {
            taken += next.push_next(&octets[taken..], &mut events)?;
        }
        *self = next;
        Ok(events)
    }
}
