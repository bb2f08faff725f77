//! The line bits between two flags.
ghost use Rattle.std.specs.Prelude.{◌≡◌, ◌≤◌, ◌<◌, ◌^◌, Bool, true, false, List, [], ◌∷◌, ◌++◌, reverse};
ghost use Rattle.bit_line.specs.Deframing.{Holds};
ghost use Rattle.bit_line.specs.Judging.{verdict_of};
ghost use Rattle.bit_line.specs.Events.{AreUnit, IsJudged};
ghost use Rattle.std.specs.Bool.{MatchBool};
ghost use Rattle.su_octets.specs.Bits.{low_bits, AreOctets};

use crate::data::Data;
use crate::long::taken_long;
use crate::taken::{ones_after, taken_from};

/// How the content between two flags is judged.
#[derive(Clone, Copy)]
pub enum Closed {
    /// It is that of a signal unit.
    Correct,
    /// It isn't that of a signal unit.
    Wrong,
    /// It is empty.
    Nothing,
}

/// The content so far: the line bits since a flag.
#[derive(Drop)]
pub struct Content {
    /// The number of 1s in a row at the end of the line bits, up to 6.
    pub ones: u8,
    /// Whether there were six 1s in a row.
    pub six: bool,
    /// The bits without the inserted zeros.
    pub data_bits: Data,
}

/// Whether the octets are a signal unit's.
pub fn is_unit(octets: &[u8]) -> bool
    ensures octets { AreOctets octets.now }
    ensures unit { MatchBool result (AreUnit octets.now) (AreUnit octets.now → ⊥) }
{
    su_octets::is_unit(octets)
}

impl Content {
    /// An empty content.
    pub fn new() -> Self
        ensures { Holds [] result }
    {
        Content {
            ones: 0,
            six: false,
            data_bits: Data::new(),
        }
    }

    /// A copy of the content.
    pub fn copy(&self) -> Self
        ensures { (h : List Bool) → Holds h self.now → Holds h result }
    {
        Content {
            ones: self.ones,
            six: self.six,
            data_bits: self.data_bits.copy(),
        }
    }

    /// Forgets all bits.
    pub fn clear(&mut self)
        ensures { Holds [] self.new }
    {
        self.ones = 0;
        self.six = false;
        self.data_bits.clear();
    }

    /// Adds a 1.
    fn push_one(&mut self)
        ensures { (h : List Bool) → Holds h self.old → Holds (true ∷ h) self.new }
    {
        self.ones = self.ones.min(5) + 1;
        self.six = self.six | (self.ones == 6);
        self.data_bits.push(true);
    }

    /// Adds a 0, unless it is an inserted one.
    fn push_zero(&mut self)
        ensures { (h : List Bool) → Holds h self.old → Holds (false ∷ h) self.new }
    {
        if self.ones == 5 {
            self.ones = 0;
        } else {
            self.ones = 0;
            self.data_bits.push(false);
        }
    }

    /// Adds a line bit.
    pub fn push(&mut self, bit: bool)
        ensures { (h : List Bool) → Holds h self.old → Holds (bit ∷ h) self.new }
    {
        if bit {
            self.push_one();
        } else {
            self.push_zero();
        }
    }

    /// Adds up to eight line bits, the low one first.
    pub fn push_few(&mut self, bits: u8, len: u8)
        requires few { len ≤ 8 }
        requires fits { bits < 2 ^ len }
        ensures { (h : List Bool) → Holds h self.old → Holds (reverse (low_bits len bits) ++ h) self.new }
    {
        if self.ones > 5 {
            self.push_each(bits, len);
        } else if let Some(taken) = taken_from(bits, len, self.ones) {
            self.ones = taken.ones;
            self.data_bits.push_few(taken.bits, taken.len);
        } else {
            self.push_each(bits, len);
        }
    }

    /// Adds eight line bits, the low one first.
    pub fn push_eight(&mut self, octet: u8)
        ensures { (h : List Bool) → Holds h self.old → Holds (reverse (low_bits 8 octet) ++ h) self.new }
    {
        if self.ones > 5 {
            self.push_each(octet, 8);
        } else if let Some(ones) = ones_after(octet, self.ones) {
            self.ones = ones;
            self.data_bits.push_eight(octet);
        } else {
            self.push_few(octet, 8);
        }
    }

    /// Adds line bits one by one, the low one first.
    fn push_each(&mut self, bits: u8, len: u8)
        requires { len ≤ 8 }
        ensures { (h : List Bool) → Holds h self.old → Holds (reverse (low_bits len bits) ++ h) self.new }
    {
        for i in 0..len {
            self.push(bits >> i & 1 == 1);
        }
    }

    /// Replaces all line bits by up to forty others, the low one first.
    pub fn restart(&mut self, bits: u64, len: u8)
        requires few { len ≤ 40 }
        requires fits { bits < 2 ^ len }
        ensures { Holds (reverse (low_bits len bits) ++ []) self.new }
    {
        if let Some(taken) = taken_long(bits, len) {
            self.ones = taken.ones;
            self.six = false;
            self.data_bits.refill(taken.bits, taken.len);
        } else {
            self.clear();
            self.push_long(bits, len);
        }
    }

    /// Adds up to forty line bits one by one, the low one first.
    fn push_long(&mut self, bits: u64, len: u8)
        requires { len ≤ 40 }
        ensures { (h : List Bool) → Holds h self.old → Holds (reverse (low_bits len bits) ++ h) self.new }
    {
        for i in 0..len {
            self.push(bits >> i & 1 == 1);
        }
    }

    /// How the content is judged if no more bits follow.
    pub fn judge(&self) -> Closed
        ensures { (h : List Bool) → Holds h self.now → IsJudged h (verdict_of result self.now) }
    {
        if self.data_bits.is_empty() {
            return Closed::Nothing;
        }
        if self.six {
            return Closed::Wrong;
        }
        if self.ones == 5 {
            return Closed::Wrong;
        }
        if self.data_bits.over {
            return Closed::Wrong;
        }
        if self.data_bits.part.len != 0 {
            return Closed::Wrong;
        }
        if is_unit(self.data_bits.octets.as_slice()) {
            Closed::Correct
        } else {
            Closed::Wrong
        }
    }
}
