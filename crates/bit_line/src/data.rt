//! The bits of a unit, without inserted zeros.
ghost use Rattle.std.specs.Prelude.{◌≡◌, ◌≤◌, ◌<◌, ◌^◌, ◌+◌, Bool, true, List, [], ◌∷◌, ◌++◌, reverse, length};
ghost use Rattle.bit_line.specs.Flags.{MOST_BITS};
ghost use Rattle.std.specs.Bool.{MatchBool};
ghost use Rattle.bit_line.specs.Deframing.{Gathers};
ghost use Rattle.su_octets.specs.Bits.{low_bits};

use crate::part::Part;
use arrayvec::ArrayVec;

/// Up to 2,224 bits, as octets. If there are more, only `over` is valid.
#[derive(Drop)]
pub struct Data {
    pub octets: ArrayVec<u8, 278>,
    pub part: Part,
    pub over: bool,
}

impl Data {
    /// No bits.
    pub fn new() -> Self
        ensures { Gathers [] result }
    {
        Data {
            octets: ArrayVec::new(),
            part: Part::new(),
            over: false,
        }
    }

    /// Forgets all bits.
    pub fn clear(&mut self)
        ensures { Gathers [] self.new }
    {
        self.octets.clear();
        self.part = Part::new();
        self.over = false;
    }

    /// The complete octets.
    pub fn octets(&self) -> ArrayVec<u8, 278>
        ensures { result.items ≡ self.now.octets.items }
    {
        let mut octets = ArrayVec::new();
        octets
            .try_extend_from_slice(self.octets.as_slice())
            .unwrap();
        octets
    }

    /// A copy of the bits.
    pub fn copy(&self) -> Self
        ensures { (h : List Bool) → Gathers h self.now → Gathers h result }
    {
        Data {
            octets: self.octets(),
            part: self.part,
            over: self.over,
        }
    }

    /// Whether there are no bits.
    pub fn is_empty(&self) -> bool
        ensures { (h : List Bool) → Gathers h self.now → MatchBool result (h ≡ []) (h ≡ [] → ⊥) }
    {
        if self.over {
            false
        } else if self.octets.is_empty() {
            self.part.len == 0
        } else {
            false
        }
    }

    /// Whether there is room for eight more bits.
    pub fn has_room(&self) -> bool
        ensures { result ≡ true → (h : List Bool) → Gathers h self.now → length h + 8 ≤ MOST_BITS }
    {
        if self.over {
            false
        } else {
            self.octets.len() < 277
        }
    }

    /// Adds a bit.
    pub fn push(&mut self, bit: bool)
        ensures { (h : List Bool) → Gathers h self.old → Gathers (bit ∷ h) self.new }
    {
        if self.octets.is_full() {
            self.over = true;
        } else if let Some(octet) = self.part.push(bit) {
            self.octets.push(octet);
        }
    }

    /// Adds up to eight bits, the low one first.
    pub fn push_few(&mut self, bits: u8, len: u8)
        requires few { len ≤ 8 }
        requires fits { bits < 2 ^ len }
        ensures { (h : List Bool) → Gathers h self.old → Gathers (reverse (low_bits len bits) ++ h) self.new }
    {
        if self.octets.len() >= 277 {
            self.push_each(bits, len);
        } else if let Some(octet) = self.part.push_few(bits, len) {
            self.octets.push(octet);
        }
    }

    /// Adds eight bits, the low one first.
    pub fn push_eight(&mut self, octet: u8)
        ensures { (h : List Bool) → Gathers h self.old → Gathers (reverse (low_bits 8 octet) ++ h) self.new }
    {
        if self.octets.len() >= 277 {
            self.push_each(octet, 8);
        } else {
            let whole = self.part.push_eight(octet);
            self.octets.push(whole);
        }
    }

    /// Replaces all bits by up to forty others, the low one first.
    pub fn refill(&mut self, bits: u64, len: u8)
        requires few { len ≤ 40 }
        requires fits { bits < 2 ^ len }
        ensures { Gathers (reverse (low_bits len bits)) self.new }
    {
        self.octets.clear();
        let mut rest = bits;
        let mut left = len;
        while left >= 8 {
            self.octets.push((rest % 256) as u8);
            rest /= 256;
            left -= 8;
        }
        self.part = Part {
            bits: (rest % 256) as u8,
            len: left,
        };
        self.over = false;
    }

    /// Adds bits one by one, the low one first.
    fn push_each(&mut self, bits: u8, len: u8)
        requires { len ≤ 8 }
        ensures { (h : List Bool) → Gathers h self.old → Gathers (reverse (low_bits len bits) ++ h) self.new }
    {
        for i in 0..len {
            self.push(bits >> i & 1 == 1);
        }
    }
}
