//! The octet that is being filled.
ghost use Rattle.std.specs.Prelude.{◌≡◌, ◌+◌, ◌*◌, ◌^◌, ◌<◌, ◌≤◌, ℕ, Bool, List, [], ◌∷◌, ◌++◌, length, reverse};
ghost use Rattle.su_octets.specs.Bits.{low_bits};
ghost use Rattle.std.specs.Option.{option_to_list};

/// Fewer than eight bits, which fill an octet from its lowest bit.
#[derive(Clone, Copy)]
pub struct Part {
    /// The bits so far, the first one lowest.
    pub bits: u8,
    /// The number of bits.
    pub len: u8,
    ghost len_fits: { len < 8 },
    ghost bits_fit: { bits < 2 ^ len },
}

/// The bits and one more bit after them.
fn with_bit(bits: u8, len: u8, bit: bool) -> u8
    requires len_fits { len < 8 }
    requires bits_fit { bits < 2 ^ len }
    ensures bits { low_bits (len + 1) result ≡ low_bits len bits ++ bit ∷ [] }
    ensures fits { result < 2 ^ (len + 1) }
{
    if bit { bits + (1 << len) } else { bits }
}

impl Part {
    ghost use Rattle.bit_line.specs.Parts.{Packed};

    /// No bits.
    pub fn new() -> Self
        ensures bits { result.bits ≡ 0 }
        ensures len { result.len ≡ 0 }
    {
        Part { bits: 0, len: 0 }
    }

    /// Adds a bit. Returns the octet if this bit completes it.
    pub fn push(&mut self, bit: bool) -> Option<u8>
        ensures packed { (octets : List ℕ) (h : List Bool) → Packed octets self.old.bits self.old.len h
            → Packed (octets ++ option_to_list result) self.new.bits self.new.len (bit ∷ h) }
        ensures len { 8 * length (option_to_list result) + self.new.len ≡ self.old.len + 1 }
    {
        let bits = with_bit(self.bits, self.len, bit);
        if self.len == 7 {
            *self = Part::new();
            Some(bits)
        } else {
            *self = Part {
                bits,
                len: self.len + 1,
            };
            None
        }
    }

    /// Adds up to eight bits, the low one first. Returns the octet if they complete it.
    pub fn push_few(&mut self, bits: u8, len: u8) -> Option<u8>
        requires few { len ≤ 8 }
        requires fits { bits < 2 ^ len }
        ensures packed { (octets : List ℕ) (h : List Bool) → Packed octets self.old.bits self.old.len h
            → Packed (octets ++ option_to_list result) self.new.bits self.new.len (reverse (low_bits len bits) ++ h) }
        ensures len { 8 * length (option_to_list result) + self.new.len ≡ self.old.len + len }
    {
        let all = u16::from(self.bits) + (u16::from(bits) << self.len);
        let count = self.len + len;
        if count < 8 {
            *self = Part {
                bits: (all % 256) as u8,
                len: count,
            };
            None
        } else {
            *self = Part {
                bits: (all / 256) as u8,
                len: count - 8,
            };
            Some((all % 256) as u8)
        }
    }

    /// Adds eight bits, the low one first. Returns the octet that they complete. As many bits as before are left.
    pub fn push_eight(&mut self, octet: u8) -> u8
        ensures packed { (octets : List ℕ) (h : List Bool) → Packed octets self.old.bits self.old.len h
            → Packed (octets ++ result ∷ []) self.new.bits self.new.len (reverse (low_bits 8 octet) ++ h) }
        ensures len { self.new.len ≡ self.old.len }
    {
        let bits = u16::from(self.bits) + (u16::from(octet) << self.len);
        *self = Part {
            bits: (bits / 256) as u8,
            len: self.len,
        };
        (bits % 256) as u8
    }
}
